ghost use Rattle.std.specs.Prelude.{◌≡◌};

use ocm_types::{Need, Perms, Rights};

/// What is answered to one who wants to use a share.
#[derive(Clone, Copy)]
pub enum Access {
    /// The share is live, and what is needed is permitted.
    Granted,
    /// The share is not live.
    Closed,
    /// The share is live, and what is needed is not permitted.
    Denied,
}

/// What the guest of a share is told once permissions have changed.
#[derive(Clone, Copy)]
pub struct Change {
    /// The number of the share.
    pub id: u32,
    /// What its guest may do now.
    pub perms: Perms,
}

impl Access {
    ghost use Rattle.ocm_chain.specs.Lists.{access_by};

    /// By whether the share is live and what it lets its guest do.
    pub(crate) fn of(live: bool, rights: Rights, need: Need) -> Access
        ensures { result ≡ access_by live rights need }
    {
        if !live {
            Access::Closed
        } else if rights.has(need) {
            Access::Granted
        } else {
            Access::Denied
        }
    }
}
