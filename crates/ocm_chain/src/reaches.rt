ghost use Rattle.std.specs.Prelude.{◌≡◌};

use ocm_rules::ShareRow;
use ocm_types::Rights;

/// What is left of a share by itself and all those above it.
#[derive(Clone, Copy)]
pub struct Reach {
    /// Whether neither the share nor one above it was closed.
    pub live: bool,
    /// What it lets its guest do: its own permissions, cut down to those of each share above it.
    pub effective: Rights,
    /// The earliest end that was set for it or one above it.
    pub end: Option<u64>,
}

/// A share with what became of it, and what is left of it.
#[derive(Drop)]
pub struct Row {
    /// The share, and what was done to it itself.
    pub own: ShareRow,
    /// What is left of it by itself and all those above it.
    pub reach: Reach,
    /// Whether a share was made directly below it.
    pub is_parent: bool,
}

impl Reach {
    ghost use Rattle.ocm_chain.specs.Reaches.{least, whole, reach_of, reach_goes_on};

    // The earlier of two ends, where there are any.
    fn least(a: Option<u64>, b: Option<u64>) -> Option<u64>
        ensures { result ≡ least a b }
    {
        match (a, b) {
            (Some(a), Some(b)) => Some(a.min(b)),
            (Some(a), None) => Some(a),
            (None, b) => b,
        }
    }

    /// Above a share that the owner made.
    pub(crate) fn whole() -> Reach
        ensures { result ≡ whole }
    {
        Reach {
            live: true,
            effective: Rights::ALL,
            end: None,
        }
    }

    /// Below what this leaves, of a share with these values of its own.
    pub(crate) fn of(closed: bool, perms: Rights, end: Option<u64>, above: Reach) -> Reach
        ensures { result ≡ reach_of closed perms end above }
    {
        Reach {
            live: !closed && above.live,
            effective: perms.both(above.effective),
            end: Reach::least(end, above.end),
        }
    }

    /// Whether it goes on at this moment: nothing was closed, and no end has come.
    pub fn goes_on(&self, moment: u64) -> bool
        ensures { result ≡ reach_goes_on moment self.now }
    {
        let over = match self.end {
            Some(end) => end <= moment,
            None => false,
        };
        self.live && !over
    }
}
