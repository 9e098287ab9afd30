ghost use Rattle.std.specs.Prelude.{◌≡◌, IfOk};

use ocm_base::NoMemory;
use ocm_entry::Share;
use ocm_types::{Secret, SenderId};
use std::marker::Model;

/// A share that can be made without memory: the share, and once more what it is found by. Contracts
/// see the share.
pub struct PlannedShare {
    share: Share,
    secret: Secret,
    sender_id: Option<SenderId>,
}

impl Drop for PlannedShare {
    fn drop(self) {
        let PlannedShare {
            share: _,
            secret: _,
            sender_id: _,
        } = self;
    }
}

impl Model for PlannedShare {
    ghost use Rattle.std.specs.Prelude.{◌≡◌};
    ghost use Rattle.ocm_entry.specs.declared.rows.Share.{Share};

    ghost Value = { Share };

    ghost view = { λ planned. planned.share };

    ghost invariant = { λ planned. (planned.secret ≡ planned.share.secret) × (planned.sender_id ≡ planned.share.sender_id) };
}

impl PlannedShare {
    /// The share, with the secret and the sender's mark that it is found by.
    pub(crate) fn parts(self) -> (Share, Secret, Option<SenderId>)
        ensures share { result.0 ≡ self }
        ensures secret { result.1 ≡ self.secret }
        ensures sender_id { result.2 ≡ self.sender_id }
    {
        let PlannedShare {
            share,
            secret,
            sender_id,
        } = self;
        (share, secret, sender_id)
    }
}

/// A copy of a sender's mark, where there is one.
fn copy_of(sender_id: &Option<SenderId>) -> Result<Option<SenderId>, NoMemory>
    ensures { IfOk result (λ copy. copy ≡ sender_id.now) }
{
    match sender_id {
        Some(id) => Ok(Some(id.copy()?)),
        None => Ok(None),
    }
}

/// A share, to be made.
pub fn plan_share(share: Share) -> Result<PlannedShare, NoMemory>
    ensures { IfOk result (λ planned. planned ≡ share) }
{
    let secret = share.secret.copy()?;
    let sender_id = copy_of(&share.sender_id)?;
    Ok(PlannedShare {
        share,
        secret,
        sender_id,
    })
}
