ghost use Rattle.std.specs.Prelude.{◌≡◌, IfOk, option_copied};
ghost use Rattle.ocm_rules.specs.Numbers.{at_number};

use ocm_base::NoMemory;
use ocm_types::{Offer, Phase, ProviderId, Secret};

/// A received offer, with how far it has come. Records are numbered from 1.
pub struct Record {
    pub offer: Offer,
    pub phase: Phase,
}

impl Drop for Record {
    fn drop(self) {
        let Record { offer: _, phase: _ } = self;
    }
}

/// What a notification names received offers by: those with this id and this secret.
#[derive(PartialEq, Eq, Hash)]
pub struct Mark {
    /// The owner's mark of the share: `providerId` (Open Cloud Mesh API 1.1).
    pub id: ProviderId,
    /// What the recipient shows to reach the share: `sharedSecret`.
    pub secret: Secret,
}

impl Drop for Mark {
    fn drop(self) {
        let Mark { id: _, secret: _ } = self;
    }
}

impl Mark {
    /// The mark of this id and this secret.
    pub fn of(id: &ProviderId, secret: &Secret) -> Result<Mark, NoMemory>
        ensures { IfOk result (λ mark. mark ≡ record { id = id.now; secret = secret.now }) }
    {
        let id = id.copy()?;
        let secret = secret.copy()?;
        Ok(Mark { id, secret })
    }
}
