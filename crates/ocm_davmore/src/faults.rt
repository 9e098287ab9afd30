use ocm_base::NoMemory;
use ocm_path::PathFault;

/// Why a destination names no path of this server.
#[derive(Clone, Copy, Debug, PartialEq, Eq)]
pub enum DestinationFault {
    /// It is no text, or names another server, or something else than `/dav` and what is below it.
    OtherServer,
    /// What follows `/dav` is no path, for this reason, which is never want of memory.
    BadPath(PathFault),
    /// There was no memory. The destination may be sound.
    NoMemory,
}

impl From<NoMemory> for DestinationFault {
    ghost use Rattle.std.specs.Prelude.{◌≡◌};
    ghost use Rattle.ocm_davmore.specs.declared.faults.DestinationFault.TheVariants.{NoMemory};

    ghost from_gives = { λ _ fault. fault ≡ NoMemory };

    fn from(_failure: NoMemory) -> DestinationFault {
        DestinationFault::NoMemory
    }
}
