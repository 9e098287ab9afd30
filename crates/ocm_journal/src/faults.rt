use ocm_base::{Bytes, NoMemory};
use ocm_journal_image::ImageFault;

/// Why a disk was not opened.
#[derive(Debug, Drop, PartialEq, Eq)]
pub enum OpenFault {
    /// It holds no journal: the place of the first byte that can't stand in one, or at which bytes are wanting.
    NotJournal(u64),
    /// It holds a journal with this label.
    OtherLabel(Bytes),
    /// The disk failed. Its count of faults is now this.
    DiskFault(u64),
    /// There was no memory to read it.
    NoMemory,
}

impl From<NoMemory> for OpenFault {
    ghost use Rattle.std.specs.Prelude.{◌≡◌};
    ghost use Rattle.ocm_journal.specs.declared.faults.OpenFault.TheVariants.{NoMemory};

    ghost from_gives = { λ _ fault. fault ≡ NoMemory };

    fn from(_error: NoMemory) -> OpenFault {
        OpenFault::NoMemory
    }
}

impl From<ImageFault> for OpenFault {
    ghost use Rattle.std.specs.Prelude.{◌≡◌};
    ghost use Rattle.ocm_journal.specs.Openings.{as_open_fault};

    ghost from_gives = { λ error fault. fault ≡ as_open_fault error };

    fn from(error: ImageFault) -> OpenFault {
        match error {
            ImageFault::NotJournal(place) => OpenFault::NotJournal(place),
            ImageFault::NoMemory => OpenFault::NoMemory,
        }
    }
}
