use ocm_base::Bytes;
use ocm_history::ReplayFault;
use ocm_journal::OpenFault;

/// Why a disk was not loaded.
#[derive(Debug, Drop, PartialEq, Eq)]
pub enum LoadFault {
    /// It holds no journal of a server: the place of the first byte that can't stand in one, or at which
    /// bytes are wanting, or of the gate of the first record that says nothing or would change nothing
    /// where it stands.
    NotJournal(u64),
    /// It holds the journal of the server of this host.
    OtherHost(Bytes),
    /// The disk failed. Its count of faults is now this.
    DiskFault(u64),
    /// There was no memory.
    NoMemory,
}

impl From<OpenFault> for LoadFault {
    ghost use Rattle.std.specs.Prelude.{◌≡◌};
    ghost use Rattle.ocm_store.specs.Opening.{as_load_fault};

    ghost from_gives = { λ error fault. fault ≡ as_load_fault error };

    fn from(error: OpenFault) -> LoadFault {
        match error {
            OpenFault::NotJournal(place) => LoadFault::NotJournal(place),
            OpenFault::OtherLabel(label) => LoadFault::OtherHost(label),
            OpenFault::DiskFault(count) => LoadFault::DiskFault(count),
            OpenFault::NoMemory => LoadFault::NoMemory,
        }
    }
}

impl From<ReplayFault> for LoadFault {
    ghost use Rattle.std.specs.Prelude.{◌≡◌};
    ghost use Rattle.ocm_store.specs.Opening.{of_replay};

    ghost from_gives = { λ error fault. fault ≡ of_replay error };

    fn from(error: ReplayFault) -> LoadFault {
        match error {
            ReplayFault::Refused(place) => LoadFault::NotJournal(place),
            ReplayFault::NoMemory => LoadFault::NoMemory,
        }
    }
}
