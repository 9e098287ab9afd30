use ocm_base::NoMemory;

/// Why a log was not found to be true.
#[derive(Clone, Copy, Debug, PartialEq, Eq)]
pub enum LogFault {
    /// The image is no journal: the place that an audit tells, or the place of the gate of the first record whose ask would
    /// change nothing.
    NotJournal(u64),
    /// The line of this number, counted from 1, is the first that has not the form of a line or whose place or moment
    /// is below that of the line before.
    BadLine(u64),
    /// The line of this number, counted from 1, is the first that is false.
    False(u64),
    /// There was no memory.
    NoMemory,
}

impl From<NoMemory> for LogFault {
    ghost use Rattle.std.specs.Prelude.{◌≡◌};
    ghost use Rattle.ocm_logcheck.specs.declared.faults.LogFault.TheVariants.{NoMemory};

    ghost from_gives = { λ _ fault. fault ≡ NoMemory };

    fn from(_error: NoMemory) -> LogFault {
        LogFault::NoMemory
    }
}
