use ocm_base::NoMemory;
use std::fmt;

/// Why bytes were not read as a log.
#[derive(Clone, Copy, Debug, PartialEq, Eq)]
pub enum LogReadFault {
    /// The line of this number, counted from 1, is the first that has not the form of a line, or whose place or moment
    /// is below that of the line before.
    BadLine(u64),
    /// There was no memory.
    NoMemory,
}

impl fmt::Display for LogReadFault {
    fn fmt<W: fmt::Write>(&self, f: &mut fmt::Formatter<W>) -> fmt::Result {
        match self {
            LogReadFault::BadLine(number) => write!(f, "bad line {number}"),
            LogReadFault::NoMemory => f.write_str("there is no memory"),
        }
    }
}

impl From<NoMemory> for LogReadFault {
    ghost use Rattle.std.specs.Prelude.{◌≡◌};
    ghost use Rattle.ocm_access_log.specs.declared.faults.LogReadFault.TheVariants.{NoMemory};

    ghost from_gives = { λ _ fault. fault ≡ NoMemory };

    fn from(_error: NoMemory) -> LogReadFault {
        LogReadFault::NoMemory
    }
}

/// Why bytes are no line of a log.
#[derive(Clone, Copy, Debug, PartialEq, Eq)]
pub enum LineFault {
    /// They have not the form of a line.
    Bad,
    /// There was no memory.
    NoMemory,
}

impl From<NoMemory> for LineFault {
    ghost use Rattle.std.specs.Prelude.{◌≡◌};
    ghost use Rattle.ocm_access_log.specs.declared.faults.LineFault.TheVariants.{NoMemory};

    ghost from_gives = { λ _ fault. fault ≡ NoMemory };

    fn from(_error: NoMemory) -> LineFault {
        LineFault::NoMemory
    }
}
