use ocm_base::{Failed, NoMemory};

/// How a command ended whose text is whole.
#[derive(Clone, Copy, Debug, PartialEq, Eq)]
pub enum End {
    /// It was done: status 0.
    Done,
    /// A line of the script or of the log is bad, or what is to be read is not there: status 2.
    Script,
    /// The bytes are no journal: status 7.
    NotJournal,
    /// The bytes are no such record: status 8.
    Record,
    /// A line of the log is false: status 17.
    False,
    /// The least form of a journal does not answer alike: status 18.
    Differs,
}

/// Why a command was not done.
#[derive(Clone, Copy, Debug, PartialEq, Eq)]
pub enum Fault {
    /// The source failed: status 3.
    ReadFault,
    /// The sink failed: status 4.
    WriteFault,
    /// There was no memory: status 5.
    NoMemory,
    /// The input has too many bytes or too many lines: status 9.
    TooLong,
}

impl From<NoMemory> for Fault {
    ghost use Rattle.std.specs.Prelude.{◌≡◌};
    ghost use Rattle.ocm_commands_files.specs.declared.ends.Fault.TheVariants.{NoMemory};

    ghost from_gives = { λ _ e. e ≡ NoMemory };

    fn from(_e: NoMemory) -> Fault {
        Fault::NoMemory
    }
}

impl From<Failed> for Fault {
    ghost use Rattle.std.specs.Prelude.{◌≡◌};
    ghost use Rattle.ocm_commands_files.specs.declared.ends.Fault.TheVariants.{WriteFault};

    ghost from_gives = { λ _ e. e ≡ WriteFault };

    fn from(_e: Failed) -> Fault {
        Fault::WriteFault
    }
}
