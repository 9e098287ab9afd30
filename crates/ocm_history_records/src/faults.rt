use ocm_base::NoMemory;

/// Why the records of a lean list were not made.
#[derive(Clone, Copy, Debug, PartialEq, Eq)]
pub enum RecordFault {
    /// A record has more bytes than a journal takes.
    TooLong,
    /// There was no memory.
    NoMemory,
}

impl From<NoMemory> for RecordFault {
    ghost use Rattle.std.specs.Prelude.{◌≡◌};
    ghost use Rattle.ocm_history_records.specs.declared.faults.RecordFault.TheVariants.{NoMemory};

    ghost from_gives = { λ _ fault. fault ≡ NoMemory };

    fn from(_error: NoMemory) -> RecordFault {
        RecordFault::NoMemory
    }
}

/// Why the memory of a server does not go on by the records of a journal.
#[derive(Clone, Copy, Debug, PartialEq, Eq)]
pub enum ReplayFault {
    /// A record says nothing or would change nothing where it stands: the place of its gate.
    Refused(u64),
    /// There was no memory.
    NoMemory,
}

impl From<NoMemory> for ReplayFault {
    ghost use Rattle.std.specs.Prelude.{◌≡◌};
    ghost use Rattle.ocm_history_records.specs.declared.faults.ReplayFault.TheVariants.{NoMemory};

    ghost from_gives = { λ _ fault. fault ≡ NoMemory };

    fn from(_error: NoMemory) -> ReplayFault {
        ReplayFault::NoMemory
    }
}
