use ocm_base::NoMemory;

/// Why no journal was made in the least form.
#[derive(Clone, Copy, Debug, PartialEq, Eq)]
pub enum CompactFault {
    /// The bytes are no journal: the place that an audit tells, or the place of the gate of the first record whose ask would
    /// change nothing.
    NotJournal(u64),
    /// What the shorter list comes to differs from what the journal comes to, or cannot be written.
    Differs,
    /// There was no memory.
    NoMemory,
}

impl From<NoMemory> for CompactFault {
    ghost use Rattle.std.specs.Prelude.{◌≡◌};
    ghost use Rattle.ocm_compact.specs.declared.faults.CompactFault.TheVariants.{NoMemory};

    ghost from_gives = { λ _ fault. fault ≡ NoMemory };

    fn from(_error: NoMemory) -> CompactFault {
        CompactFault::NoMemory
    }
}
