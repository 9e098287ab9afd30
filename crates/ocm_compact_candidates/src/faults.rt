use ocm_base::NoMemory;

/// Why no shorter list of records was made.
#[derive(Clone, Copy, Debug, PartialEq, Eq)]
pub enum CandidateFault {
    /// Something stands that its owner cannot make.
    NotMade,
    /// There was no memory.
    NoMemory,
}

impl From<NoMemory> for CandidateFault {
    ghost use Rattle.std.specs.Prelude.{◌≡◌};
    ghost use Rattle.ocm_compact_candidates.specs.declared.faults.CandidateFault.TheVariants.{NoMemory};

    ghost from_gives = { λ _ fault. fault ≡ NoMemory };

    fn from(_error: NoMemory) -> CandidateFault {
        CandidateFault::NoMemory
    }
}
