use ocm_base::NoMemory;

/// Why a server was not reached, or gave no answer.
#[derive(Clone, Copy, Debug, PartialEq, Eq)]
pub enum PumpFault {
    /// The dial failed, and its count of faults rose.
    DialFault,
    /// The server has no usable discovery document at either place.
    NoDiscovery,
    /// What came back is no reply of HTTP/1.1, from this place on: 0 where no bytes came, CR and LF alone, or a cut
    /// reply. Or, with place 0, a reshare request succeeded and its reply doesn't name the share that was made.
    BadReply(u64),
    /// There was no memory. Requests may have been sent.
    NoMemory,
}

impl From<NoMemory> for PumpFault {
    ghost use Rattle.std.specs.Prelude.{◌≡◌};
    ghost use Rattle.ocm_pump.specs.declared.faults.PumpFault.TheVariants.{NoMemory};

    ghost from_gives = { λ _ fault. fault ≡ NoMemory };

    fn from(_failure: NoMemory) -> PumpFault {
        PumpFault::NoMemory
    }
}
