use ocm_base::NoMemory;
use ocm_pump::PumpFault;

/// Why a server did not do what it was asked.
#[derive(Clone, Copy, Debug, PartialEq, Eq)]
pub enum ClientFault {
    /// The dial failed, and its count of faults rose.
    DialFault,
    /// The server has no usable discovery document at either place.
    NoDiscovery,
    /// What came back is no reply of HTTP/1.1, from this place on: 0 where no bytes came, CR and LF alone, or a cut
    /// reply.
    BadReply(u64),
    /// The server answered with this status (RFC 9110 section 15) in place of the one that was wanted.
    Status(u16),
    /// There was no memory. Requests may have been sent.
    NoMemory,
}

impl From<NoMemory> for ClientFault {
    ghost use Rattle.std.specs.Prelude.{◌≡◌};
    ghost use Rattle.ocm_davclient.specs.declared.faults.ClientFault.TheVariants.{NoMemory};

    ghost from_gives = { λ _ fault. fault ≡ NoMemory };

    fn from(_failure: NoMemory) -> ClientFault {
        ClientFault::NoMemory
    }
}

impl From<PumpFault> for ClientFault {
    ghost use Rattle.std.specs.Prelude.{◌≡◌};
    ghost use Rattle.ocm_davclient.specs.Client.{fault_of};

    ghost from_gives = { λ found fault. fault ≡ fault_of found };

    fn from(fault: PumpFault) -> ClientFault {
        match fault {
            PumpFault::DialFault => ClientFault::DialFault,
            PumpFault::NoDiscovery => ClientFault::NoDiscovery,
            PumpFault::BadReply(place) => ClientFault::BadReply(place),
            PumpFault::NoMemory => ClientFault::NoMemory,
        }
    }
}
