use ocm_base::{Bytes, NoMemory};
use ocm_types::Host;

/// A request that was sent to a host, and the bytes that came back. None where the dial failed.
pub struct Exchange {
    pub host: Host,
    pub request: Bytes,
    pub reply: Option<Bytes>,
}

impl Drop for Exchange {
    fn drop(self) {
        let Exchange {
            host: _,
            request: _,
            reply: _,
        } = self;
    }
}

/// What a dial was told of a delivery: the host of its message, and whether what came back settles it.
pub struct Came {
    pub host: Host,
    pub settles: bool,
}

impl Drop for Came {
    fn drop(self) {
        let Came {
            host: _,
            settles: _,
        } = self;
    }
}

/// Why no bytes came back.
#[derive(Clone, Copy, Debug, PartialEq, Eq)]
pub enum DialEnd {
    /// The dial failed, and its count of faults rose.
    Failed,
    /// There was no memory. The request may have been sent.
    NoMemory,
}

impl From<NoMemory> for DialEnd {
    ghost use Rattle.std.specs.Prelude.{◌≡◌};
    ghost use Rattle.ocm_pump.specs.declared.exchanges.DialEnd.TheVariants.{NoMemory};

    ghost from_gives = { λ _ end. end ≡ NoMemory };

    fn from(_failure: NoMemory) -> DialEnd {
        DialEnd::NoMemory
    }
}
