use ocm_base::NoMemory;
use std::alloc::AllocError;

/// Why an exchange gave no reply.
#[derive(Clone, Copy, Debug, PartialEq, Eq)]
pub enum ExchangeFault {
    /// The peer cannot be reached, is too slow, sends too much, or is not asked now; or its reply is still awaited.
    Failed,
    /// An address of the peer is none that a peer may have, and no other gave a reply.
    Refused,
    /// There was no memory.
    NoMemory,
}

impl From<AllocError> for ExchangeFault {
    fn from(_error: AllocError) -> ExchangeFault {
        ExchangeFault::NoMemory
    }
}

impl From<NoMemory> for ExchangeFault {
    fn from(_error: NoMemory) -> ExchangeFault {
        ExchangeFault::NoMemory
    }
}
