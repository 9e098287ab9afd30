/// How the service of a connection ended.
#[derive(Clone, Copy, Debug, PartialEq, Eq)]
pub enum Ended {
    /// The input ended between two messages, or the connection rests there, or a closing message had its reply.
    Closed,
    /// The input ended inside a message.
    Cut,
    /// The bytes at this place are refused; the fixed 400 was written.
    Bad(u64),
    /// 1,000 messages were answered.
    Quota,
    /// Reading failed.
    ReadFault,
    /// Writing failed: a front of the last piece was taken.
    WriteFault,
    /// The turnstile's limit is reached.
    Spent,
    /// There was no memory; the fixed 500 was tried.
    NoMemory,
}

/// Why a message has no page.
#[derive(Clone, Copy)]
pub enum Missed {
    /// The turnstile's limit is reached.
    Spent,
    /// There was no memory.
    NoMemory,
}
