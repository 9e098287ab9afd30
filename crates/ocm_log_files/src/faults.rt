use std::io::{self, ErrorKind};

/// Why what stands at a path can't be the file of a log.
#[derive(Clone, Copy, Debug, PartialEq, Eq)]
pub enum LogFault {
    /// The system can't open, make or read it.
    System(ErrorKind),
    /// It is a link, a device or a pipe.
    NoFile,
    /// It is locked: it is the file of a log already.
    InUse,
    /// It has bytes, and does not begin as a log does.
    NotLog,
    /// There was no memory.
    NoMemory,
}

impl From<io::Error> for LogFault {
    fn from(error: io::Error) -> LogFault {
        match error.kind() {
            ErrorKind::WouldBlock => LogFault::InUse,
            ErrorKind::OutOfMemory => LogFault::NoMemory,
            kind => LogFault::System(kind),
        }
    }
}
