ghost use Rattle.std.specs.Prelude.{◌≡◌};
ghost use Rattle.ocm_commands_dav.specs.Answers.{status_of};

/// How `dav` ended.
#[derive(Clone, Copy, Debug, PartialEq, Eq)]
pub enum End {
    /// The server did it.
    Done,
    /// The words ask for nothing, and the line of the commands was written.
    Usage,
    /// The source failed, and its count of faults rose. Nobody was asked.
    ReadFault,
    /// The sink failed, and its count of faults rose.
    WriteFault,
    /// There was no memory. Requests may have been sent, and nothing was written.
    NoMemory,
    /// The bytes to be put are more than 1,048,576. Nobody was asked.
    TooLong,
    /// The dial failed, and its count of faults rose.
    DialFault,
    /// What came back to the request is no reply of HTTP/1.1.
    BadReply,
    /// The server answered the request with another status, and a line with that status was written.
    Status,
    /// The host has no usable discovery document at either place.
    NoDiscovery,
}

impl End {
    /// The status with which the program ends.
    pub fn status(self) -> u8
        ensures { result ≡ status_of self }
    {
        match self {
            End::Done => 0,
            End::Usage => 1,
            End::ReadFault => 3,
            End::WriteFault => 4,
            End::NoMemory => 5,
            End::TooLong => 9,
            End::DialFault => 13,
            End::BadReply => 14,
            End::Status => 15,
            End::NoDiscovery => 16,
        }
    }
}
