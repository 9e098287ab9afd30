ghost use Rattle.std.specs.Prelude.{◌≡◌, IfOk};

use ocm_base::{Bytes, NoMemory, and};
use ocm_http_heads::Head;

/// Which messages a stream has.
#[derive(Clone, Copy)]
pub enum Kind {
    /// What clients send.
    Requests,
    /// What servers send.
    Replies,
}

/// A message: its head and its body, without chunks (RFC 9112 section 2.1).
#[derive(Drop)]
pub struct Message {
    pub head: Head,
    pub body: Bytes,
}

/// The same message, whose body its copies share.
pub(crate) fn sharing(message: Message) -> Result<Message, NoMemory>
    ensures { IfOk result (λ m. m ≡ message) }
{
    let Message { head, body } = message;
    let (head, body) = and(head, body.shared())?;
    Ok(Message { head, body })
}

/// Why a stream is refused. A place is the number of bytes of the stream before it, and ends at 2^64 - 1. The place
/// of a fault of a head is that of its first byte that is neither CR nor LF, or of its first byte where there is
/// none.
#[derive(Clone, Copy, Debug, PartialEq, Eq)]
pub enum FrameFault {
    /// The head that begins here isn't one of HTTP/1.0 or HTTP/1.1, or is of a reply with a status from 100 to 199.
    BadHead(u64),
    /// The head that begins here has more than 16,384 bytes or 66 lines.
    HeadTooLong(u64),
    /// The head that begins here has a transfer coding that isn't `chunked` alone, or a length that isn't 1 to 19
    /// digits, or two lengths that differ.
    BadLength(u64),
    /// The head that begins here has a transfer coding and a length.
    BothLengths(u64),
    /// Here stands no chunk line of at most 256 bytes, or no CR LF after a chunk's data, or the first byte of more
    /// than 8,192 bytes of trailers.
    BadChunk(u64),
    /// The body would pass the limit, by the head or the chunk line that begins here.
    BodyTooLong(u64),
    /// The input ended inside a message.
    Cut,
    /// The source failed, and its count of faults rose.
    ReadFault,
    /// There was no memory for the message.
    NoMemory,
}

impl From<NoMemory> for FrameFault {
    ghost use Rattle.std.specs.Prelude.{◌≡◌};
    ghost use Rattle.ocm_http.specs.declared.messages.FrameFault.TheVariants.{NoMemory};

    ghost from_gives = { λ _ fault. fault ≡ NoMemory };

    fn from(_failure: NoMemory) -> FrameFault {
        FrameFault::NoMemory
    }
}
