ghost use Rattle.std.specs.Prelude.{◌≡◌, ◌<◌, [], length, IfOk, IfErr};
ghost use Rattle.ocm_http_heads.specs.Endings.{of_head};
ghost use Rattle.ocm_http.specs.Places as places;
ghost use Rattle.ocm_http.specs.Messages.{more_of};
ghost use Rattle.ocm_http.specs.Stages.{Stands, Feeds, Faults};

use crate::bodies::{feed_sized, feed_to_end};
use crate::chunks::{feed_break, feed_data, feed_line, feed_trailers};
use crate::heads::feed_head;
use crate::messages::{FrameFault, Kind, Message};
use ocm_base::{Bytes, NoMemory};
use ocm_http_heads::Look;
use std::alloc::Global;

/// How a message is read: its kind, how many bytes its body has at most, and the place of its first byte.
#[derive(Clone, Copy)]
pub(crate) struct Rules {
    pub(crate) kind: Kind,
    pub(crate) max: u64,
    pub(crate) place: u64,
}

/// Where the reading of a message stands.
#[derive(Drop)]
pub(crate) enum Stage {
    /// In its head, of which this came so far.
    Head {
        text: Bytes,
        look: Look,
    },
    /// In a body of which so many bytes are wanted.
    Sized {
        message: Message,
        wanted: u64,
    },
    /// In a body that ends with the input; the head's place.
    ToEnd {
        message: Message,
        first: u64,
    },
    /// In a chunk line that begins at a place, of which this came so far.
    Line {
        message: Message,
        place: u64,
        line: Bytes,
    },
    /// In a chunk's data, of which so many bytes are wanted; the place of the next.
    Data {
        message: Message,
        place: u64,
        wanted: u64,
    },
    /// After a chunk's data, which ends at a place; whether the CR came.
    Break {
        message: Message,
        place: u64,
        returned: bool,
    },
    /// In the trailers, which begin at a place.
    Trailers {
        message: Message,
        place: u64,
        look: Look,
    },
}

/// What a piece came to: a stage or a whole message, and how many bytes of the piece were taken.
#[derive(Drop)]
pub(crate) enum Fed {
    More(Stage, usize),
    Whole(Message, usize),
}

/// What a whole head came to: a body that begins, or a message without one.
#[derive(Drop)]
pub(crate) enum Begun {
    On(Stage),
    All(Message),
}

/// Before the first byte of a message.
pub(crate) fn start(alloc: Global) -> Stage
    ensures { result ≡ Stage.Head [] of_head }
{
    Stage::Head {
        text: Bytes::new(alloc),
        look: Look::of_head(),
    }
}

/// The place so many bytes past another.
pub(crate) fn past(place: u64, n: usize) -> u64
    ensures { result ≡ places.past place n }
{
    place.saturating_add(n as u64)
}

/// The message with more of its body.
pub(crate) fn with_more(mut message: Message, bytes: &[u8]) -> Result<Message, NoMemory>
    ensures { IfOk result (λ m. m ≡ more_of message bytes.now) }
{
    message.body.add(bytes)?;
    Ok(message)
}

/// Reads on in the next bytes.
pub(crate) fn feed(
    alloc: Global,
    rules: Rules,
    stage: Stage,
    piece: &[u8],
) -> Result<Fed, FrameFault>
    requires some { 0 < length piece.now }
    requires stands { Stands rules stage }
    ensures fed { IfOk result (Feeds rules stage piece.now) }
    ensures fault { IfErr result (Faults rules stage piece.now) }
{
    match stage {
        Stage::Head { text, look } => feed_head(alloc, rules, text, look, piece),
        Stage::Sized { message, wanted } => feed_sized(rules, message, wanted, piece),
        Stage::ToEnd { message, first } => feed_to_end(rules, message, first, piece),
        Stage::Line {
            message,
            place,
            line,
        } => feed_line(rules, message, place, line, piece),
        Stage::Data {
            message,
            place,
            wanted,
        } => feed_data(rules, message, place, wanted, piece),
        Stage::Break {
            message,
            place,
            returned,
        } => feed_break(alloc, rules, message, place, returned, piece),
        Stage::Trailers {
            message,
            place,
            look,
        } => feed_trailers(rules, message, place, look, piece),
    }
}
