//! Whether a reply is whole, as soon as its bytes show it. The reader of messages goes over the same bytes with the same
//! functions of `ocm_http_heads`. A wrong answer would cost time and no meaning: a reply that is taken too early is cut to the
//! reader, and one that is awaited for too long ends with the peer's bytes or with its time.

use crate::interims::interim_at;
use ocm_base::NoMemory;
use ocm_http_heads::{
    ChunkLine, Found, Head, Length, Look as Search, blanks, length_of_reply, read_chunk_line,
    read_reply,
};
use ocm_limits::{MOST_HEAD_BYTES, MOST_REPLY_BYTES};
use std::alloc::Global;

/// How many bytes a chunk line has at most, its CR LF among them.
const MOST_LINE: usize = 256;

/// What comes next in a reply.
#[derive(Clone, Copy)]
enum Part {
    /// Its head, or the rest of it.
    Head(Search),
    /// The line ahead of a chunk (RFC 9112 section 7.1).
    Chunk,
    /// The CR LF behind a chunk's data.
    Break,
    /// The lines behind the last chunk, or the rest of them (RFC 9112 section 7.1.2).
    Trailers(Search),
    /// A body that ends with the peer's bytes.
    ToEnd,
    /// Nothing: it ends there.
    End,
    /// Nothing: what came before is refused, whatever follows.
    Fault,
}

/// How far a reply was looked at, of which more bytes may come.
#[derive(Clone, Copy)]
pub struct ReplyLook {
    part: Part,
    /// Where that part begins, which may lie behind the bytes that are here.
    place: usize,
    /// Where the reply begins, behind interim replies.
    front: usize,
}

/// How the end of the body is known behind the head at the front. None where no whole head is there, or the reply is
/// refused, whatever its body is.
fn length_at(alloc: Global, bytes: &[u8]) -> Result<Option<Length>, NoMemory> {
    let mut search = Search::of_head();
    let Found::Whole(len) = search.look(bytes) else {
        return Ok(None);
    };
    let head = &bytes[..len];
    let text = &head[blanks(head)..];
    match read_reply(alloc, text)? {
        Some(Head::Reply { status, fields }) => {
            Ok(length_of_reply(MOST_REPLY_BYTES, status, fields.as_slice()).ok())
        }
        Some(Head::Request { .. }) | None => Ok(None),
    }
}

impl ReplyLook {
    /// A reply of which nothing was looked at.
    pub fn new() -> ReplyLook {
        ReplyLook {
            part: Part::Head(Search::of_head()),
            place: 0,
            front: 0,
        }
    }

    /// Whether a reply is whole, or has a fault so far. The bytes that were looked at before are the front of these. Where
    /// there is no memory to read its head it counts as whole too: the reader has an answer to that.
    pub fn is_whole(&mut self, alloc: Global, bytes: &[u8]) -> bool {
        for _ in 0..=bytes.len() {
            if !self.step(alloc, bytes) {
                break;
            }
        }
        match self.part {
            Part::End => self.place <= bytes.len(),
            Part::Fault => true,
            _ => false,
        }
    }

    /// Passes over the next part. Answers whether it was all here, so that there may be another.
    fn step(&mut self, alloc: Global, bytes: &[u8]) -> bool {
        let rest = bytes.get(self.place..).unwrap_or_default();
        match self.part {
            Part::Head(search) => self.pass_head(alloc, search, bytes, rest),
            Part::Chunk => self.pass_chunk(rest),
            Part::Break => self.pass_break(rest),
            Part::Trailers(search) => self.pass_trailers(search, rest),
            Part::ToEnd | Part::End | Part::Fault => false,
        }
    }

    /// Goes on to a part behind so many bytes.
    fn go(&mut self, count: usize, part: Part) {
        self.place = self.place.saturating_add(count);
        self.part = part;
    }

    /// Passes over the head, of which the rest begins these bytes.
    fn pass_head(&mut self, alloc: Global, mut search: Search, bytes: &[u8], rest: &[u8]) -> bool {
        match search.look(rest) {
            Found::Unfinished => {
                self.go(rest.len(), Part::Head(search));
                return false;
            }
            Found::TooLong(_) => self.part = Part::Fault,
            Found::Whole(len) => self.end_head(alloc, len, bytes),
        }
        true
    }

    /// Ends the head, of whose rest there are so many bytes. Another one follows an interim reply. Else it passes over a body
    /// that has a length.
    fn end_head(&mut self, alloc: Global, len: usize, bytes: &[u8]) {
        let reply = bytes.get(self.front..).unwrap_or_default();
        if interim_at(reply).is_some() {
            self.pass_interim(len);
            return;
        }
        match length_at(alloc, reply) {
            Ok(Some(Length::Sized(size))) => self.go(len.saturating_add(size as usize), Part::End),
            Ok(Some(Length::Chunked)) => self.go(len, Part::Chunk),
            Ok(Some(Length::ToEnd)) => self.part = Part::ToEnd,
            Ok(None) | Err(_) => self.part = Part::Fault,
        }
    }

    /// Passes over an interim reply, of whose head's rest there are so many bytes. All of them together have no more bytes than
    /// a head.
    fn pass_interim(&mut self, len: usize) {
        self.go(len, Part::Head(Search::of_head()));
        self.front = self.place;
        if self.front > MOST_HEAD_BYTES {
            self.part = Part::Fault;
        }
    }

    /// Passes over the chunk whose line these bytes begin with, where that is here. The last chunk has no data.
    fn pass_chunk(&mut self, rest: &[u8]) -> bool {
        match read_chunk_line(rest.get(..MOST_LINE).unwrap_or(rest)) {
            ChunkLine::Unfinished if rest.len() <= MOST_LINE => return false,
            ChunkLine::Unfinished | ChunkLine::Refused => self.part = Part::Fault,
            ChunkLine::Line(len, 0) => self.go(len, Part::Trailers(Search::of_trailers())),
            ChunkLine::Line(len, size) => self.pass_data(len, size),
        }
        true
    }

    /// Passes over a chunk line of so many bytes, and over the data that it tells.
    fn pass_data(&mut self, len: usize, size: u64) {
        if size > MOST_REPLY_BYTES {
            self.part = Part::Fault;
        } else {
            self.go(len.saturating_add(size as usize), Part::Break);
        }
    }

    /// Passes over the CR LF that these bytes begin with, where it is here.
    fn pass_break(&mut self, rest: &[u8]) -> bool {
        match rest {
            [] | [b'\r'] => return false,
            [b'\r', b'\n', ..] => self.go(2, Part::Chunk),
            _ => self.part = Part::Fault,
        }
        true
    }

    /// Passes over the trailers, of which the rest begins these bytes.
    fn pass_trailers(&mut self, mut search: Search, rest: &[u8]) -> bool {
        match search.look(rest) {
            Found::Unfinished => {
                self.go(rest.len(), Part::Trailers(search));
                return false;
            }
            Found::TooLong(_) => self.part = Part::Fault,
            Found::Whole(len) => self.go(len, Part::End),
        }
        true
    }
}
