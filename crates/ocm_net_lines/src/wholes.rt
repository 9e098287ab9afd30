//! Where a request ends, or that it has a fault, as soon as its bytes show it. Its head is read here, and handed on to the
//! reader of messages, which goes over the bytes behind it with the same functions of `ocm_http_heads`, so that it answers at
//! once to what is handed over. A wrong answer would cost time and no meaning: of a request that was handed over too early
//! the rest is read by waiting, and one that is held for too long is dropped.
ghost use Rattle.std.specs.Prelude.{◌≡◌, ◌≤◌, IfSome, false, length};

use crate::bodies::{Announced, Beginning, body_announced};
use ocm_http::{Head, ReadHead};
use ocm_http_heads::{ChunkLine, Found, Length, Look as Search, read_chunk_line};
use ocm_limits::MOST_BODY_BYTES;
use std::alloc::Global;

/// How many bytes a chunk line has at most, its CR LF among them.
const MOST_LINE: usize = 256;

/// About how many bytes of memory each field of a head takes beside its own.
const FIELD: usize = 128;

/// About how many bytes of memory a head takes.
fn memory_of(head: &ReadHead) -> usize {
    let fields = match head.head() {
        Head::Request { fields, .. } | Head::Reply { fields, .. } => fields.len(),
    };
    head.size().saturating_add(fields.saturating_mul(FIELD))
}

/// What comes next in a request.
#[derive(Clone, Copy)]
enum Part {
    /// Its head, with the CR and LF before it (RFC 9112 section 2.2). Nothing of it was looked at.
    Start,
    /// The rest of its head.
    Head(Search),
    /// The line ahead of a chunk (RFC 9112 section 7.1).
    Chunk,
    /// The CR LF behind a chunk's data.
    Break,
    /// The lines behind the last chunk, or the rest of them (RFC 9112 section 7.1.2).
    Trailers(Search),
    /// Nothing: it ends there.
    End,
    /// Nothing: what came before is refused, whatever follows.
    Fault,
}

/// How far a request was looked at, of which more bytes may come.
pub struct RequestLook {
    part: Part,
    /// The head, once it was read, until it is taken.
    head: Option<ReadHead>,
    /// Where that part begins, which may lie behind the bytes that are here.
    place: usize,
    /// How many bytes of the body the chunks so far have.
    body: u64,
    /// Whether the client waits to be told to send the body, and was not told.
    is_awaited: bool,
}

impl Drop for RequestLook {
    fn drop(self) {
        let RequestLook {
            part: _,
            head: _,
            place: _,
            body: _,
            is_awaited: _,
        } = self;
    }
}

impl RequestLook {
    /// A request of which nothing was looked at.
    pub fn new() -> RequestLook {
        RequestLook {
            part: Part::Start,
            head: None,
            place: 0,
            body: 0,
            is_awaited: false,
        }
    }

    /// Whether the client waits to be told to send the body, which it is then: the answer is true once for a request.
    pub fn take_awaited(&mut self) -> bool
        ensures told { result ≡ self.old.is_awaited }
        ensures once { self.new.is_awaited ≡ false }
    {
        let is_awaited = self.is_awaited;
        self.is_awaited = false;
        is_awaited
    }

    /// Takes the head that was read, where it wasn't taken.
    pub fn take_head(&mut self) -> Option<ReadHead> {
        self.head.take()
    }

    /// About how many bytes of memory the head takes that is kept here.
    pub fn kept(&self) -> usize {
        match &self.head {
            Some(head) => memory_of(head),
            None => 0,
        }
    }

    /// How many bytes the first request has, where it is whole, or all of these, where it has a fault so far. Those that
    /// were looked at before are the front of these. A head is read when it is whole. Where it came in pieces, its bytes were
    /// looked at before, and are looked at once more. Each other byte is looked at once, those of a chunk line that isn't whole
    /// aside. Where there is no memory to read a head, all of these are handed over too: the reader has an answer to that.
    pub fn message_end(&mut self, alloc: Global, bytes: &[u8]) -> Option<usize>
        ensures { IfSome result (λ n. n ≤ length bytes.now) }
    {
        for _ in 0..=bytes.len() {
            if !self.step(alloc, bytes) {
                break;
            }
        }
        match self.part {
            Part::End if self.place <= bytes.len() => Some(self.place),
            Part::Fault => Some(bytes.len()),
            _ => None,
        }
    }

    /// Passes over the next part. Answers whether it was all here, so that there may be another.
    fn step(&mut self, alloc: Global, bytes: &[u8]) -> bool {
        let rest = bytes.get(self.place..).unwrap_or_default();
        match self.part {
            Part::Start => !bytes.is_empty() && self.read_head(alloc, bytes),
            Part::Head(search) => self.pass_head(alloc, search, bytes, rest),
            Part::Chunk => self.pass_chunk(rest),
            Part::Break => self.pass_break(rest),
            Part::Trailers(search) => self.pass_trailers(search, rest),
            Part::End | Part::Fault => false,
        }
    }

    /// Goes on to a part behind so many bytes.
    fn go(&mut self, count: usize, part: Part) {
        self.place = self.place.saturating_add(count);
        self.part = part;
    }

    /// Passes over the head, of which the rest begins these bytes.
    fn pass_head(&mut self, alloc: Global, mut search: Search, bytes: &[u8], rest: &[u8]) -> bool {
        match search.look(rest) {
            Found::Unfinished => {
                self.go(rest.len(), Part::Head(search));
                false
            }
            Found::TooLong(_) => {
                self.part = Part::Fault;
                true
            }
            Found::Whole(_) => self.read_head(alloc, bytes),
        }
    }

    /// Reads the head at the front of all bytes, and passes over it. Answers whether it was all here.
    fn read_head(&mut self, alloc: Global, bytes: &[u8]) -> bool {
        match body_announced(alloc, bytes) {
            Ok(Beginning::Whole(head, announced)) => {
                self.place = head.size();
                self.head = Some(head);
                self.pass_body(announced);
            }
            Ok(Beginning::Unfinished(search)) => {
                self.place = bytes.len();
                self.part = Part::Head(search);
                return false;
            }
            Ok(Beginning::Refused) | Err(_) => self.part = Part::Fault,
        }
        true
    }

    /// Passes over a body that doesn't come in chunks.
    fn pass_body(&mut self, announced: Announced) {
        self.is_awaited = announced.is_awaited;
        match announced.length {
            Length::Sized(size) => self.go(size as usize, Part::End),
            Length::Chunked => self.part = Part::Chunk,
            Length::ToEnd => self.part = Part::Fault,
        }
    }

    /// Passes over the chunk whose line these bytes begin with, where that is here. The last chunk has no data.
    fn pass_chunk(&mut self, rest: &[u8]) -> bool {
        match read_chunk_line(rest.get(..MOST_LINE).unwrap_or(rest)) {
            ChunkLine::Unfinished if rest.len() <= MOST_LINE => return false,
            ChunkLine::Unfinished | ChunkLine::Refused => self.part = Part::Fault,
            ChunkLine::Line(len, 0) => self.go(len, Part::Trailers(Search::of_trailers())),
            ChunkLine::Line(len, size) => self.pass_data(len, size),
        }
        true
    }

    /// Passes over a chunk line of so many bytes, and over the data that it tells.
    fn pass_data(&mut self, len: usize, size: u64) {
        self.body = self.body.saturating_add(size);
        if self.body > MOST_BODY_BYTES {
            self.part = Part::Fault;
        } else {
            self.go(len.saturating_add(size as usize), Part::Break);
        }
    }

    /// Passes over the CR LF that these bytes begin with, where it is here.
    fn pass_break(&mut self, rest: &[u8]) -> bool {
        match rest {
            [] | [b'\r'] => return false,
            [b'\r', b'\n', ..] => self.go(2, Part::Chunk),
            _ => self.part = Part::Fault,
        }
        true
    }

    /// Passes over the trailers, of which the rest begins these bytes.
    fn pass_trailers(&mut self, mut search: Search, rest: &[u8]) -> bool {
        match search.look(rest) {
            Found::Unfinished => {
                self.go(rest.len(), Part::Trailers(search));
                return false;
            }
            Found::TooLong(_) => self.part = Part::Fault,
            Found::Whole(len) => self.go(len, Part::End),
        }
        true
    }
}
