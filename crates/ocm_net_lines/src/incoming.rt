//! What comes in on a connection, ahead of who reads it.
ghost use Rattle.std.specs.Prelude.{◌≤◌, IfSome, length};

use crate::wholes::RequestLook;
use ocm_http::ReadHead;
use ocm_http_heads::blanks;
use std::alloc::Global;

/// How many bytes of a message that isn't whole are gathered at most. The longest has less, where its chunk lines have
/// only a size without zeros in front. One of which more came is refused.
const MOST_AHEAD: usize = 8_388_608;

/// For how many bytes room is kept between two messages.
const KEPT_ROOM: usize = 4_096;

/// What else may come from the peer.
#[derive(Clone, Copy)]
pub enum Peer {
    /// More bytes.
    Open,
    /// Nothing: the end came.
    Ended,
    /// Nothing that can be told: reading or writing failed.
    Broken,
}

/// The bytes that came ahead of a read.
pub struct Incoming {
    alloc: Global,
    ahead: Vec<u8>,
    /// How many of them were read.
    used: usize,
    /// Where the message at their front ends, or the bytes that show its fault; 0 where more have to come.
    whole: usize,
    /// How far they were looked at.
    look: RequestLook,
    peer: Peer,
}

impl Drop for Incoming {
    fn drop(self) {
        let Incoming {
            alloc: _,
            ahead: _,
            used: _,
            whole: _,
            look: _,
            peer: _,
        } = self;
    }
}

impl Incoming {
    /// Nothing came.
    pub fn new(alloc: Global) -> Incoming {
        Incoming {
            alloc,
            ahead: Vec::new(alloc),
            used: 0,
            whole: 0,
            look: RequestLook::new(),
            peer: Peer::Open,
        }
    }

    /// How many bytes it holds, with the memory of a head that was read.
    pub fn len(&self) -> usize {
        self.ahead.len().saturating_add(self.look.kept())
    }

    /// What else may come.
    pub fn peer(&self) -> Peer {
        self.peer
    }

    /// Whether nothing more can be read.
    pub fn has_ended(&self) -> bool {
        !matches!(self.peer, Peer::Open)
    }

    /// Notes what else may come.
    pub fn end(&mut self, peer: Peer) {
        self.peer = peer;
    }

    /// Whether some bytes of a message are here.
    pub fn has_begun(&self) -> bool {
        has_begun(&self.ahead)
    }

    /// Whether these bytes would be the first of a message.
    pub fn begins_with(&self, piece: &[u8]) -> bool {
        !self.has_begun() && has_begun(piece)
    }

    /// Whether a message, or what shows its fault, is here to read.
    pub fn is_at_hand(&self) -> bool {
        self.used < self.whole
    }

    /// Whether too much came of a message that isn't whole.
    pub fn is_too_long(&self) -> bool {
        self.ahead.len() > MOST_AHEAD
    }

    /// Whether the message that is read, or was read last, is a post.
    pub fn is_post(&self) -> bool {
        let start = blanks(&self.ahead);
        self.ahead
            .get(start..)
            .unwrap_or_default()
            .starts_with(b"POST ")
    }

    /// Puts bytes behind those that are ahead. Answers whether there was memory for them.
    pub fn gather(&mut self, piece: &[u8]) -> bool {
        self.ahead.extend_from_slice(piece).is_ok()
    }

    /// Looks whether a message is here that is to be served now: it is whole, or has a fault in what came of it.
    pub fn find_message(&mut self) -> bool {
        self.whole = self.look.message_end(self.alloc, &self.ahead).unwrap_or(0);
        self.whole > 0
    }

    /// Takes the head of the message that is here, where it was read and nothing of the message was handed on. What is read
    /// next stands behind it.
    pub fn take_head(&mut self) -> Option<ReadHead> {
        if self.used > 0 || self.whole == 0 {
            return None;
        }
        let head = self.look.take_head()?;
        self.used = head.size();
        Some(head)
    }

    /// Whether the client waits to be told to send the body that it announced. True once for a message.
    pub fn take_awaited(&mut self) -> bool {
        self.look.take_awaited()
    }

    /// Lets a message that is cut be served as far as it came: no more can come. Answers whether something came of it.
    pub fn take_part(&mut self) -> bool {
        self.whole = self.ahead.len();
        self.whole > 0
    }

    /// Drops the bytes that were read.
    pub fn drop_used(&mut self) {
        if self.used >= self.ahead.len() {
            self.ahead.clear();
        } else {
            let _ = self.ahead.drain(..self.used);
        }
        self.look_anew();
    }

    /// Drops all.
    pub fn clear(&mut self) {
        self.ahead = Vec::new(self.alloc);
        self.look_anew();
    }

    /// Gives up room that a long message took, where nothing is here.
    pub fn give_up_room(&mut self) {
        if self.ahead.is_empty() && self.ahead.capacity() > KEPT_ROOM {
            self.ahead = Vec::new(self.alloc);
        }
    }

    /// Notes that nothing of what is here was read or looked at.
    fn look_anew(&mut self) {
        self.used = 0;
        self.whole = 0;
        self.look = RequestLook::new();
    }

    /// Reads what is here, and answers how many bytes: of the message at the front, and behind these of the others. None
    /// where all was read.
    pub fn read(&mut self, buf: &mut [u8]) -> Option<usize>
        ensures { IfSome result (λ n. n ≤ length buf.old) }
    {
        if self.used >= self.ahead.len() {
            return None;
        }
        let n = hand_on(self.at_hand(), buf);
        self.used = self.used.saturating_add(n);
        Some(n)
    }

    /// The bytes ahead of the message at their front, and behind these the others.
    fn at_hand(&self) -> &[u8] {
        let end = if self.used < self.whole {
            self.whole
        } else {
            self.ahead.len()
        };
        self.ahead.get(self.used..end).unwrap_or_default()
    }
}

/// Whether some of these bytes are of a message. CR and LF before one are not (RFC 9112 section 2.2).
fn has_begun(bytes: &[u8]) -> bool {
    blanks(bytes) < bytes.len()
}

/// Copies from the front of the bytes, and answers how many.
fn hand_on(bytes: &[u8], buf: &mut [u8]) -> usize
    ensures within { result ≤ length buf.old }
{
    let n = bytes.len().min(buf.len());
    buf[..n].copy_from_slice(&bytes[..n]);
    n
}
