//! What goes out on a connection and was not sent yet.
ghost use Rattle.std.specs.Prelude.{◌≡◌, ◌≤◌, ◌++◌, length, drop, if◌then◌else◌};

use std::alloc::Global;

/// How many bytes of one connection are kept unsent at most.
const MOST_UNSENT: usize = 16_777_216;

/// The bytes that were taken and are not sent yet.
pub struct Outgoing {
    alloc: Global,
    unsent: Vec<u8>,
    sent: usize,
}

impl Drop for Outgoing {
    fn drop(self) {
        let Outgoing {
            alloc: _,
            unsent: _,
            sent: _,
        } = self;
    }
}

impl Outgoing {
    /// All was sent.
    pub fn new(alloc: Global) -> Outgoing {
        Outgoing {
            alloc,
            unsent: Vec::new(alloc),
            sent: 0,
        }
    }

    /// How many bytes it holds.
    pub fn len(&self) -> usize {
        self.unsent.len()
    }

    /// Whether all was sent.
    pub fn is_empty(&self) -> bool {
        self.sent >= self.unsent.len()
    }

    /// What is to be sent next.
    pub fn front(&self) -> &[u8] {
        self.unsent.get(self.sent..).unwrap_or_default()
    }

    /// Keeps all that two pieces have behind their first bytes, which were sent, or nothing of it. Answers whether there was
    /// room for it.
    pub fn keep(&mut self, first: &[u8], second: &[u8], sent: usize) -> bool
        requires { sent ≤ length (first.now ++ second.now) }
        ensures { self.new.unsent.items ≡ (if result then self.old.unsent.items ++ drop sent (first.now ++ second.now) else self.old.unsent.items) }
    {
        let (front, back) = behind(first, second, sent);
        let before = self.unsent.len();
        let is_kept = self.keep_piece(front) && self.keep_piece(back);
        if !is_kept {
            self.unsent.truncate(before);
        }
        is_kept
    }

    /// Keeps one piece. Answers whether there was room for it.
    fn keep_piece(&mut self, piece: &[u8]) -> bool
        ensures { self.new.unsent.items ≡ (if result then self.old.unsent.items ++ piece.now else self.old.unsent.items) }
    {
        let has_room = self.unsent.len() < MOST_UNSENT;
        piece.is_empty() || (has_room && self.unsent.extend_from_slice(piece).is_ok())
    }

    /// Notes that so many bytes more were sent.
    pub fn count_sent(&mut self, n: usize) {
        self.sent = self.sent.saturating_add(n);
        if self.is_empty() {
            self.unsent = Vec::new(self.alloc);
            self.sent = 0;
        }
    }
}

/// What two pieces have behind their first bytes.
fn behind<'a>(first: &'a [u8], second: &'a [u8], n: usize) -> (&'a [u8], &'a [u8])
    requires { n ≤ length (first.now ++ second.now) }
    ensures { result.0.now ++ result.1.now ≡ drop n (first.now ++ second.now) }
{
    if n < first.len() {
        (&first[n..], second)
    } else {
        (&[], &second[n - first.len()..])
    }
}
