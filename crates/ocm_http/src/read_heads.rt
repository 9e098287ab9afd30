ghost use Rattle.std.specs.Prelude.{◌≡◌, length};
ghost use Rattle.ocm_http.specs.ReadHeads as heads;

use ocm_base::GhostBytes;
use ocm_http_heads::{Head, Length};
use std::marker::Model;

/// The head of a request that was read ahead of its message. A body whose length it tells has at most 1,048,576 bytes. A
/// reader goes on behind it, so that it isn't read twice.
#[derive(Drop)]
pub struct ReadHead {
    head: Head,
    body: Length,
    skipped: usize,
    size: usize,
    text: GhostBytes,
}

impl Model for ReadHead {
    ghost use Rattle.ocm_http.specs.ReadHeads.{HeadState, IsRead};

    ghost Value = { HeadState };

    ghost view = { λ h. record { head = h.head; body = h.body; skipped = h.skipped; size = h.size; text = h.text.bytes } };

    ghost invariant = { λ h. IsRead (record { head = h.head; body = h.body; skipped = h.skipped; size = h.size; text = h.text.bytes }) };
}

impl ReadHead {
    /// A head that these bytes are.
    pub(crate) fn new(head: Head, body: Length, skipped: usize, text: &[u8]) -> ReadHead
        requires { heads.IsRead (record { head = head; body = body; skipped = skipped; size = length text.now; text = text.now }) }
        ensures { result ≡ record { head = head; body = body; skipped = skipped; size = length text.now; text = text.now } }
    {
        ReadHead {
            head,
            body,
            skipped,
            size: text.len(),
            text: GhostBytes::of(text),
        }
    }

    /// What it says.
    pub fn head(&self) -> &Head
        ensures { result.now ≡ self.now.head }
    {
        &self.head
    }

    /// How the end of its body is known.
    pub fn body(&self) -> Length
        ensures { result ≡ self.now.body }
    {
        self.body
    }

    /// How many CR and LF stand before it.
    pub fn skipped(&self) -> usize
        ensures { result ≡ self.now.skipped }
    {
        self.skipped
    }

    /// How many bytes it has, with the CR and LF before it.
    pub fn size(&self) -> usize
        ensures { result ≡ self.now.size }
    {
        self.size
    }

    /// Its bytes, with the CR and LF before it.
    pub fn text(&self) -> &GhostBytes
        ensures { result.now.bytes ≡ self.now.text }
    {
        &self.text
    }

    /// Its parts: what it says, how the end of its body is known, how many CR and LF stand before it, and how many bytes it
    /// has with these. Its bytes are this head.
    pub(crate) fn into_parts(self) -> (Head, Length, usize, usize)
        ensures parts { result ≡ (self.head, self.body, self.skipped, self.size) }
        ensures read { heads.IsRead self }
    {
        (self.head, self.body, self.skipped, self.size)
    }
}
