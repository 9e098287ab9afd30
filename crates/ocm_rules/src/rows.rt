ghost use Rattle.std.specs.Prelude.{◌≡◌, IfOk};

use ocm_entry::Share;
use ocm_texts::NoMemory;
use ocm_types::{Host, Letter, Offer, Perms, Phase, Shared};

/// What a message is about. Of the messages about one thing, the later wait for the earlier.
#[derive(Clone, Copy, Debug, PartialEq, Eq, Hash)]
pub enum Subject {
    /// The share of this number, which was made here.
    Share { id: u32 },
    /// The received offer of this number.
    Received { number: u32 },
    /// The request of this number to share further.
    Request { request: u32 },
}

/// A message to another server. A server's messages are numbered from 1. Its copies share the host and
/// the letter.
#[derive(Drop)]
pub struct Message {
    pub subject: Subject,
    /// The server that it is for.
    pub to: Shared<Host>,
    pub letter: Shared<Letter>,
}

impl Message {
    /// The same message once more.
    pub fn copy(&self) -> Result<Message, NoMemory>
        ensures { IfOk result (λ m. m ≡ self.now) }
    {
        let to = self.to.copy()?;
        let letter = self.letter.copy()?;
        Ok(Message {
            subject: self.subject,
            to,
            letter,
        })
    }
}

/// What a guest was told of the permissions of a received share: the number of the last change, 0
/// before the first, and the permissions.
#[derive(Clone, Copy)]
pub struct Told {
    pub serial: u32,
    pub perms: Perms,
}

/// A share with what became of it.
pub struct ShareRow {
    pub share: Share,
    /// Those of its last limit, else what was granted.
    pub perms: Perms,
    /// Whether this very share was closed, whatever became of those above it.
    pub closed: bool,
    /// The moment at which it ends, where one was set.
    pub end: Option<u64>,
}

impl Drop for ShareRow {
    fn drop(self) {
        let ShareRow {
            share: _,
            perms: _,
            closed: _,
            end: _,
        } = self;
    }
}

/// A received offer with what became of it.
pub struct ReceivedRow {
    pub offer: Offer,
    pub phase: Phase,
    pub told: Told,
}

impl Drop for ReceivedRow {
    fn drop(self) {
        let ReceivedRow {
            offer: _,
            phase: _,
            told: _,
        } = self;
    }
}

/// A message with whether it is settled.
pub struct SentRow {
    pub message: Message,
    pub settled: bool,
}

impl Drop for SentRow {
    fn drop(self) {
        let SentRow {
            message: _,
            settled: _,
        } = self;
    }
}
