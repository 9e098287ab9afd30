//! What a connection waits for, and what the system told of it.

use libc::net::{EPOLLERR, EPOLLHUP, EPOLLIN, EPOLLOUT, EPOLLRDHUP};

/// What is to be done with a connection that was looked at.
#[derive(Clone, Copy)]
pub enum Step {
    /// A worker is to serve its next message.
    Serve,
    /// It waits for more.
    Wait,
    /// Its last page was taken: it is closed once that is sent.
    Finish,
    /// It is closed.
    Close,
}

/// What a connection waits for.
#[derive(Clone, Copy, PartialEq, Eq)]
pub enum State {
    /// For nothing: its worker serves it.
    Served,
    /// Between two messages, for the next one.
    Resting,
    /// For the rest of a message.
    Coming,
    /// For its turn: there may be a message.
    Ready,
    /// For the peer to take the rest of a page.
    Sending,
    /// For the peer's end, behind the last page.
    Closing,
}

/// What the system told of a connection and was not used since. It tells each change once.
#[derive(Clone, Copy)]
pub struct Told {
    /// A read may give something. Where it doesn't, the system tells when that changes.
    may_read: bool,
    /// A write may take something, likewise.
    may_write: bool,
    /// The peer's end, or a fault, stands behind what can be read: no more will be told.
    has_hung_up: bool,
}

impl Told {
    /// Nothing was told.
    pub fn nothing() -> Told {
        Told {
            may_read: false,
            may_write: false,
            has_hung_up: false,
        }
    }

    /// Whether a read may give something.
    pub fn may_read(&self) -> bool {
        self.may_read
    }

    /// Whether a write may take something.
    pub fn may_write(&self) -> bool {
        self.may_write
    }

    /// Notes what the system tells (epoll_ctl(2)).
    pub fn tell(&mut self, events: u32) {
        if events & (EPOLLRDHUP | EPOLLHUP | EPOLLERR) != 0 {
            self.has_hung_up = true;
        }
        if events & (EPOLLIN | EPOLLRDHUP | EPOLLHUP | EPOLLERR) != 0 {
            self.may_read = true;
        }
        if events & (EPOLLOUT | EPOLLHUP | EPOLLERR) != 0 {
            self.may_write = true;
        }
    }

    /// Notes that a read which asked for so many bytes gave some. Where it gave less, no more was there, and the system
    /// tells when more comes; an end that it told of stands behind them.
    pub fn note_read(&mut self, n: usize, asked: usize) {
        self.may_read = n >= asked || self.has_hung_up;
    }

    /// Notes that there was nothing to read.
    pub fn note_empty(&mut self) {
        self.may_read = false;
        self.has_hung_up = false;
    }

    /// Notes a write: where not all was taken, the system tells when more will be.
    pub fn note_write(&mut self) {
        self.may_write = false;
    }
}
