//! The clocks of a connection: since when it does what it does, and how long it may.

/// How long a message may take from its first byte on, and a page to be sent, in milliseconds, beside what their bytes
/// take at the least rate. What looks at it comes every half second.
const MESSAGE: u64 = 9_000;

/// The least rate of a peer, in bytes a millisecond.
const RATE: u64 = 4;

/// How long what comes after a last page is passed over, in milliseconds.
const CLOSING: u64 = 2_000;

/// The times of a connection, in milliseconds of the clock that only goes forward.
#[derive(Clone, Copy)]
pub struct Times {
    /// Since when it rests, or its message comes, or it closes.
    since: u64,
    /// How many bytes came since.
    moved: u64,
    /// When a peer of the least rate would have all that the system took of its pages.
    reached: u64,
}

impl Times {
    /// The times of a connection that came now.
    pub fn new(now: u64) -> Times {
        Times {
            since: now,
            moved: 0,
            reached: 0,
        }
    }

    /// Begins to count anew.
    pub fn begin(&mut self, now: u64) {
        self.since = now;
        self.moved = 0;
    }

    /// Counts bytes that came.
    pub fn count_read(&mut self, n: usize) {
        self.moved = self.moved.saturating_add(n as u64);
    }

    /// Begins to send a page. A peer that reads at the least rate has until then what was sent before.
    pub fn begin_page(&mut self) {
        self.reached = self.reached.max(self.since);
    }

    /// Counts bytes that the system took.
    pub fn count_sent(&mut self, n: usize) {
        self.reached = self.reached.saturating_add(n as u64 / RATE);
    }

    /// Since when it waits.
    pub fn since(&self) -> u64 {
        self.since
    }

    /// When the message that comes is late.
    pub fn late_message(&self) -> u64 {
        self.since
            .saturating_add(MESSAGE)
            .saturating_add(self.moved / RATE)
    }

    /// When the page that is sent is late.
    pub fn late_page(&self) -> u64 {
        self.reached.saturating_add(MESSAGE)
    }

    /// When a connection that closes is closed in any case.
    pub fn late_close(&self) -> u64 {
        self.since.saturating_add(CLOSING)
    }

    /// When a connection that rests has rested for so long.
    pub fn late_rest(&self, rest: u64) -> u64 {
        self.since.saturating_add(rest)
    }
}
