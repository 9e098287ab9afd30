//! When a round of delivery is due.

use crate::policy::{HOLDS, LONGEST_HOLD, LONGEST_PAUSE};

/// When the next round is due.
#[derive(Clone, Copy)]
pub struct Rounds {
    /// Whether something happened behind which a round follows.
    is_due: bool,
    /// When a round follows though nothing happens, in milliseconds.
    next: u64,
    /// Until when none follows, in milliseconds.
    held: u64,
    /// When the last one began, in milliseconds.
    begun: u64,
    /// How many began.
    number: u64,
    /// How many ended.
    ended: u64,
}

impl Rounds {
    /// A round is due.
    pub fn new() -> Rounds {
        Rounds {
            is_due: true,
            next: 0,
            held: 0,
            begun: 0,
            number: 0,
            ended: 0,
        }
    }

    /// Notes that something happened behind which a round follows.
    pub fn call(&mut self) {
        self.is_due = true;
    }

    /// Notes that one begins.
    pub fn begin(&mut self, now: u64) {
        self.is_due = false;
        self.begun = now;
        self.number = self.number.saturating_add(1);
        self.next = now.saturating_add(u64::from(LONGEST_PAUSE));
    }

    /// Notes that it ended.
    pub fn end(&mut self, now: u64) {
        let took = now.saturating_sub(self.begun);
        let hold = took.saturating_mul(HOLDS).min(LONGEST_HOLD);
        self.held = now.saturating_add(hold);
        self.ended = self.number;
    }

    /// The number of the last one that began.
    pub fn number(&self) -> u64 {
        self.number
    }

    /// The number of the last one that ended.
    pub fn ended(&self) -> u64 {
        self.ended
    }

    /// When the next one is due, in milliseconds.
    pub fn time(&self) -> u64 {
        if self.is_due {
            self.held
        } else {
            self.next.max(self.held)
        }
    }
}
