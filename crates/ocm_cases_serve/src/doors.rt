//! Doors in memory that may fail.
ghost use Rattle.std.specs.Prelude.{Some};

use ocm_base::Failed;
use ocm_server::{Back, Conn, Door, Ended, MemDoor};

/// A door in memory that fails at one of its calls, and counts them.
pub struct CaseDoor<C: Conn> {
    door: MemDoor<C>,
    fails: u64,
    asked: u64,
    faults: u64,
}

impl<C: Conn + Drop> Drop for CaseDoor<C> {
    fn drop(self) {
        let CaseDoor {
            door: _,
            fails: _,
            asked: _,
            faults: _,
        } = self;
    }
}

impl<C: Conn> CaseDoor<C> {
    /// This door, which fails at the call of that number, counted from 1; 0 is none.
    pub fn new(door: MemDoor<C>, fails: u64) -> CaseDoor<C> {
        CaseDoor {
            door,
            fails,
            asked: 0,
            faults: 0,
        }
    }

    /// How often it was asked for a connection.
    pub fn asked(&self) -> u64 {
        self.asked
    }

    /// The connections that came back, in order.
    pub fn back(&self) -> &[Back<C>] {
        self.door.back()
    }
}

impl<C: Conn> Door for CaseDoor<C> {
    type Conn = C;

    ghost told = { λ d. Some d.door.door };

    ghost faults = { λ d. d.faults };

    fn next(&mut self) -> Result<Option<C>, Failed> {
        self.asked = self.asked.saturating_add(1);
        if self.asked == self.fails {
            self.faults = self.faults.saturating_add(1);
            return Err(Failed);
        }
        self.door.next()
    }

    fn done(&mut self, conn: C, ended: Ended) {
        self.door.done(conn, ended);
    }
}
