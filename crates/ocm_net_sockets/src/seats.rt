//! What the workers know of one another's connections.

use ocm_net_waits::Bell;
use std::alloc::Global;
use std::io;
use std::net::{Net, SocketAddr, TcpStream};
use std::sync::atomic::{AtomicU64, Ordering};
use std::sync::{Mutex, Wait};

/// A connection that was accepted, and its peer's address.
pub type Accepted = (TcpStream, SocketAddr);

/// One worker, as the others see it: how many connections it has, and what was accepted for it.
pub struct Seat {
    /// How many connections it has, with those that were accepted for it.
    open: AtomicU64,
    /// How many are accepted for it still; the greatest number where that has no end.
    left: AtomicU64,
    /// Those that others accepted for it.
    waiting: Mutex<Vec<Accepted>>,
    /// Is rung where some are waiting.
    bell: Bell,
}

impl Drop for Seat {
    fn drop(self) {
        let Seat {
            open: _,
            left: _,
            waiting: _,
            bell: _,
        } = self;
    }
}

impl Seat {
    /// A worker without connections, which is to have so many.
    pub fn new(net: &impl Net, alloc: Global, left: u64) -> io::Result<Seat> {
        let bell = Bell::new(net)?;
        Ok(Seat {
            open: AtomicU64::new(0),
            left: AtomicU64::new(left),
            waiting: Mutex::new(Vec::new(alloc)),
            bell,
        })
    }

    /// The bell that is rung where connections are waiting.
    pub fn bell(&self) -> &Bell {
        &self.bell
    }

    /// How many connections it has.
    pub fn open(&self) -> u64 {
        self.open.load(Ordering::SeqCst)
    }

    /// Whether connections are accepted for it.
    pub fn is_open(&self) -> bool {
        self.left.load(Ordering::SeqCst) > 0
    }

    /// Whether it has no connection, and will have none.
    pub fn is_over(&self) -> bool {
        // Who accepts counts a connection among the open ones before it counts it as the last.
        !self.is_open() && self.open() == 0
    }

    /// Counts a connection that was accepted for it. One at a time may do so.
    pub fn count_accepted(&self) {
        self.open.fetch_add(1, Ordering::SeqCst);
        let left = self.left.load(Ordering::SeqCst);
        if left < u64::MAX {
            self.left.store(left.saturating_sub(1), Ordering::SeqCst);
        }
    }

    /// Counts a connection that was closed.
    pub fn count_closed(&self) {
        self.open.fetch_sub(1, Ordering::SeqCst);
    }

    /// Gives it a connection that was counted.
    pub fn give(&self, rt: &impl Wait, accepted: Accepted) {
        if self.waiting.lock(rt).push(accepted).is_err() {
            self.count_closed();
        }
        self.bell.ring();
    }

    /// Takes one of the connections that others accepted for it.
    pub fn take(&self, rt: &impl Wait) -> Option<Accepted> {
        self.waiting.lock(rt).pop()
    }
}
