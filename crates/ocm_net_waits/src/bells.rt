//! A bell by which one thread ends the wait of another.

use crate::owning::owned;
use libc::net::{EFD_CLOEXEC, EFD_NONBLOCK, eventfd};
use std::io;
use std::net::Net;
use std::os::fd::{AsRawFd, OwnedFd, RawFd};
use std::sync::atomic::{AtomicU64, Ordering};

/// A bell (eventfd(2)). From when it is rung until it is hushed its descriptor can be read, so that a wait which begins
/// between the two ends at once: no ring is lost. No call waits.
pub struct Bell {
    fd: OwnedFd,
    /// 1 once the end was noted.
    over: AtomicU64,
}

impl Drop for Bell {
    fn drop(self) {
        let Bell { fd: _, over: _ } = self;
    }
}

impl Bell {
    /// A bell that was not rung, or the system's error.
    pub fn new(_net: &impl Net) -> io::Result<Bell> {
        let fd = owned(eventfd(0, EFD_CLOEXEC | EFD_NONBLOCK))?;
        Ok(Bell {
            fd,
            over: AtomicU64::new(0),
        })
    }

    /// Its descriptor, which can be read while it rings.
    pub fn fd(&self) -> RawFd {
        self.fd.as_raw_fd()
    }

    /// Rings.
    pub fn ring(&self) {
        let _ = libc::write(self.fd(), &1u64.to_ne_bytes());
    }

    /// Ends the ringing, until it is rung again. Who hushes it looks behind that at what it was rung for.
    pub fn hush(&self) {
        let mut count = [0u8; 8];
        let _ = libc::read(self.fd(), &mut count);
    }

    /// Notes the end, and rings: there will be no more to ring for.
    pub fn end(&self) {
        self.over.store(1, Ordering::SeqCst);
        self.ring();
    }

    /// Whether the end was noted.
    pub fn is_over(&self) -> bool {
        self.over.load(Ordering::SeqCst) > 0
    }
}
