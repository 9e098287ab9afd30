//! A system whose standard error holds up nobody.

use libc::net::{POLLOUT, poll};
use libc::types::pollfd;
use std::alloc::Allocator;
use std::fmt::Display;
use std::fs::{Metadata, OpenOptions};
use std::io::{self, Eprint, ErrorKind};
use std::net::{Net, SocketAddr};
use std::rt::Files;
use std::sync::{Mutex, Wait};
use std::thread::Threads;
use std::time::{Clock, Duration};

/// How many lines for standard error were dropped since the last one that was written.
pub struct DroppedLines {
    count: Mutex<u64>,
}

impl Drop for DroppedLines {
    fn drop(self) {
        let DroppedLines { count: _ } = self;
    }
}

impl DroppedLines {
    /// None.
    pub fn new() -> DroppedLines {
        DroppedLines {
            count: Mutex::new(0),
        }
    }
}

/// A system, but that a line for standard error which would have to wait is dropped, and counted. The number is told ahead of
/// the next line that is written.
///
/// Standard error is asked whether it takes bytes, and written to by one thread at a time. A pipe that takes some takes 4,096
/// bytes, and no line is longer. A program outside which writes to the same pipe can still fill it in between.
pub struct Unblocked<'a, R> {
    rt: &'a R,
    dropped: &'a DroppedLines,
}

impl<R> Drop for Unblocked<'_, R> {
    fn drop(self) {
        let Unblocked { rt: _, dropped: _ } = self;
    }
}

impl<'a, R> Unblocked<'a, R> {
    /// The same system, which counts the lines that it drops here.
    pub fn new(rt: &'a R, dropped: &'a DroppedLines) -> Unblocked<'a, R> {
        Unblocked { rt, dropped }
    }
}

/// Whether standard error takes bytes without a wait, or is broken.
fn takes_bytes() -> bool {
    let mut asked = [pollfd {
        fd: libc::STDERR_FILENO,
        events: POLLOUT,
        revents: 0,
    }];
    poll(&mut asked, 0) > 0
}

/// Why a line was dropped.
fn would_wait() -> io::Error {
    io::Error::from(ErrorKind::WouldBlock)
}

impl<R: Eprint + Wait> Unblocked<'_, R> {
    /// Tells how many lines were dropped, where there are such, and whether standard error still takes bytes then.
    fn is_ready(&self, dropped: u64) -> bool {
        if !takes_bytes() {
            return false;
        }
        if dropped == 0 {
            return true;
        }
        let told = eprintln!(self.rt; "ocmd: lines dropped: {dropped}");
        told.is_ok()
    }
}

impl<R: Eprint + Wait> Eprint for Unblocked<'_, R> {
    fn eprint<D: Display + Drop>(&self, value: D) -> io::Result<()> {
        let mut dropped = self.dropped.count.lock(self.rt);
        if !self.is_ready(*dropped) {
            *dropped = dropped.saturating_add(1);
            drop(value);
            return Err(would_wait());
        }
        *dropped = 0;
        self.rt.eprint(value)
    }

    fn eprintln<D: Display + Drop>(&self, value: D) -> io::Result<()> {
        let mut dropped = self.dropped.count.lock(self.rt);
        if !self.is_ready(*dropped) {
            *dropped = dropped.saturating_add(1);
            drop(value);
            return Err(would_wait());
        }
        *dropped = 0;
        self.rt.eprintln(value)
    }
}

impl<R: Threads> Threads for Unblocked<'_, R> {}

impl<R: Wait> Wait for Unblocked<'_, R> {}

impl<R: Clock> Clock for Unblocked<'_, R> {
    fn monotonic(&self) -> io::Result<Duration> {
        self.rt.monotonic()
    }

    fn since_1970(&self) -> io::Result<Duration> {
        self.rt.since_1970()
    }

    fn sleep(&self, duration: Duration) {
        self.rt.sleep(duration);
    }
}

impl<R: Files> Files for Unblocked<'_, R> {
    type File = R::File;

    type Dir = R::Dir;

    fn open_file(&self, how: &OpenOptions, path: &str) -> io::Result<R::File> {
        self.rt.open_file(how, path)
    }

    fn open_dir(&self, path: &str) -> io::Result<R::Dir> {
        self.rt.open_dir(path)
    }

    fn metadata(&self, path: &str) -> io::Result<Metadata> {
        self.rt.metadata(path)
    }

    fn symlink_metadata(&self, path: &str) -> io::Result<Metadata> {
        self.rt.symlink_metadata(path)
    }

    fn copy(&self, from: &str, to: &str) -> io::Result<u64> {
        self.rt.copy(from, to)
    }

    fn rename(&self, from: &str, to: &str) -> io::Result<()> {
        self.rt.rename(from, to)
    }

    fn remove_file(&self, path: &str) -> io::Result<()> {
        self.rt.remove_file(path)
    }

    fn create_dir(&self, path: &str) -> io::Result<()> {
        self.rt.create_dir(path)
    }

    fn remove_dir(&self, path: &str) -> io::Result<()> {
        self.rt.remove_dir(path)
    }

    fn remove_dir_all<B: Allocator>(&self, alloc: B, path: &str) -> io::Result<()> {
        self.rt.remove_dir_all(alloc, path)
    }
}

impl<R: Net> Net for Unblocked<'_, R> {
    type Stream = R::Stream;

    type Listener = R::Listener;

    fn bind(&self, addr: SocketAddr) -> io::Result<R::Listener> {
        self.rt.bind(addr)
    }

    fn connect(&self, addr: SocketAddr) -> io::Result<R::Stream> {
        self.rt.connect(addr)
    }

    fn connect_timeout(&self, addr: SocketAddr, timeout: Duration) -> io::Result<R::Stream> {
        self.rt.connect_timeout(addr, timeout)
    }

    fn lookup_host(&self, host: &str, port: u16, found: &mut [SocketAddr]) -> io::Result<usize> {
        self.rt.lookup_host(host, port, found)
    }
}
