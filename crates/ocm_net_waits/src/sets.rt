//! A set of descriptors at which a thread waits until one is ready.
ghost use Rattle.std.specs.Prelude.{◌≤◌, length};

use crate::owning::owned;
use libc::net::{EPOLL_CLOEXEC, EPOLL_CTL_ADD, EPOLL_CTL_DEL, EPOLL_CTL_MOD, epoll_create1};
use os::EpollEvent;
use std::io;
use std::net::Net;
use std::os::fd::{AsRawFd, OwnedFd, RawFd};

/// A set of descriptors (epoll(7)). What is asked of each stands in `libc::net`, as `EPOLLIN`.
pub struct Set {
    fd: OwnedFd,
}

impl Drop for Set {
    fn drop(self) {
        let Set { fd: _ } = self;
    }
}

impl Set {
    /// An empty set, or the system's error.
    pub fn new(_net: &impl Net) -> io::Result<Set> {
        let fd = owned(epoll_create1(EPOLL_CLOEXEC))?;
        Ok(Set { fd })
    }

    /// Adds a descriptor, which is told of by its token. Answers whether the system took it.
    pub fn add(&self, fd: RawFd, events: u32, token: u64) -> bool {
        os::epoll_ctl(self.fd.as_raw_fd(), EPOLL_CTL_ADD, fd, events, token) == 0
    }

    /// Changes what is asked of a descriptor that is here. Answers whether the system took it.
    pub fn change(&self, fd: RawFd, events: u32, token: u64) -> bool {
        os::epoll_ctl(self.fd.as_raw_fd(), EPOLL_CTL_MOD, fd, events, token) == 0
    }

    /// Takes a descriptor out. Answers whether it was here. One that is closed leaves by itself.
    pub fn remove(&self, fd: RawFd) -> bool {
        os::epoll_ctl(self.fd.as_raw_fd(), EPOLL_CTL_DEL, fd, 0, 0) == 0
    }

    /// Waits until descriptors are ready, for at most so many milliseconds, or with no limit below 0. Puts what is told of
    /// them at the start of `events`, and answers how many these are: 0 where the time is up, or a signal came.
    pub fn wait(&self, events: &mut [EpollEvent], millis: i32) -> usize
        ensures within { result ≤ length events.new }
    {
        os::epoll_wait(self.fd.as_raw_fd(), events, millis)
    }
}
