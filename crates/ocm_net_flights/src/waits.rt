//! The wait for one descriptor, and the clock that only goes forward, for a thread that has no runtime.

use libc::net::{POLLIN, POLLOUT, poll};
use libc::types::{pollfd, timespec};
use std::os::fd::RawFd;

/// Milliseconds since some start, 0 where the clock cannot be read.
pub fn clock() -> u64 {
    let mut time = timespec {
        tv_sec: 0,
        tv_nsec: 0,
    };
    if libc::clock_gettime(libc::CLOCK_MONOTONIC, &mut time) != 0 {
        return 0;
    }
    let millis = time.tv_nsec.unsigned_abs() / 1_000_000;
    time.tv_sec
        .unsigned_abs()
        .saturating_mul(1_000)
        .saturating_add(millis)
}

/// Waits until a descriptor can be read, or also until it can be written, for at most so many milliseconds.
pub fn wait(fd: RawFd, writes: bool, millis: u64) {
    let events = if writes { POLLIN | POLLOUT } else { POLLIN };
    let mut asked = [pollfd {
        fd,
        events,
        revents: 0,
    }];
    let _ = poll(&mut asked, i32::try_from(millis).unwrap_or(i32::MAX));
}
