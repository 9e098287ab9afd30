//! Descriptors and errors of the system's calls.

use os::FromRawFd;
use std::io;
use std::os::fd::{OwnedFd, RawFd};

/// The error of the call of the system before this.
pub fn last_error() -> io::Error {
    io::Error::from_raw_os_error(os::errno())
}

/// A descriptor that a call of the system answered, or the call's error where that is negative. Nothing else may close it.
pub fn owned(fd: RawFd) -> io::Result<OwnedFd> {
    if fd < 0 {
        return Err(last_error());
    }
    Ok(unsafe { OwnedFd::from_raw_fd(fd) })
}
