//! Single reads and writes of a stream, which wait for nothing, and the wait for its bytes.
ghost use Rattle.std.specs.Prelude.{◌≤◌, ◌++◌, IfOk, IfSome, length};

use libc::net::{POLLIN, poll};
use libc::types::pollfd;
use std::io::{ErrorKind, IoSlice, Read};
use std::net::TcpStream;
use std::os::fd::AsRawFd;

/// How many calls of the system a signal may end before one counts as failed.
const MOST_INTERRUPTED: u32 = 1_000;

/// Reads what is there, and answers how many bytes: 0 at the end of the peer's bytes. None where nothing is there now.
pub fn read_now(stream: &TcpStream, buf: &mut [u8]) -> Result<Option<usize>, ErrorKind>
    ensures { IfOk result (λ found. IfSome found (λ n. (n ≤ length buf.old) × (n ≤ length buf.new))) }
{
    let mut reader = stream;
    for _ in 0..MOST_INTERRUPTED {
        match reader.read(buf) {
            Ok(n) => return Ok(Some(n)),
            Err(e) => match e.kind() {
                ErrorKind::Interrupted => {}
                ErrorKind::WouldBlock => return Ok(None),
                kind => return Err(kind),
            },
        }
    }
    Err(ErrorKind::Interrupted)
}

/// Writes from the front of both pieces in one call of the system, and answers how many bytes: none where the peer takes
/// none now. None where the stream fails.
pub fn write_now(stream: &TcpStream, first: &[u8], second: &[u8]) -> Option<usize>
    ensures { IfSome result (λ n. n ≤ length (first.now ++ second.now)) }
{
    if first.is_empty() && second.is_empty() {
        return Some(0);
    }
    let both = [IoSlice::new(first), IoSlice::new(second)];
    for _ in 0..MOST_INTERRUPTED {
        match stream.write_vectored(&both) {
            Ok(n) if n > 0 => return Some(n),
            Err(e) if e.kind() == ErrorKind::Interrupted => {}
            Err(e) if e.kind() == ErrorKind::WouldBlock => return Some(0),
            _ => return None,
        }
    }
    None
}

/// Waits until something is there to read, or the end, for at most so many milliseconds.
pub fn wait_for_bytes(stream: &TcpStream, millis: i32) {
    let mut asked = [pollfd {
        fd: stream.as_raw_fd(),
        events: POLLIN,
        revents: 0,
    }];
    let _ = poll(&mut asked, millis);
}
