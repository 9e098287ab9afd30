//! Files that are open, by their descriptors.
ghost use Rattle.std.specs.Prelude.{◌<◌, ◌≤◌, IfOk, length};

use libc::{LOCK_EX, LOCK_NB, O_APPEND, O_CREAT, O_EXCL, O_RDWR, SEEK_END};
use ocm_base::Failed;
use ocm_net_waits::{last_error, owned};
use std::io::{self, ErrorKind};
use std::os::fd::{AsRawFd, OwnedFd};

/// Who may open a file that was made: its owner alone, since its lines hold secrets.
const MODE: u32 = 0o600;

/// A file that is open to read it, and to write behind its end.
pub(crate) struct Descriptor {
    fd: OwnedFd,
}

impl Drop for Descriptor {
    fn drop(self) {
        let Descriptor { fd: _ } = self;
    }
}

impl Descriptor {
    /// Opens the file that a path leads to.
    pub(crate) fn open(path: &str) -> io::Result<Descriptor> {
        opened(path, O_RDWR | O_APPEND)
    }

    /// Makes a file at a path where nothing stands, not even a link.
    pub(crate) fn make(path: &str) -> io::Result<Descriptor> {
        opened(path, O_RDWR | O_APPEND | O_CREAT | O_EXCL)
    }

    /// Locks it. Where it is locked, by this program or another, that fails with `WouldBlock`.
    pub(crate) fn lock(&self) -> io::Result<()> {
        done(libc::flock(self.fd.as_raw_fd(), LOCK_EX | LOCK_NB))
    }

    /// How many bytes it has. A pipe fails.
    pub(crate) fn len(&self) -> io::Result<u64> {
        let end = libc::lseek(self.fd.as_raw_fd(), 0, SEEK_END);
        u64::try_from(end).map_err(|_| last_error())
    }

    /// Whether it is a plain file, where it has no bytes: the system cuts no other.
    pub(crate) fn is_plain(&self) -> bool {
        match self.cut(0) {
            Ok(()) => true,
            Err(error) => error.kind() != ErrorKind::InvalidInput,
        }
    }

    /// Leaves the first so many bytes of it.
    pub(crate) fn cut(&self, len: u64) -> io::Result<()> {
        done(libc::ftruncate(self.fd.as_raw_fd(), len.cast_signed()))
    }

    /// Fills a piece with what stands at a place. Where the file ends before that fails.
    pub(crate) fn read_at(&self, piece: &mut [u8], place: u64) -> io::Result<()> {
        let count = libc::pread(self.fd.as_raw_fd(), piece, place.cast_signed());
        if moved(count, piece.len())? < piece.len() {
            return Err(io::Error::from(ErrorKind::UnexpectedEof));
        }
        Ok(())
    }

    /// Writes some of a piece behind its end. A write that a signal interrupted is tried again, and one that takes no byte has
    /// failed.
    pub(crate) fn add(&self, piece: &[u8]) -> Result<usize, Failed>
        ensures some { IfOk result (λ n. 0 < n) }
        ensures within { IfOk result (λ n. n ≤ length piece.now) }
    {
        for _ in 0..u64::MAX {
            let count = libc::write(self.fd.as_raw_fd(), piece);
            match moved(count, piece.len()) {
                Ok(n) if 0 < n => return Ok(n),
                Err(error) if error.kind() == ErrorKind::Interrupted => {}
                _ => break,
            }
        }
        Err(Failed)
    }
}

/// Opens the file at a path by the system's flags.
fn opened(path: &str, flags: i32) -> io::Result<Descriptor> {
    let fd = owned(os::open_with(path.as_bytes(), flags, MODE))?;
    Ok(Descriptor { fd })
}

/// What a call of the system came to whose answer is negative where it failed.
fn done(status: i32) -> io::Result<()> {
    if status < 0 {
        return Err(last_error());
    }
    Ok(())
}

/// How many of so many bytes a call of the system moved, by its answer, which is negative where it failed.
fn moved(count: isize, len: usize) -> io::Result<usize>
    ensures { IfOk result (λ n. n ≤ len) }
{
    match usize::try_from(count) {
        Ok(count) => Ok(count.min(len)),
        Err(_) => Err(last_error()),
    }
}
