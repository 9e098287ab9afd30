ghost use Rattle.std.specs.Prelude.{◌≡◌, true, IfOk};
ghost use Rattle.ocm_serve_system.specs.Openings.{IsOpenedWith};
ghost use Rattle.ocm_serve_system.specs.Statuses.{IsStatus, fault_status};

use libc::types::rlimit;
use ocm_base::GhostBytes;
use ocm_disk::{Disk, FileDisk, Missing};
use ocm_net_sockets::{Entrance, Limits};
use ocm_net_waits::Bell;
use ocm_serve_options::Plan;
use std::alloc::Global;
use std::fs::File;
use std::io::{ErrorKind, Read};
use std::net::{Net, TcpListener, TcpStream};
use std::rt::Files;
use std::sync::Arc;
use std::{fmt, io};

/// How many connections are open at a time, where the limit on descriptors allows it.
const MAX_OPEN: u64 = 8_192;

/// How many descriptors are kept for files, for exchanges and for connections that were just accepted.
const KEPT_DESCRIPTORS: u64 = 256;

/// How many descriptors each worker needs for itself.
const WORKER_DESCRIPTORS: u64 = 3;

/// How long a connection rests between two messages, in milliseconds.
const REST: u64 = 60_000;

/// Files that give nothing and take nothing, on the descriptors of standard input, output and error, where the program was
/// started without these. The system gives a file the lowest descriptor that is free, so that else the journal's file could
/// become the standard error, and take what an administrator is told. Where the three are there, these files are others, and
/// in nobody's way.
pub struct StandIns {
    _input: Option<File>,
    _output: Option<File>,
    _errors: Option<File>,
}

impl Drop for StandIns {
    fn drop(self) {
        let StandIns {
            _input: _,
            _output: _,
            _errors: _,
        } = self;
    }
}

impl StandIns {
    /// Opens the three, before any other file or socket is opened.
    pub fn open<R: Files<File = File>>(rt: &R) -> StandIns {
        StandIns {
            _input: nothing(rt),
            _output: nothing(rt),
            _errors: nothing(rt),
        }
    }
}

/// The file without content, where the system has it.
fn nothing<R: Files<File = File>>(rt: &R) -> Option<File> {
    File::open(rt, "/dev/null").ok()
}

/// What a server takes from the system before it begins.
pub struct Opening {
    /// The listening socket.
    pub entrance: Arc<Entrance, Global>,
    /// Is rung where something may be due to other servers, and ends once no connection will be served any more.
    pub posts: Arc<Bell, Global>,
    /// The disk of the journal. No other server has it.
    pub disk: FileDisk,
    /// The key of all drawn values.
    pub draw_key: [u8; 32],
}

impl Drop for Opening {
    fn drop(self) {
        let Opening {
            entrance: _,
            posts: _,
            disk: _,
            draw_key: _,
        } = self;
    }
}

impl Opening {
    /// The disk and the key. The socket and the bell stay with the doors that were given them.
    pub fn into_disk(self) -> (FileDisk, [u8; 32])
        ensures disk { result.0 ≡ self.disk }
        ensures key { result.1 ≡ self.draw_key }
    {
        let Opening {
            entrance: _,
            posts: _,
            disk,
            draw_key,
        } = self;
        (disk, draw_key)
    }
}

/// What the system said of a file or an address, where that is known: the end of a sentence.
#[derive(Clone, Copy, Debug, PartialEq, Eq)]
pub enum Cause {
    /// It is not there, or a folder above it is not.
    NotFound,
    /// The process has no right to it.
    Denied,
    /// It is a folder.
    Folder,
    /// It is a link, a device or a pipe.
    NoFile,
    /// Another process has it.
    InUse,
    /// It is no address of this machine.
    NotHere,
    /// The process has as many files open as it may have.
    TooManyFiles,
    /// What says nothing to an administrator.
    Other,
}

impl Cause {
    /// What an error says.
    pub fn of(error: &io::Error) -> Cause {
        match error.kind() {
            ErrorKind::NotFound => Cause::NotFound,
            ErrorKind::PermissionDenied => Cause::Denied,
            ErrorKind::IsADirectory => Cause::Folder,
            ErrorKind::AddrInUse => Cause::InUse,
            ErrorKind::AddrNotAvailable => Cause::NotHere,
            _ if error.raw_os_error() == Some(libc::EMFILE) => Cause::TooManyFiles,
            _ => Cause::Other,
        }
    }
}

impl fmt::Display for Cause {
    fn fmt<W: fmt::Write>(&self, f: &mut fmt::Formatter<W>) -> fmt::Result {
        f.write_str(match self {
            Cause::NotFound => ": there is no such file or folder",
            Cause::Denied => ": there is no right to it",
            Cause::Folder => ": it is a folder",
            Cause::NoFile => ": it is no plain file",
            Cause::InUse => ": it is in use",
            Cause::NotHere => ": this machine has no such address",
            Cause::TooManyFiles => ": the limit on open files is too low (ulimit -n)",
            Cause::Other => "",
        })
    }
}

/// Why a server cannot begin.
#[derive(Clone, Copy, Debug, PartialEq, Eq)]
pub enum OpenFault {
    /// The file of draws cannot be opened, or has fewer than 32 bytes.
    KeyFile(Cause),
    /// The file of the administrator's key cannot be opened or read.
    AdminFile(Cause),
    /// The file of the administrator's key holds none.
    NoAdminKey,
    /// The disk's file cannot be opened or made.
    Disk(Cause),
    /// There is no file for the disk, and none is to be made.
    NoDisk,
    /// Another process has the disk's file.
    DiskInUse,
    /// The address cannot be listened at.
    Listen(Cause),
    /// The file of the log cannot be opened or made.
    Log(Cause),
    /// Another process has the file of the log.
    LogInUse,
    /// The file of the log is that of the disk, maybe under another name.
    LogIsDisk,
    /// The file of the log has bytes, and does not begin as a log does.
    NotLog,
    /// There was no memory.
    NoMemory,
}

impl OpenFault {
    /// The status with which the program ends: 5 for want of memory, else 12.
    pub fn status(self) -> u8
        ensures exact { result ≡ fault_status self }
        ensures status { IsStatus result }
    {
        match self {
            OpenFault::NoMemory => 5,
            _ => 12,
        }
    }

    /// Why connections cannot be listened for.
    pub fn of_listening(error: &io::Error) -> OpenFault {
        match error.kind() {
            ErrorKind::OutOfMemory => OpenFault::NoMemory,
            _ => OpenFault::Listen(Cause::of(error)),
        }
    }
}

impl Opening {
    /// Reads the key, listens, and then opens the disk, as a plan says. No file is made where the key or the address is at
    /// fault, or where the plan wants one that exists. What the disk holds is said by the caller, for contracts alone.
    pub fn new<R: Files<File = File> + Net<Listener = TcpListener, Stream = TcpStream>>(
        rt: &R,
        alloc: Global,
        plan: &Plan,
        holds: GhostBytes,
    ) -> Result<Opening, OpenFault>
        ensures { IfOk result (λ opening. IsOpenedWith ⟦<FileDisk as Disk>⟧ holds.bytes opening.disk) }
    {
        let draw_key = read_key(rt, plan.key_file.as_str()).map_err(key_fault)?;
        let (entrance, posts) = listen(rt, alloc, plan).map_err(listen_fault)?;
        let missing = if plan.existing {
            Missing::Refuse
        } else {
            Missing::Make
        };
        match FileDisk::open(rt, plan.disk.as_str(), missing, holds) {
            Ok(disk) => Ok(Opening {
                entrance,
                posts,
                disk,
                draw_key,
            }),
            Err(error) => {
                drop(entrance);
                drop(posts);
                Err(disk_fault(error, plan.existing))
            }
        }
    }
}

/// The listening socket of a plan, and the bell that is rung behind posts.
fn listen<R: Files<File = File> + Net<Listener = TcpListener, Stream = TcpStream>>(
    rt: &R,
    alloc: Global,
    plan: &Plan,
) -> io::Result<(Arc<Entrance, Global>, Arc<Bell, Global>)> {
    let posts = Arc::new(alloc, Bell::new(rt)?)?;
    let limits = Limits {
        workers: plan.workers,
        connections: plan.connections,
        open: open_limit(plan.workers),
        rest: REST,
        key: drawn_number(rt),
    };
    let entrance = Entrance::new(
        rt,
        alloc,
        plan.listen.as_str(),
        limits,
        Arc::try_clone(&posts)?,
    )?;
    Ok((Arc::new(alloc, entrance)?, posts))
}

/// How many connections are open at a time: as many as the limit on descriptors leaves for them.
fn open_limit(workers: u32) -> u64 {
    let mut limit = rlimit {
        rlim_cur: 0,
        rlim_max: 0,
    };
    if libc::getrlimit(libc::RLIMIT_NOFILE, &mut limit) < 0 {
        return MAX_OPEN;
    }
    let of_workers = WORKER_DESCRIPTORS.saturating_mul(u64::from(workers));
    let others = KEPT_DESCRIPTORS.saturating_add(of_workers);
    limit.rlim_cur.saturating_sub(others).min(MAX_OPEN)
}

/// A number that nobody outside knows, or 0 where the system has no file of them.
fn drawn_number<R: Files<File = File>>(rt: &R) -> u64 {
    let mut number = [0u8; 8];
    match File::open(rt, "/dev/urandom") {
        Ok(mut file) => {
            let _ = file.read_exact(&mut number);
        }
        Err(_) => {}
    }
    u64::from_ne_bytes(number)
}

/// The first 32 bytes of a file.
fn read_key<R: Files<File = File>>(rt: &R, path: &str) -> io::Result<[u8; 32]> {
    let mut key = [0u8; 32];
    let mut file = File::open(rt, path)?;
    file.read_exact(&mut key)?;
    Ok(key)
}

fn key_fault(error: io::Error) -> OpenFault {
    match error.kind() {
        ErrorKind::OutOfMemory => OpenFault::NoMemory,
        _ => OpenFault::KeyFile(Cause::of(&error)),
    }
}

/// Why the file of the disk cannot be opened, which has to exist or is made.
fn disk_fault(error: io::Error, existing: bool) -> OpenFault
    ensures { result ≡ OpenFault.NoDisk → existing ≡ true }
{
    match error.kind() {
        ErrorKind::NotFound if existing => OpenFault::NoDisk,
        ErrorKind::WouldBlock => OpenFault::DiskInUse,
        ErrorKind::OutOfMemory => OpenFault::NoMemory,
        _ => OpenFault::Disk(Cause::of(&error)),
    }
}

fn listen_fault(error: io::Error) -> OpenFault {
    OpenFault::of_listening(&error)
}
