//! What an administrator is told, on standard error.
ghost use Rattle.std.specs.Prelude.{◌≡◌};
ghost use Rattle.ocm_server.specs.Statuses.{status_of};
ghost use Rattle.ocm_serve_system.specs.Statuses.{IsStatus, fault_status};

use crate::openings::{OpenFault, Opening};
use ocm_serve_options::{AdminKey, Plan, Shown};
use ocm_server::{Served, served_status};
use std::io::Eprint;
use std::{fmt, str};

/// What an administrator must know of how the server of a journal ended: one line, in order or not.
#[derive(Clone, Copy)]
pub struct Note<'a> {
    pub served: &'a Served,
    /// The path of the journal's file.
    pub disk: &'a str,
}

impl fmt::Display for Note<'_> {
    fn fmt<W: fmt::Write>(&self, f: &mut fmt::Formatter<W>) -> fmt::Result {
        let disk = Shown(self.disk);
        match self.served {
            Served::Ended { calls, .. } => write!(f, "ended after {calls} calls"),
            Served::DoorFault { .. } => f.write_str("no more connections can be accepted"),
            Served::DiskFault { count } => write!(
                f,
                "the disk {disk} failed at the start; faults: {count}"
            ),
            Served::NotJournal { place } => {
                write!(f, "the disk {disk} is not a journal at {place}")
            }
            Served::OtherHost { found } => {
                write!(f, "the disk {disk} is the journal of another host")?;
                match printable(found.as_slice()) {
                    Some(host) => write!(f, ", {host}"),
                    None => Ok(()),
                }
            }
            Served::NoMemory => f.write_str("out of memory"),
        }
    }
}

/// A text of ASCII without blanks and control characters, as each host's is.
fn printable(bytes: &[u8]) -> Option<&str> {
    if bytes.iter().all(|b| b.is_ascii_graphic()) {
        str::from_utf8(bytes).ok()
    } else {
        None
    }
}

/// Tells where a server listens.
pub fn tell_place<R: Eprint>(rt: &R, opening: &Opening) {
    let address = opening.entrance.address();
    let _ = eprintln!(rt; "ocmd: listening on {address}");
}

/// Tells how many lines the log of a server that ended does not have, where there are such.
pub fn tell_log<R: Eprint>(rt: &R, left_out: u64) {
    if 0 < left_out {
        let _ = eprintln!(rt; "ocmd: the log could not be written; lines left out: {left_out}");
    }
}

/// Why a server cannot begin, with the file or the address that it is about, where that is told.
#[derive(Clone, Copy)]
struct FaultAt<'a> {
    fault: OpenFault,
    place: Place<'a>,
}

/// A file or an address behind what it is; empty where it is not told.
#[derive(Clone, Copy)]
struct Place<'a>(&'a str);

impl fmt::Display for Place<'_> {
    fn fmt<W: fmt::Write>(&self, f: &mut fmt::Formatter<W>) -> fmt::Result {
        if self.0.is_empty() {
            return Ok(());
        }
        write!(f, " {}", Shown(self.0))
    }
}

impl fmt::Display for FaultAt<'_> {
    fn fmt<W: fmt::Write>(&self, f: &mut fmt::Formatter<W>) -> fmt::Result {
        let at = self.place;
        match self.fault {
            OpenFault::KeyFile(cause) => write!(f, "the key file{at} cannot be read{cause}"),
            OpenFault::AdminFile(cause) => {
                write!(f, "the administrator's key file{at} cannot be read{cause}")
            }
            OpenFault::NoAdminKey => write!(
                f,
                "the administrator's key file{at} holds no key: 1 to 255 bytes without a control character or ':', and at most one line end"
            ),
            OpenFault::Disk(cause) => write!(f, "the disk's file{at} cannot be opened{cause}"),
            OpenFault::NoDisk => write!(
                f,
                "there is no journal{at}, and --existing makes none: for a new server make an empty file there"
            ),
            OpenFault::DiskInUse => write!(f, "another server has the disk's file{at}"),
            OpenFault::Listen(cause) => write!(f, "the address{at} cannot be listened at{cause}"),
            OpenFault::Log(cause) => write!(f, "the log's file{at} cannot be opened{cause}"),
            OpenFault::LogInUse => write!(f, "another server has the log's file{at}"),
            OpenFault::LogIsDisk => write!(f, "the log's file{at} is the disk's file"),
            OpenFault::NotLog => write!(f, "the log's file{at} holds something else than a log"),
            OpenFault::NoMemory => f.write_str("out of memory"),
        }
    }
}

impl fmt::Display for OpenFault {
    /// Why a server cannot begin, without the file or the address.
    fn fmt<W: fmt::Write>(&self, f: &mut fmt::Formatter<W>) -> fmt::Result {
        let line = FaultAt {
            fault: *self,
            place: Place(""),
        };
        write!(f, "{line}")
    }
}

/// The file or the address of a plan, or of its log, that a fault is about.
fn place_of<'a>(fault: OpenFault, plan: &'a Plan, log: &'a str) -> &'a str {
    match fault {
        OpenFault::KeyFile(_) => plan.key_file.as_str(),
        OpenFault::Disk(_) | OpenFault::NoDisk | OpenFault::DiskInUse => plan.disk.as_str(),
        OpenFault::Listen(_) => plan.listen.as_str(),
        OpenFault::Log(_) | OpenFault::LogInUse | OpenFault::LogIsDisk | OpenFault::NotLog => log,
        OpenFault::AdminFile(_) | OpenFault::NoAdminKey | OpenFault::NoMemory => "",
    }
}

/// Tells why the server of a plan cannot begin, maybe with a log at this path, and answers the status: 5 for want of memory,
/// else 12.
pub fn tell_fault<R: Eprint>(rt: &R, fault: OpenFault, plan: &Plan, log: &str) -> u8
    ensures exact { result ≡ fault_status fault }
    ensures status { IsStatus result }
{
    tell_at(rt, fault, place_of(fault, plan, log))
}

/// Tells why no key is read for the administrator from the file that the orders name, and answers the status.
pub fn tell_key_fault<R: Eprint>(rt: &R, fault: OpenFault, admin: &AdminKey) -> u8
    ensures exact { result ≡ fault_status fault }
    ensures status { IsStatus result }
{
    match admin {
        AdminKey::File(path) => tell_at(rt, fault, path.as_str()),
        AdminKey::Key(_) => tell_at(rt, fault, ""),
    }
}

/// Tells why a server cannot begin, with the file or the address that it is about, and answers the status.
fn tell_at<R: Eprint>(rt: &R, fault: OpenFault, place: &str) -> u8
    ensures exact { result ≡ fault_status fault }
    ensures status { IsStatus result }
{
    let line = FaultAt {
        fault,
        place: Place(place),
    };
    let _ = eprintln!(rt; "ocmd: {line}");
    fault.status()
}

/// Tells how the server of a plan ended, and answers the status.
pub fn tell_end<R: Eprint>(rt: &R, served: Served, plan: &Plan) -> u8
    ensures exact { result ≡ status_of served }
    ensures status { IsStatus result }
{
    let note = Note {
        served: &served,
        disk: plan.disk.as_str(),
    };
    let _ = eprintln!(rt; "ocmd: {note}");
    served_status(&served)
}
