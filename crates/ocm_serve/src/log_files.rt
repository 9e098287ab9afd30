//! The file of a server's log, with what an administrator is told of it.
ghost use Rattle.std.specs.Prelude.{◌≡◌, [], Some, IfOk};

use ocm_base::{Failed, Sink};
use ocm_log_files::{LogFault, LogFile};
use ocm_serve_log::LogSink;
use ocm_serve_system::{Cause, OpenFault};
use std::alloc::Global;
use std::fs::{self, File, Metadata};
use std::io::{self, Eprint};
use std::os::unix::fs::MetadataExt;
use std::rt::Files;

/// The file of a server's log. An administrator is told where it can't be written, or opened where it was moved away.
pub(crate) struct ToldLog<'a, R: Eprint> {
    rt: &'a R,
    file: LogFile,
    /// Why what stands at the path can't be opened, as it was told last.
    stuck: Option<LogFault>,
    /// Whether a write failed.
    has_failed: bool,
}

impl<R: Eprint> Drop for ToldLog<'_, R> {
    fn drop(self) {
        let ToldLog {
            rt: _,
            file: _,
            stuck: _,
            has_failed: _,
        } = self;
    }
}

/// Opens the file at a path for a log, and makes it where there is none. The journal stands at another path, and is there.
/// A path of a link or a folder, a file that does not begin as a log does, one that another server has, and the journal
/// under another name are refused, and left as they are.
pub(crate) fn open_log<'a, R: Files<File = File> + Eprint>(
    rt: &'a R,
    alloc: Global,
    path: &str,
    disk: &str,
) -> Result<ToldLog<'a, R>, OpenFault>
    ensures faults { IfOk result (λ log. ⟦<LogFile as Sink>⟧.faults log.file ≡ 0) }
    ensures taken { IfOk result (λ log. ⟦<LogFile as Sink>⟧.taken log.file ≡ Some []) }
{
    check_path(rt, path, disk)?;
    match LogFile::open(rt, alloc, path) {
        Ok(file) => Ok(ToldLog {
            rt,
            file,
            stuck: None,
            has_failed: false,
        }),
        Err(fault) => Err(open_fault(fault)),
    }
}

/// Looks whether a log may stand at a path, by what stands there: nothing, or a plain file that is not the journal.
fn check_path<R: Files<File = File>>(rt: &R, path: &str, disk: &str) -> Result<(), OpenFault> {
    let Ok(found) = fs::symlink_metadata(rt, path) else {
        return Ok(());
    };
    if let Some(cause) = kind_fault(&found) {
        return Err(OpenFault::Log(cause));
    }
    match fs::metadata(rt, disk) {
        Ok(journal) if is_same(&found, &journal) => Err(OpenFault::LogIsDisk),
        Ok(_) => Ok(()),
        Err(error) => Err(OpenFault::Disk(Cause::of(&error))),
    }
}

/// Why what stands at a path is no file for a log.
fn kind_fault(found: &Metadata) -> Option<Cause> {
    if found.is_file() {
        None
    } else if found.is_dir() {
        Some(Cause::Folder)
    } else {
        Some(Cause::NoFile)
    }
}

/// Whether two are one file, under whatever names.
fn is_same(one: &Metadata, other: &Metadata) -> bool {
    one.dev() == other.dev() && one.ino() == other.ino()
}

/// Why the file of the log cannot be opened.
fn open_fault(fault: LogFault) -> OpenFault {
    match fault {
        LogFault::System(kind) => OpenFault::Log(Cause::of(&io::Error::from(kind))),
        LogFault::NoFile => OpenFault::Log(Cause::NoFile),
        LogFault::InUse => OpenFault::LogInUse,
        LogFault::NotLog => OpenFault::NotLog,
        LogFault::NoMemory => OpenFault::NoMemory,
    }
}

impl<'a, R: Eprint> Sink for ToldLog<'a, R> {
    ghost taken = { λ log. ⟦<LogFile as Sink>⟧.taken log.file };

    ghost faults = { λ log. ⟦<LogFile as Sink>⟧.faults log.file };

    fn write(&mut self, piece: &[u8]) -> Result<usize, Failed> {
        match self.file.write(piece) {
            Ok(n) => Ok(n),
            Err(Failed) => {
                self.has_failed = true;
                Err(Failed)
            }
        }
    }
}

impl<'a, R: Eprint> LogSink for ToldLog<'a, R> {
    /// Goes on in the file at the path, where that is another one. Where it can't be opened that is told, once for each cause,
    /// and so is that it was opened again.
    fn turn(&mut self) {
        match self.file.renew() {
            Ok(()) => self.tell_open(),
            Err(fault) => self.tell_stuck(fault),
        }
    }

    fn left_out(&mut self, lines: u64, _moment: u64) {
        let _ = eprintln!(self.rt;
            "ocmd: the log cannot be written, and no line is until the server is started again; lines left out: {lines}"
        );
    }
}

impl<'a, R: Eprint> ToldLog<'a, R> {
    /// Tells why what stands at the path can't be opened, where that was not told last.
    fn tell_stuck(&mut self, fault: LogFault)
        ensures { self.new.file ≡ self.old.file }
    {
        if self.was_told(fault) {
            return;
        }
        self.stuck = Some(fault);
        let fault = open_fault(fault);
        let _ = eprintln!(self.rt; "ocmd: {fault}; the log goes on in the file that is open");
    }

    /// Whether it was told last that what stands at the path can't be opened for this cause.
    fn was_told(&self, fault: LogFault) -> bool {
        match self.stuck {
            Some(told) => told == fault,
            None => false,
        }
    }

    /// Tells that lines go to the file at the path again, where it was told that they do not.
    fn tell_open(&mut self)
        ensures { self.new.file ≡ self.old.file }
    {
        if self.stuck.is_some() && !self.has_failed {
            let _ = eprintln!(self.rt; "ocmd: the log goes on in the file at its path");
        }
        self.stuck = None;
    }
}
