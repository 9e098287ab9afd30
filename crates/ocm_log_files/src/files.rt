//! The file of a log.
ghost use Rattle.std.specs.Prelude.{◌≡◌, ◌<◌, Some, [], IfOk, OnErr};

use crate::descriptors::Descriptor;
use crate::faults::LogFault;
use crate::lines::{begins_as_log, cut_to_lines, end_alike};
use ocm_base::{Failed, GhostBytes, Sink, Text};
use std::alloc::Global;
use std::io::ErrorKind;
use std::rt::Files;

/// The file of a log. What it holds stays, except for what stands behind its last line end: a line that was cut. It is locked
/// while it is open. It tells what the system took of it since then, as the system answered.
pub struct LogFile {
    path: Text,
    file: Descriptor,
    faults: u64,
    taken: GhostBytes,
}

impl Drop for LogFile {
    fn drop(self) {
        let LogFile {
            path: _,
            file: _,
            faults: _,
            taken: _,
        } = self;
    }
}

impl LogFile {
    /// Opens the file at a path for a log, and makes it where there is none, for its owner alone. A link, what is no plain
    /// file, a file that is locked, and one that does not begin as a log does are refused, and left as they are.
    pub fn open(_files: &impl Files, alloc: Global, path: &str) -> Result<LogFile, LogFault>
        ensures faults { IfOk result (λ file. ⟦<LogFile as Sink>⟧.faults file ≡ 0) }
        ensures taken { IfOk result (λ file. ⟦<LogFile as Sink>⟧.taken file ≡ Some []) }
    {
        let Ok(name) = Text::of(alloc, path) else {
            return Err(LogFault::NoMemory);
        };
        match open_lines(path) {
            Ok(file) => Ok(LogFile {
                path: name,
                file,
                faults: 0,
                taken: GhostBytes::new(),
            }),
            Err(fault) => {
                drop(name);
                Err(fault)
            }
        }
    }

    /// Goes on in the file at the path where that is another one, since this one was moved away: it is opened, or made where
    /// there is none, as [`LogFile::open`] does. Where another can't be opened, also since another has it locked, it goes on in
    /// this one. This one is known by its lock, its length and its last bytes: of another file that is locked and has the same,
    /// as an empty one beside an empty one, nothing is told before one of the two grows. Behind a write that failed no line
    /// follows, and no file is opened.
    pub fn renew(&mut self) -> Result<(), LogFault>
        ensures faults { ⟦<LogFile as Sink>⟧.faults self.new ≡ ⟦<LogFile as Sink>⟧.faults self.old }
        ensures taken { ⟦<LogFile as Sink>⟧.taken self.new ≡ ⟦<LogFile as Sink>⟧.taken self.old }
        ensures failed { 0 < ⟦<LogFile as Sink>⟧.faults self.old → self.new ≡ self.old }
        ensures err { OnErr result (self.new ≡ self.old) }
    {
        if 0 < self.faults {
            return Ok(());
        }
        let found = open_file(self.path.as_str())?;
        match take(&found) {
            Ok(()) => {
                self.file = found;
                Ok(())
            }
            Err(fault) => {
                let is_own = fault == LogFault::InUse
                    && end_alike(&self.file, &found).unwrap_or(false);
                drop(found);
                if is_own { Ok(()) } else { Err(fault) }
            }
        }
    }
}

/// Opens the file at a path to write behind its last line end, and locks it.
fn open_lines(path: &str) -> Result<Descriptor, LogFault> {
    let file = open_file(path)?;
    match take(&file) {
        Ok(()) => Ok(file),
        Err(fault) => {
            drop(file);
            Err(fault)
        }
    }
}

/// Opens the file at a path, or makes it where there is none.
fn open_file(path: &str) -> Result<Descriptor, LogFault> {
    if is_link(path) {
        return Err(LogFault::NoFile);
    }
    match Descriptor::open(path) {
        Ok(file) => Ok(file),
        Err(error) if error.kind() == ErrorKind::NotFound => {
            Descriptor::make(path).map_err(LogFault::from)
        }
        Err(error) => Err(LogFault::from(error)),
    }
}

/// Whether a link stands at a path.
fn is_link(path: &str) -> bool {
    let mut text = [0u8; 1];
    0 < os::readlink(path.as_bytes(), &mut text)
}

/// Locks a file for a log, and cuts it behind its last line end.
fn take(file: &Descriptor) -> Result<(), LogFault> {
    file.lock()?;
    let Ok(len) = file.len() else {
        return Err(LogFault::NoFile);
    };
    if len == 0 {
        return file.is_plain().then_some(()).ok_or(LogFault::NoFile);
    }
    if !begins_as_log(file, len)? {
        return Err(LogFault::NotLog);
    }
    cut_to_lines(file, len)?;
    Ok(())
}

impl Sink for LogFile {
    ghost taken = { λ file. Some file.taken.bytes };

    ghost faults = { λ file. file.faults };

    fn write(&mut self, piece: &[u8]) -> Result<usize, Failed> {
        match self.file.add(piece) {
            Ok(n) => {
                self.taken = self.taken.and(piece, n);
                Ok(n)
            }
            Err(Failed) => {
                self.faults = self.faults.saturating_add(1);
                Err(Failed)
            }
        }
    }
}
