//! A disk over a real file.

ghost use Rattle.std.specs.Prelude.{◌≡◌, ◌≤◌, ◌^◌, length, IfOk, OnOk, OnErr};
ghost use Rattle.ocm_base.specs.Outside.{raised};
ghost use Rattle.ocm_disk.specs.Accounts.{AreFaithful, MayLeave, MightLeave, at_sync, fitted, ruined_since, shown};
ghost use Rattle.ocm_disk.specs.Disk.{Only};
ghost use Rattle.ocm_disk.specs.AccountLaws.{leaves_at_sync, leaves_ruined, leaves_shown, might_now, only_now};

use crate::accounts::FileStep;
use crate::disk::Disk;
use ocm_base::{Failed, GhostBytes, NoMemory, Trace};
use std::fs::File;
use std::io;
use std::os::unix::fs::{FileExt, OpenOptionsExt};
use std::path::Path;
use std::rt::Files;

/// Who may open a file that was made: its owner alone, since it holds keys.
const MODE: u32 = 0o600;

/// How many zeros are written behind a write that lengthens the file, in pieces of the size below: 1 MiB. While writes
/// stay within them the file's length stays, so that a sync writes the bytes alone and not also how long the file is.
const PIECES_AHEAD: u64 = 64;

const PIECE: &[u8; 16_384] = &[0; 16_384];

/// A file that is shorter than this ends where it was written.
const AHEAD_FROM: u64 = 514;

/// What is done where there is no file.
#[derive(Clone, Copy, Debug)]
pub enum Missing {
    /// It is made.
    Make,
    /// It is an error, `NotFound`.
    Refuse,
}

/// A disk over a real file, which counts its faults. A call that a signal interrupted is tried again. Room is free. The file
/// may have up to 1 MiB of zeros behind what was written; when it is opened again they belong to it.
///
/// It tells what it holds by an account: the bytes that it was said to have when it was opened, what its reads gave, and what
/// was written, cut and synced since. That the file under it holds the same is no claim of its.
pub struct FileDisk {
    file: File,
    /// How many bytes the disk has.
    len: u64,
    /// How many bytes the file has at least: those of the disk, and zeros. No zeros are laid before it.
    laid: u64,
    /// Whether zeros are laid behind what is written: until the system refuses some, as a full file system does.
    lays: bool,
    faults: u64,
    /// What was done to it.
    account: Trace<FileStep>,
    ghost sized: { length (shown account) ≡ len },
}

impl Drop for FileDisk {
    fn drop(self) {
        let FileDisk {
            file: _,
            len: _,
            laid: _,
            lays: _,
            faults: _,
            account: _,
        } = self;
    }
}

impl FileDisk {
    /// Opens the file at a path. While it is open, no second `FileDisk` opens it, in this process or another: that fails
    /// with `WouldBlock`. A file that was made is in its folder after a crash, and what a file holds when it is opened is
    /// synced. What that is, is said by the caller, for contracts alone.
    pub fn open<R: Files<File = File>>(
        files: &R,
        path: &str,
        missing: Missing,
        holds: GhostBytes,
    ) -> io::Result<FileDisk>
        ensures count { IfOk result (λ d. ⟦<FileDisk as Disk>⟧.count d ≡ 0) }
        ensures holds { IfOk result (λ d. ⟦<FileDisk as Disk>⟧.seen d ≡ fitted (⟦<FileDisk as Disk>⟧.size d) holds.bytes) }
        ensures faithful { IfOk result (λ d. ⟦<FileDisk as Disk>⟧.faithful d) }
        ensures settled { IfOk result (λ d. Only (⟦<FileDisk as Disk>⟧.seen d) (⟦<FileDisk as Disk>⟧.may_leave d)) }
    {
        let file = File::options()
            .read(true)
            .write(true)
            .create(matches!(missing, Missing::Make))
            .mode(MODE)
            .open(files, path)?;
        file.try_lock()?;
        sync_folder(files, path)?;
        file.sync_data()?;
        let len = file.metadata()?.len();
        let mut account = Trace::new();
        account.push(&FileStep::Opened(len, holds));
        Ok(FileDisk {
            file,
            len,
            laid: len,
            lays: true,
            faults: 0,
            account,
        })
    }

    /// Writes zeros behind a place at which a write is about to end, where it lengthens the file. Where the system
    /// refuses, that write and those that follow lengthen the file by themselves.
    fn lay_ahead(&mut self, end: u64)
        requires { end ≤ 2 ^ 40 }
        ensures len { self.new.len ≡ self.old.len }
        ensures faults { self.new.faults ≡ self.old.faults }
        ensures account { self.new.account ≡ self.old.account }
    {
        if !self.lays || end <= self.laid || self.len < AHEAD_FROM {
            return;
        }
        if self.lay_zeros(end) {
            self.laid = end + PIECES_AHEAD * 16_384;
        } else {
            self.stop_laying();
        }
    }

    /// Writes zeros behind this place. False where the system refused some.
    fn lay_zeros(&self, end: u64) -> bool
        requires { end ≤ 2 ^ 40 }
    {
        for piece in 0..PIECES_AHEAD {
            if self.file.write_all_at(PIECE, end + piece * 16_384).is_err() {
                return false;
            }
        }
        true
    }

    /// Takes zeros back of which only a part could be laid, so that what is written has their room, and lays none until
    /// the disk is opened again. Where the system refuses that too they stay, and belong to the file.
    fn stop_laying(&mut self)
        ensures len { self.new.len ≡ self.old.len }
        ensures faults { self.new.faults ≡ self.old.faults }
        ensures account { self.new.account ≡ self.old.account }
    {
        self.lays = false;
        let _taken = self.file.set_len(self.laid);
    }

    /// Counts a fault where the system told one.
    fn told(&mut self, tell: io::Result<()>) -> Result<(), Failed>
        ensures len { self.new.len ≡ self.old.len }
        ensures account { self.new.account ≡ self.old.account }
        ensures ok { OnOk result (self.new.faults ≡ self.old.faults) }
        ensures err { OnErr result (self.new.faults ≡ raised self.old.faults) }
        ensures later { self.old.faults ≤ self.new.faults }
    {
        match tell {
            Ok(()) => Ok(()),
            Err(_) => {
                self.faults = self.faults.saturating_add(1);
                Err(Failed)
            }
        }
    }
}

/// Syncs the folder of a path.
fn sync_folder<R: Files<File = File>>(files: &R, path: &str) -> io::Result<()> {
    let folder = match Path::new(path).parent() {
        Some(folder) if !folder.as_str().is_empty() => folder,
        _ => Path::new("."),
    };
    File::open(files, folder)?.sync_all()
}

impl Disk for FileDisk {
    ghost tells = { Unit {0} };

    ghost faithful = { λ d. AreFaithful d.account };

    ghost seen = { λ d. shown d.account };

    ghost size = { λ d. d.len };

    ghost synced = { λ d. at_sync d.account };

    ghost torn = { λ d. ruined_since d.account };

    ghost may_leave = { λ d. MayLeave d.account };

    ghost moment = { λ d. length d.account };

    ghost left_since = { λ d. MightLeave d.account };

    ghost count = { λ d. d.faults };

    ghost spare = { λ d. 2 ^ 64 };

    ghost passes = { λ d n. ⊥ };

    ghost burnt = { λ d n. ⊥ };

    ghost sizes = { λ d t. d.sized };

    ghost reads_an_image = { λ d. leaves_shown d.account };

    ghost synced_is_an_image = { λ d. leaves_at_sync d.account };

    ghost torn_is_an_image = { λ d. leaves_ruined d.account };

    ghost counts_now = { λ d t c le now. might_now d.account t c le now };

    ghost only_now = { λ d c left. only_now d.account c left };

    fn len(&self) -> u64 {
        self.len
    }

    fn faults(&self) -> u64 {
        self.faults
    }

    fn room(&mut self, _more: u64) -> Result<(), NoMemory> {
        Ok(())
    }

    fn read_at(&mut self, place: u64, buf: &mut [u8]) -> Result<(), Failed> {
        let tell = self.file.read_exact_at(buf, place);
        self.told(tell)?;
        self.account
            .push(&FileStep::Read(place, GhostBytes::of(buf)));
        Ok(())
    }

    fn write_at(&mut self, place: u64, bytes: &[u8]) -> Result<(), Failed> {
        let end = place + bytes.len() as u64;
        self.lay_ahead(end);
        let tell = self.file.write_all_at(bytes, place);
        if self.told(tell).is_err() {
            self.account
                .push(&FileStep::WroteInPart(place, bytes.len() as u64));
            return Err(Failed);
        }
        self.account
            .push(&FileStep::Wrote(place, GhostBytes::of(bytes)));
        self.len = self.len.max(end);
        self.laid = self.laid.max(end);
        Ok(())
    }

    fn cut(&mut self, len: u64) -> Result<(), Failed> {
        let tell = self.file.set_len(len);
        if self.told(tell).is_err() {
            self.account.push(&FileStep::ShortenedInPart(len));
            return Err(Failed);
        }
        self.account.push(&FileStep::Shortened(len));
        self.len = len;
        self.laid = len;
        Ok(())
    }

    fn sync(&mut self) -> Result<(), Failed> {
        let tell = self.file.sync_data();
        self.told(tell)?;
        self.account.push(&FileStep::Synced);
        Ok(())
    }
}
