//! A disk in memory that sets a gate.

ghost use Rattle.std.specs.Prelude.{◌≡◌, ◌≤◌, ◌<◌, ◌-◌, ◌∷◌, length, None, Some};
ghost use Rattle.ocm_disk.specs.Fuse.{CanBurn};
ghost use Rattle.ocm_disk.specs.Past.{Leaves, LeftSince, only_last};
ghost use mathlib.Core.Logic.{inl, inr};
ghost use mathlib.Core.Path.{refl};

use crate::disk::Disk;
use crate::memory::MemDisk;
use ocm_base::{Failed, Gate, NoMemory};
use std::alloc::Global;
use std::marker::Model;
use std::sync::Arc;

/// A disk in memory that sets a gate once so many syncs passed, each with a write since the one before it. As a disk it
/// is the one that it was made of; of its gate contracts know nothing.
pub struct GateDisk {
    disk: MemDisk,
    /// How many such syncs are still to pass before the gate is set.
    left: u64,
    /// Whether a write passed since the last sync that did.
    written: bool,
    set: Arc<Gate, Global>,
}

impl Drop for GateDisk {
    fn drop(self) {
        let GateDisk {
            disk: _,
            left: _,
            written: _,
            set: _,
        } = self;
    }
}

impl Model for GateDisk {
    ghost use Rattle.ocm_disk.specs.Memory.{DiskState};

    ghost Value = { DiskState };

    ghost view = { λ g. g.disk };
}

impl GateDisk {
    /// This disk. It sets the gate when sync number `syncs` passed, of those that have a write since the one before.
    pub fn new(disk: MemDisk, syncs: u64, set: Arc<Gate, Global>) -> GateDisk
        requires { 1 ≤ syncs }
        ensures { result ≡ disk }
    {
        GateDisk {
            disk,
            left: syncs,
            written: false,
            set,
        }
    }

    /// Counts a sync that passed.
    fn count_sync(&mut self)
        ensures { self.new ≡ self.old }
    {
        if self.written && self.left == 1 {
            self.set.set();
        }
        if self.written {
            self.left = self.left.saturating_sub(1);
        }
        self.written = false;
    }
}

impl Disk for GateDisk {
    ghost tells = { Unit {0} };

    ghost faithful = { λ d. Unit {0} };

    ghost seen = { λ d. d.images.seen };

    ghost size = { λ d. length d.images.seen };

    ghost synced = { λ d. d.images.synced };

    ghost torn = { λ d. d.images.torn };

    ghost may_leave = { λ d. Leaves d.images };

    ghost moment = { λ d. length d.past };

    ghost left_since = { λ d. LeftSince (d.images ∷ d.past) };

    ghost count = { λ d. d.faults };

    ghost spare = { λ d. d.images.limit - length d.images.seen };

    ghost passes = { λ d n. CanBurn d.fuse n };

    ghost burnt = { λ d n. d.fuse ≡ Some n };

    ghost sizes = { λ d t. refl };

    ghost reads_an_image = { λ d. inl refl };

    ghost synced_is_an_image = { λ d. inr (inl refl) };

    ghost torn_is_an_image = { λ d. inr (inr refl) };

    ghost counts_now = { λ d t c le now. inl (le, now) };

    ghost only_now = { λ d c left. only_last d.images d.past c left };

    fn len(&self) -> u64 {
        self.disk.len()
    }

    fn faults(&self) -> u64 {
        self.disk.faults()
    }

    fn room(&mut self, more: u64) -> Result<(), NoMemory> {
        self.disk.room(more)
    }

    fn read_at(&mut self, place: u64, buf: &mut [u8]) -> Result<(), Failed> {
        self.disk.read_at(place, buf)
    }

    fn write_at(&mut self, place: u64, bytes: &[u8]) -> Result<(), Failed> {
        self.disk.write_at(place, bytes)?;
        self.written = true;
        Ok(())
    }

    fn cut(&mut self, len: u64) -> Result<(), Failed> {
        self.disk.cut(len)
    }

    fn sync(&mut self) -> Result<(), Failed> {
        self.disk.sync()?;
        self.count_sync();
        Ok(())
    }
}
