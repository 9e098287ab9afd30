//! A disk in memory.

ghost use Rattle.std.specs.Prelude.{◌≡◌, ◌≤◌, ◌<◌, ◌+◌, ◌-◌, ◌∷◌, [], length, OnOk, OnErr, ℕ, IsOk, IsErr, None, Some};
ghost use Rattle.ocm_base.specs.Outside.{raised};
ghost use Rattle.ocm_disk.specs.Fuse.{CanBurn};
ghost use Rattle.ocm_disk.specs.Memory.{DiskState, settled, left_by};
ghost use Rattle.ocm_disk.specs.Past.{Leaves, LeftSince, only_last};
ghost use mathlib.Core.Logic.{inl, inr};
ghost use mathlib.Core.Path.{refl};

use crate::crashes::Crash;
use crate::disk::Disk;
use crate::images::Images;
use ocm_base::{Failed, NoMemory, Trace};
use std::alloc::Global;
use std::marker::Model;

/// A disk in memory. A crash leaves the bytes as they stood at the last successful sync, as they read, or as they
/// read with `ee` in place of each that was written since.
///
/// It holds its bytes about twice, and of an earlier moment none: the past is seen by contracts alone. A write, a
/// cut, a sync and a crash take no memory, and a write that ends beyond the room taken is a fault.
pub struct MemDisk {
    images: Images,
    past: Trace<Images>,
    fuse: Option<u64>,
    faults: u64,
}

impl Drop for MemDisk {
    fn drop(self) {
        let MemDisk {
            images: _,
            past: _,
            fuse: _,
            faults: _,
        } = self;
    }
}

impl Model for MemDisk {
    ghost use Rattle.ocm_disk.specs.Memory.{DiskState};

    ghost Value = { DiskState };

    ghost view = { λ d. record { images = d.images; past = d.past; fuse = d.fuse; faults = d.faults } };
}

impl MemDisk {
    /// A disk without bytes and room, that has not failed. Takes no memory.
    pub fn new(alloc: Global) -> MemDisk
        ensures { result ≡ settled [] 0 }
    {
        MemDisk {
            images: Images::new(alloc),
            past: Trace::new(),
            fuse: None,
            faults: 0,
        }
    }

    /// The bytes as they read. It is no device call.
    pub fn bytes(&self) -> &[u8]
        ensures { result.now ≡ self.now.images.seen }
    {
        self.images.bytes()
    }

    /// From now on so many device calls pass. Every later one fails, and changes nothing.
    pub fn fuse(&mut self, calls: u64)
        ensures { self.new ≡ record self.old { fuse = Some calls } }
    {
        self.fuse = Some(calls);
    }

    /// What a crash at this moment leaves: a disk without a fuse that has not failed.
    pub fn crash(self, mode: Crash) -> MemDisk
        ensures left { result ≡ settled (left_by mode self.images) result.images.limit }
        ensures room { self.images.limit ≤ result.images.limit }
    {
        let MemDisk {
            images,
            past: _,
            fuse: _,
            faults: _,
        } = self;
        let mut images = images;
        images.crash(mode);
        MemDisk {
            images,
            past: Trace::new(),
            fuse: None,
            faults: 0,
        }
    }
}

/// Burns the fuse down by one device call.
fn burn(fuse: &mut Option<u64>, faults: &mut u64) -> Result<(), Failed>
    ensures passes { (n : ℕ) → CanBurn fuse.old (n + 1) → IsOk result × CanBurn fuse.new n }
    ensures burns { (n : ℕ) → fuse.old ≡ Some (n + 1) → fuse.new ≡ Some n }
    ensures burnt { fuse.old ≡ Some 0 → IsErr result × (fuse.new ≡ Some 0) }
    ensures later { faults.old ≤ faults.new }
    ensures ok { OnOk result (faults.new ≡ faults.old) }
    ensures err { OnErr result (faults.new ≡ raised faults.old) }
{
    match *fuse {
        None => Ok(()),
        Some(0) => {
            *faults = faults.saturating_add(1);
            Err(Failed)
        }
        Some(left) => {
            *fuse = Some(left - 1);
            Ok(())
        }
    }
}

impl Disk for MemDisk {
    ghost tells = { Unit {0} };

    ghost faithful = { λ d. Unit {0} };

    ghost seen = { λ d. d.images.seen };

    ghost size = { λ d. length d.images.seen };

    ghost synced = { λ d. d.images.synced };

    ghost torn = { λ d. d.images.torn };

    ghost may_leave = { λ d. Leaves d.images };

    ghost moment = { λ d. length d.past };

    ghost left_since = { λ d. LeftSince (d.images ∷ d.past) };

    ghost count = { λ d. d.faults };

    ghost spare = { λ d. d.images.limit - length d.images.seen };

    ghost passes = { λ d n. CanBurn d.fuse n };

    ghost burnt = { λ d n. d.fuse ≡ Some n };

    ghost sizes = { λ d t. refl };

    ghost reads_an_image = { λ d. inl refl };

    ghost synced_is_an_image = { λ d. inr (inl refl) };

    ghost torn_is_an_image = { λ d. inr (inr refl) };

    ghost counts_now = { λ d t c le now. inl (le, now) };

    ghost only_now = { λ d c left. only_last d.images d.past c left };

    fn len(&self) -> u64 {
        self.images.bytes().len() as u64
    }

    fn faults(&self) -> u64 {
        self.faults
    }

    fn room(&mut self, more: u64) -> Result<(), NoMemory> {
        self.images.room(more)
    }

    fn read_at(&mut self, place: u64, buf: &mut [u8]) -> Result<(), Failed> {
        burn(&mut self.fuse, &mut self.faults)?;
        let place = place as usize;
        buf.copy_from_slice(&self.images.bytes()[place..place + buf.len()]);
        Ok(())
    }

    fn write_at(&mut self, place: u64, bytes: &[u8]) -> Result<(), Failed> {
        burn(&mut self.fuse, &mut self.faults)?;
        let place = place as usize;
        if !self.images.may_end(place + bytes.len()) {
            self.faults = self.faults.saturating_add(1);
            return Err(Failed);
        }
        // The moment before the write.
        self.past.push(&self.images);
        self.images.write(place, bytes);
        Ok(())
    }

    fn cut(&mut self, len: u64) -> Result<(), Failed> {
        burn(&mut self.fuse, &mut self.faults)?;
        self.past.push(&self.images);
        self.images.cut(len as usize);
        Ok(())
    }

    fn sync(&mut self) -> Result<(), Failed> {
        burn(&mut self.fuse, &mut self.faults)?;
        self.past.push(&self.images);
        self.images.sync();
        Ok(())
    }
}
