//! The bytes of a disk in memory: as they read, as they stood at the last sync, and which were written since.

ghost use Rattle.std.specs.Prelude.{◌≡◌, ◌≤◌, ◌+◌, ◌^◌, ◌++◌, ◌↔◌, [], length, take, drop, replicate, OnOk, IsTrue};
ghost use Rattle.ocm_disk.specs.Memory.{left_by};
ghost use Rattle.ocm_disk.specs.Marks.{ruined};

use crate::crashes::Crash;
use crate::marks::{mark, ruin, unmark};
use crate::overwrite::overwrite;
use ocm_base::NoMemory;
use std::alloc::Global;
use std::marker::Model;
use std::mem;

/// Two copies of the bytes, and a mark for each byte that was written since the last sync. What differs, and what is
/// marked, lies from one place up to another, so that a sync costs what was written and not what there is.
#[derive(Drop)]
pub(crate) struct Images {
    seen: Vec<u8>,
    synced: Vec<u8>,
    marks: Vec<u8>,
    from: usize,
    to: usize,
}

impl Model for Images {
    ghost use Rattle.std.specs.Prelude.{◌*◌, min, vec_len, vec_capacity};
    ghost use Rattle.ocm_disk.specs.Memory.{ImagesState};
    ghost use Rattle.ocm_disk.specs.Marks.{IsTracked, ruined};

    ghost Value = { ImagesState };

    ghost view = { λ s. record { seen = s.seen.items; synced = s.synced.items; torn = ruined s.marks.items s.seen.items; limit = min (vec_capacity s.seen) (min (vec_capacity s.synced) (8 * vec_len s.marks)) } };

    ghost invariant = { λ s. IsTracked s.seen.items s.synced.items s.marks.items s.from s.to (min (vec_capacity s.seen) (min (vec_capacity s.synced) (8 * vec_len s.marks))) };
}

impl Images {
    /// No bytes. Takes no memory.
    pub(crate) fn new(alloc: Global) -> Images
        ensures { result ≡ record { seen = []; synced = []; torn = []; limit = 0 } }
    {
        Images {
            seen: Vec::new(alloc),
            synced: Vec::new(alloc),
            marks: Vec::new(alloc),
            from: 0,
            to: 0,
        }
    }

    /// The bytes as they read.
    pub(crate) fn bytes(&self) -> &[u8]
        ensures { result.now ≡ self.now.seen }
    {
        &self.seen
    }

    /// Whether a write may end at this place without memory.
    pub(crate) fn may_end(&self, end: usize) -> bool
        ensures room { IsTrue result ↔ (end ≤ self.now.limit) }
        ensures within { length self.now.seen ≤ self.now.limit }
    {
        end <= self.seen.capacity()
            && end <= self.synced.capacity()
            && end.div_ceil(8) <= self.marks.len()
    }

    /// Writes over what is there, and past the end.
    pub(crate) fn write(&mut self, place: usize, bytes: &[u8])
        requires place { place ≤ length self.old.seen }
        requires room { place + length bytes.now ≤ self.old.limit }
        requires small { place + length bytes.now ≤ 2 ^ 40 }
        ensures seen { self.new.seen ≡ take place self.old.seen ++ bytes.now ++ drop (place + length bytes.now) self.old.seen }
        ensures synced { self.new.synced ≡ self.old.synced }
        ensures torn { self.new.torn ≡ take place self.old.torn ++ replicate (length bytes.now) 238 ++ drop (place + length bytes.now) self.old.torn }
        ensures level { length self.old.torn ≡ length self.old.seen }
        ensures limit { self.old.limit ≤ self.new.limit }
    {
        let end = place + bytes.len();
        overwrite(&mut self.seen, place, bytes);
        mark(&mut self.marks, place, end);
        self.from = self.from.min(place);
        self.to = self.to.max(end);
    }

    /// Cuts to a length.
    pub(crate) fn cut(&mut self, len: usize)
        ensures seen { self.new.seen ≡ take len self.old.seen }
        ensures synced { self.new.synced ≡ self.old.synced }
        ensures torn { self.new.torn ≡ take len self.old.torn }
        ensures limit { self.old.limit ≤ self.new.limit }
    {
        self.from = self.from.min(len);
        self.to = self.to.max(self.seen.len());
        self.seen.truncate(len);
    }

    /// Makes what stood at the last sync what is read.
    pub(crate) fn sync(&mut self)
        ensures seen { self.new.seen ≡ self.old.seen }
        ensures synced { self.new.synced ≡ self.old.seen }
        ensures torn { self.new.torn ≡ self.old.seen }
        ensures limit { self.old.limit ≤ self.new.limit }
    {
        let end = self.to.min(self.seen.len()).max(self.from);
        overwrite(&mut self.synced, self.from, &self.seen[self.from..end]);
        self.synced.truncate(self.seen.len());
        unmark(&mut self.marks, self.from, self.to);
        self.from = self.seen.len();
        self.to = 0;
    }

    /// Takes memory for so many bytes more.
    pub(crate) fn room(&mut self, more: u64) -> Result<(), NoMemory>
        ensures ok { OnOk result (length self.old.seen + more ≤ self.new.limit) }
        ensures seen { self.new.seen ≡ self.old.seen }
        ensures synced { self.new.synced ≡ self.old.synced }
        ensures torn { self.new.torn ≡ self.old.torn }
        ensures limit { self.old.limit ≤ self.new.limit }
    {
        let more = more as usize;
        let Some(end) = self.seen.len().checked_add(more) else {
            return Err(NoMemory);
        };
        self.seen.reserve(more)?;
        self.synced.reserve(end.saturating_sub(self.synced.len()))?;
        let words = end.div_ceil(8).max(self.marks.len());
        self.marks.resize(words, 0)?;
        Ok(())
    }

    /// Leaves what a crash leaves, all of it synced.
    pub(crate) fn crash(&mut self, mode: Crash)
        ensures seen { self.new.seen ≡ left_by mode self.old }
        ensures synced { self.new.synced ≡ left_by mode self.old }
        ensures torn { self.new.torn ≡ left_by mode self.old }
        ensures limit { self.old.limit ≤ self.new.limit }
    {
        match mode {
            Crash::Old => self.swap(),
            Crash::New => {}
            Crash::Torn => self.ruin(),
        }
        self.sync();
    }

    fn swap(&mut self)
        ensures seen { self.new.seen ≡ self.old.synced }
        ensures limit { self.old.limit ≤ self.new.limit }
    {
        mem::swap(&mut self.seen, &mut self.synced);
    }

    fn ruin(&mut self)
        ensures seen { self.new.seen ≡ self.old.torn }
        ensures limit { self.old.limit ≤ self.new.limit }
    {
        ruin(&mut self.seen, &self.marks);
    }
}
