ghost use Rattle.std.specs.Prelude.{◌≡◌, ◌↔◌, ℕ, List, IsTrue, Some};
ghost use Rattle.ocm_journal.specs.Journals.{disk_of, area_of, form_of, IsStopped, SameShape, StandsFor};

use crate::journal::Journal;
use ocm_disk::{Disk, MemDisk};

impl<D: Disk> Journal<D> {
    /// How many bytes each of the two areas has.
    pub fn area(&self) -> u64
        ensures { result ≡ area_of self.now }
    {
        self.area
    }

    /// The form of the live area, 1 or 2.
    pub fn form(&self) -> u8
        ensures { result ≡ form_of self.now }
    {
        self.form
    }

    /// Whether an earlier append or renewal answered a fault of the disk. No further one may be made then.
    pub fn is_stopped(&self) -> bool
        ensures { IsTrue result ↔ IsStopped self.now }
    {
        self.stopped
    }

    /// The disk that it is on.
    pub fn into_disk(self) -> D
        ensures { result ≡ disk_of self }
    {
        self.into_inner()
    }
}

impl Journal<MemDisk> {
    /// From now on so many device calls of its disk pass. Every later one fails, and changes nothing.
    pub fn fuse(&mut self, calls: u64)
        ensures disk { disk_of self.new ≡ record (disk_of self.old) { fuse = Some calls } }
        ensures shape { SameShape self.old self.new }
        ensures stopped { self.new.stopped ≡ self.old.stopped }
        ensures stands { (label : List ℕ) (records : List (List ℕ)) → StandsFor ⟦<MemDisk as Disk>⟧ label records self.old → StandsFor ⟦<MemDisk as Disk>⟧ label records self.new }
    {
        self.disk.fuse(calls);
    }
}
