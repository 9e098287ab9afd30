ghost use Rattle.std.specs.Prelude.{◌≡◌, ◌⊎◌, ◌<◌, ◌≤◌, ◌+◌, ◌^◌, ◌∷◌, [], ◌++◌, ◌↔◌, ℕ, List, length, OnOk, OnErr, IsOk, IsErr, IfErr, IsErrOf, true, false};
ghost use Rattle.ocm_base.specs.Outside.{raised};
ghost use Rattle.ocm_disk.specs.Disk.{LeavesOnly};
ghost use Rattle.ocm_journal.specs.AfterFaults.{AfterFault};
ghost use Rattle.ocm_journal.specs.Faults.{HasCount, stops};
ghost use Rattle.ocm_journal.specs.Journals.{IsBeforeOrAfter, IsImageWith, disk_of, first_is_live, IsFullFor, IsStopped, HasRoom, IsShut, SameShape, StandsFor};

use crate::journal::Journal;
use crate::steps::put_behind;
use ocm_base::NoMemory;
use ocm_disk::Disk;
use ocm_journal_image::FramedRecord;

/// Why a record was not appended.
#[derive(Clone, Copy, Debug, PartialEq, Eq)]
pub enum AppendFault {
    /// It would pass the end of the live area. Nothing was written.
    Full,
    /// The disk failed. Its count of faults is now this. The record may be there after a crash or not.
    DiskFault(u64),
}

impl<D: Disk> Journal<D> {
    /// Takes the memory that the disk needs for a record of `n` bytes, and answers `NoMemory` where it finds none. It is no
    /// device call.
    pub fn room(&mut self, n: u64) -> Result<(), NoMemory>
        ensures room { OnOk result (HasRoom ⟦<D as Disk>⟧ self.new n) }
        ensures shape { SameShape self.old self.new }
        ensures stopped { self.new.stopped ≡ self.old.stopped }
        ensures stands { D.tells → (label : List ℕ) (records : List (List ℕ)) → StandsFor ⟦<D as Disk>⟧ label records self.old → StandsFor ⟦<D as Disk>⟧ label records self.new }
        ensures any_moment { D.tells → LeavesOnly D.moment D.left_since (disk_of self.old) (disk_of self.new) (D.may_leave (disk_of self.old)) }
        ensures passes { (calls : ℕ) → D.passes (disk_of self.old) calls → D.passes (disk_of self.new) calls }
        ensures burnt { (left : ℕ) → D.burnt (disk_of self.old) left → D.burnt (disk_of self.new) left }
        ensures count { D.count (disk_of self.new) ≡ D.count (disk_of self.old) }
    {
        let Some(size) = n.checked_add(5) else {
            return Err(NoMemory);
        };
        self.disk.room(size)
    }

    /// Appends a record of 1 to 2,097,152 bytes, for which room was taken. At `Ok` it is on the disk: from then on
    /// each crash leaves it there. It is written as it is, and not copied. Takes no memory.
    pub fn append(&mut self, framed: &FramedRecord) -> Result<(), AppendFault>
        requires size { (1 ≤ length framed.now) × (length framed.now ≤ 2097152) }
        requires room { HasRoom ⟦<D as Disk>⟧ self.old (length framed.now) }
        requires goes { self.old.stopped ≡ false }
        ensures acknowledged { D.tells → (label : List ℕ) (records : List (List ℕ)) → StandsFor ⟦<D as Disk>⟧ label records self.old
            → OnOk result (StandsFor ⟦<D as Disk>⟧ label (records ++ framed.now ∷ []) self.new) }

        // The gate behind the record is closed by 00.
        ensures shut { D.tells → OnOk result (IsShut ⟦<D as Disk>⟧ self.new) }

        // A crash at any moment of the call leaves an image of the records from before it, with the new one or without.
        ensures any_moment { D.tells → (label : List ℕ) (records : List (List ℕ)) → StandsFor ⟦<D as Disk>⟧ label records self.old
            → LeavesOnly D.moment D.left_since (disk_of self.old) (disk_of self.new) (IsBeforeOrAfter label self.old.area self.old.form records framed.now) }
        ensures full { IsErrOf result AppendFault.Full ↔ IsFullFor self.old (length framed.now) }
        ensures unchanged { IsErrOf result AppendFault.Full → self.new ≡ self.old }
        ensures fault { IfErr result (HasCount (D.count (disk_of self.old)) (D.count (disk_of self.new))) }
        ensures count { OnOk result (D.count (disk_of self.new) ≡ D.count (disk_of self.old)) }
        ensures stopped { self.new.stopped ≡ stops result }
        ensures shape { SameShape self.old self.new }

        // Where it answers Ok it has made four device calls, and where fewer are left it fails.
        ensures calls { (left : ℕ) → D.burnt (disk_of self.old) (left + 4) → OnOk result (D.burnt (disk_of self.new) left) }
        ensures fewer { (left : ℕ) → left < 4 → D.burnt (disk_of self.old) left → IsErr result }
        ensures passes { (calls : ℕ) → D.passes (disk_of self.old) (calls + 4) → IsErrOf result AppendFault.Full ⊎ (IsOk result × D.passes (disk_of self.new) calls) }

        // What stands on the disk where the calls that were left ended within it.
        ensures after_fault { D.tells → (label : List ℕ) (records : List (List ℕ)) (left : ℕ) → StandsFor ⟦<D as Disk>⟧ label records self.old → IsStopped self.new
            → D.passes (disk_of self.old) left → D.burnt (disk_of self.old) left
            → AfterFault ⟦<D as Disk>⟧ left false (IsImageWith (first_is_live self.old) label self.old.area self.old.form records) (IsImageWith (first_is_live self.old) label self.old.area self.old.form (records ++ framed.now ∷ [])) (disk_of self.new) }
    {
        let size = framed.len() as u64;
        if self.start + self.area < self.gate + size + 6 {
            return Err(AppendFault::Full);
        }
        let text = framed.as_written();
        if put_behind(&mut self.disk, self.gate + 1, text, self.gate, 1).is_err() {
            self.stopped = true;
            return Err(AppendFault::DiskFault(self.disk.faults()));
        }
        self.gate += size + 5;
        Ok(())
    }
}
