ghost use Rattle.std.specs.Prelude.{◌≡◌, ◌≢◌, ◌⊎◌, ◌<◌, ◌≤◌, ◌+◌, ◌↔◌, ℕ, List, OnOk, IsOk, IsErr, IfErr, IsErrOf, false, not};
ghost use Rattle.ocm_disk.specs.Disk.{LeavesOnly};
ghost use Rattle.ocm_journal_image.specs.Layout.{blocks_size};
ghost use Rattle.ocm_journal.specs.AfterFaults.{AfterFault};
ghost use Rattle.ocm_journal.specs.Renewals.{HasCount, stops};
ghost use Rattle.ocm_journal.specs.Journals.{IsImageWith, IsOldOrNew, IsSelected, IsShut, IsStopped, disk_of, first_is_live, StandsFor};

use crate::journal::Journal;
use crate::steps::put_behind;
use ocm_base::NoMemory;
use ocm_disk::Disk;
use ocm_journal_area::AreaRecords;

/// Why the records of a journal were not renewed.
#[derive(Clone, Copy, Debug, PartialEq, Eq)]
pub enum RenewFault {
    /// They take more bytes than an area has. Nothing was written.
    Full,
    /// The disk failed. Its count of faults is now this. After a crash there are the old records or the new ones.
    DiskFault(u64),
    /// There was no memory. Nothing was written.
    NoMemory,
}

impl From<NoMemory> for RenewFault {
    ghost use Rattle.std.specs.Prelude.{◌≡◌};
    ghost use Rattle.ocm_journal.specs.declared.renewing.RenewFault.TheVariants.{NoMemory};

    ghost from_gives = { λ _ fault. fault ≡ NoMemory };

    fn from(_error: NoMemory) -> RenewFault {
        RenewFault::NoMemory
    }
}

// Where the other area begins, and the selector byte that makes it live.
fn other_area(start: u64, area: u64) -> (u64, u8)
    requires { area ≤ 274877906944 }
    ensures second { start ≡ 512 → (result.0 ≡ 512 + area) × (result.1 ≡ 2) }
    ensures first { start ≢ 512 → (result.0 ≡ 512) × (result.1 ≡ 1) }
    ensures low { 512 ≤ result.0 }
    ensures high { result.0 ≤ 512 + area }
{
    if start == 512 {
        (512 + area, 2)
    } else {
        (512, 1)
    }
}

impl<D: Disk> Journal<D> {
    /// Puts these records, each of 1 to 2,097,152 bytes, in place of all that the journal holds. They are written to
    /// the other area in form 2, which is then made live. At `Ok` they are on the disk.
    pub fn renew(&mut self, records: AreaRecords) -> Result<(), RenewFault>
        requires goes { self.old.stopped ≡ false }
        ensures acknowledged { D.tells → (label : List ℕ) (before : List (List ℕ)) → StandsFor ⟦<D as Disk>⟧ label before self.old
            → OnOk result (StandsFor ⟦<D as Disk>⟧ label records self.new) }

        // The gate behind the records is closed by 00, and the selector is 01 or 02.
        ensures shut { D.tells → OnOk result (IsShut ⟦<D as Disk>⟧ self.new) }
        ensures selected { D.tells → OnOk result (IsSelected ⟦<D as Disk>⟧ self.new) }

        // A crash at any moment of the call leaves an image of the old records or of the new ones.
        ensures any_moment { D.tells → (label : List ℕ) (before : List (List ℕ)) → StandsFor ⟦<D as Disk>⟧ label before self.old
            → LeavesOnly D.moment D.left_since (disk_of self.old) (disk_of self.new) (IsOldOrNew label self.old.area self.old.form before records) }
        ensures full { IsErrOf result RenewFault.Full → self.old.area < 2 + blocks_size records }
        ensures not_full { self.old.area < 2 + blocks_size records → IsErrOf result RenewFault.Full }
        ensures unchanged { IsErrOf result RenewFault.Full → self.new ≡ self.old }
        ensures memory { D.tells → (label : List ℕ) (before : List (List ℕ)) → StandsFor ⟦<D as Disk>⟧ label before self.old
            → IsErrOf result RenewFault.NoMemory → StandsFor ⟦<D as Disk>⟧ label before self.new }
        ensures fault { IfErr result (HasCount (D.count (disk_of self.old)) (D.count (disk_of self.new))) }
        ensures count { OnOk result (D.count (disk_of self.new) ≡ D.count (disk_of self.old)) }

        // Where it found no memory it has made no device call.
        ensures no_fault { IsErrOf result RenewFault.NoMemory → D.count (disk_of self.new) ≡ D.count (disk_of self.old) }
        ensures no_call { IsErrOf result RenewFault.NoMemory → (left : ℕ) → (D.burnt (disk_of self.old) left → D.burnt (disk_of self.new) left) × (D.passes (disk_of self.old) left → D.passes (disk_of self.new) left) }
        ensures stopped { self.new.stopped ≡ stops result }
        ensures area { self.new.area ≡ self.old.area }
        ensures form { OnOk result (self.new.form ≡ 2) }
        ensures form_kept { IsErrOf result RenewFault.NoMemory → self.new.form ≡ self.old.form }
        ensures live_kept { IsErrOf result RenewFault.NoMemory → first_is_live self.new ≡ first_is_live self.old }

        // Where it answers Ok it has made four device calls, and where fewer are left it fails.
        ensures calls { (left : ℕ) → D.burnt (disk_of self.old) (left + 4) → OnOk result (D.burnt (disk_of self.new) left) }
        ensures fewer { (left : ℕ) → left < 4 → D.burnt (disk_of self.old) left → IsErr result }
        ensures passes { (calls : ℕ) → D.passes (disk_of self.old) (calls + 4) → IsErrOf result RenewFault.Full ⊎ IsErrOf result RenewFault.NoMemory ⊎ (IsOk result × D.passes (disk_of self.new) calls) }
        ensures live { OnOk result (first_is_live self.new ≡ not (first_is_live self.old)) }

        // What stands on the disk where the calls that were left ended within it. Any selector but 01 makes the second
        // area live, and so `ee` does.
        ensures after_fault { D.tells → (label : List ℕ) (before : List (List ℕ)) (left : ℕ) → StandsFor ⟦<D as Disk>⟧ label before self.old → IsStopped self.new
            → D.passes (disk_of self.old) left → D.burnt (disk_of self.old) left
            → AfterFault ⟦<D as Disk>⟧ left (first_is_live self.old) (IsImageWith (first_is_live self.old) label self.old.area self.old.form before) (IsImageWith (not (first_is_live self.old)) label self.old.area 2 records) (disk_of self.new) }
    {
        if !records.fits(self.area) {
            return Err(RenewFault::Full);
        }
        let (other, byte) = other_area(self.start, self.area);
        let place = other.min(self.disk.len());
        let text = records.into_text((other - place) as usize)?;
        let end = place + text.len() as u64;
        self.disk.room(text.len() as u64)?;
        if put_behind(&mut self.disk, place, text.as_slice(), self.selector, byte).is_err() {
            self.stopped = true;
            return Err(RenewFault::DiskFault(self.disk.faults()));
        }
        self.start = other;
        self.form = 2;
        self.gate = end - 1;
        Ok(())
    }
}
