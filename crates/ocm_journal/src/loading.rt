ghost use Rattle.std.specs.Prelude.{◌≡◌, ◌⊎◌, ◌≤◌, ◌^◌, [], List, ℕ, length, OnOk, IfOk, IfErr, Some, None, Ok, min, take, true, false};
ghost use Rattle.ocm_disk.specs.Disk.{Only, LeavesOnly};
ghost use Rattle.ocm_journal_image.specs.Blank.{IsBlank, blank_of, made_form};
ghost use Rattle.ocm_journal_image.specs.Layout.{IsLabel, IsAreaSize, contents};
ghost use Rattle.ocm_journal.specs.Journals.{disk_of, area_of, form_of, first_is_live, selects_first, StandsFor};
ghost use Rattle.ocm_journal.specs.LiveAreas.{BeginsWith, HasLive, LiveArea};
ghost use Rattle.ocm_journal.specs.Openings.{Opens, BlankSize, IsPlaced, ImageOpens, IsReadFault, IsCounted, IsSaidBy, StaysAsItOpens, IsMadeAs, opening, new_area};
ghost use Rattle.ocm_journal.specs.Passing.{IsNoDiskFault, FailsWithDisk};

use crate::faults::OpenFault;
use crate::journal::Journal;
use crate::making::make;
use crate::reading::{Opened, open_image, read_part};
use ocm_base::NoMemory;
use ocm_disk::Disk;
use ocm_journal_area::PlacedRecords;
use ocm_journal_image::{Blank, fresh_bytes, read_blank};
use std::alloc::Global;

// The form that a journal made of a blank disk has.
fn made_form(blank: Blank) -> u8
    ensures { result ≡ made_form blank }
{
    match blank {
        Blank::Written(form) => form,
        _ => 2,
    }
}

// How far the making of a journal had come on a disk of `len` bytes that begins with `front`, at most 514 of them.
fn find_blank(
    alloc: Global,
    label: &[u8],
    area: u64,
    len: u64,
    front: &[u8],
) -> Result<Option<Blank>, NoMemory>
    requires label { IsLabel label.now }
    requires front { length front.now ≡ min len 514 }
    ensures blank { (seen : List ℕ) → length seen ≡ len → front.now ≡ take (length front.now) seen → IfOk result (λ blank. blank ≡ blank_of label.now area seen) }
    ensures size { (blank : Blank) → result ≡ Ok (Some blank) → BlankSize blank len }
{
    if len > 514 {
        return Ok(None);
    }
    read_blank(alloc, label, area, front)
}

// Makes an empty journal of a blank disk.
fn open_blank<D: Disk>(
    alloc: Global,
    disk: &mut D,
    label: &[u8],
    area: u64,
    blank: Blank,
) -> Result<Opened, OpenFault>
    requires label { IsLabel label.now }
    requires area { IsAreaSize area }
    requires size { BlankSize blank (D.size disk.old) }
    ensures faithful { D.faithful disk.new → D.faithful disk.old }
    ensures placed { IfOk result (IsPlaced (D.size disk.new)) }
    ensures opens { D.tells → blank_of label.now area (D.seen disk.old) ≡ Some blank → IfOk result (ImageOpens label.now (D.seen disk.new)) }
    ensures none { IfOk result (λ opened. opened.records ≡ []) }
    ensures made { blank_of label.now area (D.seen disk.old) ≡ Some blank → IfOk result (λ opened. IsMadeAs label.now area (D.seen disk.old) opened.form opened.area) }
    ensures first { IfOk result (λ opened. opened.start ≡ 512) }
    ensures durable { D.tells → OnOk result (Only (D.seen disk.new) (D.may_leave disk.new)) }
    ensures any_moment { D.tells → Only (D.seen disk.old) (D.may_leave disk.old) → blank_of label.now area (D.seen disk.old) ≡ Some blank
        → LeavesOnly D.moment D.left_since disk.old disk.new (Opens label.now area []) }
    ensures fault { IfErr result (IsReadFault (D.count disk.old) (D.count disk.new)) }
    ensures unfailing { FailsWithDisk ⟦<D as Disk>⟧ disk.old disk.new result }
{
    let text = fresh_bytes(alloc, label, area, 2)?;
    disk.room(514)?;
    if make(disk, blank, text.as_slice()).is_err() {
        return Err(OpenFault::DiskFault(disk.faults()));
    }
    Ok(Opened {
        selector: 17 + label.len() as u64,
        area,
        start: 512,
        form: made_form(blank),
        gate: 513,
        records: PlacedRecords::none(alloc),
    })
}

// Opens a disk of which a crash leaves what it reads.
fn open_synced<D: Disk>(
    alloc: Global,
    disk: &mut D,
    label: &[u8],
    area: u64,
) -> Result<Opened, OpenFault>
    requires label { IsLabel label.now }
    requires area { IsAreaSize area }
    ensures faithful { D.faithful disk.new → D.faithful disk.old }
    ensures placed { IfOk result (IsPlaced (D.size disk.new)) }
    ensures opens { D.tells → IfOk result (ImageOpens label.now (D.seen disk.new)) }
    ensures reads { D.tells → D.faithful disk.new → IfOk result (λ opened. opening label.now area (D.seen disk.old) ≡ Ok opened.records) }
    ensures made { D.tells → D.faithful disk.new → IfOk result (λ opened. IsMadeAs label.now area (D.seen disk.old) opened.form opened.area) }
    ensures same { D.tells → D.faithful disk.new → blank_of label.now area (D.seen disk.old) ≡ None → D.seen disk.new ≡ D.seen disk.old }
    ensures first { D.tells → D.faithful disk.new → IsBlank label.now area (D.seen disk.old) → IfOk result (λ opened. opened.start ≡ 512) }
    ensures durable { D.tells → Only (D.seen disk.old) (D.may_leave disk.old) → OnOk result (Only (D.seen disk.new) (D.may_leave disk.new)) }
    ensures says { D.tells → D.faithful disk.new → IfErr result (IsSaidBy (opening label.now area (D.seen disk.old))) }
    ensures cause { IfErr result (IsCounted (D.count disk.old) (D.count disk.new)) }
    ensures unfailing { FailsWithDisk ⟦<D as Disk>⟧ disk.old disk.new result }
    ensures any_moment { D.tells → D.faithful disk.new → Only (D.seen disk.old) (D.may_leave disk.old)
        → LeavesOnly D.moment D.left_since disk.old disk.new (StaysAsItOpens label.now area (D.seen disk.old)) }
{
    let len = disk.len();
    let front = read_part(alloc, disk, 0, len.min(514))?;
    match find_blank(alloc, label, area, len, &front)? {
        Some(blank) => open_blank(alloc, disk, label, area, blank),
        None => open_image(alloc, disk, label, &front),
    }
}

// Opens a disk, after a sync.
fn open<D: Disk>(alloc: Global, disk: &mut D, label: &[u8], area: u64) -> Result<Opened, OpenFault>
    requires label { IsLabel label.now }
    requires area { IsAreaSize area }
    ensures faithful { D.faithful disk.new → D.faithful disk.old }
    ensures placed { IfOk result (IsPlaced (D.size disk.new)) }
    ensures opens { D.tells → IfOk result (ImageOpens label.now (D.seen disk.new)) }
    ensures reads { D.tells → D.faithful disk.new → IfOk result (λ opened. opening label.now area (D.seen disk.old) ≡ Ok opened.records) }
    ensures made { D.tells → D.faithful disk.new → IfOk result (λ opened. IsMadeAs label.now area (D.seen disk.old) opened.form opened.area) }
    ensures same { D.tells → D.faithful disk.new → blank_of label.now area (D.seen disk.old) ≡ None → D.seen disk.new ≡ D.seen disk.old }
    ensures first { D.tells → D.faithful disk.new → IsBlank label.now area (D.seen disk.old) → IfOk result (λ opened. opened.start ≡ 512) }
    ensures durable { D.tells → OnOk result (Only (D.seen disk.new) (D.may_leave disk.new)) }
    ensures says { D.tells → D.faithful disk.new → IfErr result (IsSaidBy (opening label.now area (D.seen disk.old))) }
    ensures cause { IfErr result (IsCounted (D.count disk.old) (D.count disk.new)) }
    ensures unfailing { FailsWithDisk ⟦<D as Disk>⟧ disk.old disk.new result }
    ensures stays { D.tells → D.faithful disk.new → StaysAsItOpens label.now area (D.seen disk.old) (D.seen disk.new) }
    ensures synced { D.tells → D.faithful disk.new → D.passes disk.old 1 → (c : List ℕ) → D.may_leave disk.new c → StaysAsItOpens label.now area (D.seen disk.old) c }
    ensures any_moment { D.tells → D.faithful disk.new
        → LeavesOnly D.moment D.left_since disk.old disk.new (λ c. D.may_leave disk.old c ⊎ StaysAsItOpens label.now area (D.seen disk.old) c) }
{
    if disk.sync().is_err() {
        return Err(OpenFault::DiskFault(disk.faults()));
    }
    open_synced(alloc, disk, label, area)
}

impl<D: Disk> Journal<D> {
    /// Opens the journal of this label that a disk holds, and gives its records, the oldest first. A disk on which
    /// no journal was made yet becomes an empty journal of form 2, or of the form that was written before a crash.
    /// The label has 1 to 255 bytes. `limit` is the most bytes that a new journal may take, from 4,096 to 2^39; a
    /// journal that is opened keeps its size. Begins with a sync, before which nothing is changed.
    pub fn load(
        alloc: Global,
        disk: D,
        label: &[u8],
        limit: u64,
    ) -> Result<(Journal<D>, PlacedRecords), (D, OpenFault)>
        requires label { IsLabel label.now }
        requires limit { (4096 ≤ limit) × (limit ≤ 2 ^ 39) }
        ensures reads { D.tells → IfOk result (λ loaded. D.faithful (disk_of loaded.0) → opening label.now (new_area limit) (D.seen disk) ≡ Ok loaded.1) }
        ensures stands { D.tells → IfOk result (λ loaded. StandsFor ⟦<D as Disk>⟧ label.now (contents loaded.1) loaded.0) }
        ensures made { D.tells → IfOk result (λ loaded. D.faithful (disk_of loaded.0) → IsMadeAs label.now (new_area limit) (D.seen disk) (form_of loaded.0) (area_of loaded.0)) }

        // The first area of a new journal is live, and of another one the area that its selector byte names.
        ensures first { D.tells → IsBlank label.now (new_area limit) (D.seen disk) → IfOk result (λ loaded. D.faithful (disk_of loaded.0) → first_is_live loaded.0 ≡ true) }
        ensures live { D.tells → IfOk result (λ loaded. first_is_live loaded.0 ≡ selects_first label.now (D.seen (disk_of loaded.0))) }

        // Of an image its live area stays the live one, and that of a new journal has no records.
        ensures begins { D.tells → IfOk result (λ loaded. D.faithful (disk_of loaded.0) → (live : LiveArea) → BeginsWith label.now (new_area limit) (D.seen disk) live → HasLive ⟦<D as Disk>⟧ label.now live loaded.0) }

        // A disk on which a journal was made reads as before.
        ensures same { D.tells → blank_of label.now (new_area limit) (D.seen disk) ≡ None → IfOk result (λ loaded. D.faithful (disk_of loaded.0) → D.seen (disk_of loaded.0) ≡ D.seen disk) }

        // Opened or not, it reads as before, or it was blank and opens to no records.
        ensures stays_ok { D.tells → IfOk result (λ loaded. D.faithful (disk_of loaded.0) → StaysAsItOpens label.now (new_area limit) (D.seen disk) (D.seen (disk_of loaded.0))) }
        ensures stays_err { D.tells → IfErr result (λ failed. D.faithful failed.0 → StaysAsItOpens label.now (new_area limit) (D.seen disk) (D.seen failed.0)) }
        ensures goes { IfOk result (λ loaded. loaded.0.stopped ≡ false) }
        ensures says { D.tells → IfErr result (λ failed. D.faithful failed.0 → IsSaidBy (opening label.now (new_area limit) (D.seen disk)) failed.1) }
        ensures cause { IfErr result (λ failed. IsCounted (D.count disk) (D.count failed.0) failed.1) }
        ensures count { IfOk result (λ loaded. D.count (disk_of loaded.0) ≡ D.count disk) }

        // A disk whose calls all pass tells no fault, and its calls pass from then on.
        ensures passes { ((n : ℕ) → D.passes disk n) → IfOk result (λ loaded. (n : ℕ) → D.passes (disk_of loaded.0) n) }
        ensures unfailing { ((n : ℕ) → D.passes disk n) → IfErr result (λ failed. IsNoDiskFault failed.1) }

        // A crash at any moment leaves what it might have left before the call, or, from the first sync on, the bytes
        // as they were read, or, while a journal is made, what opens to no records.
        ensures moments_ok { D.tells → IfOk result (λ loaded. D.faithful (disk_of loaded.0) → LeavesOnly D.moment D.left_since disk (disk_of loaded.0)
            (λ c. D.may_leave disk c ⊎ StaysAsItOpens label.now (new_area limit) (D.seen disk) c)) }
        ensures moments_err { D.tells → IfErr result (λ failed. D.faithful failed.0 → LeavesOnly D.moment D.left_since disk failed.0
            (λ c. D.may_leave disk c ⊎ StaysAsItOpens label.now (new_area limit) (D.seen disk) c)) }

        // Wherever the calls of its disk end behind the first one, a crash leaves the second of these alone. So it does at
        // each moment from the success of the first sync on, since no call tells how many are left.
        ensures synced_ok { D.tells → D.passes disk 1 → IfOk result (λ loaded. D.faithful (disk_of loaded.0) → (c : List ℕ) → D.may_leave (disk_of loaded.0) c → StaysAsItOpens label.now (new_area limit) (D.seen disk) c) }
        ensures synced_err { D.tells → D.passes disk 1 → IfErr result (λ failed. D.faithful failed.0 → (c : List ℕ) → D.may_leave failed.0 c → StaysAsItOpens label.now (new_area limit) (D.seen disk) c) }
    {
        let mut disk = disk;
        match open(alloc, &mut disk, label, (limit - 512) / 2) {
            Ok(opened) => {
                let Opened {
                    selector,
                    area,
                    start,
                    form,
                    gate,
                    records,
                } = opened;
                let journal = Journal {
                    disk,
                    selector,
                    area,
                    start,
                    form,
                    gate,
                    stopped: false,
                };
                Ok((journal, records))
            }
            Err(fault) => Err((disk, fault)),
        }
    }
}
