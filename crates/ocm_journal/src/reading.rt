//! How a disk is read, which changes nothing on it.
ghost use Rattle.std.specs.Prelude.{◌≡◌, ◌≤◌, ◌<◌, ◌+◌, ◌^◌, min, List, ℕ, length, take, drop, OnOk, IfOk, IfErr, Ok, Err};
ghost use Rattle.ocm_texts.specs.Hex.{AreBytes};
ghost use Rattle.ocm_disk.specs.Disk.{LeavesOnly, Only, SameBut};
ghost use Rattle.ocm_journal_image.specs.Layout.{IsLabel, IsAreaSize};
ghost use Rattle.ocm_journal_image.specs.Reading.{header_of, area_of, start_of};
ghost use Rattle.ocm_journal.specs.Openings.{records_in, records_below, IsReadFault, IsSaid, IsSaidBy, IsCounted, IsPlaced, ImageOpens};
ghost use Rattle.ocm_journal.specs.Passing.{FailsWithDisk};

use crate::faults::OpenFault;
use ocm_disk::Disk;
use ocm_journal_area::{PlacedArea, PlacedRecords, place_area};
use ocm_journal_image::{Header, NotImage, read_header};
use std::alloc::Global;

/// What was read of an image, and where it stands.
#[derive(Drop)]
pub(crate) struct Opened {
    pub(crate) selector: u64,
    pub(crate) area: u64,
    pub(crate) start: u64,
    pub(crate) form: u8,
    pub(crate) gate: u64,
    pub(crate) records: PlacedRecords,
}

// Reads so many bytes from a place on.
pub(crate) fn read_part<D: Disk>(
    alloc: Global,
    disk: &mut D,
    place: u64,
    count: u64,
) -> Result<Vec<u8>, OpenFault>
    requires { place + count ≤ D.size disk.old }
    ensures bytes { D.tells → IfOk result (λ v. v.items ≡ take count (drop place (D.seen disk.new))) }
    ensures elsewhere { D.tells → SameBut place count (D.seen disk.old) (D.seen disk.new) }
    ensures length { IfOk result (λ v. length v.items ≡ count) }
    ensures size { D.size disk.new ≡ D.size disk.old }
    ensures faithful { D.faithful disk.new → D.faithful disk.old }
    ensures seen { D.faithful disk.new → D.seen disk.new ≡ D.seen disk.old }
    ensures settled { D.tells → Only (D.seen disk.old) (D.may_leave disk.old) → Only (D.seen disk.new) (D.may_leave disk.new) }
    ensures crash { D.tells → D.faithful disk.new → (c : List ℕ) → D.may_leave disk.new c → D.may_leave disk.old c }
    ensures any_moment { D.tells → D.faithful disk.new → LeavesOnly D.moment D.left_since disk.old disk.new (D.may_leave disk.old) }
    ensures count { OnOk result (D.count disk.new ≡ D.count disk.old) }
    ensures fault { IfErr result (IsReadFault (D.count disk.old) (D.count disk.new)) }
    ensures unfailing { FailsWithDisk ⟦<D as Disk>⟧ disk.old disk.new result }
{
    let mut bytes = Vec::new(alloc);
    if bytes.resize(count as usize, 0).is_err() {
        return Err(OpenFault::NoMemory);
    }
    if disk.read_at(place, &mut bytes).is_err() {
        return Err(OpenFault::DiskFault(disk.faults()));
    }
    Ok(bytes)
}

// Reads the live area of a header from its bytes.
fn open_area(len: u64, header: Header, bytes: Vec<u8>) -> Result<Opened, OpenFault>
    requires label { IsLabel header.label }
    requires area { IsAreaSize header.area }
    requires within { length bytes.items ≤ header.area }
    requires there { start_of header + length bytes.items ≤ len }
    ensures placed { IfOk result (IsPlaced len) }
    ensures header { IfOk result (λ opened. (opened.selector ≡ 17 + length header.label) × (opened.area ≡ header.area) × (opened.start ≡ start_of header)) }
    ensures reads { IfOk result (λ opened. area_of len (start_of header) bytes.items ≡ Ok (record { form = opened.form; records = opened.records; end = opened.gate })) }
    ensures bytes { IfOk result (λ opened. AreBytes bytes.items) }
    ensures fault { IfErr result (IsSaid (records_in (area_of len (start_of header) bytes.items))) }
{
    let start = header.start();
    let selector = 17 + header.label.len() as u64;
    let area = header.area;
    drop(header);
    match place_area(len, start, bytes) {
        Ok(PlacedArea { form, records, end }) => Ok(Opened {
            selector,
            area,
            start,
            form,
            gate: end,
            records,
        }),
        Err(NotImage(place)) => Err(OpenFault::NotJournal(place)),
    }
}

// Reads the image that a disk holds. `front` are its first bytes, at most 514 of them.
pub(crate) fn open_image<D: Disk>(
    alloc: Global,
    disk: &mut D,
    label: &[u8],
    front: &[u8],
) -> Result<Opened, OpenFault>
    requires label { IsLabel label.now }
    requires front { length front.now ≡ min (D.size disk.old) 514 }
    ensures placed { IfOk result (IsPlaced (D.size disk.new)) }
    ensures opens { D.tells → front.now ≡ take (length front.now) (D.seen disk.old) → IfOk result (ImageOpens label.now (D.seen disk.new)) }
    ensures reads { D.tells → front.now ≡ take (length front.now) (D.seen disk.old)
        → IfOk result (λ opened. records_below label.now (D.seen disk.new) (header_of (length (D.seen disk.new)) (D.seen disk.new)) ≡ Ok opened.records) }
    ensures says { D.tells → front.now ≡ take (length front.now) (D.seen disk.old)
        → IfErr result (IsSaidBy (records_below label.now (D.seen disk.new) (header_of (length (D.seen disk.new)) (D.seen disk.new)))) }
    ensures cause { IfErr result (IsCounted (D.count disk.old) (D.count disk.new)) }
    ensures size { D.size disk.new ≡ D.size disk.old }
    ensures faithful { D.faithful disk.new → D.faithful disk.old }
    ensures seen { D.faithful disk.new → D.seen disk.new ≡ D.seen disk.old }
    ensures settled { D.tells → Only (D.seen disk.old) (D.may_leave disk.old) → Only (D.seen disk.new) (D.may_leave disk.new) }
    ensures crash { D.tells → D.faithful disk.new → (c : List ℕ) → D.may_leave disk.new c → D.may_leave disk.old c }
    ensures any_moment { D.tells → D.faithful disk.new → LeavesOnly D.moment D.left_since disk.old disk.new (D.may_leave disk.old) }
    ensures unfailing { FailsWithDisk ⟦<D as Disk>⟧ disk.old disk.new result }
{
    let len = disk.len();
    let header = read_header(alloc, len, front)?;
    if header.label.as_slice() != label {
        return Err(OpenFault::OtherLabel(header.label));
    }
    let start = header.start();
    if start >= len {
        return Err(OpenFault::NotJournal(len));
    }
    let bytes = read_part(alloc, disk, start, header.area.min(len - start))?;
    open_area(len, header, bytes)
}
