//! The steps of a case.
ghost use Rattle.std.specs.Prelude.{◌≤◌, IsTrue};

use crate::disks::disk_told;
use crate::pieces::bytes_of;
use crate::places::{JournalPlace, begin, crash, fuse, load, put, taken};
use ocm_cases_rows::{Steps, steps_told};
use ocm_disk::MemDisk;
use ocm_journal::{AppendFault, Journal, RenewFault};
use ocm_journal_area::AreaRecords;
use ocm_journal_image::FramedRecord;
use std::alloc::Global;

/// What each step of a case tells. None where a step is none, or where memory was wanting for what it tells.
pub fn case_told(alloc: Global, case: &str) -> Option<String> {
    let mut place = JournalPlace::Off(MemDisk::new(alloc));
    let told = steps_told(alloc, &mut place, case);
    drop(place);
    told
}

impl Steps for JournalPlace {
    fn step_told(&mut self, alloc: Global, kind: &str, row: &str) -> Option<String> {
        match kind {
            "bytes" => begin(alloc, self, row),
            "load" => load(alloc, self, row),
            "crash" => crash(alloc, self, row),
            "fuse" => fuse(alloc, self, row),
            "append" | "renew" | "form" => match self {
                JournalPlace::On(journal) => journal_step(alloc, journal, kind, row),
                JournalPlace::Off(_) => None,
            },
            _ => disk_step(alloc, self, kind, row),
        }
    }
}

fn disk_step(alloc: Global, place: &mut JournalPlace, kind: &str, row: &str) -> Option<String> {
    let mut disk = taken(alloc, place);
    let told = match kind {
        "is" => is(alloc, disk.bytes(), row),
        _ => disk_told(alloc, &mut disk, kind, row),
    };
    put(place, JournalPlace::Off(disk));
    told
}

/// Whether these are the bytes of the pieces.
fn is(alloc: Global, bytes: &[u8], pieces: &str) -> Option<String> {
    let wanted = bytes_of(alloc, pieces)?;
    let told = if wanted.as_slice() == bytes {
        "same"
    } else {
        "other"
    };
    drop(wanted);
    String::from_str(alloc, told).ok()
}

fn journal_step(
    alloc: Global,
    journal: &mut Journal<MemDisk>,
    kind: &str,
    row: &str,
) -> Option<String> {
    match kind {
        "append" => append(alloc, journal, row),
        "renew" => renew(alloc, journal, row),
        _ => format!(in alloc; "form {}", journal.form()).ok(),
    }
}

fn append(alloc: Global, journal: &mut Journal<MemDisk>, pieces: &str) -> Option<String> {
    let record = bytes_of(alloc, pieces)?;
    let told = append_bytes(alloc, journal, record.as_slice());
    drop(record);
    told
}

fn append_bytes(alloc: Global, journal: &mut Journal<MemDisk>, record: &[u8]) -> Option<String> {
    let size = record.len();
    if size == 0 || size > 2_097_152 || journal.is_stopped() {
        return None;
    }
    journal.room(size as u64).ok()?;
    let framed = FramedRecord::of(alloc, record).ok()?;
    match journal.append(&framed) {
        Ok(()) => String::from_str(alloc, "done").ok(),
        Err(AppendFault::Full) => String::from_str(alloc, "full").ok(),
        Err(AppendFault::DiskFault(count)) => format!(in alloc; "disk fault {count}").ok(),
    }
}

fn renew(alloc: Global, journal: &mut Journal<MemDisk>, row: &str) -> Option<String> {
    let mut records = AreaRecords::new(alloc, 1).ok()?;
    match add_records(alloc, &mut records, row) {
        Some(()) => renew_by(alloc, journal, records),
        None => None,
    }
}

fn add_records(alloc: Global, records: &mut AreaRecords, row: &str) -> Option<()> {
    for pieces in row.split(", ") {
        let record = bytes_of(alloc, pieces)?;
        let added = add_record(records, record.as_slice());
        drop(record);
        added?;
    }
    Some(())
}

/// Adds a record that has a size that one may have.
fn add_record(records: &mut AreaRecords, record: &[u8]) -> Option<()> {
    if is_record(record.len()) {
        records.add(record, &[], &[]).ok()
    } else {
        None
    }
}

fn is_record(size: usize) -> bool
    ensures { IsTrue result → (1 ≤ size) × (size ≤ 2097152) }
{
    1 <= size && size <= 2_097_152
}

fn renew_by(alloc: Global, journal: &mut Journal<MemDisk>, records: AreaRecords) -> Option<String> {
    if journal.is_stopped() {
        return None;
    }
    match journal.renew(records) {
        Ok(()) => String::from_str(alloc, "done").ok(),
        Err(RenewFault::Full) => String::from_str(alloc, "full").ok(),
        Err(RenewFault::DiskFault(count)) => format!(in alloc; "disk fault {count}").ok(),
        Err(RenewFault::NoMemory) => String::from_str(alloc, "no memory").ok(),
    }
}
