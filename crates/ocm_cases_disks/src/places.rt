//! Journals on disks in memory.
ghost use Rattle.std.specs.Prelude.{◌≤◌, ◌^◌};

use crate::pieces::{bytes_of, bytes_told};
use ocm_cases_rows::{add_bytes, crash_of, limit_of, named_told};
use ocm_disk::MemDisk;
use ocm_journal::{Journal, OpenFault};
use ocm_journal_area::{PlacedLeft, PlacedRecord};
use std::alloc::Global;
use std::mem;

/// A disk that is off, or a journal on it.
#[derive(Drop)]
pub enum JournalPlace {
    Off(MemDisk),
    On(Journal<MemDisk>),
}

/// Takes the disk out, and leaves one without bytes.
pub fn taken(alloc: Global, place: &mut JournalPlace) -> MemDisk {
    match mem::replace(place, JournalPlace::Off(MemDisk::new(alloc))) {
        JournalPlace::Off(disk) => disk,
        JournalPlace::On(journal) => journal.into_disk(),
    }
}

/// Puts another in its place.
pub fn put(place: &mut JournalPlace, new: JournalPlace) {
    drop(mem::replace(place, new));
}

/// Begins anew with a disk of these bytes, and tells how many they are.
pub fn begin(alloc: Global, place: &mut JournalPlace, pieces: &str) -> Option<String> {
    let bytes = bytes_of(alloc, pieces)?;
    let mut disk = MemDisk::new(alloc);
    let added = add_bytes(&mut disk, bytes.as_slice());
    let length = bytes.len();
    drop(bytes);
    put(place, JournalPlace::Off(disk));
    added.and(format!(in alloc; "{length}").ok())
}

/// Loads the disk: the form, the size of the areas and the records, or why it is refused.
pub fn load(alloc: Global, place: &mut JournalPlace, row: &str) -> Option<String> {
    let (limit, label) = row.split_once(' ').unwrap_or((row, "a.example"));
    let limit = limit_of(limit)?;
    let label = match label {
        "a.example" => b"a.example",
        "b.example" => b"b.example",
        _ => return None,
    };
    let (loaded, told) = opened(alloc, taken(alloc, place), label, limit);
    put(place, loaded);
    told
}

fn opened(
    alloc: Global,
    disk: MemDisk,
    label: &[u8; 9],
    limit: u64,
) -> (JournalPlace, Option<String>)
    requires { (4096 ≤ limit) × (limit ≤ 2 ^ 39) }
{
    match Journal::load(alloc, disk, label, limit) {
        Ok((journal, records)) => {
            let told = journal_told(alloc, &journal, records.left());
            drop(records);
            (JournalPlace::On(journal), told)
        }
        Err((disk, fault)) => (JournalPlace::Off(disk), fault_told(alloc, fault)),
    }
}

fn journal_told(
    alloc: Global,
    journal: &Journal<MemDisk>,
    records: PlacedLeft<'_>,
) -> Option<String> {
    let mut text = format!(in alloc; "form {} of {}", journal.form(), journal.area()).ok()?;
    match add_records(alloc, &mut text, records) {
        Some(()) => Some(text),
        None => {
            drop(text);
            None
        }
    }
}

fn add_records(alloc: Global, text: &mut String, records: PlacedLeft<'_>) -> Option<()> {
    let mut left = records;
    while let Some(record) = left.next() {
        add_record(alloc, text, &record)?;
    }
    Some(())
}

fn add_record(alloc: Global, text: &mut String, record: &PlacedRecord<'_>) -> Option<()> {
    let told = bytes_told(alloc, record.bytes)?;
    let whole = format!(in alloc; ", {} {}", record.place, told.as_str());
    drop(told);
    let whole = whole.ok()?;
    let added = text.push_str(whole.as_str());
    drop(whole);
    added.ok()
}

fn fault_told(alloc: Global, fault: OpenFault) -> Option<String> {
    match fault {
        OpenFault::NotJournal(place) => format!(in alloc; "no journal {place}").ok(),
        OpenFault::OtherLabel(found) => named_told(alloc, "other label", found),
        OpenFault::DiskFault(count) => format!(in alloc; "disk fault {count}").ok(),
        OpenFault::NoMemory => String::from_str(alloc, "no memory").ok(),
    }
}

/// Takes the journal down with a crash of its disk.
pub fn crash(alloc: Global, place: &mut JournalPlace, row: &str) -> Option<String> {
    let mode = crash_of(row)?;
    let disk = taken(alloc, place).crash(mode);
    put(place, JournalPlace::Off(disk));
    String::from_str(alloc, "crash").ok()
}

/// From now on so many device calls pass.
pub fn fuse(alloc: Global, place: &mut JournalPlace, row: &str) -> Option<String> {
    let calls = row.parse().ok()?;
    match place {
        JournalPlace::Off(disk) => disk.fuse(calls),
        JournalPlace::On(journal) => journal.fuse(calls),
    }
    String::from_str(alloc, "fuse").ok()
}
