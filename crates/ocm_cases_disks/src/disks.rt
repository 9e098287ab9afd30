//! What is done to any disk.
use crate::pieces::{bytes_of, bytes_told};
use ocm_base::Failed;
use ocm_disk::Disk;
use std::alloc::Global;

/// The most bytes that a disk may have here.
const MOST: u64 = 3_000_000;

/// What a call of a disk tells.
pub fn disk_told<D: Disk>(alloc: Global, disk: &mut D, kind: &str, row: &str) -> Option<String> {
    match kind {
        "room" => room(alloc, disk, row),
        "write" => write(alloc, disk, row),
        "grow" => grow(alloc, disk, row),
        "read" => read(alloc, disk, row),
        "cut" => cut(alloc, disk, row),
        "sync" => done_told(alloc, disk.sync()),
        "faults" => format!(in alloc; "{}", disk.faults()).ok(),
        "length" => format!(in alloc; "{}", disk.len()).ok(),
        _ => None,
    }
}

/// Whether a call was done.
pub fn done_told(alloc: Global, done: Result<(), Failed>) -> Option<String> {
    let told = match done {
        Ok(()) => "done",
        Err(Failed) => "failed",
    };
    String::from_str(alloc, told).ok()
}

/// Asks for room for so many more bytes.
fn room<D: Disk>(alloc: Global, disk: &mut D, row: &str) -> Option<String> {
    let told = match disk.room(row.parse().ok()?) {
        Ok(()) => "room",
        Err(_) => "no memory",
    };
    String::from_str(alloc, told).ok()
}

/// Writes bytes at a place, `PLACE PIECES`.
fn write<D: Disk>(alloc: Global, disk: &mut D, row: &str) -> Option<String> {
    let (place, pieces) = row.split_once(' ')?;
    let place = place.parse().ok()?;
    let bytes = bytes_of(alloc, pieces)?;
    let told = write_at(alloc, disk, place, bytes.as_slice());
    drop(bytes);
    told
}

fn write_at<D: Disk>(alloc: Global, disk: &mut D, place: u64, bytes: &[u8]) -> Option<String> {
    if place > disk.len() || place > MOST || bytes.len() > 3_000_000 {
        return None;
    }
    done_told(alloc, disk.write_at(place, bytes))
}

/// Adds one byte at the end so often, each with a sync, and tells the length.
fn grow<D: Disk>(alloc: Global, disk: &mut D, row: &str) -> Option<String> {
    let count: u32 = row.parse().ok()?;
    for _ in 0..count {
        add_one(disk)?;
    }
    format!(in alloc; "{}", disk.len()).ok()
}

fn add_one<D: Disk>(disk: &mut D) -> Option<()> {
    let end = disk.len();
    if end > MOST {
        return None;
    }
    disk.write_at(end, b"x").ok()?;
    disk.sync().ok()
}

/// Reads four bytes at a place.
fn read<D: Disk>(alloc: Global, disk: &mut D, row: &str) -> Option<String> {
    let place: u64 = row.parse().ok()?;
    if place > MOST || place + 4 > disk.len() {
        return None;
    }
    let mut bytes = [0; 4];
    match disk.read_at(place, &mut bytes) {
        Ok(()) => bytes_told(alloc, &bytes),
        Err(Failed) => String::from_str(alloc, "failed").ok(),
    }
}

fn cut<D: Disk>(alloc: Global, disk: &mut D, row: &str) -> Option<String> {
    let length = row.parse().ok()?;
    if length > disk.len() {
        return None;
    }
    done_told(alloc, disk.cut(length))
}
