//! A disk over a real file, in the folder that the program runs in.
use crate::disks::{disk_told, done_told};
use crate::pieces::bytes_of;
use crate::replaced::replace_between_syncs;
use ocm_base::GhostBytes;
use ocm_cases_rows::{Steps, cut, steps_told};
use ocm_disk::{Disk, FileDisk, Missing};
use std::alloc::Global;
use std::fs::File;
use std::rt::Files;
use std::{fs, io};

/// The file.
const PATH: &str = "ocm_cases_disks_file";

/// A file that is open or not.
#[derive(Drop)]
struct FilePlace<'a, R> {
    rt: &'a R,
    disk: Option<FileDisk>,
}

/// What each step tells.
pub fn file_told<R: Files<File = File>>(rt: &R, alloc: Global, steps: &str) -> Option<String> {
    let mut place = FilePlace { rt, disk: None };
    let told = steps_told(alloc, &mut place, steps);
    drop(place);
    told
}

impl<'a, R: Files<File = File>> Steps for FilePlace<'a, R> {
    fn step_told(&mut self, alloc: Global, kind: &str, row: &str) -> Option<String> {
        match kind {
            "open" => open(alloc, self),
            "close" => close(alloc, self),
            "remove" => kind_told(alloc, fs::remove_file(self.rt, PATH)),
            _ => match &mut self.disk {
                Some(disk) => open_told(alloc, disk, kind, row),
                None => None,
            },
        }
    }
}

/// Opens the file, beside the disk that is open already where there is one.
fn open<R: Files<File = File>>(alloc: Global, place: &mut FilePlace<'_, R>) -> Option<String> {
    match FileDisk::open(place.rt, PATH, Missing::Make, GhostBytes::new()) {
        Ok(disk) => {
            place.disk = Some(disk);
            kind_told(alloc, Ok(()))
        }
        Err(fault) => kind_told(alloc, Err(fault)),
    }
}

fn close<R>(alloc: Global, place: &mut FilePlace<'_, R>) -> Option<String> {
    place.disk = None;
    kind_told(alloc, Ok(()))
}

fn kind_told(alloc: Global, done: io::Result<()>) -> Option<String> {
    match done {
        Ok(()) => String::from_str(alloc, "done").ok(),
        Err(fault) => format!(in alloc; "{:?}", fault.kind()).ok(),
    }
}

fn open_told(alloc: Global, disk: &mut FileDisk, kind: &str, row: &str) -> Option<String> {
    match kind {
        "replace" => replaced_told(alloc, disk, row),
        _ => disk_told(alloc, disk, kind, row),
    }
}

/// Replaces the byte at a place, `PLACE PIECES`.
fn replaced_told(alloc: Global, disk: &mut FileDisk, row: &str) -> Option<String> {
    let (place, pieces) = cut(row, " ");
    let place: u64 = place.parse().ok()?;
    if place >= disk.len() || place > 1000 {
        return None;
    }
    let byte = first_of(alloc, pieces)?;
    done_told(alloc, replace_between_syncs(disk, place, byte))
}

fn first_of(alloc: Global, pieces: &str) -> Option<u8> {
    let bytes = bytes_of(alloc, pieces)?;
    let first = bytes.as_slice().first().copied();
    drop(bytes);
    first
}
