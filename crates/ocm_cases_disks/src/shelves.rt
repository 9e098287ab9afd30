//! A shelf of disks by host.
use crate::disks::disk_told;
use crate::pieces::bytes_told;
use ocm_cases_rows::{Steps, steps_told};
use ocm_disk::{MemDisk, Shelf, ShelfFault};
use ocm_types::Host;
use std::alloc::Global;
use std::mem;

/// A shelf, and a disk at hand.
#[derive(Drop)]
struct Shelved {
    shelf: Shelf,
    disk: MemDisk,
}

/// What each step tells, at a shelf without places, with a disk without bytes at hand.
pub fn shelf_told(alloc: Global, steps: &str) -> Option<String> {
    let mut shelved = Shelved {
        shelf: Shelf::new(alloc),
        disk: MemDisk::new(alloc),
    };
    let told = steps_told(alloc, &mut shelved, steps);
    drop(shelved);
    told
}

impl Steps for Shelved {
    fn step_told(&mut self, alloc: Global, kind: &str, row: &str) -> Option<String> {
        match kind {
            "add" | "take" | "put" | "bytes" => match Host::read(alloc, row) {
                Ok(host) => host_step(alloc, self, kind, host),
                Err(_) => None,
            },
            _ => disk_told(alloc, &mut self.disk, kind, row),
        }
    }
}

fn host_step(alloc: Global, shelved: &mut Shelved, kind: &str, host: Host) -> Option<String> {
    if kind == "add" {
        return added_told(alloc, shelved.shelf.add(host));
    }
    let told = place_told(alloc, shelved, kind, &host);
    drop(host);
    told
}

/// Whether a host got a place, or why it got none.
fn added_told(alloc: Global, added: Result<(), ShelfFault>) -> Option<String> {
    match added {
        Ok(()) => String::from_str(alloc, "done").ok(),
        Err(fault) => format!(in alloc; "{fault:?}").ok(),
    }
}

/// Whether the disk at the host's place is taken, or the disk at hand is put there; or the bytes there.
fn place_told(alloc: Global, shelved: &mut Shelved, kind: &str, host: &Host) -> Option<String> {
    match kind {
        "take" => format!(in alloc; "{}", take(shelved, host)).ok(),
        "put" => format!(in alloc; "{}", put(alloc, shelved, host)).ok(),
        _ => match shelved.shelf.bytes(host) {
            Some(bytes) => bytes_told(alloc, bytes),
            None => String::from_str(alloc, "none").ok(),
        },
    }
}

fn take(shelved: &mut Shelved, host: &Host) -> bool {
    match shelved.shelf.take(host) {
        Some(disk) => {
            shelved.disk = disk;
            true
        }
        None => false,
    }
}

fn put(alloc: Global, shelved: &mut Shelved, host: &Host) -> bool {
    let disk = mem::replace(&mut shelved.disk, MemDisk::new(alloc));
    shelved.shelf.put_back(host, disk)
}
