//! Stores on disks in memory.
ghost use Rattle.std.specs.Prelude.{◌≤◌, ◌^◌};

use ocm_cases_rows::{crash_of, cut, limit_of, named_told};
use ocm_disk::MemDisk;
use ocm_store::{LoadFault, Store};
use ocm_types::Host;
use std::alloc::Global;
use std::mem;

/// A disk that is off, or a store on it.
#[derive(Drop)]
pub enum StorePlace {
    Off(MemDisk),
    On(Store<MemDisk>),
}

/// Takes the disk out, and leaves one without bytes.
pub fn taken(alloc: Global, place: &mut StorePlace) -> MemDisk {
    match mem::replace(place, StorePlace::Off(MemDisk::new(alloc))) {
        StorePlace::Off(disk) => disk,
        StorePlace::On(store) => store.into_disk(),
    }
}

/// Puts another in its place.
pub fn put(place: &mut StorePlace, new: StorePlace) {
    drop(mem::replace(place, new));
}

/// Loads the disk: how many entries are kept, or why it is refused.
pub fn load(alloc: Global, place: &mut StorePlace, row: &str) -> Option<String> {
    let (limit, host) = cut(row, " ");
    let limit = limit_of(limit)?;
    let host = if host.is_empty() { "a.example" } else { host };
    match Host::read(alloc, host) {
        Ok(host) => load_for(alloc, place, host, limit),
        Err(_) => None,
    }
}

fn load_for(alloc: Global, place: &mut StorePlace, host: Host, limit: u64) -> Option<String>
    requires { (4096 ≤ limit) × (limit ≤ 2 ^ 39) }
{
    let (loaded, told) = opened(alloc, taken(alloc, place), host, limit);
    put(place, loaded);
    told
}

fn opened(alloc: Global, disk: MemDisk, host: Host, limit: u64) -> (StorePlace, Option<String>)
    requires { (4096 ≤ limit) × (limit ≤ 2 ^ 39) }
{
    match Store::load(alloc, disk, host, limit) {
        Ok(store) => kept_told(alloc, store),
        Err((disk, fault)) => (StorePlace::Off(disk), fault_told(alloc, fault)),
    }
}

fn kept_told(alloc: Global, store: Store<MemDisk>) -> (StorePlace, Option<String>) {
    let told = format!(in alloc; "opened {}", store.kept());
    (StorePlace::On(store), told.ok())
}

fn fault_told(alloc: Global, fault: LoadFault) -> Option<String> {
    match fault {
        LoadFault::NotJournal(place) => format!(in alloc; "no journal {place}").ok(),
        LoadFault::OtherHost(found) => named_told(alloc, "other host", found),
        LoadFault::DiskFault(count) => format!(in alloc; "disk fault {count}").ok(),
        LoadFault::NoMemory => String::from_str(alloc, "no memory").ok(),
    }
}

/// Takes the store down with a crash of its disk, and loads that.
pub fn crash(alloc: Global, place: &mut StorePlace, row: &str) -> Option<String> {
    let mode = crash_of(row)?;
    let disk = taken(alloc, place).crash(mode);
    put(place, StorePlace::Off(disk));
    load(alloc, place, "4096")
}

/// From now on so many device calls pass.
pub fn fuse(alloc: Global, place: &mut StorePlace, row: &str) -> Option<String> {
    let calls = row.parse().ok()?;
    match place {
        StorePlace::Off(disk) => disk.fuse(calls),
        StorePlace::On(store) => store.fuse(calls),
    }
    String::from_str(alloc, "fuse").ok()
}
