//! The steps of a case.
use crate::asks::ask_of;
use crate::disks::disk_told;
use crate::places::{StorePlace, crash, fuse, load, put, taken};
use crate::replies::reply_told;
use ocm_cases_rows::{Steps, steps_told};
use ocm_disk::MemDisk;
use ocm_entry::Object;
use ocm_store::Store;
use ocm_types::{Letter, Numbered};
use std::alloc::Global;

/// What each step of a case tells. None where a step is none, or where memory was wanting for what it tells.
pub fn case_told(alloc: Global, case: &str) -> Option<String> {
    let mut place = StorePlace::Off(MemDisk::new(alloc));
    let told = steps_told(alloc, &mut place, case);
    drop(place);
    told
}

impl Steps for StorePlace {
    fn step_told(&mut self, alloc: Global, kind: &str, row: &str) -> Option<String> {
        match kind {
            "load" => load(alloc, self, row),
            "crash" => crash(alloc, self, row),
            "fuse" => fuse(alloc, self, row),
            "add" | "fill" | "cut" | "length" | "bytes" | "audit" => {
                disk_step(alloc, self, kind, row)
            }
            _ => match self {
                StorePlace::On(store) => store_told(alloc, store, kind, row),
                StorePlace::Off(_) => None,
            },
        }
    }
}

fn disk_step(alloc: Global, place: &mut StorePlace, kind: &str, row: &str) -> Option<String> {
    let mut disk = taken(alloc, place);
    let told = disk_told(alloc, &mut disk, kind, row);
    put(place, StorePlace::Off(disk));
    told
}

fn store_told(alloc: Global, store: &mut Store<MemDisk>, kind: &str, row: &str) -> Option<String> {
    match kind {
        "kept" => format!(in alloc; "kept {}", store.kept()).ok(),
        "moment" => format!(in alloc; "moment {}", store.moment()).ok(),
        "message" => message_told(alloc, store.message(row.parse().ok()?)),
        _ => answered(alloc, store, kind, row),
    }
}

fn answered(alloc: Global, store: &mut Store<MemDisk>, kind: &str, row: &str) -> Option<String> {
    let reply = store.act(ask_of(alloc, kind, row)?);
    let told = reply_told(alloc, &reply);
    drop(reply);
    told
}

/// Of what kind a message is, and where it goes.
fn message_told(alloc: Global, message: Option<&Numbered>) -> Option<String> {
    match message {
        Some(message) => letter_told(alloc, message),
        None => String::from_str(alloc, "none").ok(),
    }
}

fn letter_told(alloc: Global, message: &Numbered) -> Option<String> {
    let kind = match &*message.letter {
        Letter::Offer(_) => "offer",
        Letter::Notice(_) => "notice",
    };
    format!(in alloc; "{kind} to {}", message.to.as_str()).ok()
}
