//! Stores on the disks of rows.
ghost use Rattle.std.specs.Prelude.{List, [], IfSome};
ghost use Rattle.ocm_entry.specs.declared.entries.Entry.{Entry};
ghost use Rattle.ocm_store.specs.Stores.{IsLegalUnder, Stands, terms_of};

use ocm_disk::{Disk, GateDisk};
use ocm_store::Store;
use ocm_types::Host;
use std::alloc::Global;

/// How many bytes a journal takes at most.
const JOURNAL: u64 = 1_048_576;

/// The host of every case.
pub fn host(alloc: Global) -> Option<Host> {
    Host::read(alloc, "a.example").ok()
}

/// The store of the host that a disk has.
pub fn loaded(alloc: Global, disk: GateDisk) -> Option<Store<GateDisk>>
    ensures { IfSome result (λ store. (k : List Entry) × Stands ⟦<GateDisk as Disk>⟧ store k [] × IsLegalUnder (terms_of store) k []) }
{
    match host(alloc) {
        Some(host) => match Store::load(alloc, disk, host, JOURNAL) {
            Ok(store) => Some(store),
            Err(failed) => {
                drop(failed);
                None
            }
        },
        None => {
            drop(disk);
            None
        }
    }
}

/// How many entries a disk has as the journal of the host.
pub fn kept_told(alloc: Global, disk: GateDisk) -> Option<String> {
    match loaded(alloc, disk) {
        Some(store) => {
            let kept = store.kept();
            drop(store);
            format!(in alloc; "{kept} entries").ok()
        }
        None => String::from_str(alloc, "not loaded").ok(),
    }
}
