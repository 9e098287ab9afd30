//! Scripts that are made from a number, and the summary of what came of them.
ghost use Rattle.std.specs.Prelude.{◌≡◌, ◌≤◌, ◌⊎◌, [], Err, OnOk, OnErr};
ghost use Rattle.ocm_base.specs.Outside.{Rose};
ghost use Rattle.ocm_drill.specs.Script.{made_script};
ghost use Rattle.ocm_script_run.specs.Drills.{Drills, DrillsPart};
ghost use Rattle.ocm_script_run.specs.Servers.{World};
ghost use Rattle.ocm_world.specs.Shelves.{AllShelved, AreShelved, PrefixShelved};

use crate::servers::Servers;
use ocm_base::{Sink, write_all};
use ocm_disk::Shelf;
use ocm_script_run::{WorldFault, summarise};
use std::alloc::Global;

/// Runs the script that is made from a number, with so many events after its first 16, and writes a
/// summary: how many events were run, how often each status came, and how many entries each server
/// keeps. The disk of each server is on the shelf before the first write. If the sink fails, a prefix of
/// the summary was written; if memory runs out, nothing, and the shelf has the disks of the first servers
/// that a prefix of the script leaves, or of none.
pub fn drill<K: Sink>(
    alloc: Global,
    number: u64,
    events: u32,
    sink: &mut K,
    shelf: &mut Shelf,
) -> Result<(), WorldFault>
    requires few { events ≤ 90000 }
    requires empty { shelf.old ≡ [] }
    ensures ok { OnOk result ((final : World) × Drills number events (K.taken sink.old) (K.taken sink.new) final × AreShelved final shelf.new) }
    ensures err { OnErr result ((K.taken sink.new ≡ K.taken sink.old) ⊎ DrillsPart number events (K.taken sink.old) (K.taken sink.new)) }
    ensures unwritten { result ≡ Err WorldFault.NoMemory → K.taken sink.new ≡ K.taken sink.old }
    ensures shelved { result ≡ Err WorldFault.WriteFault → AllShelved (made_script number events) shelf.new }
    ensures shelf_part { OnErr result (PrefixShelved (made_script number events) shelf.new) }
    ensures rose { result ≡ Err WorldFault.WriteFault → Rose (K.faults sink.old) (K.faults sink.new) }
    ensures never_falls { K.faults sink.old ≤ K.faults sink.new }
{
    let mut servers = Servers::new(alloc);
    let summary = summarise(alloc, number, events, &mut servers)?;
    servers.shelve(shelf)?;
    write_all(sink, summary.as_slice())?;
    Ok(())
}
