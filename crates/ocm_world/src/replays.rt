//! Whole scripts.
ghost use Rattle.std.specs.Prelude.{◌≡◌, ◌≤◌, [], Err, OnOk, OnErr, IsTrue, length};
ghost use Rattle.std.specs.List.{list_all};
ghost use Rattle.ocm_base.specs.Outside.{Rose};
ghost use Rattle.ocm_limits.specs.Limits.{most_lines};
ghost use Rattle.ocm_script.specs.Events.{has_short_paths};
ghost use Rattle.ocm_script_run.specs.Servers.{World};
ghost use Rattle.ocm_world.specs.Shelves.{AreShelved, PrefixShelved};
ghost use Rattle.ocm_script_run.specs.Transcript.{Writes, WritesPart};

use crate::servers::Servers;
use ocm_base::{List, Sink};
use ocm_disk::Shelf;
use ocm_script::Event;
use ocm_script_run::{WorldFault, run_events};
use std::alloc::Global;

/// Runs a script, and writes its transcript. The disk of each server is on the shelf afterwards. Where it
/// ends early, a prefix of a transcript was written, and the shelf has the disks of the first servers that a
/// prefix of the script leaves, or of none. A script that was read is one of at most 100,000 lines with
/// short paths.
pub fn replay<K: Sink>(
    alloc: Global,
    events: &List<Event>,
    sink: &mut K,
    shelf: &mut Shelf,
) -> Result<(), WorldFault>
    requires short { IsTrue (list_all has_short_paths events.now) }
    requires few { length events.now ≤ most_lines }
    requires empty { shelf.old ≡ [] }
    ensures ok { OnOk result ((final : World) × Writes events.now (K.taken sink.old) (K.taken sink.new) final × AreShelved final shelf.new) }
    ensures err { OnErr result (WritesPart events.now (K.taken sink.old) (K.taken sink.new)) }
    ensures shelf_part { OnErr result (PrefixShelved events.now shelf.new) }
    ensures rose { result ≡ Err WorldFault.WriteFault → Rose (K.faults sink.old) (K.faults sink.new) }
    ensures never_falls { K.faults sink.old ≤ K.faults sink.new }
{
    let mut servers = Servers::new(alloc);
    run_events(alloc, events.as_slice(), &mut servers, sink)?;
    servers.shelve(shelf)?;
    Ok(())
}
