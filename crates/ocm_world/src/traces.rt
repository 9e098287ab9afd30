//! The image of one server of a script, and the log of the reads that it answered.
ghost use Rattle.std.specs.Prelude.{◌≡◌, ◌≤◌, ◌⊎◌, [], Err, IfSome, OnOk, OnErr, IsTrue, length};
ghost use Rattle.std.specs.List.{list_all, list_any};
ghost use Rattle.ocm_texts.specs.Hex.{AreBytes};
ghost use Rattle.ocm_base.specs.Outside.{Rose};
ghost use Rattle.ocm_limits.specs.Limits.{most_lines};
ghost use Rattle.ocm_disk.specs.Shelf.{bytes_of, disk_of};
ghost use Rattle.ocm_script.specs.Events.{has_short_paths};
ghost use Rattle.ocm_script_run.specs.Servers.{World};
ghost use Rattle.ocm_script_run.specs.Traces as traced;
ghost use Rattle.ocm_world.specs.Shelves.{AllShelved, AreShelved, PrefixShelved};
ghost use Rattle.ocm_world.specs.Traces.{Traces, TracesPart};

use crate::servers::Servers;
use ocm_base::{List, Sink};
use ocm_disk::Shelf;
use ocm_script::Event;
use ocm_script_run::{WorldFault, log_events, write_input};
use ocm_types::Host;
use std::alloc::Global;

/// Runs a script, and writes the journal image and the access log of one of its servers: the length of
/// the image in eight bytes, the highest first; the image that the server's disk has at the end; and a
/// line for each read of the script at this server. A read has no line exactly where the transcript of the
/// run shows that memory ran out at it. The disk of each server is on the shelf before the first write. If
/// the sink fails, a prefix of all that was written; if memory runs out, nothing, and the shelf has the
/// disks of the first servers that a prefix of the script leaves, or of none. [`names`] tells whether the
/// script names the host.
pub fn trace<K: Sink>(
    alloc: Global,
    events: &List<Event>,
    host: &Host,
    sink: &mut K,
    shelf: &mut Shelf,
) -> Result<(), WorldFault>
    requires short { IsTrue (list_all has_short_paths events.now) }
    requires few { length events.now ≤ most_lines }
    requires named { IsTrue (list_any (traced.names host.now) events.now) }
    requires empty { shelf.old ≡ [] }
    ensures ok { OnOk result ((final : World) × Traces events.now host.now (K.taken sink.old) (K.taken sink.new) final shelf.new × AreShelved final shelf.new) }
    ensures err { OnErr result ((K.taken sink.new ≡ K.taken sink.old) ⊎ ((final : World) × TracesPart events.now host.now (K.taken sink.old) (K.taken sink.new) final shelf.new)) }
    ensures unwritten { result ≡ Err WorldFault.NoMemory → K.taken sink.new ≡ K.taken sink.old }
    ensures shelved { result ≡ Err WorldFault.WriteFault → AllShelved events.now shelf.new }
    ensures shelf_part { OnErr result (PrefixShelved events.now shelf.new) }
    ensures bytes { OnOk result (IfSome (bytes_of (disk_of host.now shelf.new)) AreBytes) }
    ensures rose { result ≡ Err WorldFault.WriteFault → Rose (K.faults sink.old) (K.faults sink.new) }
    ensures never_falls { K.faults sink.old ≤ K.faults sink.new }
{
    let mut servers = Servers::new(alloc);
    let log = log_events(alloc, events.as_slice(), host, &mut servers)?;
    servers.shelve(shelf)?;
    let Some(image) = shelf.bytes(host) else {
        // The script names the host.
        unreachable!()
    };
    write_input(sink, image, log.as_slice())?;
    Ok(())
}
