ghost use Rattle.std.specs.Prelude.{◌≡◌, ◌≢◌, ◌⊎◌, ◌≤◌, [], OnErr, IfOk, length};
ghost use Rattle.ocm_base.specs.Outside.{Rose};
ghost use Rattle.ocm_commands.specs.Commands.{LeavesPart, MayShelve, Writes, WritesPart};
ghost use Rattle.ocm_commands_files.specs.Commands.{IsLong};
ghost use Rattle.ocm_commands_files.specs.Words.{most_bytes};

use ocm_base::Sink;
use ocm_commands_files::{Command, End, Fault, name_line};
use ocm_disk::Shelf;
use ocm_script::{ScriptFault, read_script};
use ocm_types::Host;
use ocm_world::{WorldFault, names, trace};
use std::alloc::Global;

/// Runs the script that these bytes are, and writes the image of a host's disk and the log of the reads there. It names the
/// first bad line of the script, and the line 0 where no line names the host.
pub fn run_trace<K: Sink>(
    alloc: Global,
    host: &Host,
    bytes: &[u8],
    sink: &mut K,
    shelf: &mut Shelf,
) -> Result<End, Fault>
    requires length { length bytes.now ≤ most_bytes (Command.Trace host.now) }
    requires empty { shelf.old ≡ [] }
    ensures whole { IfOk result (λ end. Writes (Command.Trace host.now) bytes.now end (K.taken sink.old) (K.taken sink.new) shelf.new) }
    ensures part { OnErr result (WritesPart (Command.Trace host.now) bytes.now (K.taken sink.old) (K.taken sink.new)) }
    ensures shelf_part { OnErr result (LeavesPart (Command.Trace host.now) bytes.now shelf.new) }
    ensures unshelved { MayShelve result ⊎ (shelf.new ≡ []) }
    ensures too_long { result ≡ Err Fault.TooLong → IsLong (Command.Trace host.now) bytes.now }
    ensures unwritten { result ≡ Err Fault.TooLong → K.taken sink.new ≡ K.taken sink.old }
    ensures no_read_fault { result ≢ Err Fault.ReadFault }
    ensures write_fault { result ≡ Err Fault.WriteFault → Rose (K.faults sink.old) (K.faults sink.new) }
{
    let events = match read_script(alloc, bytes) {
        Ok(events) => events,
        Err(ScriptFault::Line(number)) => return name_line(alloc, number as u64, sink),
        Err(ScriptFault::TooMany) => return Err(Fault::TooLong),
        Err(ScriptFault::NoMemory) => return Err(Fault::NoMemory),
    };
    if !names(&events, host) {
        return name_line(alloc, 0, sink);
    }
    match trace(alloc, &events, host, sink, shelf) {
        Ok(()) => Ok(End::Done),
        Err(WorldFault::WriteFault) => Err(Fault::WriteFault),
        Err(WorldFault::NoMemory) => Err(Fault::NoMemory),
    }
}
