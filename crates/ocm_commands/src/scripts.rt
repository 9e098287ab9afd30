ghost use Rattle.std.specs.Prelude.{◌≡◌, ◌≢◌, ◌⊎◌, ◌≤◌, [], OnErr, IfOk, length};
ghost use Rattle.ocm_base.specs.Outside.{Rose};
ghost use Rattle.ocm_commands.specs.Commands.{LeavesPart, MayShelve, Writes, WritesPart};
ghost use Rattle.ocm_commands_files.specs.Commands.{IsLong};
ghost use Rattle.ocm_commands_files.specs.Words.{most_bytes};

use ocm_base::Sink;
use ocm_commands_files::{Command, End, Fault, name_line};
use ocm_disk::Shelf;
use ocm_script::{ScriptFault, read_script};
use ocm_world::{WorldFault, replay};
use std::alloc::Global;

/// Runs the script that these bytes are and writes its transcript, or names its first bad line.
pub fn run_script<K: Sink>(
    alloc: Global,
    bytes: &[u8],
    sink: &mut K,
    shelf: &mut Shelf,
) -> Result<End, Fault>
    requires length { length bytes.now ≤ most_bytes Command.Replay }
    requires empty { shelf.old ≡ [] }
    ensures whole { IfOk result (λ end. Writes Command.Replay bytes.now end (K.taken sink.old) (K.taken sink.new) shelf.new) }
    ensures part { OnErr result (WritesPart Command.Replay bytes.now (K.taken sink.old) (K.taken sink.new)) }
    ensures shelf_part { OnErr result (LeavesPart Command.Replay bytes.now shelf.new) }
    ensures unshelved { MayShelve result ⊎ (shelf.new ≡ []) }
    ensures too_long { result ≡ Err Fault.TooLong → IsLong Command.Replay bytes.now }
    ensures unwritten { result ≡ Err Fault.TooLong → K.taken sink.new ≡ K.taken sink.old }
    ensures no_read_fault { result ≢ Err Fault.ReadFault }
    ensures write_fault { result ≡ Err Fault.WriteFault → Rose (K.faults sink.old) (K.faults sink.new) }
{
    let events = match read_script(alloc, bytes) {
        Ok(events) => events,
        Err(ScriptFault::Line(number)) => return name_line(alloc, number as u64, sink),
        Err(ScriptFault::TooMany) => return Err(Fault::TooLong),
        Err(ScriptFault::NoMemory) => return Err(Fault::NoMemory),
    };
    match replay(alloc, &events, sink, shelf) {
        Ok(()) => Ok(End::Done),
        Err(WorldFault::WriteFault) => Err(Fault::WriteFault),
        Err(WorldFault::NoMemory) => Err(Fault::NoMemory),
    }
}
