ghost use Rattle.std.specs.Prelude.{◌≡◌, ◌≢◌, ◌⊎◌, ◌≤◌, [], OnErr, IfOk, List, ℕ, length};
ghost use Rattle.ocm_base.specs.Outside.{Rose};
ghost use Rattle.ocm_commands.specs.Commands.{LeavesPart, MayShelve, Writes, WritesPart};
ghost use Rattle.ocm_commands_files.specs.Words.{most_bytes};

use ocm_base::Sink;
use ocm_commands_files::{Command, End, Fault};
use ocm_disk::Shelf;
use ocm_world::{WorldFault, drill};
use std::alloc::Global;

/// Runs the script that is made of a number, with so many events behind the first sixteen, and writes its summary.
pub fn run_drill<K: Sink>(
    alloc: Global,
    number: u64,
    events: u32,
    sink: &mut K,
    shelf: &mut Shelf,
) -> Result<End, Fault>
    requires few { events ≤ 90000 }
    requires empty { shelf.old ≡ [] }
    ensures whole { (bytes : List ℕ) → length bytes ≤ most_bytes (Command.Drill number events)
        → IfOk result (λ end. Writes (Command.Drill number events) bytes end (K.taken sink.old) (K.taken sink.new) shelf.new) }
    ensures part { (bytes : List ℕ) → length bytes ≤ most_bytes (Command.Drill number events)
        → OnErr result (WritesPart (Command.Drill number events) bytes (K.taken sink.old) (K.taken sink.new)) }
    ensures shelf_part { (bytes : List ℕ) → OnErr result (LeavesPart (Command.Drill number events) bytes shelf.new) }
    ensures unshelved { MayShelve result ⊎ (shelf.new ≡ []) }
    ensures not_long { result ≢ Err Fault.TooLong }
    ensures no_read_fault { result ≢ Err Fault.ReadFault }
    ensures write_fault { result ≡ Err Fault.WriteFault → Rose (K.faults sink.old) (K.faults sink.new) }
{
    match drill(alloc, number, events, sink, shelf) {
        Ok(()) => Ok(End::Done),
        Err(WorldFault::WriteFault) => Err(Fault::WriteFault),
        Err(WorldFault::NoMemory) => Err(Fault::NoMemory),
    }
}
