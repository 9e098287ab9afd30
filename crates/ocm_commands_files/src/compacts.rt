ghost use Rattle.std.specs.Prelude.{◌≡◌, ◌≢◌, ◌≤◌, Err, OnErr, IfOk, length};
ghost use Rattle.ocm_base.specs.Outside.{Rose};
ghost use Rattle.ocm_commands_files.specs.Commands.{WritesPlain, WritesPlainPart};
ghost use Rattle.ocm_commands_files.specs.Compacts.{Writes};
ghost use Rattle.ocm_commands_files.specs.Words.{most_bytes};

use crate::ends::{End, Fault};
use crate::lines::numbered_line;
use crate::words::Command;
use ocm_base::{Bytes, NoMemory, Sink, write_all};
use ocm_compact::{CompactFault, compact};
use std::alloc::Global;

/// Writes the journal's file that these bytes are anew in its least form, or names the place where they are no journal.
/// Nothing is written where that form does not answer alike.
pub fn run_compact<K: Sink>(alloc: Global, bytes: &[u8], sink: &mut K) -> Result<End, Fault>
    requires { length bytes.now ≤ most_bytes Command.Compact }
    ensures whole { IfOk result (λ end. WritesPlain Command.Compact bytes.now end (K.taken sink.old) (K.taken sink.new)) }
    ensures part { OnErr result (WritesPlainPart Command.Compact bytes.now (K.taken sink.old) (K.taken sink.new)) }
    ensures not_long { result ≢ Err Fault.TooLong }
    ensures no_read_fault { result ≢ Err Fault.ReadFault }
    ensures write_fault { result ≡ Err Fault.WriteFault → Rose (K.faults sink.old) (K.faults sink.new) }
{
    let (end, text) = told(alloc, compact(alloc, bytes))?;
    write_all(sink, text.as_slice())?;
    Ok(end)
}

/// How the command ends, and what it writes.
fn told(alloc: Global, made: Result<Bytes, CompactFault>) -> Result<(End, Bytes), NoMemory>
    ensures { IfOk result (λ r. Writes made r.0 r.1) }
{
    match made {
        Ok(bytes) => Ok((End::Done, bytes)),
        Err(CompactFault::NotJournal(place)) => {
            let text = numbered_line(alloc, b"not a journal at ", place)?;
            Ok((End::NotJournal, text))
        }
        Err(CompactFault::Differs) => Ok((End::Differs, Bytes::new(alloc))),
        Err(CompactFault::NoMemory) => Err(NoMemory),
    }
}
