ghost use Rattle.std.specs.Prelude.{◌≡◌, ◌≢◌, ◌≤◌, OnErr, IfOk, length};
ghost use Rattle.ocm_base.specs.Outside.{Appends, AppendsPart, Rose};
ghost use Rattle.ocm_commands_files.specs.Audits.{not_journal};
ghost use Rattle.ocm_commands_files.specs.Commands.{WritesPlain, WritesPlainPart};
ghost use Rattle.ocm_commands_files.specs.Words.{most_bytes};

use crate::ends::{End, Fault};
use crate::lines::numbered_line;
use crate::words::Command;
use ocm_base::{Sink, write_all};
use ocm_journal_audit::{AuditFault, audit};
use std::alloc::Global;

/// Tells what the records of the journal's file say that these bytes are, or names the place where they are no journal.
pub fn run_audit<K: Sink>(alloc: Global, bytes: &[u8], sink: &mut K) -> Result<End, Fault>
    requires { length bytes.now ≤ most_bytes Command.Audit }
    ensures whole { IfOk result (λ end. WritesPlain Command.Audit bytes.now end (K.taken sink.old) (K.taken sink.new)) }
    ensures part { OnErr result (WritesPlainPart Command.Audit bytes.now (K.taken sink.old) (K.taken sink.new)) }
    ensures not_long { result ≢ Err Fault.TooLong }
    ensures no_read_fault { result ≢ Err Fault.ReadFault }
    ensures write_fault { result ≡ Err Fault.WriteFault → Rose (K.faults sink.old) (K.faults sink.new) }
{
    match audit(alloc, bytes, sink) {
        Ok(()) => Ok(End::Done),
        Err(AuditFault::NotJournal(place)) => name_place(alloc, place, sink),
        Err(AuditFault::WriteFault) => Err(Fault::WriteFault),
        Err(AuditFault::NoMemory) => Err(Fault::NoMemory),
    }
}

/// Names the place where bytes are no journal.
fn name_place<K: Sink>(alloc: Global, place: u64, sink: &mut K) -> Result<End, Fault>
    ensures whole { IfOk result (λ end. (end ≡ End.NotJournal) × Appends (K.taken sink.old) (K.taken sink.new) (not_journal place)) }
    ensures part { OnErr result (AppendsPart (K.taken sink.old) (K.taken sink.new) (not_journal place)) }
    ensures not_long { result ≢ Err Fault.TooLong }
    ensures no_read_fault { result ≢ Err Fault.ReadFault }
    ensures write_fault { result ≡ Err Fault.WriteFault → Rose (K.faults sink.old) (K.faults sink.new) }
{
    let line = numbered_line(alloc, b"not a journal at ", place)?;
    write_all(sink, line.as_slice())?;
    Ok(End::NotJournal)
}
