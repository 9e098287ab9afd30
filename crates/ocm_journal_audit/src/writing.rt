ghost use Rattle.std.specs.Prelude.{◌≡◌, ◌≢◌, ◌≤◌, ◌+◌, ◌++◌, ◌^◌, ℕ, List, length, IsOk, OnOk, OnErr, Err};
ghost use Rattle.ocm_base.specs.Outside.{Appends, AppendsPart, Rose};
ghost use Rattle.ocm_journal_image.specs.Reading.{records_from};
ghost use Rattle.ocm_journal_audit.specs.Passes.{AppendsFront, told_lines};

use crate::faults::AuditFault;
use crate::lines::{add_end_line, add_line};
use ocm_base::{Bytes, Failed, Sink, write_all};
use ocm_journal_image::next_record;
use std::alloc::Global;

/// From this many bytes on what is held is written.
const MANY: usize = 4096;

/// Writes what is held, where it is much.
fn pass_on<K: Sink>(alloc: Global, held: &mut Bytes, sink: &mut K) -> Result<(), Failed>
    ensures ok { OnOk result ((written : List ℕ) × Appends (K.taken sink.old) (K.taken sink.new) written × (held.old ≡ written ++ held.new)) }
    ensures err { OnErr result (AppendsPart (K.taken sink.old) (K.taken sink.new) held.old) }
    ensures rose { OnErr result (Rose (K.faults sink.old) (K.faults sink.new)) }
    ensures never_falls { K.faults sink.old ≤ K.faults sink.new }
{
    if held.len() >= MANY {
        write_all(sink, held.as_slice())?;
        *held = Bytes::new(alloc);
    }
    Ok(())
}

/// Writes a text, then the lines of the records from the gate at `place` on, which is the first of `bytes`, and then the
/// line of their end.
pub fn write_records<K: Sink>(
    alloc: Global,
    text: Bytes,
    form: u8,
    place: u64,
    bytes: &[u8],
    sink: &mut K,
) -> Result<(), AuditFault>
    requires framed { IsOk (records_from 0 place bytes.now) }
    requires within { place + length bytes.now ≤ 2 ^ 63 }
    ensures ok { OnOk result (Appends (K.taken sink.old) (K.taken sink.new) (text ++ told_lines form (records_from 0 place bytes.now))) }
    ensures err { OnErr result (AppendsFront (K.taken sink.old) (K.taken sink.new) (text ++ told_lines form (records_from 0 place bytes.now))) }
    ensures journal { (fault : ℕ) → result ≢ Err (AuditFault.NotJournal fault) }
    ensures rose { result ≡ Err AuditFault.WriteFault → Rose (K.faults sink.old) (K.faults sink.new) }
    ensures never_falls { K.faults sink.old ≤ K.faults sink.new }
{
    let mut held = text;
    let mut end = place;
    let mut rest = bytes;
    while let Ok(Some(bytes)) = next_record(end, rest) {
        add_line(alloc, &mut held, form, end, bytes)?;
        pass_on(alloc, &mut held, sink)?;
        let size = 5 + bytes.len();
        end += size as u64;
        rest = &rest[size..];
    }
    add_end_line(alloc, &mut held, end)?;
    write_all(sink, held.as_slice())?;
    Ok(())
}
