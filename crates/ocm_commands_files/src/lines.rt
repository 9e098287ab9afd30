//! Texts that are written whole.
ghost use Rattle.std.specs.Prelude.{◌≡◌, ◌≢◌, ◌++◌, ◌∷◌, [], OnOk, OnErr, IfOk};
ghost use Rattle.std.specs.Fmt.{decimal};
ghost use Rattle.ocm_base.specs.Outside.{Appends, AppendsPart, Rose};
ghost use Rattle.ocm_commands_files.specs.Lines.{bad_line};

use crate::ends::{End, Fault};
use ocm_base::{Bytes, NoMemory, Sink, write_all};
use std::alloc::Global;

/// A line of some words and a number.
pub fn numbered_line(alloc: Global, words: &[u8], number: u64) -> Result<Bytes, NoMemory>
    ensures { IfOk result (λ text. text ≡ words.now ++ decimal number ++ 10 ∷ []) }
{
    let digits = number.to_string(alloc)?;
    let mut text = Bytes::of(alloc, words)?;
    text.add(digits.as_bytes())?;
    text.add(b"\n")?;
    Ok(text)
}

/// Names a bad line.
pub fn name_line<K: Sink>(alloc: Global, number: u64, sink: &mut K) -> Result<End, Fault>
    ensures whole { IfOk result (λ end. (end ≡ End.Script) × Appends (K.taken sink.old) (K.taken sink.new) (bad_line number)) }
    ensures part { OnErr result (AppendsPart (K.taken sink.old) (K.taken sink.new) (bad_line number)) }
    ensures not_long { result ≢ Err Fault.TooLong }
    ensures no_read_fault { result ≢ Err Fault.ReadFault }
    ensures write_fault { result ≡ Err Fault.WriteFault → Rose (K.faults sink.old) (K.faults sink.new) }
{
    let line = numbered_line(alloc, b"bad line ", number)?;
    write_all(sink, line.as_slice())?;
    Ok(End::Script)
}

/// Writes a text that is always the same.
pub fn write_text<K: Sink>(text: &[u8], sink: &mut K) -> Result<End, Fault>
    ensures whole { IfOk result (λ end. (end ≡ End.Done) × Appends (K.taken sink.old) (K.taken sink.new) text.now) }
    ensures part { OnErr result (AppendsPart (K.taken sink.old) (K.taken sink.new) text.now) }
    ensures not_long { result ≢ Err Fault.TooLong }
    ensures no_read_fault { result ≢ Err Fault.ReadFault }
    ensures write_fault { result ≡ Err Fault.WriteFault → Rose (K.faults sink.old) (K.faults sink.new) }
{
    write_all(sink, text)?;
    Ok(End::Done)
}
