ghost use Rattle.std.specs.Prelude.{◌≡◌, ◌≢◌, ◌≤◌, OnErr, IfOk, length};
ghost use Rattle.ocm_base.specs.Outside.{Rose};
ghost use Rattle.ocm_records.specs.Rows.{Gives};
ghost use Rattle.ocm_commands_files.specs.Checks.{Checks, Tells};
ghost use Rattle.ocm_commands_files.specs.Checks as specified;
ghost use Rattle.ocm_commands_files.specs.Commands.{WritesPlain, WritesPlainPart};
ghost use Rattle.ocm_commands_files.specs.Words.{most_bytes};

use crate::ends::{End, Fault};
use crate::words::{Command, Kind};
use ocm_base::{Bytes, NoMemory, Sink, write_all};
use ocm_records::{
    RecordFault, read_discovery, read_error, read_notice, read_offer, write_discovery, write_error,
    write_notice, write_offer,
};
use std::alloc::Global;

/// Reads a record, and writes it in its one form, or its first fault.
pub fn check<K: Sink>(alloc: Global, kind: Kind, bytes: &[u8], sink: &mut K) -> Result<End, Fault>
    requires { length bytes.now ≤ most_bytes (Command.Check kind) }
    ensures whole { IfOk result (λ end. WritesPlain (Command.Check kind) bytes.now end (K.taken sink.old) (K.taken sink.new)) }
    ensures part { OnErr result (WritesPlainPart (Command.Check kind) bytes.now (K.taken sink.old) (K.taken sink.new)) }
    ensures not_long { result ≢ Err Fault.TooLong }
    ensures no_read_fault { result ≢ Err Fault.ReadFault }
    ensures write_fault { result ≡ Err Fault.WriteFault → Rose (K.faults sink.old) (K.faults sink.new) }
{
    let (end, text) = told(alloc, checked(alloc, kind, bytes))?;
    write_all(sink, text.as_slice())?;
    Ok(end)
}

/// The record that these bytes are, in its one form.
fn checked(alloc: Global, kind: Kind, bytes: &[u8]) -> Result<Bytes, RecordFault>
    ensures { Gives (λ text. text) result (specified.checked kind bytes.now) }
{
    match kind {
        Kind::Discovery => {
            let discovery = read_discovery(alloc, bytes)?;
            let text = write_discovery(alloc, &discovery)?;
            Ok(text)
        }
        Kind::Offer => {
            let offer = read_offer(alloc, bytes)?;
            let text = write_offer(alloc, &offer)?;
            Ok(text)
        }
        Kind::Notice => {
            let notice = read_notice(alloc, bytes)?;
            let text = write_notice(alloc, &notice)?;
            Ok(text)
        }
        Kind::Error => {
            let error = read_error(alloc, bytes)?;
            let text = write_error(alloc, &error)?;
            Ok(text)
        }
    }
}

/// What is written of a record, or of its fault.
fn told(alloc: Global, form: Result<Bytes, RecordFault>) -> Result<(End, Bytes), NoMemory>
    ensures tells { IfOk result (λ r. Tells form r.0 r.1) }
    ensures known { IfOk result (λ r. form ≢ Err RecordFault.NoMemory) }
{
    match form {
        Ok(mut text) => {
            text.add(b"\n")?;
            Ok((End::Done, text))
        }
        Err(RecordFault::NoMemory) => Err(NoMemory),
        Err(fault) => {
            let line = fault_line(alloc, fault)?;
            Ok((End::Record, line))
        }
    }
}

fn fault_line(alloc: Global, fault: RecordFault) -> Result<Bytes, NoMemory>
    ensures { IfOk result (λ line. line ≡ specified.fault_line fault) }
{
    let number = fault.number().to_string(alloc)?;
    let mut line = Bytes::of(alloc, b"fault ")?;
    line.add(number.as_bytes())?;
    if let Some(field) = fault.field() {
        line.add(b" ")?;
        line.add(field.name().as_bytes())?;
    }
    line.add(b"\n")?;
    Ok(line)
}
