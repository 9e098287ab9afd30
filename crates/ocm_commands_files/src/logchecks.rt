ghost use Rattle.std.specs.Prelude.{◌≡◌, ◌≢◌, ◌≤◌, ◌^◌, ◌++◌, ◌∷◌, [], Err, ℕ, OnErr, IfOk, IfSome, length, option_map};
ghost use Rattle.std.specs.Fmt.{decimal};
ghost use Rattle.ocm_base.specs.Outside.{Rose};
ghost use Rattle.ocm_commands_files.specs.Commands.{WritesPlain, WritesPlainPart};
ghost use Rattle.ocm_commands_files.specs.Logchecks as specified;
ghost use Rattle.ocm_commands_files.specs.Logchecks.{Tells, TellsParts};
ghost use Rattle.ocm_commands_files.specs.Words.{most_bytes};

use crate::ends::{End, Fault};
use crate::lines::numbered_line;
use crate::words::Command;
use ocm_base::{Bytes, NoMemory, Sink, write_all};
use ocm_limits::MOST_AUDITED_BYTES;
use ocm_logcheck::{LogFault, check_log};
use std::alloc::Global;

/// Tests a log of reads against the image of the journal of the server that answered them, and tells how many lines it
/// has, or why it is refused.
pub fn run_logcheck<K: Sink>(alloc: Global, bytes: &[u8], sink: &mut K) -> Result<End, Fault>
    requires { length bytes.now ≤ most_bytes Command.Logcheck }
    ensures whole { IfOk result (λ end. WritesPlain Command.Logcheck bytes.now end (K.taken sink.old) (K.taken sink.new)) }
    ensures part { OnErr result (WritesPlainPart Command.Logcheck bytes.now (K.taken sink.old) (K.taken sink.new)) }
    ensures not_long { result ≢ Err Fault.TooLong }
    ensures no_read_fault { result ≢ Err Fault.ReadFault }
    ensures write_fault { result ≡ Err Fault.WriteFault → Rose (K.faults sink.old) (K.faults sink.new) }
{
    let (end, text) = told(alloc, checked(alloc, bytes))?;
    write_all(sink, text.as_slice())?;
    Ok(end)
}

/// How many lines the log of an input has, each of which is true of its image, or why it is refused. An input without parts
/// has the bad line 0.
fn checked(alloc: Global, bytes: &[u8]) -> Result<u64, LogFault>
    requires { length bytes.now ≤ most_bytes Command.Logcheck }
    ensures { result ≢ Err LogFault.NoMemory → TellsParts (specified.log_parts bytes.now) result }
{
    match log_parts(bytes) {
        Some((image, log)) => check_log(alloc, image, log),
        None => Err(LogFault::BadLine(0)),
    }
}

/// The image of an input, and the log behind it. None where the image is not there whole, or has too many bytes.
fn log_parts(bytes: &[u8]) -> Option<(&[u8], &[u8])>
    requires { length bytes.now ≤ most_bytes Command.Logcheck }
    ensures parts { option_map (λ parts. (parts.0.now, parts.1.now)) result ≡ specified.log_parts bytes.now }
    ensures image { IfSome result (λ parts. length parts.0.now ≤ 2 ^ 62) }
{
    if bytes.len() < 8 {
        return None;
    }
    let (front, rest) = bytes.split_at(8);
    let length = number_of(front);
    if length > MOST_AUDITED_BYTES || length > rest.len() as u64 {
        return None;
    }
    Some(rest.split_at(length as usize))
}

/// The number that eight bytes write, the highest first.
fn number_of(bytes: &[u8]) -> u64
    requires { length bytes.now ≡ 8 }
    ensures { result ≡ specified.image_length bytes.now }
{
    let [a, b, c, d, e, f, g, h] = [
        bytes[0], bytes[1], bytes[2], bytes[3], bytes[4], bytes[5], bytes[6], bytes[7],
    ];
    u64::from_be_bytes([a, b, c, d, e, f, g, h])
}

/// What is written of what a check tells.
fn told(alloc: Global, checked: Result<u64, LogFault>) -> Result<(End, Bytes), NoMemory>
    ensures tells { IfOk result (λ r. Tells checked r.0 r.1) }
    ensures known { IfOk result (λ r. checked ≢ Err LogFault.NoMemory) }
{
    match checked {
        Ok(lines) => end_line(alloc, End::Done, b"ok ", lines),
        Err(LogFault::NotJournal(place)) => {
            end_line(alloc, End::NotJournal, b"not a journal at ", place)
        }
        Err(LogFault::BadLine(number)) => end_line(alloc, End::Script, b"bad line ", number),
        Err(LogFault::False(number)) => end_line(alloc, End::False, b"false at ", number),
        Err(LogFault::NoMemory) => Err(NoMemory),
    }
}

/// An end, and its line of some words and a number.
fn end_line(alloc: Global, end: End, words: &[u8], number: u64) -> Result<(End, Bytes), NoMemory>
    ensures { IfOk result (λ r. (r.0 ≡ end) × (r.1 ≡ words.now ++ decimal number ++ 10 ∷ [])) }
{
    let text = numbered_line(alloc, words, number)?;
    Ok((end, text))
}
