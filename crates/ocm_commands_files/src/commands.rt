ghost use Rattle.std.specs.Prelude.{◌≡◌, ◌≢◌, ◌⊎◌, ◌≤◌, [], OnOk, OnErr, IfOk, IfSome, length, true, false};
ghost use Rattle.ocm_base.specs.Outside.{Appends, AppendsPart, Rose};
ghost use Rattle.ocm_commands_files.specs.Commands.{IsLong, IsPlain, WritesPlain, WritesPlainPart, usage_line};
ghost use Rattle.ocm_commands_files.specs.Commands as specified;
ghost use Rattle.ocm_commands_files.specs.Words.{HasCome, input_of, most_bytes, reads};

use crate::audits::run_audit;
use crate::checks::check;
use crate::compacts::run_compact;
use crate::ends::{End, Fault};
use crate::help::{DAV_HELP, HELP, SERVE_HELP, VERSION};
use crate::lines::write_text;
use crate::logchecks::run_logcheck;
use crate::words::Command;
use ocm_base::{Bytes, Failed, ReadEnd, Sink, Source, read_whole, write_all};
use std::alloc::Global;

/// Tells the commands, and answers the status for words that are none of them.
pub fn usage<K: Sink>(sink: &mut K) -> u8
    ensures one { (result ≡ 1) ⊎ (result ≡ 4) }
    ensures written { result ≡ 1 → Appends (K.taken sink.old) (K.taken sink.new) usage_line }
    ensures part { result ≡ 4 → AppendsPart (K.taken sink.old) (K.taken sink.new) usage_line }
    ensures fault { result ≡ 4 → Rose (K.faults sink.old) (K.faults sink.new) }
{
    match write_all(sink, USAGE) {
        Ok(()) => 1,
        Err(Failed) => 4,
    }
}

/// The line that tells the commands.
const USAGE: &[u8] =
    b"usage: ocmd replay|audit|check KIND|drill NUMBER EVENTS|serve OPTIONS|dav VERB HOST SECRET PATH\n";

/// The input of a command: the source to its end, and no bytes where the command does not read.
pub fn read_input<S: Source>(
    alloc: Global,
    command: &Command,
    source: &mut S,
) -> Result<Bytes, Fault>
    ensures ended { OnOk result (reads command.now ≡ true → IfSome (S.left source.new) (λ rest. rest ≡ [])) }
    ensures alone { reads command.now ≡ false → source.new ≡ source.old }
    ensures input { IfOk result (λ bytes. IfSome (input_of command.now (S.left source.old)) (λ input. input ≡ bytes)) }
    ensures came { IfOk result (λ bytes. HasCome command.now (S.received source.old) (S.received source.new) bytes) }
    ensures within { IfOk result (λ bytes. length bytes ≤ most_bytes command.now) }
    ensures too_long { result ≡ Err Fault.TooLong → IfSome (input_of command.now (S.left source.old)) (IsLong command.now) }
    ensures read_fault { result ≡ Err Fault.ReadFault → Rose (S.faults source.old) (S.faults source.new) }
    ensures no_write_fault { result ≢ Err Fault.WriteFault }
{
    if !command.reads() {
        return Ok(Bytes::new(alloc));
    }
    match read_whole(alloc, source, command.most_bytes()) {
        Ok(bytes) => Ok(bytes),
        Err(ReadEnd::ReadFault) => Err(Fault::ReadFault),
        Err(ReadEnd::TooLong) => Err(Fault::TooLong),
        Err(ReadEnd::NoMemory) => Err(Fault::NoMemory),
    }
}

/// Runs a plain command, which runs no servers of a script, on the bytes of its input.
pub fn run_plain<K: Sink>(
    alloc: Global,
    command: &Command,
    bytes: &[u8],
    sink: &mut K,
) -> Result<End, Fault>
    requires length { length bytes.now ≤ most_bytes command.now }
    requires plain { IsPlain command.now }
    ensures whole { IfOk result (λ end. WritesPlain command.now bytes.now end (K.taken sink.old) (K.taken sink.new)) }
    ensures part { OnErr result (WritesPlainPart command.now bytes.now (K.taken sink.old) (K.taken sink.new)) }
    ensures not_long { result ≢ Err Fault.TooLong }
    ensures no_read_fault { result ≢ Err Fault.ReadFault }
    ensures write_fault { result ≡ Err Fault.WriteFault → Rose (K.faults sink.old) (K.faults sink.new) }
{
    match command {
        Command::Audit => run_audit(alloc, bytes, sink),
        Command::Logcheck => run_logcheck(alloc, bytes, sink),
        Command::Compact => run_compact(alloc, bytes, sink),
        Command::Check(kind) => check(alloc, *kind, bytes, sink),
        Command::Help => write_text(HELP, sink),
        Command::ServeHelp => write_text(SERVE_HELP, sink),
        Command::DavHelp => write_text(DAV_HELP, sink),
        Command::Version => write_text(VERSION, sink),
        Command::Replay | Command::Trace(_) | Command::Drill { .. } => unreachable!(),
    }
}

/// The status of the program where a command ended so.
pub fn status_of(end: Result<End, Fault>) -> u8
    ensures { result ≡ specified.status_of end }
{
    match end {
        Ok(End::Done) => 0,
        Ok(End::Script) => 2,
        Ok(End::NotJournal) => 7,
        Ok(End::Record) => 8,
        Ok(End::False) => 17,
        Ok(End::Differs) => 18,
        Err(Fault::ReadFault) => 3,
        Err(Fault::WriteFault) => 4,
        Err(Fault::NoMemory) => 5,
        Err(Fault::TooLong) => 9,
    }
}
