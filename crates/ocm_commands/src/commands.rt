ghost use Rattle.std.specs.Prelude.{◌≡◌, ◌≢◌, ◌⊎◌, ◌≤◌, ℕ, List, [], OnOk, OnErr, IfOk, IfSome, length, true, false};
ghost use Rattle.ocm_base.specs.Outside.{Appends, AppendsPart, Rose};
ghost use Rattle.ocm_serve_options.specs.Plans.{texts};
ghost use Rattle.ocm_commands.specs.Commands.{LeavesPart, MayShelve, Writes, WritesOnCome, WritesPart};
ghost use Rattle.ocm_commands_files.specs.Commands.{IsLong, IsStatus, IsWhole, end_status, usage_line};
ghost use Rattle.ocm_commands_files.specs.Words.{AreOf, AreOther, BeginTrace, HasCome, IsSmall, input_of, most_bytes, reads};

use crate::drills::run_drill;
use crate::scripts::run_script;
use crate::traces::run_trace;
use ocm_base::{Bytes, NoMemory, Sink, Source};
use ocm_commands_files::{Command, End, Fault, read_input, run_plain, status_of, usage};
use ocm_disk::Shelf;
use std::alloc::Global;

/// Runs the command that the words are, and answers the status of the program: 0 where it was done,
/// 1 where the words are no command, 2 where a line of the script or the log is bad, 3 and 4 where the
/// source or the sink failed, 5 where there was no memory, 7 where the input is no journal, 8 where it is
/// no such record, 9 where it is too long, 17 where a line of the log is false, 18 where the least form of
/// a journal does not answer alike.
pub fn command<S: Source, K: Sink>(
    alloc: Global,
    words: &[String],
    source: &mut S,
    sink: &mut K,
    shelf: &mut Shelf,
) -> u8
    requires { shelf.old ≡ [] }
    ensures one { IsStatus result }

    // 1, or 4 where the line of the commands could not be written: other words, and nothing was read; or 5 where there was no
    // memory to test the host of a trace
    ensures usage { result ≡ 1 → AreOther (texts words.now) }
    ensures usage_line { result ≡ 1 → Appends (K.taken sink.old) (K.taken sink.new) usage_line }
    ensures other_words { AreOther (texts words.now) → (result ≡ 1) ⊎ (result ≡ 4) ⊎ ((result ≡ 5) × BeginTrace (texts words.now)) }
    ensures unread { AreOther (texts words.now) → source.new ≡ source.old }
    ensures part_of_usage { AreOther (texts words.now) → result ≡ 4 → AppendsPart (K.taken sink.old) (K.taken sink.new) usage_line }
    ensures untested { AreOther (texts words.now) → result ≡ 5 → K.taken sink.new ≡ K.taken sink.old }

    // 0, 2, 7, 8, 17 and 18: a command that reads read the source to its end, and what the command writes on its input was added
    ensures ended { (c : Command) → AreOf c (texts words.now) → reads c ≡ true → IsWhole result
        → IfSome (S.left source.new) (λ rest. rest ≡ []) }
    ensures whole { (c : Command) → AreOf c (texts words.now) → IsWhole result
        → IfSome (input_of c (S.left source.old)) (λ bytes. (end : End) × (result ≡ end_status end) × Writes c bytes end (K.taken sink.old) (K.taken sink.new) shelf.new) }

    // the same of a source that tells what it gave: what the command writes on the bytes that came was added
    ensures came { (c : Command) → AreOf c (texts words.now) → IsWhole result
        → WritesOnCome c result (S.received source.old) (S.received source.new) (K.taken sink.old) (K.taken sink.new) shelf.new }

    // the other commands leave the source as it is
    ensures alone { (c : Command) → AreOf c (texts words.now) → reads c ≡ false → source.new ≡ source.old }

    // 3 and 4: the source, the sink failed in this call
    ensures read_fault { result ≡ 3 → Rose (S.faults source.old) (S.faults source.new) }
    ensures write_fault { result ≡ 4 → Rose (K.faults sink.old) (K.faults sink.new) }

    // 9: the input is too long
    ensures too_long { (c : Command) → AreOf c (texts words.now) → result ≡ 9 → IfSome (input_of c (S.left source.old)) (IsLong c) }

    // what was written where the command was not done
    ensures unwritten_fault { result ≡ 3 → K.taken sink.new ≡ K.taken sink.old }
    ensures unwritten_length { result ≡ 9 → K.taken sink.new ≡ K.taken sink.old }
    ensures part { (c : Command) → AreOf c (texts words.now) → (result ≡ 4) ⊎ (result ≡ 5)
        → IfSome (input_of c (S.left source.old)) (λ bytes. WritesPart c bytes (K.taken sink.old) (K.taken sink.new)) }

    // 4 and 5: the shelf is empty, or has the disks of servers that a prefix of the events leaves
    ensures shelf_part { (c : Command) → AreOf c (texts words.now) → (result ≡ 4) ⊎ (result ≡ 5)
        → IfSome (input_of c (S.left source.old)) (λ bytes. LeavesPart c bytes shelf.new) }

    // all others but 0: the shelf is empty
    ensures unshelved { (result ≡ 0) ⊎ (result ≡ 4) ⊎ (result ≡ 5) ⊎ (shelf.new ≡ []) }
{
    match Command::read(alloc, words) {
        Ok(Some(command)) => status_of(run(alloc, &command, source, sink, shelf)),
        Ok(None) => usage(sink),
        Err(NoMemory) => status_of(Err(Fault::NoMemory)),
    }
}

/// Runs a command on its input.
fn run<S: Source, K: Sink>(
    alloc: Global,
    command: &Command,
    source: &mut S,
    sink: &mut K,
    shelf: &mut Shelf,
) -> Result<End, Fault>
    requires empty { shelf.old ≡ [] }
    requires small { IsSmall command.now }
    ensures ended { OnOk result (reads command.now ≡ true → IfSome (S.left source.new) (λ rest. rest ≡ [])) }
    ensures alone { reads command.now ≡ false → source.new ≡ source.old }
    ensures whole { IfOk result (λ end. IfSome (input_of command.now (S.left source.old)) (λ bytes. Writes command.now bytes end (K.taken sink.old) (K.taken sink.new) shelf.new)) }
    ensures came { IfOk result (λ end. (bytes : List ℕ) × HasCome command.now (S.received source.old) (S.received source.new) bytes × Writes command.now bytes end (K.taken sink.old) (K.taken sink.new) shelf.new) }
    ensures part { OnErr result (IfSome (input_of command.now (S.left source.old)) (λ bytes. WritesPart command.now bytes (K.taken sink.old) (K.taken sink.new))) }
    ensures shelf_part { OnErr result (IfSome (input_of command.now (S.left source.old)) (λ bytes. LeavesPart command.now bytes shelf.new)) }
    ensures unshelved { MayShelve result ⊎ (shelf.new ≡ []) }
    ensures too_long { result ≡ Err Fault.TooLong → IfSome (input_of command.now (S.left source.old)) (IsLong command.now) }
    ensures unwritten_length { result ≡ Err Fault.TooLong → K.taken sink.new ≡ K.taken sink.old }
    ensures unwritten_fault { result ≡ Err Fault.ReadFault → K.taken sink.new ≡ K.taken sink.old }
    ensures read_fault { result ≡ Err Fault.ReadFault → Rose (S.faults source.old) (S.faults source.new) }
    ensures write_fault { result ≡ Err Fault.WriteFault → Rose (K.faults sink.old) (K.faults sink.new) }
{
    match read_input(alloc, command, source) {
        Ok(bytes) => run_on(alloc, command, &bytes, sink, shelf),
        Err(fault) => Err(fault),
    }
}

/// Runs a command on the bytes of its input.
fn run_on<K: Sink>(
    alloc: Global,
    command: &Command,
    bytes: &Bytes,
    sink: &mut K,
    shelf: &mut Shelf,
) -> Result<End, Fault>
    requires length { length bytes.now ≤ most_bytes command.now }
    requires empty { shelf.old ≡ [] }
    requires small { IsSmall command.now }
    ensures whole { IfOk result (λ end. Writes command.now bytes.now end (K.taken sink.old) (K.taken sink.new) shelf.new) }
    ensures part { OnErr result (WritesPart command.now bytes.now (K.taken sink.old) (K.taken sink.new)) }
    ensures shelf_part { OnErr result (LeavesPart command.now bytes.now shelf.new) }
    ensures unshelved { MayShelve result ⊎ (shelf.new ≡ []) }
    ensures too_long { result ≡ Err Fault.TooLong → IsLong command.now bytes.now }
    ensures unwritten { result ≡ Err Fault.TooLong → K.taken sink.new ≡ K.taken sink.old }
    ensures no_read_fault { result ≢ Err Fault.ReadFault }
    ensures write_fault { result ≡ Err Fault.WriteFault → Rose (K.faults sink.old) (K.faults sink.new) }
{
    match command {
        Command::Replay => run_script(alloc, bytes.as_slice(), sink, shelf),
        Command::Trace(host) => run_trace(alloc, host, bytes.as_slice(), sink, shelf),
        Command::Drill { number, events } => run_drill(alloc, *number, *events, sink, shelf),
        Command::Audit
        | Command::Logcheck
        | Command::Compact
        | Command::Check(_)
        | Command::Help
        | Command::ServeHelp
        | Command::DavHelp
        | Command::Version => run_plain(alloc, command, bytes.as_slice(), sink),
    }
}
