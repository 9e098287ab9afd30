ghost use Rattle.std.specs.Prelude.{◌≡◌, ◌≢◌, ◌⊎◌, ◌<◌, List, ℕ, true, Result, IfSome, length, map};
ghost use Rattle.std.specs.String.{string_bytes};
ghost use Rattle.ocm_base.specs.Outside.{Appends, AppendsPart, Rose};
ghost use Rattle.ocm_limits.specs.Limits.{most_body_bytes};
ghost use Rattle.ocm_davclient.specs.declared.faults.ClientFault.{ClientFault};
ghost use Rattle.ocm_commands_dav.specs.Answers.{IsTold, end_of, text_of};
ghost use Rattle.ocm_commands_dav.specs.Exchanges.{AsksPut, Does, DoesAsked};
ghost use Rattle.ocm_commands_dav.specs.Words.{IsOther, IsUsage, usage_line};
ghost use Rattle.ocm_commands_dav.specs.declared.verbs.Verb.TheVariants as verbs;

use crate::bodies::body_for;
use crate::calls::work;
use crate::ends::End;
use crate::tasks::{Task, WordsFault};
use crate::tellings::{tell, tell_usage};
use ocm_base::{ReadEnd, Sink, Source};
use ocm_pump::Dial;
use std::alloc::Global;

/// Does what the words behind the program's name ask for, `dav VERB HOST SECRET PATH` with one of the verbs `get`, `put`,
/// `delete`, `mkcol` and `list`, at the server that the discovery document of HOST names. The bytes of `put` are read from
/// the source to their end before anybody is asked. Those that come for `get` and `list` are written.
pub fn remote<S: Source, K: Sink, N: Dial>(
    alloc: Global,
    words: &[String],
    source: &mut S,
    sink: &mut K,
    dial: &mut N,
) -> End
    requires delivers { N.delivers dial.old ≡ true }

    // other words: the line of the commands
    ensures usage { result ≡ End.Usage → IsOther (map (λ word. string_bytes word) words.now) }
    ensures usage_line { result ≡ End.Usage → Appends (K.taken sink.old) (K.taken sink.new) usage_line }
    ensures other_words { IsOther (map (λ word. string_bytes word) words.now) → (result ≡ End.Usage) ⊎ (result ≡ End.WriteFault) ⊎ (result ≡ End.NoMemory) }
    ensures part_of_usage { IsOther (map (λ word. string_bytes word) words.now) → result ≡ End.WriteFault
        → AppendsPart (K.taken sink.old) (K.taken sink.new) usage_line }

    // the source: only the bytes of `put` are read
    ensures unread { (AsksPut (map (λ word. string_bytes word) words.now) → ⊥) → source.new ≡ source.old }
    ensures read_fault { result ≡ End.ReadFault → AsksPut (map (λ word. string_bytes word) words.now) × Rose (S.faults source.old) (S.faults source.new) }
    ensures too_long { result ≡ End.TooLong → AsksPut (map (λ word. string_bytes word) words.now) × IfSome (S.left source.old) (λ bytes. most_body_bytes < length bytes) }

    // where nobody is asked, and where nothing is written
    ensures unasked { IsOther (map (λ word. string_bytes word) words.now) ⊎ (result ≡ End.ReadFault) ⊎ (result ≡ End.TooLong) → dial.new ≡ dial.old }
    ensures unwritten { (result ≡ End.ReadFault) ⊎ (result ≡ End.TooLong) ⊎ (result ≡ End.NoMemory) → K.taken sink.new ≡ K.taken sink.old }

    // else what was asked of whom, and the answer, by which it ends
    ensures exact { IsTold result → (answer : Result (List ℕ) ClientFault)
        × DoesAsked (map (λ word. string_bytes word) words.now) (S.left source.old) (S.left source.new) (N.exchanges dial.old) (N.exchanges dial.new) answer
        × (result ≡ end_of answer) × Appends (K.taken sink.old) (K.taken sink.new) (text_of answer) }
    ensures part { result ≡ End.WriteFault → IsOther (map (λ word. string_bytes word) words.now) ⊎ ((answer : Result (List ℕ) ClientFault)
        × DoesAsked (map (λ word. string_bytes word) words.now) (S.left source.old) (S.left source.new) (N.exchanges dial.old) (N.exchanges dial.new) answer
        × AppendsPart (K.taken sink.old) (K.taken sink.new) (text_of answer)) }
    ensures memory { result ≡ End.NoMemory → (dial.new ≡ dial.old) ⊎ ((answer : Result (List ℕ) ClientFault)
        × DoesAsked (map (λ word. string_bytes word) words.now) (S.left source.old) (S.left source.new) (N.exchanges dial.old) (N.exchanges dial.new) answer) }

    ensures write_fault { result ≡ End.WriteFault → Rose (K.faults sink.old) (K.faults sink.new) }
    ensures dial_fault { result ≡ End.DialFault → Rose (N.faults dial.old) (N.faults dial.new) }
{
    match Task::read(alloc, words) {
        Ok(task) => run(alloc, task, source, sink, dial),
        Err(fault) => refuse(fault, sink),
    }
}

/// Tells the commands where the fault lies in the words.
fn refuse<K: Sink>(fault: WordsFault, sink: &mut K) -> End
    ensures usage { result ≡ End.Usage → IsUsage fault }
    ensures usage_line { result ≡ End.Usage → Appends (K.taken sink.old) (K.taken sink.new) usage_line }
    ensures one { (result ≡ End.Usage) ⊎ (result ≡ End.WriteFault) ⊎ (result ≡ End.NoMemory) }
    ensures part_of_usage { result ≡ End.WriteFault → IsUsage fault × AppendsPart (K.taken sink.old) (K.taken sink.new) usage_line }
    ensures unwritten { result ≡ End.NoMemory → sink.new ≡ sink.old }
    ensures write_fault { result ≡ End.WriteFault → Rose (K.faults sink.old) (K.faults sink.new) }
{
    if fault.is_usage() {
        tell_usage(sink)
    } else {
        End::NoMemory
    }
}

/// Does a task.
fn run<S: Source, K: Sink, N: Dial>(
    alloc: Global,
    task: Task,
    source: &mut S,
    sink: &mut K,
    dial: &mut N,
) -> End
    requires delivers { N.delivers dial.old ≡ true }
    ensures no_usage { result ≢ End.Usage }
    ensures unread { task.verb ≢ verbs.Put → source.new ≡ source.old }
    ensures read_fault { result ≡ End.ReadFault → (task.verb ≡ verbs.Put) × Rose (S.faults source.old) (S.faults source.new) }
    ensures too_long { result ≡ End.TooLong → (task.verb ≡ verbs.Put) × IfSome (S.left source.old) (λ bytes. most_body_bytes < length bytes) }
    ensures unasked { (result ≡ End.ReadFault) ⊎ (result ≡ End.TooLong) → dial.new ≡ dial.old }
    ensures unwritten { (result ≡ End.ReadFault) ⊎ (result ≡ End.TooLong) ⊎ (result ≡ End.NoMemory) → K.taken sink.new ≡ K.taken sink.old }
    ensures exact { IsTold result → (answer : Result (List ℕ) ClientFault)
        × Does task (S.left source.old) (S.left source.new) (N.exchanges dial.old) (N.exchanges dial.new) answer
        × (result ≡ end_of answer) × Appends (K.taken sink.old) (K.taken sink.new) (text_of answer) }
    ensures part { result ≡ End.WriteFault → (answer : Result (List ℕ) ClientFault)
        × Does task (S.left source.old) (S.left source.new) (N.exchanges dial.old) (N.exchanges dial.new) answer
        × AppendsPart (K.taken sink.old) (K.taken sink.new) (text_of answer) }
    ensures memory { result ≡ End.NoMemory → (dial.new ≡ dial.old) ⊎ ((answer : Result (List ℕ) ClientFault)
        × Does task (S.left source.old) (S.left source.new) (N.exchanges dial.old) (N.exchanges dial.new) answer) }
    ensures write_fault { result ≡ End.WriteFault → Rose (K.faults sink.old) (K.faults sink.new) }
    ensures dial_fault { result ≡ End.DialFault → Rose (N.faults dial.old) (N.faults dial.new) }
{
    match body_for(alloc, task.verb, source) {
        Ok(body) => tell(alloc, work(alloc, task, &body, dial), sink),
        Err(ReadEnd::ReadFault) => End::ReadFault,
        Err(ReadEnd::TooLong) => End::TooLong,
        Err(ReadEnd::NoMemory) => End::NoMemory,
    }
}
