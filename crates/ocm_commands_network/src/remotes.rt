//! The command `dav`.
ghost use Rattle.std.specs.Prelude.{◌≡◌, ◌⊎◌, ◌<◌, IfSome, length, map};
ghost use Rattle.std.specs.String.{string_bytes};
ghost use Rattle.ocm_base.specs.Outside.{Appends, AppendsPart, Rose};
ghost use Rattle.ocm_commands_network.specs.Remotes.{TellsAnswer, TellsPart};
ghost use Rattle.ocm_commands_network.specs.Words as specified;
ghost use Rattle.ocm_commands_dav.specs.Answers.{IsTold, status_of};
ghost use Rattle.ocm_commands_dav.specs.Exchanges.{AsksPut};
ghost use Rattle.ocm_commands_dav.specs.Words.{IsOther, usage_line};

use crate::complaints::Complaint;
use ocm_base::{Sink, Source};
use ocm_commands_dav::{End, remote};
use ocm_net_adapters::ClientDial;
use ocm_serve_options::asks_help;
use std::alloc::Global;
use std::io::Eprint;
use std::net::{Net, TcpListener, TcpStream};
use std::sync::Wait;
use std::time;

/// Whether the words behind the program's name ask for a request to a server, and not for the words of one.
pub fn asks_remote(words: &[String]) -> bool
    ensures { result ≡ specified.asks_remote (map (λ word. string_bytes word) words.now) }
{
    match words {
        [word, rest @ ..] => word.as_str() == "dav" && !asks_help(rest),
        [] => false,
    }
}

/// Makes the request that the words ask for, over TCP. For words that ask for none it tells the commands, and on standard error
/// what is wrong with the words.
pub fn run_remote<
    R: Wait + time::Clock + Eprint + Net<Listener = TcpListener, Stream = TcpStream>,
    S: Source,
    K: Sink,
>(rt: &R, alloc: Global, words: &[String], source: &mut S, sink: &mut K) -> End
    // other words: the line of the commands
    ensures usage { result ≡ End.Usage → IsOther (map (λ word. string_bytes word) words.now) }
    ensures usage_line { result ≡ End.Usage → Appends (K.taken sink.old) (K.taken sink.new) usage_line }
    ensures other_words { IsOther (map (λ word. string_bytes word) words.now) → (result ≡ End.Usage) ⊎ (result ≡ End.WriteFault) ⊎ (result ≡ End.NoMemory) }
    ensures part_of_usage { IsOther (map (λ word. string_bytes word) words.now) → result ≡ End.WriteFault
        → AppendsPart (K.taken sink.old) (K.taken sink.new) usage_line }

    // the source: only the bytes of `put` are read
    ensures unread { (AsksPut (map (λ word. string_bytes word) words.now) → ⊥) → source.new ≡ source.old }
    ensures read_fault { result ≡ End.ReadFault → Rose (S.faults source.old) (S.faults source.new) }
    ensures read_for_put { (result ≡ End.ReadFault) ⊎ (result ≡ End.TooLong) → AsksPut (map (λ word. string_bytes word) words.now) }
    ensures too_long { result ≡ End.TooLong → IfSome (S.left source.old) (λ bytes. 1048576 < length bytes) }

    // where nothing is written
    ensures unwritten { (result ≡ End.ReadFault) ⊎ (result ≡ End.TooLong) ⊎ (result ≡ End.NoMemory) → K.taken sink.new ≡ K.taken sink.old }

    // else an answer to what the words ask for, by which it ends
    ensures told { IsTold result
        → TellsAnswer (map (λ word. string_bytes word) words.now) (S.left source.old) (S.left source.new) result (K.taken sink.old) (K.taken sink.new) }
    ensures part { result ≡ End.WriteFault
        → TellsPart (map (λ word. string_bytes word) words.now) (S.left source.old) (S.left source.new) (K.taken sink.old) (K.taken sink.new) }
    ensures write_fault { result ≡ End.WriteFault → Rose (K.faults sink.old) (K.faults sink.new) }
{
    let mut dial = ClientDial::new(rt);
    let end = remote(alloc, words, source, sink, &mut dial);
    tell_complaint(rt, alloc, words, end);
    end
}

/// Tells what is wrong with words of `dav` that ask for no request, where it ended since they do not.
fn tell_complaint<R: Eprint>(rt: &R, alloc: Global, words: &[String], end: End) {
    if end == End::Usage {
        if let Some(complaint) = Complaint::of(alloc, words) {
            let _ = eprintln!(rt; "ocmd: {complaint}");
        }
    }
}

/// Tells on standard error how `dav` ended where nothing on standard output tells it, and answers the status of the program.
pub fn told<R: Eprint>(rt: &R, end: End) -> u8
    ensures { result ≡ status_of end }
{
    if let Some(what) = words_of(end) {
        let _ = eprintln!(rt; "ocmd: {what}");
    }
    end.status()
}

/// How `dav` ended, in words, where nothing on standard output tells it.
fn words_of(end: End) -> Option<&'static str> {
    match end {
        End::Done | End::Usage | End::Status => None,
        End::ReadFault => Some("the input cannot be read"),
        End::WriteFault => Some("the output cannot be written"),
        End::NoMemory => Some("out of memory"),
        End::TooLong => Some("the input has more than 1048576 bytes"),
        End::DialFault => Some("the exchange with the server failed"),
        End::BadReply => Some("what the server sent is no reply"),
        End::NoDiscovery => Some("the host has no usable discovery document"),
    }
}
