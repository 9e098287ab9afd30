//! The program `ocmd`: its commands over standard input and standard output.
#![tactic(auto)]

ghost use Rattle.std.specs.Prelude.{◌≡◌, ◌⊎◌};
ghost use Rattle.ocm_base.specs.Outside.{Appends, AppendsPart, Rose};
ghost use Rattle.ocm_serve_options.specs.Plans.{texts};
ghost use Rattle.ocm_commands_dav.specs.Answers.{status_of};
ghost use Rattle.ocm_commands_dav.specs.Exchanges.{AsksPut};
ghost use Rattle.ocm_commands_dav.specs.declared.ends.End.{End};
ghost use Rattle.ocm_commands_dav.specs.declared.ends.End.TheVariants as asked;
ghost use Rattle.ocm_commands_files.specs.Commands.{usage_line};
ghost use Rattle.ocm_commands_network.specs.Servers.{DoesWords};
ghost use Rattle.ocmd.specs.Runs.{AloneCame, AloneEnds, AloneReads, AskAlone, AskRemote, AskServe, RemoteEnds, ServeEnds};

use ocm_base::{GhostBytes, Sink, Source, StdSink, StdSource};
use ocm_commands::command;
use ocm_commands_files::usage;
use ocm_commands_network::{asks_remote, asks_serve, run_remote, run_server, told};
use ocm_disk::{Disk, FileDisk, Shelf};
use ocm_log_files::LogFile;
use ocm_net_adapters::StreamConn;
use ocm_serve::StandIns;
use ocm_serve_system::{DroppedLines, ToldDisk, Unblocked};
use ocm_server_connections::Conn;
use std::alloc::Global;
use std::fs::File;
use std::io::{Eprint, ErrorKind};
use std::net::{Net, TcpListener, TcpStream};
use std::process::ExitCode;
use std::rt::Files;
use std::sync::Wait;
use std::thread::Threads;
use std::{env, io, time};

/// The status where there was no memory for the words.
const NO_MEMORY: u8 = 5;

fn main(rt: HostRuntime) -> ExitCode {
    let stand_ins = StandIns::open(&rt);
    let mut source = StdSource::new(rt.reader());
    let mut sink = StdSink::new(io::writer(&rt));
    let dropped = DroppedLines::new();
    let unblocked = Unblocked::new(&rt, &dropped);
    // Contracts alone read what is said here of a disk: the program does the same whatever it is.
    let holds = GhostBytes::new();
    let status = match words_of(&rt) {
        Ok(words) => run(
            &unblocked,
            rt.alloc(),
            &words,
            &mut source,
            &mut sink,
            holds,
        ),
        Err(kind) => without_words(kind, &mut sink),
    };
    drop(stand_ins);
    ExitCode::from(status)
}

/// The words behind the program's name. A word that is no text is an error.
fn words_of(rt: &HostRuntime) -> Result<Vec<String>, ErrorKind> {
    match env::args(rt) {
        Ok(words) => match words.skip(1).collect(rt.alloc()) {
            Ok(words) => Ok(words),
            Err(_) => Err(ErrorKind::OutOfMemory),
        },
        Err(e) => Err(e.kind()),
    }
}

/// Does what the words ask for, and answers the status of the program: `serve` and `dav` by the first word, else `command`.
/// What the disk of a server holds is said by the caller, for contracts alone.
fn run<
    'a,
    R: Threads
        + Wait
        + Sync
        + time::Clock
        + Files<File = File>
        + Eprint
        + Net<Listener = TcpListener, Stream = TcpStream>,
    S: Source,
    K: Sink,
>(rt: &'a R, alloc: Global, words: &[String], source: &mut S, sink: &mut K, holds: GhostBytes) -> u8
    // `serve`
    ensures serve { AskServe (texts words.now) → ServeEnds (texts words.now) result (K.taken sink.old) (K.taken sink.new) (K.faults sink.old) (K.faults sink.new) }
    ensures serve_ran { AskServe (texts words.now) → (result ≡ 1) ⊎ (result ≡ 4) ⊎ DoesWords ⟦<ToldDisk<'a, R, FileDisk> as Disk>⟧ ⟦<StreamConn<'a, R> as Conn>⟧.sides ⟦<LogFile as Sink>⟧.taken ⟦<LogFile as Sink>⟧.faults (texts words.now) holds.bytes result }
    ensures serve_unread { AskServe (texts words.now) → source.new ≡ source.old }

    // `dav`
    ensures dav { AskRemote (texts words.now) → (end : End) × (result ≡ status_of end)
        × RemoteEnds (texts words.now) end (S.left source.old) (S.left source.new) (K.taken sink.old) (K.taken sink.new) (K.faults sink.old) (K.faults sink.new)
        × (end ≡ asked.ReadFault → Rose (S.faults source.old) (S.faults source.new)) }
    ensures dav_unread { AskRemote (texts words.now) → (AsksPut (texts words.now) → ⊥) → source.new ≡ source.old }

    // the other commands, and other words
    ensures alone { AskAlone (texts words.now) → AloneEnds (texts words.now) result (S.left source.old) (K.taken sink.old) (K.taken sink.new) }
    ensures alone_came { AskAlone (texts words.now) → AloneCame (texts words.now) result (S.received source.old) (S.received source.new) (K.taken sink.old) (K.taken sink.new) }
    ensures alone_reads { AskAlone (texts words.now) → AloneReads S.left (texts words.now) result source.old source.new }
    ensures alone_read_fault { AskAlone (texts words.now) → result ≡ 3 → Rose (S.faults source.old) (S.faults source.new) }
    ensures alone_write_fault { AskAlone (texts words.now) → result ≡ 4 → Rose (K.faults sink.old) (K.faults sink.new) }
{
    if asks_serve(words) {
        return run_server(rt, alloc, words, sink, holds);
    }
    if asks_remote(words) {
        return told(rt, run_remote(rt, alloc, words, source, sink));
    }
    let mut shelf = Shelf::new(alloc);
    command(alloc, words, source, sink, &mut shelf)
}

/// The status where the system gave no words: 5 where memory ran out. Else they are told as words that are no command: 1, or
/// 4 where the line of the commands could not be written.
fn without_words<K: Sink>(kind: ErrorKind, sink: &mut K) -> u8
    ensures one { (result ≡ 1) ⊎ (result ≡ 4) ⊎ (result ≡ 5) }
    ensures usage_line { result ≡ 1 → Appends (K.taken sink.old) (K.taken sink.new) usage_line }
    ensures part { result ≡ 4 → AppendsPart (K.taken sink.old) (K.taken sink.new) usage_line }
    ensures write_fault { result ≡ 4 → Rose (K.faults sink.old) (K.faults sink.new) }
    ensures unwritten { result ≡ 5 → sink.new ≡ sink.old }
{
    if kind == ErrorKind::OutOfMemory {
        return NO_MEMORY;
    }
    usage(sink)
}
