//! The command `serve`.
ghost use Rattle.std.specs.Prelude.{◌≡◌, ◌⊎◌, ◌≤◌, None};
ghost use Rattle.ocm_base.specs.Outside.{Appends, AppendsPart, Rose};
ghost use Rattle.ocm_serve_options.specs.Plans.{orders_of, texts};
ghost use Rattle.ocm_serve_system.specs.Statuses.{IsStatus};
ghost use Rattle.ocm_commands_files.specs.Commands.{usage_line};
ghost use Rattle.ocm_commands_network.specs.Servers.{DoesOrders, DoesWords, RanBy};
ghost use Rattle.ocm_serve.specs.Runs.{CouldNotBegin};

use ocm_base::{GhostBytes, Sink, Text};
use ocm_commands_files::usage;
use ocm_disk::{Disk, FileDisk};
use ocm_log_files::LogFile;
use ocm_net_adapters::StreamConn;
use ocm_serve::{run, run_logged};
use ocm_serve_options::{Orders, Plan, PlanFault, Shown, complaint_of, host_given, read_plan};
use ocm_serve_system::{ToldDisk, read_admin, tell_key_fault};
use ocm_server_connections::Conn;
use std::alloc::Global;
use std::fs::File;
use std::io::Eprint;
use std::net::{Net, TcpListener, TcpStream};
use std::rt::Files;
use std::sync::Wait;
use std::thread::Threads;
use std::time;

/// The status where there was no memory for the words.
const NO_MEMORY: u8 = 5;

/// Runs the server that the words order, and answers the status of the program. For words that order none it tells the
/// commands: 1, or 4 where that could not be written. On standard error a line tells what is wrong with them. What its disk
/// holds is said by the caller, for contracts alone.
pub fn run_server<
    'a,
    R: Threads
        + Wait
        + Sync
        + time::Clock
        + Files<File = File>
        + Eprint
        + Net<Listener = TcpListener, Stream = TcpStream>,
    K: Sink,
>(rt: &'a R, alloc: Global, words: &[String], sink: &mut K, holds: GhostBytes) -> u8
    ensures status { (result ≡ 1) ⊎ (result ≡ 4) ⊎ IsStatus result }

    // 1, or 4 where the line of the commands could not be written, and then a part of it was: the words order no server
    ensures other_words { orders_of (texts words.now) ≡ None → (result ≡ 1) ⊎ (result ≡ 4) ⊎ (result ≡ 5) }
    ensures no_orders { result ≡ 1 → orders_of (texts words.now) ≡ None }
    ensures unordered { result ≡ 4 → orders_of (texts words.now) ≡ None }
    ensures usage_line { result ≡ 1 → Appends (K.taken sink.old) (K.taken sink.new) usage_line }
    ensures part_of_usage { result ≡ 4 → AppendsPart (K.taken sink.old) (K.taken sink.new) usage_line }
    ensures write_fault { result ≡ 4 → Rose (K.faults sink.old) (K.faults sink.new) }

    // else a server ran, or could not begin
    ensures unwritten { (result ≡ 1) ⊎ (result ≡ 4) ⊎ (sink.new ≡ sink.old) }
    ensures ran { (result ≡ 1) ⊎ (result ≡ 4) ⊎ DoesWords ⟦<ToldDisk<'a, R, FileDisk> as Disk>⟧ ⟦<StreamConn<'a, R> as Conn>⟧.sides ⟦<LogFile as Sink>⟧.taken ⟦<LogFile as Sink>⟧.faults (texts words.now) holds.bytes result }
{
    match read_plan(alloc, words) {
        Ok(orders) => {
            tell_host_as_read(rt, words, orders.host.as_str());
            run_orders(rt, alloc, orders, holds)
        }
        Err(PlanFault::Usage) => {
            tell_complaint(rt, alloc, words);
            usage(sink)
        }
        Err(PlanFault::NoMemory) => NO_MEMORY,
    }
}

/// Tells what is wrong with words of `serve` that order no server.
fn tell_complaint<R: Eprint>(rt: &R, alloc: Global, words: &[String]) {
    let _ = match complaint_of(alloc, words) {
        Some(complaint) => eprintln!(rt; "ocmd: {complaint}"),
        None => {
            eprintln!(rt; "ocmd: serve: its options cannot be read. 'ocmd serve --help' lists them")
        }
    };
}

/// Tells which host is meant, where `--host` is not spelled as that, but for upper-case letters: it has a scheme, a `/` at its
/// end, or the port 80.
fn tell_host_as_read<R: Eprint>(rt: &R, words: &[String], host: &str) {
    if let Some(given) = host_given(words) {
        if !given.eq_ignore_ascii_case(host) {
            let given = Shown(given);
            let _ = eprintln!(rt;
                "ocmd: serve --host {given}: it is read as {host}. Write --host {host}"
            );
        }
    }
}

/// Runs the server of these orders, with the administrator's key that they have or name, and answers the status of the
/// program.
fn run_orders<
    'a,
    R: Threads
        + Wait
        + Sync
        + time::Clock
        + Files<File = File>
        + Eprint
        + Net<Listener = TcpListener, Stream = TcpStream>,
>(rt: &'a R, alloc: Global, mut orders: Orders, holds: GhostBytes) -> u8
    requires workers { 1 ≤ orders.workers }
    ensures status { IsStatus result }
    ensures ran { DoesOrders ⟦<ToldDisk<'a, R, FileDisk> as Disk>⟧ ⟦<StreamConn<'a, R> as Conn>⟧.sides ⟦<LogFile as Sink>⟧.taken ⟦<LogFile as Sink>⟧.faults orders holds.bytes result }
{
    let log = orders.log.take();
    match read_admin(rt, alloc, &orders.admin) {
        Ok(admin) => run_plan(rt, alloc, &orders.plan(admin), log, holds),
        Err(fault) => {
            let status = tell_key_fault(rt, fault, &orders.admin);
            drop(orders);
            drop(log);
            status
        }
    }
}

/// Runs the server of a plan, with the log that is a file at this path, where there is to be one.
fn run_plan<
    'a,
    R: Threads
        + Wait
        + Sync
        + time::Clock
        + Files<File = File>
        + Eprint
        + Net<Listener = TcpListener, Stream = TcpStream>,
>(rt: &'a R, alloc: Global, plan: &Plan, log: Option<Text>, holds: GhostBytes) -> u8
    requires workers { 1 ≤ plan.now.workers }
    ensures status { IsStatus result }
    ensures ran { CouldNotBegin result ⊎ RanBy ⟦<ToldDisk<'a, R, FileDisk> as Disk>⟧ ⟦<StreamConn<'a, R> as Conn>⟧.sides ⟦<LogFile as Sink>⟧.taken ⟦<LogFile as Sink>⟧.faults plan.now log holds.bytes result }
{
    match log {
        Some(path) => run_logged(rt, alloc, plan, path.as_str(), holds),
        None => run(rt, alloc, plan, holds),
    }
}
