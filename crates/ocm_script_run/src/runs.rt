//! The lines of a script, each run at the servers.
ghost use Rattle.std.specs.Prelude.{◌≡◌, IfOk, IsTrue, Some};
ghost use Rattle.ocm_entry.specs.Proper.{is_proper};
ghost use Rattle.ocm_script.specs.Events.{host_of};
ghost use Rattle.ocm_script_run.specs.Asked.{asks_properly};
ghost use Rattle.ocm_script_run.specs.Asked as specified;
ghost use Rattle.ocm_script_run.specs.Deliveries.{next_wanting};
ghost use Rattle.ocm_script_run.specs.Servers.{World};
ghost use Rattle.ocm_script_run.specs.Transcript as transcript;
ghost use Rattle.ocm_script_run.specs.Transcript.{IsRun};
ghost use Rattle.ocm_script_run.specs.Running.{Ran, Runs};

use crate::asked::{ask_of, fault_of, fault_text, shows_digits};
use crate::deliveries::{deliver, pump};
use crate::line_parts::{joined_line, line_of};
use crate::servers::ScriptServers;
use ocm_base::{Bytes, NoMemory};
use ocm_disk::Crash;
use ocm_entry::Ask;
use ocm_script::Event;
use ocm_transcript::{line_text, reply_lines};
use ocm_types::Host;
use std::alloc::Global;

/// Runs the line of this number, and gives what it prints.
pub fn run<S: ScriptServers>(
    alloc: Global,
    servers: &mut S,
    line: u32,
    event: &Event,
) -> Result<Bytes, NoMemory>
    requires stands { (world : World) × S.stand servers.old world }
    requires proper { IsTrue (asks_properly event.now) }
    ensures { IfOk result (λ text. (world : World) → S.stand servers.old world → Ran S.stand (IsRun world line event.now) servers.new text) }
{
    match event {
        Event::Node { host } => name(alloc, servers, line, host),
        Event::Deliver {
            host,
            number,
            fresh,
            lost,
        } => deliver(alloc, servers, line, host, *number, *fresh, *lost),
        Event::Pump { host, fresh } => pump(alloc, servers, line, host, *fresh),
        Event::Raw { host, fresh, bytes } => servers.talk(line, host, *fresh, bytes),
        Event::Clock { host, clock } => tell_time(alloc, servers, line, host, *clock),
        Event::Fuse { host, calls } => fuse(alloc, servers, line, host, *calls),
        Event::Crash { host, left } => crash(alloc, servers, line, host, *left),
        _ => run_plain(alloc, servers, line, event),
    }
}

/// A new server.
fn name<S: ScriptServers>(
    alloc: Global,
    servers: &mut S,
    line: u32,
    host: &Host,
) -> Result<Bytes, NoMemory>
    ensures { IfOk result (λ text. (world : World) → S.stand servers.old world → Runs S.stand (λ wanting. transcript.named world line host.now) servers.new text) }
{
    servers.add(host)?;
    line_text(alloc, line, b"node")
}

/// The server of this host is told the time.
fn tell_time<S: ScriptServers>(
    alloc: Global,
    servers: &mut S,
    line: u32,
    host: &Host,
    clock: u32,
) -> Result<Bytes, NoMemory>
    ensures { IfOk result (λ text. (world : World) → S.stand servers.old world → Runs S.stand (λ wanting. transcript.clocked (next_wanting wanting) world line host.now clock) servers.new text) }
{
    let clock = clock as u64;
    servers.set_clock(host, clock);
    run_ask(alloc, servers, line, true, host, Ask::Tick { clock })
}

/// From now on so many device calls pass of the disk of this host's server.
fn fuse<S: ScriptServers>(
    alloc: Global,
    servers: &mut S,
    line: u32,
    host: &Host,
    calls: u32,
) -> Result<Bytes, NoMemory>
    ensures { IfOk result (λ text. (world : World) → S.stand servers.old world → Runs S.stand (λ wanting. transcript.fused world line host.now calls) servers.new text) }
{
    servers.fuse(host, calls as u64);
    line_text(alloc, line, b"fuse")
}

/// The disk of this host's server crashes, and it is loaded again.
fn crash<S: ScriptServers>(
    alloc: Global,
    servers: &mut S,
    line: u32,
    host: &Host,
    left: Crash,
) -> Result<Bytes, NoMemory>
    requires { (world : World) × S.stand servers.old world }
    ensures { IfOk result (λ text. (world : World) → S.stand servers.old world → Runs S.stand (λ wanting. transcript.restarted left world line host.now) servers.new text) }
{
    match servers.crash(host, left)? {
        Some(count) => opened_line(alloc, line, count),
        None => Ok(Bytes::new(alloc)),
    }
}

/// The line of how many entries a server keeps that was loaded again.
fn opened_line(alloc: Global, line: u32, count: u64) -> Result<Bytes, NoMemory>
    ensures { IfOk result (λ text. text ≡ transcript.opened_line line count) }
{
    let digits = count.to_string(alloc)?;
    joined_line(alloc, line, b"opened ", digits.as_bytes())
}

/// A line that asks something of its server, or whose record is faulty, or that is quiet.
fn run_plain<S: ScriptServers>(
    alloc: Global,
    servers: &mut S,
    line: u32,
    event: &Event,
) -> Result<Bytes, NoMemory>
    requires { IsTrue (asks_properly event.now) }
    ensures { IfOk result (λ text. (world : World) → S.stand servers.old world
        → Runs S.stand (λ wanting. transcript.plain (next_wanting wanting) world line event.now (host_of event.now) (specified.ask_of event.now)) servers.new text) }
{
    let Some(host) = event.host() else {
        return run_faulty(alloc, line, event);
    };
    match ask_of(alloc, event)? {
        Some(ask) => run_ask(alloc, servers, line, shows_digits(event), host, ask),
        None => run_faulty(alloc, line, event),
    }
}

/// A line that asks nothing: its record is faulty, or it is quiet.
fn run_faulty(alloc: Global, line: u32, event: &Event) -> Result<Bytes, NoMemory>
    ensures { IfOk result (λ text. text ≡ transcript.faulty_text line event.now) }
{
    match fault_of(event) {
        Some(fault) => line_of(alloc, line, fault_text(alloc, fault)?),
        None => Ok(Bytes::new(alloc)),
    }
}

/// An ask at the server of this host.
fn run_ask<S: ScriptServers>(
    alloc: Global,
    servers: &mut S,
    line: u32,
    digits: bool,
    host: &Host,
    ask: Ask,
) -> Result<Bytes, NoMemory>
    requires { IsTrue (is_proper ask) }
    ensures { IfOk result (λ text. (world : World) → S.stand servers.old world → Runs S.stand (λ wanting. transcript.asked (next_wanting wanting) world line digits host.now ask) servers.new text) }
{
    match servers.ask(host, ask) {
        Some(reply) => {
            let lines = reply_lines(alloc, line, digits, &reply);
            drop(reply);
            lines
        }
        None => Ok(Bytes::new(alloc)),
    }
}
