//! The log of the reads that one server of a script answered, and how it is written.
ghost use Rattle.std.specs.Prelude.{◌≡◌, ◌≤◌, ◌&&◌, Bool, [], IfOk, IfSome, OnOk, OnErr, IsTrue, length, option_and_then};
ghost use Rattle.std.specs.List.{list_all, list_any};
ghost use Rattle.std.specs.Option.{option_map_or};
ghost use Rattle.ocm_texts.specs.Hex.{AreBytes};
ghost use Rattle.ocm_base.specs.Outside.{Appends, AppendsPart, Rose};
ghost use Rattle.ocm_limits.specs.Limits.{most_lines};
ghost use Rattle.ocm_access_log.specs.Lines as lines;
ghost use Rattle.ocm_access_log.specs.Truth as truth;
ghost use Rattle.ocm_entry.specs.declared.asks.Ask.TheVariants as asks;
ghost use Rattle.ocm_entry.specs.Proper.{is_proper};
ghost use Rattle.ocm_rules.specs.Numbers.{same_text};
ghost use Rattle.ocm_script_run.specs.Asked.{asks_properly};
ghost use Rattle.ocm_script_run.specs.Deliveries.{Run};
ghost use Rattle.ocm_script_run.specs.Running.{Logs, LogsRead};
ghost use Rattle.ocm_script_run.specs.Servers.{World, asked_at, reply_at};
ghost use Rattle.ocm_script_run.specs.Traces as traced;
ghost use Rattle.ocm_script_run.specs.Traces.{Logged, log_input};
ghost use Rattle.ocm_script_run.specs.Transcript.{IsRun};

use crate::asked::dav_ask;
use crate::line_parts::add;
use crate::runs::run;
use crate::servers::ScriptServers;
use ocm_access_log::{is_reading, log_line, status_of};
use ocm_base::{Bytes, Failed, List, NoMemory, Sink, write_all};
use ocm_entry::{Ask, Method};
use ocm_path::Path;
use ocm_script::Event;
use ocm_types::{Host, Secret};
use std::alloc::Global;

/// Whether a line of the script makes the server of this host.
pub fn names(events: &List<Event>, host: &Host) -> bool
    ensures { result ≡ list_any (traced.names host.now) events.now }
{
    events.as_slice().iter().any(|event| makes(event, host))
}

/// Whether a line makes the server of this host.
fn makes(event: &Event, host: &Host) -> bool
    ensures { result ≡ traced.names host.now event.now }
{
    match event.node() {
        Some(node) => *node == *host,
        None => false,
    }
}

/// Runs the lines of a script, and gives what is logged at the server of this host.
pub fn log_events<S: ScriptServers>(
    alloc: Global,
    events: &[Event],
    host: &Host,
    servers: &mut S,
) -> Result<Bytes, NoMemory>
    requires proper { IsTrue (list_all asks_properly events.now) }
    requires few { length events.now ≤ most_lines }
    requires none { S.stand servers.old [] }
    ensures { IfOk result (λ log. (final : World) × Logged [] 1 host.now events.now log final × S.stand servers.new final) }
{
    let mut log = Bytes::new(alloc);
    let mut number = 1;
    for event in events {
        let line = log_event(alloc, servers, number, host, event)?;
        add(&mut log, line)?;
        number += 1;
    }
    Ok(log)
}

/// Runs the line of this number, and gives what is logged of it at the server of this host: nothing
/// where it is no read there.
fn log_event<S: ScriptServers>(
    alloc: Global,
    servers: &mut S,
    number: u32,
    host: &Host,
    event: &Event,
) -> Result<Bytes, NoMemory>
    requires stands { (world : World) × S.stand servers.old world }
    requires proper { IsTrue (asks_properly event.now) }
    ensures { IfOk result (λ log. (world : World) → S.stand servers.old world → Logs S.stand world number host.now event.now servers.new log) }
{
    let Event::Dav {
        host: at,
        secret,
        method,
        path,
    } = event
    else {
        return run_unlogged(alloc, servers, number, event);
    };
    if is_read_at(at, host, *method) {
        log_read(alloc, servers, host, *method, secret, path)
    } else {
        run_unlogged(alloc, servers, number, event)
    }
}

/// Whether a request at one host is a read at another: at the same one, and by a method that reads.
fn is_read_at(at: &Host, host: &Host, method: Method) -> bool
    ensures { result ≡ (same_text at.now host.now && lines.is_reading method) }
{
    *at == *host && is_reading(method)
}

/// Runs a line of which nothing is logged.
fn run_unlogged<S: ScriptServers>(
    alloc: Global,
    servers: &mut S,
    number: u32,
    event: &Event,
) -> Result<Bytes, NoMemory>
    requires stands { (world : World) × S.stand servers.old world }
    requires proper { IsTrue (asks_properly event.now) }
    ensures none { IfOk result (λ log. log ≡ []) }
    ensures ran { OnOk result ((world : World) → S.stand servers.old world → (line : Run) × IsRun world number event.now line × S.stand servers.new line.world) }
{
    let text = run(alloc, servers, number, event)?;
    drop(text);
    Ok(Bytes::new(alloc))
}

/// Asks a read at the server of this host, and gives what is logged of it.
fn log_read<S: ScriptServers>(
    alloc: Global,
    servers: &mut S,
    host: &Host,
    method: Method,
    secret: &Secret,
    path: &Path,
) -> Result<Bytes, NoMemory>
    requires reads { IsTrue (lines.is_reading method) }
    requires proper { IsTrue (is_proper (asks.Dav secret.now method path.now [])) }
    ensures { IfOk result (λ log. (world : World) → S.stand servers.old world → LogsRead S.stand world servers.new host.now method secret.now path.now log) }
{
    let Some(state) = servers.state(host) else {
        return Ok(Bytes::new(alloc));
    };
    let ask = dav_ask(alloc, secret, method, path)?;
    let status = status_at(servers, host, ask);
    log_text(alloc, state.0, state.1, method, secret, path, status)
}

/// The status of the reply to a read at the server of this host. None where no server has the host, or
/// where there was no memory for the reply.
fn status_at<S: ScriptServers>(servers: &mut S, host: &Host, ask: Ask) -> Option<u16>
    requires { IsTrue (is_proper ask) }
    ensures digits { IfSome result (λ status. (100 ≤ status) × (status ≤ 999)) }
    ensures told { (world : World) → S.stand servers.old world
        → (wanting : Bool) × (result ≡ option_and_then truth.status_of (reply_at wanting world host.now ask)) × S.stand servers.new (asked_at wanting world host.now ask) }
{
    match servers.ask(host, ask) {
        Some(reply) => {
            let status = status_of(&reply);
            drop(reply);
            status
        }
        None => None,
    }
}

/// The line of a read that has this status, and nothing where it has none.
fn log_text(
    alloc: Global,
    place: u64,
    moment: u64,
    method: Method,
    secret: &Secret,
    path: &Path,
    status: Option<u16>,
) -> Result<Bytes, NoMemory>
    requires reads { IsTrue (lines.is_reading method) }
    requires digits { IfSome status (λ status. (100 ≤ status) × (status ≤ 999)) }
    ensures { IfOk result (λ text. text ≡ option_map_or (λ status. lines.log_line place moment method secret.now path.now status) status []) }
{
    match status {
        Some(status) => log_line(alloc, place, moment, method, secret, path, status),
        None => Ok(Bytes::new(alloc)),
    }
}

/// Writes eight bytes of a length, an image of so many bytes, and a log.
pub fn write_input<K: Sink>(sink: &mut K, image: &[u8], log: &[u8]) -> Result<(), Failed>
    ensures ok { OnOk result (Appends (K.taken sink.old) (K.taken sink.new) (log_input image.now log.now)) }
    ensures err { OnErr result (AppendsPart (K.taken sink.old) (K.taken sink.new) (log_input image.now log.now)) }
    ensures bytes { AreBytes image.now }
    ensures rose { OnErr result (Rose (K.faults sink.old) (K.faults sink.new)) }
    ensures never_falls { K.faults sink.old ≤ K.faults sink.new }
{
    let length = image.len() as u64;
    write_all(sink, &length.to_be_bytes())?;
    write_all(sink, image)?;
    write_all(sink, log)?;
    Ok(())
}
