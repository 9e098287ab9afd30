//! Cases of scripts: each line of standard input is one, `lines TEXT`, a script in which `|` stands
//! for a line feed, or `hex DIGITS`, the bytes of a script. For each a line is written: what the
//! script's last line says, or which line is none.
#![tactic(auto)]

mod commands;
mod events;
mod words;

use crate::events::add_event;
use ocm_base::{Bytes, List, NoMemory, hex_read};
use ocm_cases_rows::{line_of, tell_lines};
use ocm_script::{Event, ScriptFault, read_script};
use std::alloc::Global;
use std::io;

fn main(rt: HostRuntime) -> io::Result<()> {
    let alloc = rt.alloc();
    tell_lines(&rt, alloc, |line| line_of(line_told(alloc, line)))
}

/// What a case comes to; nothing where the line is no case, or there was no memory.
fn line_told(alloc: Global, line: &str) -> Option<String> {
    let (kind, text) = line.split_once(' ')?;
    match script_of(alloc, kind, text) {
        Some(script) => script_told(alloc, script),
        None => None,
    }
}

fn script_of(alloc: Global, kind: &str, text: &str) -> Option<Bytes> {
    match kind {
        "lines" => lines_of(alloc, text).ok(),
        "hex" => hex_read(alloc, text).ok(),
        _ => None,
    }
}

/// The text's bytes, with a line feed for each `|`.
fn lines_of(alloc: Global, text: &str) -> Result<Bytes, NoMemory> {
    let lines = text.replace(alloc, "|", "\n")?;
    Bytes::of(alloc, lines.as_bytes())
}

/// What the last line says, or why the bytes are no script.
fn script_told(alloc: Global, script: Bytes) -> Option<String> {
    let events = read_script(alloc, script.as_slice());
    drop(script);
    match events {
        Ok(events) => events_told(alloc, events),
        Err(fault) => fault_told(alloc, fault),
    }
}

fn fault_told(alloc: Global, fault: ScriptFault) -> Option<String> {
    match fault {
        ScriptFault::Line(number) => format!(in alloc; "bad line {number}").ok(),
        ScriptFault::TooMany => String::from_str(alloc, "too many lines").ok(),
        ScriptFault::NoMemory => None,
    }
}

fn events_told(alloc: Global, events: List<Event>) -> Option<String> {
    let told = last_told(alloc, &events);
    drop(events);
    told
}

fn last_told(alloc: Global, events: &List<Event>) -> Option<String> {
    match events.as_slice().last() {
        Some(event) => event_told(alloc, event),
        None => String::from_str(alloc, "no lines").ok(),
    }
}

fn event_told(alloc: Global, event: &Event) -> Option<String> {
    let mut told = String::new(alloc);
    match add_event(alloc, &mut told, event) {
        Ok(()) => Some(told),
        Err(NoMemory) => {
            drop(told);
            None
        }
    }
}
