//! Cases of disks and of journals on them, byte for byte, and what crashes leave of them; of a real file; and of what these
//! stand on: sources, sinks, clocks, gates and bytes. Each line of standard input is one, and for each a line is written: what
//! its steps told, one after another.
//!
//! A line of steps alone begins with a disk in memory without bytes.
//!
//! | step | does |
//! |---|---|
//! | `bytes PIECES` | begins anew with a disk of these bytes, and tells its length |
//! | `load LIMIT LABEL` | loads the journal, of `a.example` where no label is named, and tells its form, the size of its areas, and its records with the places of their gates |
//! | `append PIECES`, `renew PIECES, PIECES` | adds a record, or renews them |
//! | `form` | tells the form of the live area |
//! | `fuse CALLS` | so many device calls pass from now on |
//! | `crash old`, `crash new`, `crash torn` | takes the journal down with a crash of its disk |
//! | `room COUNT`, `write PLACE PIECES`, `grow COUNT`, `read PLACE`, `cut LENGTH`, `sync`, `faults`, `length` | takes the journal down, and calls its disk: `grow` adds a byte so often, with a sync after each, and `read` reads four |
//! | `is PIECES` | takes the journal down, and tells whether these are the bytes of its disk |
//!
//! A piece is digits, or a word for some, with `*COUNT` behind where it stands so often. `H` is the front of a header of
//! `a.example`, `U` an entry as areas of form 1 hold it, and `S` the same with a moment, as areas of form 2 hold it.
//!
//! Other lines begin with a word, and behind `; ` come the steps.
//!
//! | line | is of | its steps |
//! |---|---|---|
//! | `file` | a real file | `open`, `close`, `remove`, `replace PLACE PIECES`, and those of a disk |
//! | `shelf` | a shelf of disks, and a disk at hand | `add`, `take`, `put` or `bytes HOST`, and those of the disk at hand |
//! | `source PIECE FAILS TEXT`, `pure-source PIECE TEXT`, `broken-source` | a source, which fails at that call | `whole LIMIT`, `piece` |
//! | `sink PIECE FAILS ROOM`, `pure-sink`, `broken-sink` | a sink, which fails at that call, and at last what it took | `whole TEXT`, `piece TEXT`, `both TEXT TEXT` |
//! | `list WORDS` | a list and a copy of it | |
//! | `grown PIECES; PIECES`, `owned PIECES` | bytes and a copy that grows; bytes that give their vector back | |
//! | `clock VALUES` | a clock that gives these values, and is asked three times | |
//! | `gate` | a gate before it is set and after | |
#![tactic(auto)]

mod disks;
mod files;
mod pieces;
mod places;
mod replaced;
mod shelves;
mod sinks;
mod sources;
mod steps;
mod values;

use crate::files::file_told;
use crate::shelves::shelf_told;
use crate::sinks::{broken_sink_told, pure_sink_told, sink_told};
use crate::sources::{broken_source_told, pure_source_told, source_told};
use crate::steps::case_told;
use crate::values::{clock_told, gate_told, grown_told, list_told, owned_told};
use ocm_cases_rows::{cut, line_of, tell_lines};
use std::alloc::Global;
use std::fs::File;
use std::io;
use std::rt::Files;

fn main(rt: HostRuntime) -> io::Result<()> {
    let alloc = rt.alloc();
    tell_lines(&rt, alloc, |line| line_of(line_told(&rt, alloc, line)))
}

/// What a case comes to. None where the line is none, or where memory was wanting.
fn line_told<R: Files<File = File>>(rt: &R, alloc: Global, line: &str) -> Option<String> {
    let (front, steps) = cut(line, "; ");
    let (kind, words) = cut(front, " ");
    match kind {
        "file" => file_told(rt, alloc, steps),
        "shelf" => shelf_told(alloc, steps),
        "list" => list_told(alloc, words),
        "clock" => clock_told(alloc, words),
        _ => stream_told(alloc, kind, words, steps, line),
    }
}

fn stream_told(alloc: Global, kind: &str, words: &str, steps: &str, line: &str) -> Option<String> {
    match kind {
        "source" => source_told(alloc, words, steps),
        "pure-source" => pure_source_told(alloc, words, steps),
        "broken-source" => broken_source_told(alloc, steps),
        "sink" => sink_told(alloc, words, steps),
        _ => other_told(alloc, kind, words, steps, line),
    }
}

fn other_told(alloc: Global, kind: &str, words: &str, steps: &str, line: &str) -> Option<String> {
    match kind {
        "pure-sink" => pure_sink_told(alloc, steps),
        "broken-sink" => broken_sink_told(alloc, steps),
        "grown" => grown_told(alloc, words, steps),
        "owned" => owned_told(alloc, words),
        "gate" => gate_told(alloc),
        _ => case_told(alloc, line),
    }
}
