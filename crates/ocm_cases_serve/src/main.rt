//! Cases of a running server, and of a connection that is served alone, over disks, doors, connections, dials and clocks in
//! memory. Each line of standard input is a case, and for each what it came to is written.
//!
//! | line | case |
//! |---|---|
//! | `let NAME TEXT` | no case: from here on the word NAME stands for the text |
//! | `WORDS; DISK; WORKER; WORKER` | a run by the plan of these words, from its disk to its disk, with these workers |
//! | `each source COUNT; PAGES; WORDS; DISK; WORKER` | a run for each number from 1 to COUNT, in which the call of this number fails at the source of the first connection; with `sink`, at its sink |
//! | `log CLOCKS PIECE FAILS ROOM; WORDS; DISK; WORKER; WORKER` | a run with a log, whose workers' clocks give the values `CLOCKS`, `,` between two |
//! | `talk DISK; LIMIT CLOCKS PIECE FAILS ROOM; BYTES` | a connection that is served alone, at a turnstile that ends at `LIMIT` calls, by a clock that gives the values `CLOCKS`, `,` between two |
//! | `rest DISK; LIMIT CLOCKS PIECE FAILS ROOM; BYTES` | the same of a connection that rests where nothing is left of its bytes |
//! | `noted DISK; LIMIT CLOCKS PIECE FAILS ROOM; BYTES` | the same as `talk`, of a connection that notes, for contracts alone, the moment behind the newest call with each page |
//!
//! The words are `serve --host HOST --disk DISK --admin ADMIN`, and other options behind them, which the program's own start
//! reads. A disk is `- FUSE` without bytes, or `DIGITS*COUNT*DIGITS FUSE` with so many zeros between the two. After `FUSE`
//! device calls it is burnt out; `-` is none. With a further word `SYNCS` it sets the gate `a` after so many syncs, each with a
//! write before it.
//!
//! A worker is `FAILS`, and behind it ` | conn BYTES` for each connection of its door and ` | reply BYTES` for each
//! reply to its dial. The door fails at the call of the number `FAILS`, counted from 1; so does the dial where its
//! reply is `-`, and behind the last. A connection gives 16 bytes a call at most, and takes one. In place of `conn BYTES`
//! stands `held FAILS BACK WAIT EVENT SET: BYTES` where it fails at the read of the number `FAILS` (0 is none), gives its last
//! `BACK` bytes only once the gate `WAIT` is set, and sets the gate `SET` when its first byte was `given` or `written`. The
//! gates are `a` and `b`.
//!
//! Of a run are told how it ended; of each worker how often its door was asked, the connections that came back, each
//! with its ending and what was written on it, and the exchanges of the dial, each with its host and first line; and
//! how many entries the disk has that came back. Where each call fails in turn, runs that came to the same are told
//! together, and of the first connection how many of the pages were written.
//!
//! The sink of a log takes at most `PIECE` bytes a call and `ROOM` in all, and fails at the call of the number `FAILS`. Told are
//! also how many lines were left out, how often the sink was told that another moment came, asked to take bytes, and told
//! that lines were left out, and what it took; of more than 500 bytes, how many they are and the last line. The first
//! connection of each worker gives and takes as much as there is.
//!
//! In a talk the connection gives at most `PIECE` bytes a read, fails at the read of the number `FAILS`, and takes `ROOM`
//! bytes, at most 7 a write. The key of the administrator is 32 letters `f`. Told are how many calls were made, the ending
//! and what was written; of more than 2,000 bytes, how many they are and the last page.
//!
//! The host of each disk is `a.example`. Bytes are written as `ocm_cases_rows` says. Values are drawn under a key of zeros, and
//! the clocks of workers give 0.
#![tactic(auto)]

mod backs;
mod conns;
mod disks;
mod doors;
mod ends;
mod faults;
mod gates;
mod logs;
mod manners;
mod names;
mod notes;
mod noting;
mod pages;
mod plans;
mod runs;
mod series;
mod sinks;
mod stores;
mod talks;
mod workers;

use crate::faults::faults_told;
use crate::gates::Gates;
use crate::logs::logged_told;
use crate::names::{add_name, spelled};
use crate::runs::run_told;
use crate::talks::{noted_told, rest_told, talk_told};
use ocm_cases_rows::{cut, line_of, tell_lines};
use std::alloc::Global;
use std::io;
use std::sync::Wait;
use std::thread::Threads;

fn main(rt: HostRuntime) -> io::Result<()> {
    let alloc = rt.alloc();
    let mut names = String::new(alloc);
    tell_lines(&rt, alloc, |line| line_told(&rt, alloc, &mut names, line))
}

/// What a line comes to. None where it is none, or where memory was wanting.
fn line_told<R: Threads + Wait + Sync>(
    rt: &R,
    alloc: Global,
    names: &mut String,
    line: &str,
) -> Option<String> {
    let line = spelled(alloc, names.as_str(), line)?;
    let told = match line.as_str().strip_prefix("let ") {
        Some(row) => add_name(names, row).and(Some(String::new(alloc))),
        None => case_told(rt, alloc, line.as_str()),
    };
    drop(line);
    told
}

fn case_told<R: Threads + Wait + Sync>(rt: &R, alloc: Global, line: &str) -> Option<String> {
    let gates = Gates::new(alloc)?;
    let (kind, row) = cut(line, " ");
    let told = match kind {
        "each" => faults_told(rt, alloc, &gates, row),
        "log" => line_of(logged_told(rt, alloc, &gates, row)),
        "talk" => line_of(talk_told(rt, alloc, &gates, row)),
        "rest" => line_of(rest_told(rt, alloc, &gates, row)),
        "noted" => line_of(noted_told(rt, alloc, &gates, row)),
        _ => line_of(run_told(rt, alloc, &gates, line)),
    };
    drop(gates);
    told
}
