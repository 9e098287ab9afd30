//! Cases of stores: asks, what crashes leave of them, and disks that are loaded or refused. Each line of standard input is
//! one, a list of steps, and for each a line is written: what its steps told, one after another.
//!
//! A case begins with a disk in memory without bytes.
//!
//! | step | does |
//! |---|---|
//! | `load LIMIT HOST` | loads the disk, for `a.example` where no host is named |
//! | `user NAME F`, `put KEY PATH COUNT TEXT`, `mkcol`, `delete` or `get KEY PATH`, `share KEY PATH WITH PERMS F`, `unshare KEY NUMBER`, `list KEY`, `tick CLOCK` | asks the store |
//! | `kept`, `moment`, `message NUMBER` | what the store tells beside its replies |
//! | `fuse CALLS` | so many device calls pass from now on |
//! | `crash old`, `crash new`, `crash torn` | takes the store down with a crash of its disk, and loads that |
//! | `add DIGITS`, `fill DIGITS COUNT`, `cut LENGTH` | takes the store down, adds bytes at the end of its disk, adds one byte so often, or cuts the disk, and tells its length |
//! | `length`, `bytes FROM TO`, `audit` | takes the store down, and tells the length of its disk, a part of it, or what an audit tells |
//!
//! A line `turnstile LIMIT; ASK; ASK` is a turnstile in front of a new store. A line `beside ASK; ASK` is the plain program,
//! which searches the history, beside the fast server: `kept` stands before a reply whose ask changes something, and
//! `DIFFER` before two that are not the same.
//!
//! `A`, `C` and `E` stand for 32 of the letter, `W` for 32 of the digit 5, and `S1` and `S2` for the digits of the bytes from
//! 0 and from 16 on.
#![tactic(auto)]

mod asks;
mod both;
mod disks;
mod gates;
mod places;
mod replies;
mod runs;
mod steps;
mod turns;

use crate::runs::both_told;
use crate::steps::case_told;
use crate::turns::turns_told;
use ocm_cases_rows::{cut, line_of, tell_lines};
use std::alloc::Global;
use std::io;
use std::sync::Wait;

fn main(rt: HostRuntime) -> io::Result<()> {
    let alloc = rt.alloc();
    tell_lines(&rt, alloc, |line| line_of(line_told(&rt, alloc, line)))
}

/// What a case comes to. None where the line is none, or where memory was wanting.
fn line_told<R: Wait>(rt: &R, alloc: Global, line: &str) -> Option<String> {
    let (kind, row) = cut(line, " ");
    match kind {
        "turnstile" => turns_told(rt, alloc, row),
        "beside" => both_told(alloc, row),
        _ => case_told(alloc, line),
    }
}
