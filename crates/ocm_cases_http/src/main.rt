//! Cases of what goes between servers: the messages of HTTP, the records in them, and what one server or client asks of
//! another over a dial in memory. Each line of standard input is one, and for each a line is written.
//!
//! | line | tells |
//! |---|---|
//! | `requests`, `long`, `replies`, `each`, `failing` and a stream | the messages that are read of it, or the fault |
//! | `write-request`, `write-reply`, `write-fixed` and a message | what is written of it |
//! | `offer`, `offer-fields`, `notice`, `discovery`, `error`, `local` and a record | what is read of it, or the fault |
//! | `CALL\|REPLY\|REPLY` | the answer to a call, where these replies come one after another, and what was sent to whom |
//!
//! A reply `-` stands for a dial that fails. A call is `discover`, `get PATH`, `list PATH`, `put PATH BODY`, `mkcol PATH`,
//! `delete PATH`, `deliver OFFER` or `notify NOTIFICATION`.
#![tactic(auto)]

mod calls;
mod deliveries;
mod dials;
mod records;
mod streams;
mod written;

use crate::calls::client_told;
use crate::deliveries::{delivered_told, notified_told};
use crate::dials::{dial_of, with_sent};
use crate::records::{
    discovery_told, error_told, local_told, notice_told, offer_fields_told, offer_told,
};
use crate::streams::{each_told, failing_told, long_told, replies_told, requests_told};
use crate::written::{fixed_written, reply_written, request_written};
use ocm_cases_rows::{cut, line_of, tell_lines};
use ocm_pump::MemDial;
use std::alloc::Global;
use std::io;

fn main(rt: HostRuntime) -> io::Result<()> {
    let alloc = rt.alloc();
    tell_lines(&rt, alloc, |line| line_of(line_told(alloc, line)))
}

/// What a case comes to. None where the line is no case, or where memory was wanting.
fn line_told(alloc: Global, line: &str) -> Option<String> {
    let (kind, row) = cut(line, " ");
    match kind {
        "requests" => requests_told(alloc, row),
        "long" => long_told(alloc, row),
        "replies" => replies_told(alloc, row),
        "each" => each_told(alloc, row),
        "failing" => failing_told(alloc, row),
        _ => written_told(alloc, kind, row, line),
    }
}

fn written_told(alloc: Global, kind: &str, row: &str, line: &str) -> Option<String> {
    match kind {
        "write-request" => request_written(alloc, row),
        "write-reply" => reply_written(alloc, row),
        "write-fixed" => fixed_written(alloc, row),
        _ => record_told(alloc, kind, row, line),
    }
}

fn record_told(alloc: Global, kind: &str, row: &str, line: &str) -> Option<String> {
    match kind {
        "offer" => offer_told(alloc, row),
        "offer-fields" => offer_fields_told(alloc, row),
        "notice" => notice_told(alloc, row),
        "discovery" => discovery_told(alloc, row),
        "error" => error_told(alloc, row),
        "local" => local_told(alloc, row),
        _ => call_told(alloc, line),
    }
}

/// The answer to a call, and what was sent to whom.
fn call_told(alloc: Global, line: &str) -> Option<String> {
    let (call, replies) = line.split_once('|')?;
    match dial_of(alloc, replies) {
        Some(dial) => told_over(alloc, dial, call),
        None => None,
    }
}

fn told_over(alloc: Global, mut dial: MemDial, call: &str) -> Option<String> {
    let answer = answered(alloc, &mut dial, call);
    let told = match answer {
        Some(answer) => with_sent(alloc, answer, dial.exchanges()),
        None => None,
    };
    drop(dial);
    told
}

fn answered(alloc: Global, dial: &mut MemDial, call: &str) -> Option<String> {
    let (kind, rest) = cut(call, " ");
    match kind {
        "deliver" => delivered_told(alloc, dial, rest),
        "notify" => notified_told(alloc, dial, rest),
        _ => client_told(alloc, dial, kind, rest),
    }
}
