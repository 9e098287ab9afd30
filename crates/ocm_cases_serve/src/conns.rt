//! Connections in memory.
use crate::gates::Gates;
use crate::manners::Manner;
use ocm_base::{Bytes, MemSink, MemSource};
use ocm_cases_rows::{bytes_of, cut, only};
use ocm_server::{GateConn, GateEvent, MemConn, Pair, RestConn, gate_conn, rest_conn};
use std::alloc::Global;

/// How a connection that waits for nothing is held.
pub const OPEN: &str = "0 open given open";

/// A connection that gives the bytes of a row, held as `BACK WAIT EVENT SET` say: it gives the last `BACK` bytes only once the
/// gate `WAIT` is set, and sets the gate `SET` when its first byte was `given` or `written`.
pub fn conn_of(
    alloc: Global,
    gates: &Gates,
    held: &str,
    row: &str,
    manner: Manner,
) -> Option<GateConn> {
    let bytes = bytes_of(alloc, row)?;
    let (back, held) = cut(held, " ");
    let hold = bytes.len().saturating_sub(back.parse().unwrap_or(0));
    gated(gates, held, hold, joined(alloc, bytes, manner))
}

/// A connection that gives the bytes of a row, and rests where none is left.
pub fn rest_conn_of(alloc: Global, row: &str, manner: Manner) -> Option<RestConn> {
    let bytes = bytes_of(alloc, row)?;
    match joined(alloc, bytes, manner) {
        Some(conn) => Some(rest_conn(conn)),
        None => None,
    }
}

/// The connection with the gates of `WAIT EVENT SET`, held at a place of what it gives.
fn gated(gates: &Gates, held: &str, hold: usize, conn: Option<MemConn>) -> Option<GateConn> {
    let (wait, held) = cut(held, " ");
    let (event, set) = cut(held, " ");
    let event = match event {
        "written" => GateEvent::FirstWritten,
        _ => GateEvent::FirstGiven,
    };
    let both = gates.named(wait).zip(gates.named(set));
    match conn.zip(both) {
        Some((conn, (wait, set))) => Some(gate_conn(conn, hold, wait, event, set)),
        None => None,
    }
}

fn joined(alloc: Global, bytes: Bytes, manner: Manner) -> Option<MemConn> {
    let source = source_of(alloc, bytes, manner);
    match source.zip(sink_of(alloc, manner)) {
        Some((source, sink)) => Some(Pair::new(source, sink)),
        None => None,
    }
}

fn source_of(alloc: Global, bytes: Bytes, manner: Manner) -> Option<MemSource> {
    match Some(bytes).zip(only(alloc, manner.source)) {
        Some((bytes, fails)) => Some(MemSource::new(bytes, manner.gives.max(1), fails)),
        None => None,
    }
}

fn sink_of(alloc: Global, manner: Manner) -> Option<MemSink> {
    match only(alloc, manner.sink) {
        Some(fails) => MemSink::new(alloc, manner.takes.max(1), fails, manner.room).ok(),
        None => None,
    }
}
