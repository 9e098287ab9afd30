//! Sinks, also ones that fail.
use crate::disks::done_told;
use crate::sources::{Breaking, piece_told};
use ocm_base::{Bytes, Joined, MemSink, PureSink, Sink, StdSink, write_all};
use ocm_cases_rows::{Steps, bytes_of, cut, escaped, only, steps_told};
use std::alloc::Global;

/// A sink that is written to.
#[derive(Drop)]
struct Writing<K: Sink> {
    sink: K,
}

impl<K: Sink> Steps for Writing<K> {
    fn step_told(&mut self, alloc: Global, kind: &str, row: &str) -> Option<String> {
        match kind {
            "whole" => done_told(alloc, write_all(&mut self.sink, row.as_bytes())),
            "piece" => piece_of(alloc, &mut self.sink, row.as_bytes()),
            "both" => both_told(alloc, &mut self.sink, row),
            _ => None,
        }
    }
}

fn piece_of<K: Sink>(alloc: Global, sink: &mut K, piece: &[u8]) -> Option<String> {
    if piece.is_empty() {
        return None;
    }
    piece_told(alloc, sink.write(piece))
}

/// Writes two parts, and tells whether that was done and how many bytes both have.
fn both_told<K: Sink>(alloc: Global, sink: &mut K, row: &str) -> Option<String> {
    let (front, back) = cut(row, " ");
    match bytes_of(alloc, front).zip(bytes_of(alloc, back)) {
        Some((front, back)) => joined_told(alloc, sink, Joined::of(front, back)),
        None => None,
    }
}

fn joined_told<K: Sink>(alloc: Global, sink: &mut K, both: Joined) -> Option<String> {
    let is_done = both.write_to(sink).is_ok();
    let length = both.len();
    drop(both);
    format!(in alloc; "{is_done} {length}").ok()
}

/// What is told of a sink in memory, `PIECE FAILS ROOM`, and at last what it holds and what comes out of it: it takes so many
/// bytes a call and so many in all, and fails at the call of the number `FAILS`, counted from 1.
pub fn sink_told(alloc: Global, words: &str, steps: &str) -> Option<String> {
    let (piece, words) = cut(words, " ");
    let (fails, room) = cut(words, " ");
    let piece: usize = piece.parse().ok()?;
    let room = room.parse().ok()?;
    let fails = only(alloc, fails.parse().ok()?)?;
    match MemSink::new(alloc, piece.max(1), fails, room) {
        Ok(sink) => written_told(alloc, sink, steps),
        Err(_) => None,
    }
}

fn written_told(alloc: Global, sink: MemSink, steps: &str) -> Option<String> {
    let mut writing = Writing { sink };
    let told = steps_told(alloc, &mut writing, steps);
    let Writing { sink } = writing;
    let held = escaped(alloc, sink.bytes());
    let out = sink.into_bytes();
    let ended = ended_told(alloc, told.zip(held), &out);
    drop(out);
    ended
}

fn ended_told(alloc: Global, told: Option<(String, String)>, out: &Bytes) -> Option<String> {
    match told {
        Some((told, held)) => {
            let out = str::from_utf8(out.as_slice()).unwrap_or("no text");
            format!(in alloc; "{}; holds {}; gives {out}", told.as_str(), held.as_str()).ok()
        }
        None => None,
    }
}

/// What is told of a sink that can't fail.
pub fn pure_sink_told(alloc: Global, steps: &str) -> Option<String> {
    taken_told(alloc, PureSink::new(), steps)
}

/// What is told of a sink over a writer that breaks.
pub fn broken_sink_told(alloc: Global, steps: &str) -> Option<String> {
    taken_told(alloc, StdSink::new(Breaking { calls: 0 }), steps)
}

fn taken_told<K: Sink>(alloc: Global, sink: K, steps: &str) -> Option<String> {
    let mut writing = Writing { sink };
    let told = steps_told(alloc, &mut writing, steps);
    drop(writing);
    told
}
