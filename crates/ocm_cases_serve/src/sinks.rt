//! Sinks of logs, in memory.
ghost use Rattle.std.specs.Prelude.{◌≡◌, [], IfSome, Some};

use ocm_base::{Failed, MemSink, Sink};
use ocm_cases_rows::{cut, escaped, only};
use ocm_serve_log::LogSink;
use std::alloc::Global;

/// How many bytes of a log are told whole at most.
const MOST: usize = 500;

/// A sink of a log in memory, which counts what it is asked and told.
pub struct CaseSink {
    sink: MemSink,
    /// How often it was asked to take bytes.
    writes: u64,
    /// How often another moment came.
    turns: u64,
    /// How often it was told that lines were left out.
    tellings: u64,
}

impl Drop for CaseSink {
    fn drop(self) {
        let CaseSink {
            sink: _,
            writes: _,
            turns: _,
            tellings: _,
        } = self;
    }
}

/// The sink of a row, `PIECE FAILS ROOM`: it takes so many bytes a call at most and so many in all, and fails at the call of
/// the number `FAILS`, counted from 1; 0 is none.
pub fn sink_of(alloc: Global, words: &str) -> Option<CaseSink>
    ensures { IfSome result (λ sink. ⟦<CaseSink as Sink>⟧.taken sink ≡ Some []) }
{
    let (piece, words) = cut(words, " ");
    let (fails, room) = cut(words, " ");
    let piece: usize = piece.parse().ok()?;
    let room = room.parse().ok()?;
    let fails = only(alloc, fails.parse().ok()?)?;
    match MemSink::new(alloc, piece.max(1), fails, room) {
        Ok(sink) => Some(CaseSink {
            sink,
            writes: 0,
            turns: 0,
            tellings: 0,
        }),
        Err(_) => None,
    }
}

impl Sink for CaseSink {
    ghost taken = { λ s. ⟦<MemSink as Sink>⟧.taken s.sink };

    ghost faults = { λ s. ⟦<MemSink as Sink>⟧.faults s.sink };

    fn write(&mut self, piece: &[u8]) -> Result<usize, Failed> {
        self.writes = self.writes.saturating_add(1);
        self.sink.write(piece)
    }
}

impl LogSink for CaseSink {
    fn turn(&mut self) {
        self.turns = self.turns.saturating_add(1);
    }

    fn left_out(&mut self, _lines: u64, _moment: u64) {
        self.tellings = self.tellings.saturating_add(1);
    }
}

impl CaseSink {
    /// What it was asked and told, and what it took: of more than 500 bytes how many they are, and what stands behind the last
    /// line end but one.
    pub fn told(&self, alloc: Global) -> Option<String> {
        let text = escaped(alloc, self.sink.bytes())?;
        let (turns, writes, tellings) = (self.turns, self.writes, self.tellings);
        let told = taken_told(alloc, self.sink.bytes().len(), text.as_str());
        drop(text);
        let told = told?;
        let line = format!(in alloc;
            "{turns} turns, {writes} writes, {tellings} tellings [{}]",
            told.as_str()
        );
        drop(told);
        line.ok()
    }
}

fn taken_told(alloc: Global, bytes: usize, text: &str) -> Option<String> {
    if bytes <= MOST {
        return String::from_str(alloc, text).ok();
    }
    let whole = text.strip_suffix("\\n").unwrap_or(text);
    let (_, last) = whole.rsplit_once("\\n").unwrap_or(("", whole));
    format!(in alloc; "{bytes} bytes, at last {last}").ok()
}
