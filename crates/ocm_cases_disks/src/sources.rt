//! Sources, also ones that fail.
use ocm_base::{Bytes, Failed, MemSource, PureSource, ReadEnd, Source, StdSource, read_whole};
use ocm_cases_rows::{Steps, bytes_of, cut, only, steps_told};
use std::alloc::Global;
use std::io;
use std::io::ErrorKind;

/// A source that is read.
#[derive(Drop)]
struct Reading<S: Source> {
    source: S,
}

impl<S: Source> Steps for Reading<S> {
    fn step_told(&mut self, alloc: Global, kind: &str, row: &str) -> Option<String> {
        match kind {
            "whole" => whole_told(
                alloc,
                read_whole(alloc, &mut self.source, row.parse().ok()?),
            ),
            "piece" => piece_told(alloc, self.source.read(&mut [0; 8])),
            _ => None,
        }
    }
}

fn whole_told(alloc: Global, read: Result<Bytes, ReadEnd>) -> Option<String> {
    match read {
        Ok(bytes) => {
            let text = str::from_utf8(bytes.as_slice()).unwrap_or("no text");
            let told = String::from_str(alloc, text);
            drop(bytes);
            told.ok()
        }
        Err(end) => format!(in alloc; "{end:?}").ok(),
    }
}

/// How many bytes a call moved.
pub fn piece_told(alloc: Global, moved: Result<usize, Failed>) -> Option<String> {
    match moved {
        Ok(count) => format!(in alloc; "{count}").ok(),
        Err(Failed) => String::from_str(alloc, "failed").ok(),
    }
}

fn read_told<S: Source>(alloc: Global, source: S, steps: &str) -> Option<String> {
    let mut reading = Reading { source };
    let told = steps_told(alloc, &mut reading, steps);
    drop(reading);
    told
}

/// What is read of a source in memory, `PIECE FAILS TEXT`: it gives so many bytes a call, and fails at the call of the number
/// `FAILS`, counted from 1.
pub fn source_told(alloc: Global, words: &str, steps: &str) -> Option<String> {
    let (piece, words) = cut(words, " ");
    let (fails, text) = cut(words, " ");
    let piece: usize = piece.parse().ok()?;
    let fails = fails.parse().ok()?;
    match bytes_of(alloc, text).zip(only(alloc, fails)) {
        Some((bytes, fails)) => {
            read_told(alloc, MemSource::new(bytes, piece.max(1), fails), steps)
        }
        None => None,
    }
}

/// What is read of a source that can't fail, `PIECE TEXT`.
pub fn pure_source_told(alloc: Global, words: &str, steps: &str) -> Option<String> {
    let (piece, text) = cut(words, " ");
    let piece: usize = piece.parse().ok()?;
    match bytes_of(alloc, text) {
        Some(bytes) => read_told(alloc, PureSource::new(bytes, piece.max(1)), steps),
        None => None,
    }
}

/// What is read of a source over a reader that breaks.
pub fn broken_source_told(alloc: Global, steps: &str) -> Option<String> {
    read_told(alloc, StdSource::new(Breaking { calls: 0 }), steps)
}

/// A reader and writer that is interrupted, moves two bytes, and then breaks.
#[derive(Drop)]
pub struct Breaking {
    pub calls: u8,
}

impl io::Read for Breaking {
    fn read(&mut self, buf: &mut [u8]) -> io::Result<usize> {
        self.calls = self.calls.saturating_add(1);
        match self.calls {
            1 => Err(io::Error::from(ErrorKind::Interrupted)),
            2 => Ok(buf.len().min(2)),
            _ => Err(io::Error::from(ErrorKind::BrokenPipe)),
        }
    }
}

impl io::Write for Breaking {
    fn write(&mut self, buf: &[u8]) -> io::Result<usize> {
        self.calls = self.calls.saturating_add(1);
        match self.calls {
            1 => Err(io::Error::from(ErrorKind::Interrupted)),
            2 => Ok(buf.len().min(2)),
            _ => Ok(0),
        }
    }

    fn flush(&mut self) -> io::Result<()> {
        Ok(())
    }
}
