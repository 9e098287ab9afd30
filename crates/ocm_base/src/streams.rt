ghost use Rattle.std.specs.Prelude.{◌≡◌, ◌<◌, ◌≤◌, None, Some, [], IfOk, length};

use crate::ghost_bytes::GhostBytes;
use crate::outside::{Sink, Source};
use ocm_texts::Failed;
use std::io;

/// A source over a reader of the standard library. It tells what the reader gave, and nothing of what is left. A read that
/// a signal interrupted is tried again.
#[derive(Drop)]
pub struct StdSource<R: io::Read + Drop> {
    reader: R,
    faults: u64,
    received: GhostBytes,
}

impl<R: io::Read + Drop> StdSource<R> {
    /// A source over this reader, which gave nothing so far, with no fault.
    pub fn new(reader: R) -> StdSource<R>
        ensures faults { ⟦<StdSource<R> as Source>⟧.faults result ≡ 0 }
        ensures received { ⟦<StdSource<R> as Source>⟧.received result ≡ Some [] }
    {
        StdSource {
            reader,
            faults: 0,
            received: GhostBytes::new(),
        }
    }
}

impl<R: io::Read + Drop> Source for StdSource<R> {
    ghost left = { λ _. None };

    ghost received = { λ s. Some s.received.bytes };

    ghost faults = { λ s. s.faults };

    fn read(&mut self, buf: &mut [u8]) -> Result<usize, Failed> {
        match read_retried(&mut self.reader, buf) {
            Ok(n) => {
                self.received = self.received.and(buf, n);
                Ok(n)
            }
            Err(Failed) => {
                self.faults = self.faults.saturating_add(1);
                Err(Failed)
            }
        }
    }
}

/// Reads until a read is not interrupted.
fn read_retried<R: io::Read + Drop>(reader: &mut R, buf: &mut [u8]) -> Result<usize, Failed>
    ensures { IfOk result (λ n. n ≤ length buf.old) }
{
    for _ in 0..u64::MAX {
        match reader.read(buf) {
            Ok(n) => return Ok(n),
            Err(error) if error.kind() == io::ErrorKind::Interrupted => {}
            Err(_) => break,
        }
    }
    Err(Failed)
}

/// A sink over a writer of the standard library. It tells what the writer took, as that answered. A write that a signal
/// interrupted is tried again, and one that takes no byte is a fault.
#[derive(Drop)]
pub struct StdSink<W: io::Write + Drop> {
    writer: W,
    faults: u64,
    taken: GhostBytes,
}

impl<W: io::Write + Drop> StdSink<W> {
    /// A sink over this writer, which took nothing so far, with no fault.
    pub fn new(writer: W) -> StdSink<W>
        ensures faults { ⟦<StdSink<W> as Sink>⟧.faults result ≡ 0 }
        ensures taken { ⟦<StdSink<W> as Sink>⟧.taken result ≡ Some [] }
    {
        StdSink {
            writer,
            faults: 0,
            taken: GhostBytes::new(),
        }
    }
}

impl<W: io::Write + Drop> Sink for StdSink<W> {
    ghost taken = { λ s. Some s.taken.bytes };

    ghost faults = { λ s. s.faults };

    fn write(&mut self, piece: &[u8]) -> Result<usize, Failed> {
        match write_retried(&mut self.writer, piece) {
            Ok(n) => {
                self.taken = self.taken.and(piece, n);
                Ok(n)
            }
            Err(Failed) => {
                self.faults = self.faults.saturating_add(1);
                Err(Failed)
            }
        }
    }
}

/// Writes until a write is not interrupted. One that takes no byte has failed.
fn write_retried<W: io::Write + Drop>(writer: &mut W, piece: &[u8]) -> Result<usize, Failed>
    ensures some { IfOk result (λ n. 0 < n) }
    ensures within { IfOk result (λ n. n ≤ length piece.now) }
{
    for _ in 0..u64::MAX {
        match writer.write(piece) {
            Ok(n) if n > 0 => return Ok(n),
            Err(error) if error.kind() == io::ErrorKind::Interrupted => {}
            _ => break,
        }
    }
    Err(Failed)
}
