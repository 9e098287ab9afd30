ghost use Rattle.std.specs.Prelude.{◌≡◌, ℕ, ◌+◌, ◌<◌, ◌≤◌, Some, [], ◌++◌, length, IfOk, IsOk, OnOk, IfSome, OnErr, option_map};
ghost use Rattle.ocm_base.specs.Outside.{Rose, Appends, AppendsPart, AppendsSome, Takes, TakesSome};

use crate::outside::{Sink, Source};
use ocm_texts::{Bytes, Failed, NoMemory};
use std::alloc::Global;

/// Why an input was not read to its end.
#[derive(Clone, Copy, Debug, PartialEq, Eq)]
pub enum ReadEnd {
    /// The source failed, and its count of faults rose.
    ReadFault,
    /// More bytes came than the limit.
    TooLong,
    /// There was no memory for the bytes.
    NoMemory,
}

/// Writes all of the piece. Where the sink fails, a front of the piece was taken. An empty piece is not written.
pub fn write_all<K: Sink>(sink: &mut K, piece: &[u8]) -> Result<(), Failed>
    ensures ok { OnOk result (Appends (K.taken sink.old) (K.taken sink.new) piece.now) }
    ensures err { OnErr result (AppendsPart (K.taken sink.old) (K.taken sink.new) piece.now) }
    ensures rose { OnErr result (Rose (K.faults sink.old) (K.faults sink.new)) }
    ensures never_falls { K.faults sink.old ≤ K.faults sink.new }
    ensures empty { length piece.now ≡ 0 → IsOk result × (sink.new ≡ sink.old) }
{
    let mut done = 0;
    while done < piece.len() {
        done += sink.write(&piece[done..])?;
    }
    Ok(())
}

/// Reads to the end of the input, at most `limit` bytes. Where it is not read to its end, some front of what the
/// source had left is gone.
pub fn read_whole<S: Source>(alloc: Global, source: &mut S, limit: u64) -> Result<Bytes, ReadEnd>
    ensures ok { IfOk result (λ bytes. Takes (S.left source.old) (S.left source.new) bytes) }
    ensures received { IfOk result (λ bytes. Appends (S.received source.old) (S.received source.new) bytes) }
    ensures ended { OnOk result (IfSome (S.left source.new) (λ rest. rest ≡ [])) }
    ensures within { IfOk result (λ bytes. length bytes ≤ limit) }
    ensures too_long { result ≡ Err ReadEnd.TooLong → IfSome (S.left source.old) (λ rest. limit < length rest) }
    ensures err { OnErr result (TakesSome (S.left source.old) (S.left source.new)) }
    ensures received_some { OnErr result (AppendsSome (S.received source.old) (S.received source.new)) }
    ensures fault { result ≡ Err ReadEnd.ReadFault → Rose (S.faults source.old) (S.faults source.new) }
    ensures never_falls { S.faults source.old ≤ S.faults source.new }
{
    let mut bytes = Bytes::new(alloc);
    let mut buf = [0u8; 4096];
    loop {
        let Ok(n) = source.read(&mut buf) else {
            return Err(ReadEnd::ReadFault);
        };
        if n == 0 {
            return Ok(bytes);
        }
        if (bytes.len() + n) as u64 > limit {
            return Err(ReadEnd::TooLong);
        }
        if bytes.add(&buf[..n]).is_err() {
            return Err(ReadEnd::NoMemory);
        }
    }
}
