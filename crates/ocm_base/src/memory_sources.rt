ghost use Rattle.std.specs.Prelude.{◌≡◌, ℕ, ◌+◌, ◌-◌, ◌<◌, ◌≤◌, ◌==◌, min, Some, None, [], ◌++◌, length, drop, take, IfOk, IsOk, OnOk, IfSome, OnErr, is_err};
ghost use Rattle.ocm_base.specs.Outside.{Rose, Takes, raised};
ghost use Rattle.ocm_base.specs.Memory.{is_listed};

use crate::outside::Source;
use ocm_texts::{Bytes, Failed, List};
use std::marker::Model;

/// A source over bytes in memory, which fails at the calls that are listed. It tells what it has left.
pub struct MemSource {
    bytes: Bytes,
    place: usize,
    piece: usize,
    fails: List<u64>,
    calls: u64,
    faults: u64,
}

impl Drop for MemSource {
    fn drop(self) {
        let MemSource {
            bytes: _,
            place: _,
            piece: _,
            fails: _,
            calls: _,
            faults: _,
        } = self;
    }
}

impl Model for MemSource {
    ghost use Rattle.std.specs.Prelude.{◌<◌, ◌≤◌, drop, length};
    ghost use Rattle.ocm_base.specs.Memory.{SourceState};

    ghost Value = { SourceState };

    ghost view = { λ s. record { left = drop s.place s.bytes; piece = s.piece; fails = s.fails; calls = s.calls; faults = s.faults } };

    ghost invariant = { λ s. (0 < s.piece) × (s.place ≤ length s.bytes) };
}

impl MemSource {
    /// A source of these bytes, at most `piece` a call, which fails at the calls whose numbers are listed. Calls
    /// are counted from 1.
    pub fn new(bytes: Bytes, piece: usize, fails: List<u64>) -> MemSource
        requires { 0 < piece }
        ensures left { ⟦<MemSource as Source>⟧.left result ≡ Some bytes }
        ensures faults { ⟦<MemSource as Source>⟧.faults result ≡ 0 }
        ensures state { result ≡ record { left = bytes; piece = piece; fails = fails; calls = 0; faults = 0 } }
    {
        MemSource {
            bytes,
            place: 0,
            piece,
            fails,
            calls: 0,
            faults: 0,
        }
    }

    /// Whether nothing is left.
    pub fn is_empty(&self) -> bool
        ensures { result ≡ (length self.now.left == 0) }
    {
        self.bytes.as_slice()[self.place..].is_empty()
    }
}

impl Source for MemSource {
    ghost left = { λ s. Some s.left };

    ghost received = { λ _. None };

    ghost faults = { λ s. s.faults };

    /// Fails exactly where this call's number is listed, and gives as many bytes as the piece, the buffer and what
    /// is left allow.
    fn read(&mut self, buf: &mut [u8]) -> Result<usize, Failed>
        requires { 0 < length buf.old }
        ensures within { IfOk result (λ n. n ≤ length buf.old) }
        ensures taken { IfOk result (λ n. self.old.left ≡ take n buf.new ++ self.new.left) }
        ensures ended { IfOk result (λ n. n ≡ 0 → self.new.left ≡ []) }
        ensures empty { IfOk result (λ n. self.old.left ≡ [] → n ≡ 0) }
        ensures err { OnErr result (self.new.left ≡ self.old.left) }
        ensures rose { OnErr result (self.new.faults ≡ raised self.old.faults) }
        ensures no_fault { OnOk result (self.new.faults ≡ self.old.faults) }
        ensures never_falls { self.old.faults ≤ self.new.faults }
        ensures calls { self.new.calls ≡ raised self.old.calls }
        ensures fails { is_err result ≡ is_listed self.old.fails self.new.calls }
        ensures gives { IfOk result (λ n. n ≡ min (min (length self.old.left) self.old.piece) (length buf.old)) }
        ensures same_piece { self.new.piece ≡ self.old.piece }
        ensures same_fails { self.new.fails ≡ self.old.fails }
    {
        self.calls = self.calls.saturating_add(1);
        if self.fails.as_slice().contains(&self.calls) {
            self.faults = self.faults.saturating_add(1);
            return Err(Failed);
        }
        let n = give(self.bytes.as_slice(), self.place, self.piece, buf);
        self.place += n;
        Ok(n)
    }
}

/// Copies from a place on into the front of the buffer, at most `most` bytes, and answers how many.
fn give(bytes: &[u8], place: usize, most: usize, buf: &mut [u8]) -> usize
    requires within { place ≤ length bytes.now }
    ensures count { result ≡ min (min (length (drop place bytes.now)) most) (length buf.old) }
    ensures stays { place + result ≤ length bytes.now }
    ensures copied { drop place bytes.now ≡ take result buf.new ++ drop (place + result) bytes.now }
{
    let rest = &bytes[place..];
    let n = rest.len().min(most).min(buf.len());
    buf[..n].copy_from_slice(&rest[..n]);
    n
}

/// A source over bytes in memory that never fails. It tells what it has left.
pub struct PureSource {
    bytes: Bytes,
    place: usize,
    piece: usize,
}

impl Drop for PureSource {
    fn drop(self) {
        let PureSource {
            bytes: _,
            place: _,
            piece: _,
        } = self;
    }
}

impl Model for PureSource {
    ghost use Rattle.std.specs.Prelude.{◌<◌, ◌≤◌, drop, length};
    ghost use Rattle.ocm_base.specs.Memory.{PureState};

    ghost Value = { PureState };

    ghost view = { λ s. record { left = drop s.place s.bytes; piece = s.piece } };

    ghost invariant = { λ s. (0 < s.piece) × (s.place ≤ length s.bytes) };
}

impl PureSource {
    /// A source of these bytes, at most `piece` a call.
    pub fn new(bytes: Bytes, piece: usize) -> PureSource
        requires { 0 < piece }
        ensures left { ⟦<PureSource as Source>⟧.left result ≡ Some bytes }
        ensures faults { ⟦<PureSource as Source>⟧.faults result ≡ 0 }
        ensures state { result ≡ record { left = bytes; piece = piece } }
    {
        PureSource {
            bytes,
            place: 0,
            piece,
        }
    }
}

impl Source for PureSource {
    ghost left = { λ s. Some s.left };

    ghost received = { λ _. None };

    ghost faults = { λ _. 0 };

    /// Never fails, and gives as many bytes as the piece, the buffer and what is left allow.
    fn read(&mut self, buf: &mut [u8]) -> Result<usize, Failed>
        requires { 0 < length buf.old }
        ensures never_fails { IsOk result }
        ensures taken { IfOk result (λ n. self.old.left ≡ take n buf.new ++ self.new.left) }
        ensures gives { IfOk result (λ n. n ≡ min (min (length self.old.left) self.old.piece) (length buf.old)) }
        ensures ended { IfOk result (λ n. n ≡ 0 → self.new.left ≡ []) }
        ensures same_piece { self.new.piece ≡ self.old.piece }
    {
        let n = give(self.bytes.as_slice(), self.place, self.piece, buf);
        self.place += n;
        Ok(n)
    }
}
