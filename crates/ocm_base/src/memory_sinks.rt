ghost use Rattle.std.specs.Prelude.{◌≡◌, ℕ, ◌+◌, ◌-◌, ◌<◌, ◌≤◌, ◌||◌, ◌==◌, min, Some, None, Ok, [], ◌++◌, length, take, IfOk, OnOk, OnErr, is_err};
ghost use Rattle.ocm_base.specs.Outside.{Rose, Appends, raised};
ghost use Rattle.ocm_base.specs.Memory.{is_listed};

use crate::outside::Sink;
use ocm_texts::{Bytes, Failed, List, NoMemory};
use std::alloc::Global;
use std::marker::Model;

/// A sink in memory that was taken at once, so that no write takes any. It fails at the calls that are listed, and
/// where it is full. It tells what it has taken.
pub struct MemSink {
    held: Vec<u8>,
    piece: usize,
    fails: List<u64>,
    calls: u64,
    faults: u64,
    room: usize,
}

impl Drop for MemSink {
    fn drop(self) {
        let MemSink {
            held: _,
            piece: _,
            fails: _,
            calls: _,
            faults: _,
            room: _,
        } = self;
    }
}

impl Model for MemSink {
    ghost use Rattle.std.specs.Prelude.{◌<◌, ◌≤◌, ◌+◌, vec_len, vec_capacity};
    ghost use Rattle.ocm_base.specs.Memory.{SinkState};

    ghost Value = { SinkState };

    ghost view = { λ s. record { taken = s.held.items; piece = s.piece; fails = s.fails; calls = s.calls; faults = s.faults; room = s.room } };

    ghost invariant = { λ s. (0 < s.piece) × (vec_len s.held + s.room ≤ vec_capacity s.held) };
}

impl MemSink {
    /// A sink with room for `room` bytes in all, which takes at most `piece` a call and fails at the calls whose
    /// numbers are listed. Calls are counted from 1.
    pub fn new(
        alloc: Global,
        piece: usize,
        fails: List<u64>,
        room: usize,
    ) -> Result<MemSink, NoMemory>
        requires { 0 < piece }
        ensures taken { IfOk result (λ s. ⟦<MemSink as Sink>⟧.taken s ≡ Some []) }
        ensures faults { IfOk result (λ s. ⟦<MemSink as Sink>⟧.faults s ≡ 0) }
        ensures state { IfOk result (λ s. s ≡ record { taken = []; piece = piece; fails = fails; calls = 0; faults = 0; room = room }) }
    {
        let held = Vec::with_capacity(alloc, room)?;
        Ok(MemSink {
            held,
            piece,
            fails,
            calls: 0,
            faults: 0,
            room,
        })
    }

    /// The bytes that it took.
    pub fn bytes(&self) -> &Vec<u8>
        ensures { Some result.now.items ≡ ⟦<MemSink as Sink>⟧.taken self.now }
    {
        &self.held
    }

    /// The bytes that it took, handed over.
    pub fn into_bytes(self) -> Bytes
        ensures { Some result ≡ ⟦<MemSink as Sink>⟧.taken self }
    {
        let MemSink {
            held,
            piece: _,
            fails: _,
            calls: _,
            faults: _,
            room: _,
        } = self;
        Bytes::from_vec(held)
    }
}

impl Sink for MemSink {
    ghost taken = { λ s. Some s.taken };

    ghost faults = { λ s. s.faults };

    /// Fails exactly where this call's number is listed or no room is left, and takes as many bytes as the piece,
    /// the limit of a call and the room allow.
    fn write(&mut self, piece: &[u8]) -> Result<usize, Failed>
        requires { 0 < length piece.now }
        ensures some { IfOk result (λ n. 0 < n) }
        ensures within { IfOk result (λ n. n ≤ length piece.now) }
        ensures ok { IfOk result (λ n. self.new.taken ≡ self.old.taken ++ take n piece.now) }
        ensures err { OnErr result (self.new.taken ≡ self.old.taken) }
        ensures rose { OnErr result (self.new.faults ≡ raised self.old.faults) }
        ensures no_fault { OnOk result (self.new.faults ≡ self.old.faults) }
        ensures never_falls { self.old.faults ≤ self.new.faults }
        ensures calls { self.new.calls ≡ raised self.old.calls }
        ensures fails { is_err result ≡ ((self.old.room == 0) || is_listed self.old.fails self.new.calls) }
        ensures takes { IfOk result (λ n. n ≡ min (min (length piece.now) self.old.piece) self.old.room) }
        ensures room { IfOk result (λ n. self.new.room + n ≡ self.old.room) }
        ensures same_room { OnErr result (self.new.room ≡ self.old.room) }
        ensures same_piece { self.new.piece ≡ self.old.piece }
        ensures same_fails { self.new.fails ≡ self.old.fails }
    {
        self.calls = self.calls.saturating_add(1);
        if self.room == 0 || self.fails.as_slice().contains(&self.calls) {
            self.faults = self.faults.saturating_add(1);
            return Err(Failed);
        }
        let n = piece.len().min(self.piece).min(self.room);
        match self.held.extend_from_slice(&piece[..n]) {
            Ok(()) => {}
            Err(_) => unreachable!(),
        }
        self.room -= n;
        Ok(n)
    }
}

/// A sink that never fails, and passes its bytes over. It tells nothing of them and takes no memory.
#[derive(Drop)]
pub struct PureSink;

impl PureSink {
    /// A sink that passes its bytes over.
    pub fn new() -> PureSink
        ensures taken { ⟦<PureSink as Sink>⟧.taken result ≡ None }
        ensures faults { ⟦<PureSink as Sink>⟧.faults result ≡ 0 }
    {
        PureSink
    }
}

impl Sink for PureSink {
    ghost taken = { λ _. None };

    ghost faults = { λ _. 0 };

    /// Takes the whole piece, and never fails.
    fn write(&mut self, piece: &[u8]) -> Result<usize, Failed>
        ensures { result ≡ Ok (length piece.now) }
    {
        Ok(piece.len())
    }
}
