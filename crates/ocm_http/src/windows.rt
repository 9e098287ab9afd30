ghost use Rattle.std.specs.Prelude.{◌≡◌, ◌<◌, ◌≤◌, ◌==◌, [], ◌++◌, ◌⊎◌, length, take, drop, IfOk, IfSome, OnOk, OnErr, true, false, Ok};
ghost use Rattle.ocm_base.specs.Outside.{Rose, Came, IsDry, flow};

use ocm_base::{Failed, NoMemory, Source};
use std::alloc::Global;
use std::marker::Model;

/// How many bytes are taken from a source in one read at most.
const SIZE: usize = 4096;

/// The bytes that were taken from a source and are still to be read.
#[derive(Drop)]
pub(crate) struct Window {
    bytes: Vec<u8>,
    from: usize,
    to: usize,
}

impl Model for Window {
    ghost use Rattle.std.specs.Prelude.{List, ℕ, ◌≡◌, ◌≤◌, ◌-◌, take, drop, length};

    ghost Value = { List ℕ };

    ghost view = { λ w. take (w.to - w.from) (drop w.from w.bytes.items) };

    ghost invariant = { λ w. (w.from ≤ w.to) × (w.to ≤ length w.bytes.items) × (length w.bytes.items ≡ 4096) };
}

impl Window {
    /// No bytes, and room for 4,096.
    pub(crate) fn new(alloc: Global) -> Result<Window, NoMemory>
        ensures { IfOk result (λ w. w ≡ []) }
    {
        let bytes = vec![in alloc; 0u8; SIZE]?;
        Ok(Window {
            bytes,
            from: 0,
            to: 0,
        })
    }

    /// The allocator that the room was taken from.
    pub(crate) fn allocator(&self) -> Global {
        *self.bytes.allocator()
    }

    /// The bytes.
    pub(crate) fn as_slice(&self) -> &[u8]
        ensures value { result.now ≡ self.now }
        ensures within { length result.now ≤ 4096 }
    {
        &self.bytes.as_slice()[self.from..self.to]
    }

    /// Whether there are none.
    pub(crate) fn is_empty(&self) -> bool
        ensures { result ≡ (length self.now == 0) }
    {
        self.as_slice().is_empty()
    }

    /// Passes over the first bytes.
    pub(crate) fn skip(&mut self, n: usize)
        requires { n ≤ length self.old }
        ensures { self.new ≡ drop n self.old }
    {
        self.from += n;
    }

    /// Reads more, where there are none. Where the source fails there are still none.
    fn fill<S: Source>(&mut self, source: &mut S) -> Result<(), Failed>
        ensures within { length self.new ≤ 4096 }
        ensures ok { OnOk result (Came (flow (S.left source.old) (S.received source.old)) (flow (S.left source.new) (S.received source.new)) self.new) }
        ensures ended { OnOk result (self.new ≡ [] → IsDry (flow (S.left source.new) (S.received source.new))) }
        ensures err { OnErr result ((S.left source.new ≡ S.left source.old) × (S.received source.new ≡ S.received source.old) × (self.new ≡ [])) }
        ensures rose { OnErr result (Rose (S.faults source.old) (S.faults source.new)) }
        ensures never_falls { S.faults source.old ≤ S.faults source.new }
    {
        self.from = 0;
        self.to = 0;
        self.to = read_few(source, self.bytes.as_mut_slice())?;
        Ok(())
    }

    /// Reads more where there are none. Answers whether there are some; where there are none the input has ended.
    pub(crate) fn ready<S: Source>(&mut self, source: &mut S) -> Result<bool, Failed>
        ensures taken { (got : _) × Came (flow (S.left source.old) (S.received source.old)) (flow (S.left source.new) (S.received source.new)) got × (self.new ≡ self.old ++ got) × (length got ≤ 4096) × ((self.old ≡ []) ⊎ (got ≡ [])) }
        ensures within { length self.new ≤ 4096 }
        ensures some { result ≡ Ok true → 0 < length self.new }
        ensures none { result ≡ Ok false → self.new ≡ [] }
        ensures ended { result ≡ Ok false → IsDry (flow (S.left source.new) (S.received source.new)) }
        ensures rose { OnErr result (Rose (S.faults source.old) (S.faults source.new)) }
        ensures never_falls { S.faults source.old ≤ S.faults source.new }
    {
        if !self.as_slice().is_empty() {
            return Ok(true);
        }
        self.fill(source)?;
        Ok(!self.is_empty())
    }
}

/// Reads from a source, into room for at most 4,096 bytes: no other function reads from one.
fn read_few<S: Source>(source: &mut S, room: &mut [u8]) -> Result<usize, Failed>
    requires some { 0 < length room.old }
    requires few { length room.old ≤ 4096 }
    ensures within { IfOk result (λ n. n ≤ length room.old) }
    ensures taken { IfOk result (λ n. Came (flow (S.left source.old) (S.received source.old)) (flow (S.left source.new) (S.received source.new)) (take n room.new)) }
    ensures ended { IfOk result (λ n. n ≡ 0 → IsDry (flow (S.left source.new) (S.received source.new))) }
    ensures err { OnErr result ((S.left source.new ≡ S.left source.old) × (S.received source.new ≡ S.received source.old)) }
    ensures rose { OnErr result (Rose (S.faults source.old) (S.faults source.new)) }
    ensures never_falls { S.faults source.old ≤ S.faults source.new }
{
    source.read(room)
}
