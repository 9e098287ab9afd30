ghost use Rattle.std.specs.Prelude.{◌≡◌, ℕ, List, [], ◌++◌, length, take};
ghost use Rattle.std.specs.Borrow.{ftrue};

use std::marker::{Model, PhantomData};

/// Bytes that only proofs know, the first of them first. They take no memory, and nothing is done for them when a program
/// runs.
#[derive(Drop)]
pub struct GhostBytes {
    of: PhantomData<u8>,
    pub ghost bytes: { List ℕ },
}

impl Model for GhostBytes {
    ghost also_owns = { λ _. ftrue };
}

// It owns nothing.
unsafe impl Send for GhostBytes {}

impl GhostBytes {
    /// No bytes.
    pub fn new() -> GhostBytes
        ensures { result.bytes ≡ [] }
    {
        GhostBytes { of: PhantomData }
    }

    /// These bytes.
    pub fn of(bytes: &[u8]) -> GhostBytes
        ensures { result.bytes ≡ bytes.now }
    {
        GhostBytes::new().and(bytes, bytes.len())
    }

    /// With so many from the front of a piece behind them, at most all of it.
    pub fn and(&self, piece: &[u8], n: usize) -> GhostBytes
        ensures { result.bytes ≡ self.now.bytes ++ take n piece.now }
    {
        GhostBytes { of: PhantomData }
    }

    /// With others behind them.
    pub fn followed_by(&self, others: &GhostBytes) -> GhostBytes
        ensures { result.bytes ≡ self.now.bytes ++ others.now.bytes }
    {
        GhostBytes { of: PhantomData }
    }
}
