ghost use Rattle.std.specs.Prelude.{◌≡◌, [], ◌++◌, ◌==◌, length, refl, Some, IfOk, IfErr, OnOk, OnErr, nat_eq};
ghost use Rattle.std.specs.Ordering.{nat_cmp};
ghost use Rattle.std.specs.Cmp.Lexicographic.{pointwise, slice_cmp, nat_list_eq_equiv, nat_list_cmp_total, texts_ties, texts_po};
ghost use Rattle.std.specs.Cmp.{partial_equiv_from_equiv};
ghost use Rattle.ocm_texts.specs.Shared.{held_bytes};

use crate::failures::NoMemory;
use std::alloc::Global;
use std::cmp::Ordering;
use std::hash::{Hash, Hasher};
use std::marker::Model;
use std::sync::Arc;

/// From how many bytes on a copy shares them.
const SHARED_FROM: usize = 256;

/// Bytes that grow at their end. Contracts see them as a list of numbers below 256. Many of them are shared by
/// the values that were copied from one another, until one of these grows.
#[derive(Debug, Drop)]
pub struct Bytes {
    held: Held,
}

#[derive(Debug, Drop)]
enum Held {
    Own(Vec<u8>),
    Shared(Arc<Vec<u8>, Global>),
}

impl Model for Bytes {
    ghost use Rattle.std.specs.Prelude.{List, ℕ};

    ghost Value = { List ℕ };

    ghost use Rattle.ocm_texts.specs.Shared.{held_bytes};

    ghost view = { λ b. held_bytes b.held };
}

impl Bytes {
    /// No bytes. Takes no memory yet.
    pub fn new(alloc: Global) -> Bytes
        ensures { result ≡ [] }
    {
        Bytes {
            held: Held::Own(Vec::new(alloc)),
        }
    }

    /// A copy of these bytes.
    pub fn of(alloc: Global, s: &[u8]) -> Result<Bytes, NoMemory>
        ensures { IfOk result (λ b. b ≡ s.now) }
    {
        let held = Held::sharing(Vec::from_slice(alloc, s)?)?;
        Ok(Bytes { held })
    }

    /// The bytes of a vector, which are not copied. Takes no memory.
    pub fn from_vec(held: Vec<u8>) -> Bytes
        ensures { result ≡ held.items }
    {
        Bytes {
            held: Held::Own(held),
        }
    }

    /// The bytes as a vector, which are not copied. Where another value shares them, they come back. Takes no
    /// memory.
    pub fn into_vec(self) -> Result<Vec<u8>, Bytes>
        ensures ok { IfOk result (λ held. held.items ≡ self) }
        ensures err { IfErr result (λ bytes. bytes ≡ self) }
    {
        match self.held {
            Held::Own(held) => Ok(held),
            Held::Shared(held) => match Arc::try_unwrap(held) {
                Ok(held) => Ok(held),
                Err(held) => Err(Bytes {
                    held: Held::Shared(held),
                }),
            },
        }
    }

    /// The same bytes, held so that a copy shares them where they are many. Without memory for that they are let
    /// go.
    pub fn shared(self) -> Result<Bytes, NoMemory>
        ensures { IfOk result (λ bytes. bytes ≡ self) }
    {
        match self.held {
            Held::Own(held) => Ok(Bytes {
                held: Held::sharing(held)?,
            }),
            held => Ok(Bytes { held }),
        }
    }

    /// How many bytes there are.
    pub fn len(&self) -> usize
        ensures { result ≡ length self.now }
    {
        self.as_slice().len()
    }

    /// Whether there are none.
    pub fn is_empty(&self) -> bool
        ensures { result ≡ (length self.now == 0) }
    {
        self.as_slice().is_empty()
    }

    /// The bytes.
    pub fn as_slice(&self) -> &[u8]
        ensures { result.now ≡ self.now }
    {
        match &self.held {
            Held::Own(held) => held.as_slice(),
            Held::Shared(held) => held.as_slice(),
        }
    }

    /// Adds a copy of these bytes at the end. Where there is no memory the value is unchanged. Shared bytes are
    /// copied first.
    pub fn add(&mut self, s: &[u8]) -> Result<(), NoMemory>
        ensures ok { OnOk result (self.new ≡ self.old ++ s.now) }
        ensures err { OnErr result (self.new ≡ self.old) }
    {
        match &mut self.held {
            Held::Own(held) => held.extend_from_slice(s)?,
            Held::Shared(shared) => match Arc::get_mut(shared) {
                Some(held) => held.extend_from_slice(s)?,
                None => {
                    let mut own = Vec::with_capacity(*shared.allocator(), shared.len() + s.len())?;
                    own.extend_from_slice(shared.as_slice())?;
                    own.extend_from_slice(s)?;
                    self.held = Held::Own(own);
                }
            },
        }
        Ok(())
    }

    /// Another value with the same bytes. Where they are many and shared, the copy shares them; else it has its own.
    pub fn copy(&self) -> Result<Bytes, NoMemory>
        ensures { IfOk result (λ b. b ≡ self.now) }
    {
        match &self.held {
            Held::Own(held) => Ok(Bytes {
                held: Held::sharing(held.clone()?)?,
            }),
            Held::Shared(held) => Ok(Bytes {
                held: Held::Shared(Arc::try_clone(held)?),
            }),
        }
    }
}

impl Held {
    /// These bytes, to be shared where they are many. Room behind shared bytes is given back.
    fn sharing(mut held: Vec<u8>) -> Result<Held, NoMemory>
        ensures { IfOk result (λ shared. held_bytes shared ≡ held.items) }
    {
        if held.len() < SHARED_FROM {
            return Ok(Held::Own(held));
        }
        held.shrink_to_fit();
        Ok(Held::Shared(Arc::new(*held.allocator(), held)?))
    }
}

impl PartialEq for Bytes {
    ghost eq = { pointwise nat_eq };

    ghost laws = { partial_equiv_from_equiv nat_list_eq_equiv };

    fn eq(&self, other: &Self) -> bool {
        self.as_slice() == other.as_slice()
    }
}

impl Eq for Bytes {
    ghost laws = { nat_list_eq_equiv };
}

impl PartialOrd for Bytes {
    ghost partial_cmp = { λ x y. Some (slice_cmp nat_cmp x y) };

    ghost laws = { texts_po };

    fn partial_cmp(&self, other: &Self) -> Option<Ordering> {
        Some(self.cmp(other))
    }
}

impl Ord for Bytes {
    ghost cmp = { slice_cmp nat_cmp };

    ghost total = { nat_list_cmp_total };

    ghost matches_partial_cmp = { λ x y. refl };

    ghost matches_eq = { texts_ties };

    fn cmp(&self, other: &Self) -> Ordering {
        self.as_slice().cmp(other.as_slice())
    }
}

impl Hash for Bytes {
    ghost use Rattle.std.specs.Hash as fed;
    ghost use Rattle.std.specs.Cmp.Rules.{hashing};
    ghost use Rattle.std.proofs.Common.{rules};

    ghost hash_input = { λ b. fed.slice fed.u8 b };

    ghost respects_eq = { Prim.search (hashing, rules) };

    fn hash<H: Hasher>(&self, state: &mut H) {
        self.as_slice().hash(state);
    }
}
