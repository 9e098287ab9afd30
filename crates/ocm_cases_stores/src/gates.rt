ghost use Rattle.std.specs.Prelude.{◌≡◌, IsTrue};
ghost use Rattle.ocm_entry.specs.Proper.{is_proper};
ghost use Rattle.ocm_turn.specs.Passes.{BelongsTo};

use ocm_disk::MemDisk;
use ocm_entry::{Ask, Reply};
use ocm_serve_store::Followed;
use ocm_turn::{Pass, Spent, Turnstile};
use std::sync::Wait;

/// A turnstile in front of a store, its first pass, and one that was split off before the first call.
#[derive(Drop)]
pub struct Gates {
    turnstile: Turnstile<Followed<MemDisk>>,
    first: Pass<Followed<MemDisk>>,
    other: Pass<Followed<MemDisk>>,
    ghost own: { (first.turnstile ≡ turnstile.id) × (other.turnstile ≡ turnstile.id) },
}

impl Gates {
    /// Splits a pass off.
    pub fn of(
        turnstile: Turnstile<Followed<MemDisk>>,
        mut first: Pass<Followed<MemDisk>>,
    ) -> Option<Gates>
        requires { BelongsTo turnstile first }
    {
        match turnstile.split(&mut first) {
            Ok(other) => Some(Gates {
                turnstile,
                first,
                other,
            }),
            Err(_) => None,
        }
    }

    /// A call with the first pass.
    pub fn call<R: Wait>(&mut self, rt: &R, ask: Ask) -> Result<Reply, Spent>
        requires { IsTrue (is_proper ask) }
    {
        self.turnstile.call(rt, &mut self.first, ask)
    }

    /// A call with the other pass.
    pub fn call_other<R: Wait>(&mut self, rt: &R, ask: Ask) -> Result<Reply, Spent>
        requires { IsTrue (is_proper ask) }
    {
        self.turnstile.call(rt, &mut self.other, ask)
    }

    /// Joins both passes and closes the turnstile: how many calls were made.
    pub fn close<R: Wait>(self, rt: &R) -> u64 {
        let Gates {
            turnstile,
            mut first,
            other,
        } = self;
        turnstile.join(&mut first, other);
        let shut = turnstile.close(rt, first);
        let calls = shut.calls;
        drop(shut);
        calls
    }
}
