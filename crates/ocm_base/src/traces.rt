ghost use Rattle.std.specs.Prelude.{◌≡◌, ◌∷◌, []};

use std::marker::Model;
use std::snapshot::Snapshot;

/// A list that only clauses see: it keeps no item.
#[cycle(trace)]
pub struct Trace<T> {
    link: Link<T>,
}

impl<T: Drop> Drop for Trace<T> {
    fn drop(self) {
        let Trace { link: _ } = self;
    }
}

#[derive(Drop)]
#[cycle(trace)]
enum Link<T> {
    Empty,
    After(Snapshot<T>, Snapshot<Trace<T>>),
}

impl<T> Model for Trace<T> {
    ghost use Rattle.std.specs.Prelude.{List, length};

    ghost Value = { List T };

    ghost use Rattle.ocm_base.specs.Items.{items};

    ghost view = { λ a. items a.link };

    ghost size = { length };

    ghost use Rattle.std.proofs.Common.{arith};

    ghost size_decreases = { λ a h. Prim.grind arith };
}

impl<T> Trace<T> {
    /// The empty list.
    pub fn new() -> Trace<T>
        ensures { result ≡ [] }
    {
        Trace { link: Link::Empty }
    }

    /// Puts an item at the front.
    pub fn push(&mut self, item: &T)
        ensures { self.new ≡ item.now ∷ self.old }
    {
        let below = Snapshot::of(&*self);
        self.link = Link::After(Snapshot::of(item), below);
    }
}
