ghost use Rattle.std.specs.Prelude.{◌≡◌, ◌∷◌, []};

use std::marker::Model;
use std::snapshot::Snapshot;

/// A list that only clauses see, which another is made of by its snapshot: it keeps no item.
#[cycle(items)]
pub struct Items<T> {
    link: Link<T>,
}

impl<T: Drop> Drop for Items<T> {
    fn drop(self) {
        let Items { link: _ } = self;
    }
}

#[derive(Drop)]
#[cycle(items)]
enum Link<T> {
    Empty,
    After(Snapshot<T>, Snapshot<Items<T>>),
}

impl<T> Model for Items<T> {
    ghost use Rattle.std.specs.Prelude.{List, length};

    ghost Value = { List T };

    ghost use Rattle.ocm_net_posts.specs.Items.{items};

    ghost view = { λ a. items a.link };

    ghost size = { length };

    ghost use Rattle.std.proofs.Common.{arith};

    ghost size_decreases = { λ a h. Prim.grind arith };
}

impl<T> Items<T> {
    /// The empty list.
    pub fn new() -> Items<T>
        ensures { result ≡ [] }
    {
        Items { link: Link::Empty }
    }

    /// A list with an item in front of others.
    pub fn of(item: &T, others: Snapshot<Items<T>>) -> Items<T>
        ensures { result ≡ item.now ∷ others.value }
    {
        Items {
            link: Link::After(Snapshot::of(item), others),
        }
    }
}
