//! A store that remembers what it was when it was loaded.
ghost use Rattle.std.specs.Prelude.{◌≡◌, None};
ghost use Rattle.ocm_serve_store.specs.Following.{store_in, mark_in};

use ocm_disk::Disk;
use ocm_store::{Front, Store, Terms};
use std::snapshot::Snapshot;

/// A store, or its memory alone while its journal is written to elsewhere.
#[derive(Drop)]
pub enum StoreOrFront<D: Disk> {
    Store(Store<D>),
    Front(Front<D>),
}

/// A store that remembers, for contracts alone, what it was when it was loaded.
pub struct Followed<D: Disk> {
    pub(crate) held: StoreOrFront<D>,
    pub(crate) born: Snapshot<Store<D>>,
}

impl<D: Disk + Drop> Drop for Followed<D> {
    fn drop(self) {
        let Followed { held: _, born: _ } = self;
    }
}

/// What never changes of a store that is followed: its terms, and what it was when it was loaded.
pub struct Origin<D: Disk> {
    pub terms: Terms,
    pub born: Snapshot<Store<D>>,
}

impl<D: Disk + Drop> Drop for Origin<D> {
    fn drop(self) {
        let Origin { terms: _, born: _ } = self;
    }
}

impl<D: Disk> Followed<D> {
    /// A store that is followed from now on.
    pub fn new(store: Store<D>) -> Followed<D>
        ensures held { result.held ≡ StoreOrFront.Store store }
        ensures born { result.born.value ≡ store }
    {
        let born = Snapshot::of(&store);
        Followed {
            held: StoreOrFront::Store(store),
            born,
        }
    }

    /// The store alone. Its journal is not away.
    pub fn into_store(self) -> Store<D>
        requires { mark_in self.held ≡ None }
        ensures { result ≡ store_in self.held }
    {
        let Followed { held, born: _ } = self;
        match held {
            StoreOrFront::Store(store) => store,
            StoreOrFront::Front(_) => unreachable!(),
        }
    }
}
