//! What was noted of pages, for contracts alone.
ghost use Rattle.std.specs.Prelude.{◌≡◌, List, [], ◌∷◌, ◌++◌, take};
ghost use Rattle.std.specs.Borrow.{ftrue};
ghost use Rattle.ocm_server_connections.specs.Sides.{Noted, noted_page, newest_of};

use ocm_base::Joined;
use ocm_turn::{Dated, Pass};
use std::marker::{Model, PhantomData};

/// What was noted of the pages of a connection, the first of them first. It takes no memory, and nothing is done for it
/// when a program runs.
#[derive(Drop)]
pub struct PageNotes {
    of: PhantomData<u8>,
    pub ghost pages: { List Noted },
}

impl Model for PageNotes {
    ghost also_owns = { λ _. ftrue };
}

// It owns nothing.
unsafe impl Send for PageNotes {}

impl PageNotes {
    /// Nothing is noted.
    pub fn new() -> PageNotes
        ensures { result.pages ≡ [] }
    {
        PageNotes { of: PhantomData }
    }

    /// With a page of which so many bytes were written, from its front on, and the moment behind the newest call that the
    /// pass knows of.
    pub fn and<T: Dated>(&self, page: &Joined, n: usize, pass: &Pass<T>) -> PageNotes
        ensures { result.pages ≡ self.now.pages ++ noted_page (take n page.now) (newest_of pass.now.moments) ∷ [] }
    {
        PageNotes { of: PhantomData }
    }
}
