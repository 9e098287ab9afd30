//! What was noted of pages, for contracts alone.
ghost use Rattle.std.specs.Prelude.{◌≡◌, ◌++◌, ℕ, List, [], ◌∷◌, ⊤, IfSome};
ghost use Rattle.ocm_server_connections.specs.Sides.{Noted};
ghost use Rattle.ocm_cases_serve.specs.Notings.{as_noted};

use atomic_table::{Play, Seat, Table, TableRule};
use ocm_base::{Failed, Joined};
use ocm_server_connections::Conn;
use ocm_turn::{Dated, Pass};
use std::alloc::Global;
use std::collections::LinkedList;
use std::marker::{Brand, Model, PhantomData};
use std::snapshot::Snapshot;

/// What was written of a page, and the moments that were noted with it. No value of it is made; contracts speak of it.
pub struct PageNote {
    pub bytes: LinkedList<u64>,
    pub moments: LinkedList<u64>,
}

/// What was noted so far, the first page first. No value of it is made.
pub struct PageNotes {
    pub pages: LinkedList<PageNote>,
}

/// The rule of the table behind notes: anything may be noted.
pub struct Free;

impl TableRule<(), PageNotes, ()> for Free {
    ghost holds = { λ _ _. ⊤ };

    ghost first = { λ _. record { pages = [] } };
}

/// What is known of the page that is noted. Each note picks it.
pub trait Known {
    ghost known: { Noted → Type 0 };
}

impl Known for Brand {
    ghost known = { λ _. ⊤ };
}

/// The step that notes a page.
pub struct Note<E> {
    of: PhantomData<E>,
}

impl<E: Known> Play<(), PageNotes> for Note<E> {
    ghost use Rattle.ocm_cases_serve.specs.declared.notes.PageNote.{PageNote};

    ghost then = { λ _ m _ after. (page : PageNote) × E.known (as_noted page) × (after ≡ (record { pages = m.0.pages ++ page ∷ [] }, m.1)) };
}

/// What was noted of pages, the first of them first. It has no byte of it: it stands in the view of a seat, which contracts
/// alone see.
pub struct Notes {
    table: Table<(), PageNotes, (), Free, Global>,
    seat: Seat<(), PageNotes>,
    ghost own: { seat.table_id ≡ table.shared.table_id },
    ghost words: { table.shared.table_id.words ≡ 1 },
}

impl Drop for Notes {
    fn drop(self) {
        let Notes { table: _, seat: _ } = self;
    }
}

impl Model for Notes {
    ghost use Rattle.std.specs.Prelude.{List, map};
    ghost use Rattle.ocm_server_connections.specs.Sides.{Noted};
    ghost use Rattle.ocm_cases_serve.specs.Notings.{as_noted};

    ghost Value = { List Noted };

    ghost view = { λ notes. map as_noted notes.seat.me.0.pages };
}

impl Notes {
    /// Nothing is noted. None where memory is wanting.
    pub fn new(alloc: Global) -> Option<Notes>
        ensures { IfSome result (λ notes. notes ≡ []) }
    {
        match Table::new(alloc, &[0; 1], Vec::new(alloc), &()) {
            Ok((table, seat)) => Some(Notes { table, seat }),
            Err(refused) => {
                drop(refused);
                None
            }
        }
    }

    /// Notes a page of which this is known. What a connection wrote of it, and with which pass, stands here for whoever
    /// picks what is known.
    pub fn note<C: Conn, T: Dated, E: Known>(
        &mut self,
        before: &Snapshot<C>,
        conn: &C,
        piece: &Joined,
        pass: &Pass<T>,
        sent: &Result<(), Failed>,
    )
        requires { (page : Noted) × E.known page }
        ensures { (page : Noted) × E.known page × (self.new ≡ self.old ++ page ∷ []) }
    {
        let table = &self.table;
        table.shared.load::<Note<E>>(&mut self.seat, 0);
    }
}
