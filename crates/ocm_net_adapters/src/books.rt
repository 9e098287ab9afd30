//! What a door tells that keeps none of its connections.
ghost use Rattle.std.specs.Prelude.{◌≡◌, [], length, ◌<◌};
ghost use Rattle.ocm_server.specs.Doors.{given, came_back, over};

use ocm_base::Trace;
use ocm_server::Back;
use ocm_server_connections::Ended;
use std::marker::Model;

/// The connections that a door gave and those that came back, which clauses alone read.
pub(crate) struct Book<C> {
    given: Trace<C>,
    back: Trace<Back<C>>,
    overs: u64,
}

impl<C: Drop> Drop for Book<C> {
    fn drop(self) {
        let Book {
            given: _,
            back: _,
            overs: _,
        } = self;
    }
}

impl<C> Model for Book<C> {
    ghost use Rattle.std.specs.Prelude.{◌≤◌, length};
    ghost use Rattle.ocm_server.specs.Doors.{Doorway};

    ghost Value = { Doorway C };

    ghost view = { λ b. record { given = b.given; back = b.back; overs = b.overs } };

    ghost invariant = { λ b. length b.back ≤ length b.given };
}

impl<C> Book<C> {
    /// Nothing was given.
    pub(crate) fn new() -> Book<C>
        ensures { result ≡ record { given = []; back = []; overs = 0 } }
    {
        Book {
            given: Trace::new(),
            back: Trace::new(),
            overs: 0,
        }
    }

    /// A connection was given.
    pub(crate) fn give(&mut self, conn: &C)
        ensures given { self.new ≡ given conn.now self.old }
        ensures out { length self.new.back < length self.new.given }
    {
        self.given.push(conn);
    }

    /// A connection came back with its ending. It is answered as it came.
    pub(crate) fn take_back(&mut self, conn: C, ended: Ended) -> C
        requires { length self.old.back < length self.old.given }
        ensures back { self.new ≡ came_back conn ended self.old }
        ensures same { result ≡ conn }
    {
        let back = Back { conn, ended };
        self.back.push(&back);
        back.conn
    }

    /// The door is over.
    pub(crate) fn end(&mut self)
        ensures { self.new ≡ over self.old }
    {
        self.overs = self.overs.saturating_add(1);
    }
}
