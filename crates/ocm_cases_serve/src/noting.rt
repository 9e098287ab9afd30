//! A connection that notes moments.
ghost use Rattle.std.specs.Prelude.{◌≡◌, [], IfSome};

use crate::notes::Notes;
use ocm_base::{Failed, Joined};
use ocm_http::{Fixed, FrameFault, Message, Reader};
use ocm_server_connections::Conn;
use ocm_turn::{Dated, Pass};
use std::alloc::Global;
use std::marker::Brand;
use std::snapshot::Snapshot;

/// A connection that notes, for contracts alone, the moment behind the newest call with each page that it writes.
pub struct Noting<C: Conn> {
    pub conn: C,
    pub notes: Notes,
}

impl<C: Conn + Drop> Drop for Noting<C> {
    fn drop(self) {
        let Noting { conn: _, notes: _ } = self;
    }
}

impl<C: Conn> Noting<C> {
    /// The connection, of whose pages nothing is noted yet. None where memory is wanting.
    pub fn new(alloc: Global, conn: C) -> Option<Noting<C>>
        ensures { IfSome result (λ n. (n.conn ≡ conn) × (n.notes ≡ [])) }
    {
        match Notes::new(alloc) {
            Some(notes) => Some(Noting { conn, notes }),
            None => {
                drop(conn);
                None
            }
        }
    }
}

impl<C: Conn> Conn for Noting<C> {
    ghost use Rattle.ocm_cases_serve.specs.Notings.{noting};

    ghost sides = { λ n. noting (C.sides n.conn) n.notes };

    fn next(&mut self, reader: &mut Reader) -> Result<Option<Message>, FrameFault> {
        self.conn.next(reader)
    }

    fn rests(&mut self, reader: &Reader) -> bool {
        self.conn.rests(reader)
    }

    fn send<T: Dated>(&mut self, piece: &Joined, pass: &Pass<T>) -> Result<(), Failed> {
        let before = Snapshot::of(&self.conn);
        let sent = self.conn.send(piece, pass);
        self.notes
            .note::<C, T, Brand>(&before, &self.conn, piece, pass, &sent);
        sent
    }

    fn send_fixed(&mut self, which: Fixed) -> Result<(), Failed> {
        self.conn.send_fixed(which)
    }
}
