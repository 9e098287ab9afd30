//! Connections in memory that rest where nothing is left.

ghost use Rattle.std.specs.Prelude.{◌≡◌, ◌==◌, length};

use crate::conns::Conn;
use crate::pairs::MemConn;
use ocm_base::{Failed, Joined};
use ocm_http::{Fixed, FrameFault, Message, Reader};
use ocm_turn::{Dated, Pass};

/// A connection in memory that rests where nothing is left of what it gives.
#[derive(Drop)]
pub struct RestConn {
    pub pair: MemConn,
}

impl Conn for RestConn {
    ghost sides = { λ c. ⟦<MemConn as Conn>⟧.sides c.pair };

    fn next(&mut self, reader: &mut Reader) -> Result<Option<Message>, FrameFault> {
        self.pair.next(reader)
    }

    /// Exactly where nothing is left.
    fn rests(&mut self, _reader: &Reader) -> bool
        ensures exact { result ≡ (length self.old.pair.source.left == 0) }
        ensures same { self.new ≡ self.old }
    {
        self.pair.source.is_empty()
    }

    fn send<T: Dated>(&mut self, piece: &Joined, pass: &Pass<T>) -> Result<(), Failed> {
        self.pair.send(piece, pass)
    }

    fn send_fixed(&mut self, which: Fixed) -> Result<(), Failed> {
        self.pair.send_fixed(which)
    }
}

/// The connection, which rests where nothing is left of what it gives.
pub fn rest_conn(conn: MemConn) -> RestConn
    ensures { result.pair ≡ conn }
{
    RestConn { pair: conn }
}
