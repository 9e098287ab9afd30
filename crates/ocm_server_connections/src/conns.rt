ghost use Rattle.std.specs.Prelude.{◌≡◌};
ghost use Rattle.ocm_http.specs.Readers.{holding};
ghost use Rattle.ocm_http.specs.Written.{fixed};
ghost use Rattle.ocm_server_connections.specs.Sides.{Sides, IsOpen, IsEnd, Gives, Sends, as_fixed, as_page, newest_of};

use ocm_base::{Failed, Joined};
use ocm_http::{Fixed, FrameFault, Message, Reader};
use ocm_turn::{Dated, Pass};

/// A connection: a source and a sink in one, of which neither disturbs the other.
pub trait Conn: Drop {
    /// What came and what it has left, what it took and what it noted of its pages, where it knows them, and its faults.
    ghost sides: { Self → Sides };

    /// Reads the next message.
    fn next(&mut self, reader: &mut Reader) -> Result<Option<Message>, FrameFault>
        requires { IsOpen reader.old }
        ensures { Gives reader.old reader.new (sides self.old) (sides self.new) result };

    /// Whether nothing is here to read now, and the connection may be handed back until there is. It is asked between two
    /// messages alone, where its reader holds nothing: amid a message a rest would be taken for the end of the input. One
    /// that knows what it has left rests only where that is nothing.
    fn rests(&mut self, reader: &Reader) -> bool
        requires { holding reader.now ≡ 0 }
        ensures same { sides self.new ≡ sides self.old }
        ensures told { IsEnd (sides self.old) result };

    /// Writes a page. One that notes its pages notes what was written, all or a front, with the moment behind the newest
    /// call that the pass knows of.
    fn send<T: Dated>(&mut self, piece: &Joined, pass: &Pass<T>) -> Result<(), Failed>
        ensures { Sends (sides self.old) (sides self.new) piece.now (as_page (newest_of pass.now.moments)) result };

    /// Writes a fixed reply. It is not noted.
    fn send_fixed(&mut self, which: Fixed) -> Result<(), Failed>
        ensures { Sends (sides self.old) (sides self.new) (fixed which) as_fixed result };
}
