ghost use Rattle.std.specs.Prelude.{◌≡◌, ◌≤◌, ℕ, None, Option, IfOk, IfSome, OnErr, OnOk, option_map};
ghost use Rattle.ocm_base.specs.Outside.{Rose};
ghost use Rattle.ocm_server.specs.Doors.{Doorway, given, came_back, over, IsOut};

use ocm_base::Failed;
use ocm_server_connections::{Conn, Ended};

/// Where connections come from, one after another, and where they go back to.
pub trait Door: Drop {
    type Conn: Conn;

    /// The connections so far, where it knows them.
    ghost told: { Self → Option (Doorway Self.Conn) };

    /// How many faults it has had.
    ghost faults: { Self → ℕ };

    /// The next connection. None is the end.
    fn next(&mut self) -> Result<Option<Self::Conn>, Failed>
        ensures given { IfOk result (λ o. IfSome o (λ conn. told self.new ≡ option_map (given conn) (told self.old))) }
        ensures out { IfOk result (λ o. IfSome o (λ _. IsOut (told self.new))) }
        ensures over { IfOk result (λ o. o ≡ None → told self.new ≡ option_map over (told self.old)) }
        ensures err { OnErr result (told self.new ≡ told self.old) }
        ensures kept { OnOk result (faults self.new ≡ faults self.old) }
        ensures rose { OnErr result (Rose (faults self.old) (faults self.new)) }
        ensures never_falls { faults self.old ≤ faults self.new };

    /// Takes a connection back after its service, with its ending.
    fn done(&mut self, conn: Self::Conn, ended: Ended)
        requires { IsOut (told self.old) }
        ensures back { told self.new ≡ option_map (came_back conn ended) (told self.old) }
        ensures faults { faults self.new ≡ faults self.old };
}
