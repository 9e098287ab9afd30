//! What the lines of a script ask of its servers, whatever stands for them.
ghost use Rattle.std.specs.Prelude.{◌≡◌, ◌∷◌, ◌++◌, [], Bool, IfOk, IsTrue, OnOk, Some, option_copied};
ghost use Rattle.ocm_entry.specs.Fitting.{Fits};
ghost use Rattle.ocm_entry.specs.Proper.{is_proper};
ghost use Rattle.ocm_script_run.specs.Deliveries.{Run};
ghost use Rattle.ocm_script_run.specs.Running.{Asks, Ran, state_at};
ghost use Rattle.ocm_script_run.specs.Servers.{Server, World, message_at, new_server, reply_of, restart, server_after, server_at, step_at};
ghost use Rattle.ocm_script_run.specs.Transcript.{Talked, kept_at};

use ocm_base::{Bytes, NoMemory};
use ocm_disk::Crash;
use ocm_entry::{Ask, Reply};
use ocm_types::{Fresh, Host, Numbered};

/// A server of a script.
pub trait ScriptServer {
    // Whether a value stands for a server.
    ghost stands: { Self → Server → Type 0 };

    /// Its host.
    fn host(&self) -> &Host
        ensures { (server : Server) → stands self.now server → result.now ≡ server.host };

    /// What the last `clock` line told it, 0 before the first.
    fn clock(&self) -> u64
        ensures { (server : Server) → stands self.now server → result ≡ server.clock };

    /// Answers an ask, and makes its change.
    fn act(&mut self, ask: Ask) -> Reply
        requires { IsTrue (is_proper ask) }
        ensures replied { (server : Server) → stands self.old server → (wanting : Bool) × (result ≡ reply_of wanting server ask) × stands self.new (server_after wanting server ask) }
        ensures fits { (server : Server) → stands self.old server → Fits ask result };
}

/// The servers of a script, in the order in which it names them.
pub trait ScriptServers {
    // Whether a value stands for these servers.
    ghost stand: { Self → World → Type 0 };

    /// One more server, on an empty disk.
    fn add(&mut self, host: &Host) -> Result<(), NoMemory>
        ensures { OnOk result ((world : World) → stand self.old world → stand self.new (world ++ new_server host.now ∷ [])) };

    /// The reply to an ask at the server of this host, which makes its change. None where no server has
    /// the host.
    fn ask(&mut self, host: &Host, ask: Ask) -> Option<Reply>
        requires { IsTrue (is_proper ask) }
        ensures { (world : World) → stand self.old world → Asks stand world self.new host.now ask result };

    /// How many entries the server of this host keeps that are no tick, and the moment of its last tick,
    /// in whole seconds since the epoch, 0 before the first. None where no server has the host.
    fn state(&self, host: &Host) -> Option<(u64, u64)>
        ensures { (world : World) → stand self.now world → result ≡ state_at world host.now };

    /// The message of this number that the server of this host sent. None where there is none.
    fn message(&self, host: &Host, number: u32) -> Option<&Numbered>
        ensures { (world : World) → stand self.now world → option_copied result ≡ message_at world host.now number };

    /// The server of this host is told the time.
    fn set_clock(&mut self, host: &Host, clock: u64)
        ensures { (world : World) → stand self.old world → stand self.new (step_at (λ (s : Server). record s { clock = clock }) world host.now) };

    /// From now on so many device calls pass of the disk of this host's server.
    fn fuse(&mut self, host: &Host, calls: u64)
        ensures { (world : World) → stand self.old world → stand self.new (step_at (λ (s : Server). record s { fuse = Some calls }) world host.now) };

    /// The server of this host is dropped, its disk crashes, and it is loaded again. Gives how many entries
    /// it keeps that are no tick. None where no server has the host.
    fn crash(&mut self, host: &Host, left: Crash) -> Result<Option<u64>, NoMemory>
        requires { (world : World) × stand self.old world }
        ensures { IfOk result (λ count. (world : World) → stand self.old world → (count ≡ kept_at left world host.now) × stand self.new (step_at (restart left) world host.now)) };

    /// A connection to the server of this host, which sends these bytes. Gives the lines that it prints.
    fn talk(
        &mut self,
        line: u32,
        host: &Host,
        fresh: Fresh,
        bytes: &Bytes,
    ) -> Result<Bytes, NoMemory>
        requires { (world : World) × stand self.old world }
        ensures { IfOk result (λ text. (world : World) → stand self.old world → Ran stand (λ (run : Run). Talked world line host.now fresh bytes.now (server_at world host.now) run) self.new text) };
}
