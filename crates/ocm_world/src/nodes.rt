//! A server of a script, and how it is loaded from its disk.
ghost use Rattle.std.specs.Prelude.{◌≡◌, IfOk, None, Some, option_copied};
ghost use Rattle.ocm_rules.specs.Lean.{count};
ghost use Rattle.ocm_world.specs.Running.{IsDiskOf, IsLoaded, IsOf, is_at};
ghost use Rattle.ocm_script_run.specs.Running.{IsSound, state_of};
ghost use Rattle.ocm_script_run.specs.Servers.{Server, history, message_of, restart};
ghost use Rattle.ocm_store.specs.Stores.{disk_of};

use ocm_base::{NoMemory, and};
use ocm_disk::{Crash, MemDisk};
use ocm_entry::{Ask, Object, Reply};
use ocm_limits::REPLAYED_DISK_BYTES;
use ocm_script_run::ScriptServer;
use ocm_store::{LoadFault, Store};
use ocm_types::{Host, Numbered};
use std::alloc::Global;

/// A server of a script: its host, its store, and what the last `clock` line told it, 0 before the first.
pub struct RunningServer {
    pub(crate) host: Host,
    pub(crate) store: Store<MemDisk>,
    pub(crate) clock: u64,
}

/// The store is let go by way of its disk, so that the end of all that a store holds is proved where stores stand, and
/// not here once more.
impl Drop for RunningServer {
    fn drop(self) {
        let RunningServer {
            host,
            store,
            clock: _,
        } = self;
        drop(host);
        drop(store.into_disk());
    }
}

/// Loads a server from its disk.
pub fn load(
    alloc: Global,
    disk: MemDisk,
    host: &Host,
    clock: u64,
) -> Result<RunningServer, NoMemory>
    requires sound { IsSound disk None }
    requires own { IsDiskOf host.now disk.images.seen }
    ensures { IfOk result (IsLoaded disk.images.seen host.now clock) }
{
    let Ok((own, label)) = two_copies(host) else {
        drop(disk);
        return Err(NoMemory);
    };
    match Store::load(alloc, disk, label, REPLAYED_DISK_BYTES) {
        Ok(store) => Ok(RunningServer {
            host: own,
            store,
            clock,
        }),
        Err((disk, fault)) => {
            drop(own);
            drop(disk);
            Err(no_memory(fault))
        }
    }
}

/// The same host twice.
fn two_copies(host: &Host) -> Result<(Host, Host), NoMemory>
    ensures { IfOk result (λ both. (both.0 ≡ host.now) × (both.1 ≡ host.now)) }
{
    and(host.copy()?, host.copy())
}

/// The one fault of a server's own disk that does not fail.
fn no_memory(fault: LoadFault) -> NoMemory
    requires { fault ≡ LoadFault.NoMemory }
{
    match fault {
        LoadFault::NoMemory => NoMemory,
        LoadFault::NotJournal(_) => unreachable!(),
        LoadFault::OtherHost(_) => unreachable!(),
        LoadFault::DiskFault(_) => unreachable!(),
    }
}

impl ScriptServer for RunningServer {
    ghost use Rattle.ocm_world.specs.Running.{IsOf};

    ghost stands = { λ node server. IsOf node server };

    fn host(&self) -> &Host {
        &self.host
    }

    fn clock(&self) -> u64 {
        self.clock
    }

    fn act(&mut self, ask: Ask) -> Reply {
        self.store.act(ask)
    }
}

impl RunningServer {
    /// Whether it is the server of this host.
    pub fn is_at(&self, host: &Host) -> bool
        ensures { result ≡ is_at host.now self.now }
    {
        self.host == *host
    }

    /// The message of this number that it sent. None where there is none.
    pub fn message(&self, number: u32) -> Option<&Numbered>
        ensures { (server : Server) → IsOf self.now server → option_copied result ≡ message_of server number }
    {
        self.store.message(number)
    }

    /// How many entries are kept that are no tick.
    pub fn kept(&self) -> u64
        ensures { (server : Server) → IsOf self.now server → result ≡ count server.host (history server) }
    {
        self.store.kept()
    }

    /// How many entries are kept that are no tick, and the moment of its last tick, in whole seconds since
    /// the epoch, and 0 before the first.
    pub fn state(&self) -> (u64, u64)
        ensures { (server : Server) → IsOf self.now server → result ≡ state_of server }
    {
        (self.store.kept(), self.store.moment())
    }

    /// From now on so many device calls of its disk pass.
    pub fn fuse(&mut self, calls: u64)
        ensures { (server : Server) → IsOf self.old server → IsOf self.new (record server { fuse = Some calls }) }
    {
        self.store.fuse(calls);
    }

    /// What a `clock` line told it last.
    pub fn set_clock(&mut self, clock: u64)
        ensures { (server : Server) → IsOf self.old server → IsOf self.new (record server { clock = clock }) }
    {
        self.clock = clock;
    }

    /// What a crash leaves of it, loaded again.
    pub fn restart(self, alloc: Global, left: Crash) -> Result<RunningServer, NoMemory>
        requires { (server : Server) × IsOf self server }
        ensures { IfOk result (λ node. (server : Server) → IsOf self server → IsOf node (restart left server)) }
    {
        let RunningServer { host, store, clock } = self;
        let node = load(alloc, store.into_disk().crash(left), &host, clock);
        drop(host);
        node
    }

    /// Its host, and its disk.
    pub fn into_parts(self) -> (Host, MemDisk)
        ensures { result ≡ (self.host, disk_of self.store) }
    {
        let RunningServer {
            host,
            store,
            clock: _,
        } = self;
        (host, store.into_disk())
    }
}
