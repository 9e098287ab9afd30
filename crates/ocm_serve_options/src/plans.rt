ghost use Rattle.std.specs.Prelude.{◌≡◌};
ghost use Rattle.ocm_serve_options.specs.Plans.{plan_with};

use ocm_base::Text;
use ocm_types::{Host, Secret};

/// Which servers messages are delivered to, by their addresses.
#[derive(Clone, Copy)]
pub enum Peers {
    /// `public`: those at public addresses. If the host of this server is itself an address that is not public, all.
    Public,
    /// `private`: all, also those on this machine or in a private network.
    Private,
}

/// What a running server is to be.
pub struct Plan {
    /// The host whose server it is.
    pub host: Host,
    /// The file that is its disk.
    pub disk: Text,
    /// The key by which users are made.
    pub admin: Secret,
    /// The address that it listens on.
    pub listen: Text,
    /// How many workers serve connections: 1 to 64.
    pub workers: u32,
    /// The file that gives the key of all drawn values.
    pub key_file: Text,
    /// How many connections each worker serves, 0 for no end.
    pub connections: u64,
    /// Whether the file of its disk has to be there: a missing one is refused, and none is made.
    pub existing: bool,
    /// Which servers it delivers messages to.
    pub peers: Peers,
}

impl Drop for Plan {
    fn drop(self) {
        let Plan {
            host: _,
            disk: _,
            admin: _,
            listen: _,
            workers: _,
            key_file: _,
            connections: _,
            existing: _,
            peers: _,
        } = self;
    }
}

/// The key by which users are made, or where it is to be read.
#[derive(Drop)]
pub enum AdminKey {
    /// The key.
    Key(Secret),
    /// The path of a file that holds the key.
    File(Text),
}

/// What the words of a command line order: a plan, but that the administrator's key may be in a file.
pub struct Orders {
    /// The host whose server it is.
    pub host: Host,
    /// The file that is its disk.
    pub disk: Text,
    /// The key by which users are made, or the file that holds it.
    pub admin: AdminKey,
    /// The address that it listens on.
    pub listen: Text,
    /// How many workers serve connections: 1 to 64.
    pub workers: u32,
    /// The file that gives the key of all drawn values.
    pub key_file: Text,
    /// How many connections each worker serves, 0 for no end.
    pub connections: u64,
    /// The file of the log of what readers are answered, where there is to be one.
    pub log: Option<Text>,
    /// Whether the file of its disk has to be there: a missing one is refused, and none is made.
    pub existing: bool,
    /// Which servers it delivers messages to.
    pub peers: Peers,
}

impl Drop for Orders {
    fn drop(self) {
        let Orders {
            host: _,
            disk: _,
            admin: _,
            listen: _,
            workers: _,
            key_file: _,
            connections: _,
            log: _,
            existing: _,
            peers: _,
        } = self;
    }
}

impl Orders {
    /// The plan of these orders with the administrator's key.
    pub fn plan(self, admin: Secret) -> Plan
        ensures { result ≡ plan_with self admin }
    {
        let Orders {
            host,
            disk,
            admin: _,
            listen,
            workers,
            key_file,
            connections,
            log: _,
            existing,
            peers,
        } = self;
        Plan {
            host,
            disk,
            admin,
            listen,
            workers,
            key_file,
            connections,
            existing,
            peers,
        }
    }
}

/// Why there are no orders.
#[derive(Clone, Copy, Debug, PartialEq, Eq)]
pub enum PlanFault {
    /// The words are none of this command.
    Usage,
    /// There was no memory. The words may be sound.
    NoMemory,
}
