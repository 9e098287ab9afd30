ghost use Rattle.std.specs.Prelude.{◌≡◌, IfOk, option_copied};
ghost use Rattle.ocm_script.specs.Events.{bytes_of, host_of, node_of};

use ocm_base::{Bytes, NoMemory};
use ocm_disk::Crash;
use ocm_entry::{Cmd, Method};
use ocm_path::Path;
use ocm_records::RecordFault;
use ocm_types::{Address, Fresh, Host, Name, Notice, Offer, Perms, Secret};
use std::alloc::Global;

/// What a line of a script says. In each but the first, `host` names the server that it is about.
pub enum Event {
    /// An empty line or a comment: nothing happens.
    Quiet,
    /// A server, which later lines name by its host.
    Node {
        host: Host,
    },
    /// A user is added.
    User {
        host: Host,
        name: Name,
        /// What the user's key is drawn from.
        fresh: Fresh,
    },
    /// A user, named by its key, gives a command.
    Local {
        host: Host,
        key: Secret,
        cmd: Cmd,
    },
    /// A request for files by the holder of a secret, by a method other than PUT and without a body.
    Dav {
        host: Host,
        secret: Secret,
        method: Method,
        path: Path,
    },
    /// A file is put, by the holder of a secret.
    Put {
        host: Host,
        secret: Secret,
        path: Path,
        body: Body,
    },
    /// What stands at a path is copied, or moved, by the holder of a secret.
    Carry {
        host: Host,
        secret: Secret,
        from: Path,
        to: Path,
        moving: bool,
        /// Whether what stands at the target is replaced.
        overwrite: bool,
    },
    /// The time is told to the server, in whole seconds since the epoch.
    Clock {
        host: Host,
        clock: u32,
    },
    /// An offer comes in, which no server sent: what its bytes are read as.
    Offer {
        host: Host,
        offer: Result<Offer, RecordFault>,
    },
    /// A notification comes in, which no server sent: what its bytes are read as.
    Notice {
        host: Host,
        /// What the secret of a share that it makes is drawn from.
        fresh: Fresh,
        notice: Result<Notice, RecordFault>,
    },
    /// A connection that sends these bytes.
    Raw {
        host: Host,
        /// What the secrets that its messages make are drawn from: this for the first, and one more for each
        /// further one.
        fresh: Fresh,
        bytes: Bytes,
    },
    /// A message of the server is given to the one that it is for. The reply comes back, or is lost.
    Deliver {
        host: Host,
        /// The message's number.
        number: u32,
        /// What the secret of a share that it makes is drawn from.
        fresh: Fresh,
        lost: bool,
    },
    /// All messages of the server that are due are given to those that they are for.
    Pump {
        host: Host,
        /// What the secret of a share that the first makes is drawn from; one more for each further one.
        fresh: Fresh,
    },
    /// The server's disk fails once it was called so often.
    Fuse {
        host: Host,
        calls: u32,
    },
    /// The server is dropped, its disk crashes, and it is loaded again.
    Crash {
        host: Host,
        left: Crash,
    },
}

impl Drop for Event {
    fn drop(self) {
        match self {
            Event::Quiet => {}
            Event::Node { host: _ } => {}
            Event::User {
                host: _,
                name: _,
                fresh: _,
            } => {}
            Event::Local {
                host: _,
                key: _,
                cmd: _,
            } => {}
            Event::Dav {
                host: _,
                secret: _,
                method: _,
                path: _,
            } => {}
            Event::Put {
                host: _,
                secret: _,
                path: _,
                body: _,
            } => {}
            Event::Carry {
                host: _,
                secret: _,
                from: _,
                to: _,
                moving: _,
                overwrite: _,
            } => {}
            Event::Clock { host: _, clock: _ } => {}
            Event::Offer { host: _, offer: _ } => {}
            Event::Notice {
                host: _,
                fresh: _,
                notice: _,
            } => {}
            Event::Raw {
                host: _,
                fresh: _,
                bytes: _,
            } => {}
            Event::Deliver {
                host: _,
                number: _,
                fresh: _,
                lost: _,
            } => {}
            Event::Pump { host: _, fresh: _ } => {}
            Event::Fuse { host: _, calls: _ } => {}
            Event::Crash { host: _, left: _ } => {}
        }
    }
}

/// What a file is to hold.
pub enum Body {
    /// These bytes.
    Given(Bytes),
    /// The byte, `count` times.
    Fill { byte: u8, count: u32 },
}

impl Drop for Body {
    fn drop(self) {
        match self {
            Body::Given(_) => {}
            Body::Fill { byte: _, count: _ } => {}
        }
    }
}

impl Body {
    /// The bytes that the file is to hold.
    pub fn bytes(&self, alloc: Global) -> Result<Bytes, NoMemory>
        ensures { IfOk result (λ bytes. bytes ≡ bytes_of self.now) }
    {
        match self {
            Body::Given(bytes) => bytes.copy(),
            Body::Fill { byte, count } => {
                let filled = vec![in alloc; *byte; *count as usize]?;
                Ok(Bytes::from_vec(filled).shared()?)
            }
        }
    }
}

impl Event {
    /// The host of the server that the line is about. An empty line and a comment are about none.
    pub fn host(&self) -> Option<&Host>
        ensures { option_copied result ≡ host_of self.now }
    {
        match self {
            Event::Quiet => None,
            Event::Node { host }
            | Event::User { host, .. }
            | Event::Local { host, .. }
            | Event::Dav { host, .. }
            | Event::Put { host, .. }
            | Event::Carry { host, .. }
            | Event::Clock { host, .. }
            | Event::Offer { host, .. }
            | Event::Notice { host, .. }
            | Event::Raw { host, .. }
            | Event::Deliver { host, .. }
            | Event::Pump { host, .. }
            | Event::Fuse { host, .. }
            | Event::Crash { host, .. } => Some(host),
        }
    }

    /// The host of the server that the line makes, if it makes one.
    pub fn node(&self) -> Option<&Host>
        ensures { option_copied result ≡ node_of self.now }
    {
        match self {
            Event::Node { host } => Some(host),
            _ => None,
        }
    }
}
