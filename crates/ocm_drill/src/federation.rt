//! The four servers of a drill, each with one user, and what its events name.

ghost use Rattle.std.specs.Prelude.{◌≡◌, ◌<◌, ◌+◌, Ok, map, IfOk};
ghost use Rattle.ocm_drill.specs.Federation as federation;
ghost use Rattle.ocm_drill.specs.Federation.{four};

use crate::names::{collection, file, keys, shared_file, users};
use ocm_base::{List, NoMemory, and};
use ocm_path::Path;
use ocm_types::{Address, Host, Secret};
use std::alloc::Global;

/// How many servers there are.
pub const SERVERS: u32 = 4;

/// What the events of a drill name, to be copied from here.
pub struct Federation {
    /// The user of each server, whose host is the server's.
    users: List<Address>,
    /// The key of each user.
    keys: List<Secret>,
    /// Where each user has a collection, which it shares.
    collection: Path,
    /// Where each user has a file in that collection.
    file: Path,
    /// Where the guest of that collection finds the file.
    shared_file: Path,
    ghost users_are: { users ≡ map federation.address four },
    ghost keys_are: { keys ≡ map federation.key four },
    ghost collection_is: { collection ≡ federation.collection },
    ghost file_is: { file ≡ federation.file },
    ghost shared_file_is: { shared_file ≡ federation.shared_file },
}

impl Drop for Federation {
    fn drop(self) {
        let Federation {
            users: _,
            keys: _,
            collection: _,
            file: _,
            shared_file: _,
        } = self;
    }
}

impl Federation {
    /// All that the events name.
    pub fn new(alloc: Global) -> Result<Federation, NoMemory> {
        let (users, keys) = and(users(alloc)?, keys(alloc))?;
        let (held, collection) = and((users, keys), collection(alloc))?;
        let (held, file) = and((held, collection), file(alloc))?;
        let (held, shared_file) = and((held, file), shared_file(alloc))?;
        let (((users, keys), collection), file) = held;
        Ok(Federation {
            users,
            keys,
            collection,
            file,
            shared_file,
        })
    }

    /// The user of a server.
    #[tactic(auto, using(crate::proofs::Known::at_server))]
    pub fn user(&self, i: u32) -> &Address
        requires { i < 4 }
        ensures { result.now ≡ federation.address i }
    {
        &self.users.as_slice()[i as usize]
    }

    /// The user of another server, one of three.
    pub fn other(&self, i: u32, which: u32) -> &Address
        requires i { i < 4 }
        requires which { which < 3 }
        ensures { result.now ≡ federation.other i which }
    {
        self.user((i + 1 + which) % SERVERS)
    }

    /// The host of a server.
    pub fn host(&self, i: u32) -> Result<Host, NoMemory>
        requires { i < 4 }
        ensures { IfOk result (λ host. host ≡ federation.host i) }
    {
        self.user(i).host.copy()
    }

    /// The key of the user of a server.
    #[tactic(auto, using(crate::proofs::Known::at_server))]
    fn key(&self, i: u32) -> &Secret
        requires { i < 4 }
        ensures { result.now ≡ federation.key i }
    {
        &self.keys.as_slice()[i as usize]
    }

    /// The host of a server, and the key of its user.
    pub fn account(&self, i: u32) -> Result<(Host, Secret), NoMemory>
        requires { i < 4 }
        ensures { IfOk result (λ account. (account.0 ≡ federation.host i) × (account.1 ≡ federation.key i)) }
    {
        let (host, key) = and(self.host(i)?, self.key(i).copy())?;
        Ok((host, key))
    }

    /// Where each user has a collection, which it shares.
    pub fn collection(&self) -> Result<Path, NoMemory>
        ensures { IfOk result (λ path. path ≡ federation.collection) }
    {
        self.collection.copy()
    }

    /// Where each user has a file in that collection.
    pub fn file(&self) -> Result<Path, NoMemory>
        ensures { IfOk result (λ path. path ≡ federation.file) }
    {
        self.file.copy()
    }

    /// Where the guest of that collection finds the file.
    pub fn shared_file(&self) -> Result<Path, NoMemory>
        ensures { IfOk result (λ path. path ≡ federation.shared_file) }
    {
        self.shared_file.copy()
    }
}
