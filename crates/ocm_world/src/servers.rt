//! The servers of a script.
ghost use Rattle.std.specs.Prelude.{◌≡◌, ◌∷◌, ◌++◌, [], OnOk, OnErr, None, Some, position};
ghost use Rattle.ocm_disk.specs.Memory.{settled};
ghost use Rattle.ocm_disk.specs.Shelf.{refusal};
ghost use Rattle.ocm_world.specs.Running.{AreOf, is_at, shelved};
ghost use Rattle.ocm_script_run.specs.Servers.{World};
ghost use Rattle.ocm_world.specs.Shelves.{AreShelved, FirstShelved};

use crate::nodes::{RunningServer, load};
use ocm_base::{Bytes, NoMemory};
use ocm_disk::{Crash, MemDisk, Shelf};
use ocm_entry::{Ask, Reply};
use ocm_script_run::{ScriptServer, ScriptServers, talk};
use ocm_types::{Fresh, Host, Numbered};
use std::alloc::Global;
use std::marker::Model;

/// The servers of a script, in the order in which it names them.
#[derive(Drop)]
pub struct Servers {
    nodes: Vec<RunningServer>,
    alloc: Global,
}

impl Model for Servers {
    ghost use Rattle.std.specs.Prelude.{List};
    ghost use Rattle.ocm_world.specs.declared.nodes.RunningServer.{RunningServer};

    ghost Value = { List RunningServer };

    ghost view = { λ s. s.nodes.items };
}

impl Servers {
    /// No servers.
    pub fn new(alloc: Global) -> Servers
        ensures { result ≡ [] }
    {
        Servers {
            nodes: Vec::new(alloc),
            alloc,
        }
    }

    /// Puts the disk of each server on a shelf that is empty. Where memory runs out, the shelf has the disks
    /// of the first of them.
    pub fn shelve(self, shelf: &mut Shelf) -> Result<(), NoMemory>
        requires { shelf.old ≡ [] }
        ensures ok { OnOk result ((world : World) → AreOf self world → AreShelved world shelf.new) }
        ensures err { OnErr result ((world : World) → AreOf self world → FirstShelved world shelf.new) }
    {
        for node in self.nodes {
            shelve(shelf, node)?;
        }
        Ok(())
    }

    /// The place of the first server of this host.
    fn place_of(&self, host: &Host) -> Option<usize>
        ensures { result ≡ position (is_at host.now) self.now }
    {
        self.nodes.iter().position(|node| node.is_at(host))
    }
}

impl ScriptServers for Servers {
    ghost use Rattle.ocm_world.specs.Running.{AreOf};

    ghost stand = { λ nodes world. AreOf nodes world };

    fn add(&mut self, host: &Host) -> Result<(), NoMemory> {
        let node = load(self.alloc, MemDisk::new(self.alloc), host, 0)?;
        self.nodes.push(node)?;
        Ok(())
    }

    fn ask(&mut self, host: &Host, ask: Ask) -> Option<Reply> {
        match self.place_of(host) {
            Some(place) => Some(self.nodes[place].act(ask)),
            None => {
                drop(ask);
                None
            }
        }
    }

    fn state(&self, host: &Host) -> Option<(u64, u64)> {
        match self.place_of(host) {
            Some(place) => Some(self.nodes[place].state()),
            None => None,
        }
    }

    fn message(&self, host: &Host, number: u32) -> Option<&Numbered> {
        match self.place_of(host) {
            Some(place) => self.nodes[place].message(number),
            None => None,
        }
    }

    fn set_clock(&mut self, host: &Host, clock: u64) {
        let Some(place) = self.place_of(host) else {
            return;
        };
        self.nodes[place].set_clock(clock);
    }

    fn fuse(&mut self, host: &Host, calls: u64) {
        let Some(place) = self.place_of(host) else {
            return;
        };
        self.nodes[place].fuse(calls);
    }

    fn crash(&mut self, host: &Host, left: Crash) -> Result<Option<u64>, NoMemory> {
        let Some(place) = self.place_of(host) else {
            return Ok(None);
        };
        let node = self.nodes.remove(place).restart(self.alloc, left)?;
        let count = node.kept();
        self.nodes.insert(place, node)?;
        Ok(Some(count))
    }

    fn talk(
        &mut self,
        line: u32,
        host: &Host,
        fresh: Fresh,
        bytes: &Bytes,
    ) -> Result<Bytes, NoMemory> {
        match self.place_of(host) {
            Some(place) => talk(self.alloc, &mut self.nodes[place], line, fresh, bytes),
            None => Ok(Bytes::new(self.alloc)),
        }
    }
}

/// Puts the disk of a server on the shelf, at a place of its own. Where memory runs out, the shelf stays as it is.
fn shelve(shelf: &mut Shelf, node: RunningServer) -> Result<(), NoMemory>
    ensures ok { OnOk result (shelf.new ≡ shelf.old ++ shelved node ∷ []) }
    ensures err { OnErr result (shelf.new ≡ shelf.old) }
{
    let (host, disk) = node.into_parts();
    let put = put_at(shelf, &host, disk);
    drop(host);
    put
}

/// Puts a disk on the shelf, at a place of its own with this host. Where memory runs out, the shelf stays as it is.
fn put_at(shelf: &mut Shelf, host: &Host, disk: MemDisk) -> Result<(), NoMemory>
    ensures ok { OnOk result (shelf.new ≡ shelf.old ++ record { host = host.now; disk = Some disk } ∷ []) }
    ensures err { OnErr result (shelf.new ≡ shelf.old) }
{
    match add_place(shelf, host) {
        Ok(()) => {
            let empty = shelf.take(host);
            drop(empty);
            let _held = shelf.put_back(host, disk);
            Ok(())
        }
        Err(NoMemory) => {
            drop(disk);
            Err(NoMemory)
        }
    }
}

/// A place for a host, which has none yet. Where memory runs out, the shelf stays as it is.
fn add_place(shelf: &mut Shelf, host: &Host) -> Result<(), NoMemory>
    ensures ok { OnOk result (shelf.new ≡ shelf.old ++ record { host = host.now; disk = Some (settled [] 0) } ∷ []) }
    ensures free { OnOk result (refusal host.now shelf.old ≡ None) }
    ensures err { OnErr result (shelf.new ≡ shelf.old) }
{
    match shelf.add(host.copy()?) {
        Ok(()) => Ok(()),
        Err(_) => Err(NoMemory),
    }
}
