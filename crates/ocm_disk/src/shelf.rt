//! Disks by host.

ghost use Rattle.std.specs.Prelude.{◌≡◌, ◌++◌, ◌∷◌, [], Some, None, OnOk, OnErr, IfErr, option_copied, position, if◌then◌else◌, is_none};
ghost use Rattle.ocm_disk.specs.Memory.{settled};
ghost use Rattle.ocm_disk.specs.Shelf.{is_of, disk_of, is_vacant, with_disk, refusal, bytes_of, IsTold};

use crate::memory::MemDisk;
use ocm_limits::MOST_SERVERS;
use ocm_types::Host;
use std::alloc::Global;
use std::marker::Model;

/// Why a host gets no place.
#[derive(Clone, Copy, Debug, PartialEq, Eq)]
pub enum ShelfFault {
    /// The host has a place.
    Taken,
    /// Sixteen hosts have a place.
    Full,
    /// There was no memory for the place.
    NoMemory,
}

/// The place of a host: its disk, or nothing where the disk was taken out.
pub struct ShelfPlace {
    host: Host,
    disk: Option<MemDisk>,
}

impl Drop for ShelfPlace {
    fn drop(self) {
        let ShelfPlace { host: _, disk: _ } = self;
    }
}

impl ShelfPlace {
    /// Puts a disk in, where there is none.
    fn fill(&mut self, disk: MemDisk) -> bool
        ensures vacant { result ≡ is_none self.old.disk }
        ensures after { self.new ≡ (if result then record { host = self.old.host; disk = Some disk } else self.old) }
    {
        if self.disk.is_some() {
            return false;
        }
        self.disk = Some(disk);
        true
    }

    /// What the disk reads, where there is one.
    fn bytes(&self) -> Option<&[u8]>
        ensures { option_copied result ≡ bytes_of self.now.disk }
    {
        match &self.disk {
            Some(disk) => Some(disk.bytes()),
            None => None,
        }
    }
}

/// A shelf of disks in memory, with a place for each of at most 16 hosts.
pub struct Shelf {
    places: Vec<ShelfPlace>,
}

impl Drop for Shelf {
    fn drop(self) {
        let Shelf { places: _ } = self;
    }
}

impl Model for Shelf {
    ghost use Rattle.std.specs.Prelude.{◌≤◌, List, length};
    ghost use Rattle.ocm_disk.specs.declared.shelf.ShelfPlace.{ShelfPlace};
    ghost use Rattle.ocm_limits.specs.Limits.{most_servers};

    ghost Value = { List ShelfPlace };

    ghost view = { λ s. s.places.items };

    ghost invariant = { λ s. length s.places.items ≤ most_servers };
}

impl Shelf {
    /// A shelf without places. Takes no memory.
    pub fn new(alloc: Global) -> Shelf
        ensures { result ≡ [] }
    {
        Shelf {
            places: Vec::new(alloc),
        }
    }

    /// Gives a host a place, with a disk in it that has no bytes. After a fault the shelf is as it was.
    pub fn add(&mut self, host: Host) -> Result<(), ShelfFault>
        ensures ok { OnOk result (self.new ≡ self.old ++ record { host = host; disk = Some (settled [] 0) } ∷ []) }
        ensures free { OnOk result (refusal host self.old ≡ None) }
        ensures err { OnErr result (self.new ≡ self.old) }
        ensures told { IfErr result (λ fault. IsTold fault (refusal host self.old)) }
    {
        if let Some(fault) = self.refusal(&host) {
            return Err(fault);
        }
        let disk = Some(MemDisk::new(*self.places.allocator()));
        match self.places.push(ShelfPlace { host, disk }) {
            Ok(()) => Ok(()),
            Err(_) => Err(ShelfFault::NoMemory),
        }
    }

    /// Takes the disk out of the host's place. None where the host has no place, or it is empty.
    pub fn take(&mut self, host: &Host) -> Option<MemDisk>
        ensures disk { result ≡ disk_of host.now self.old }
        ensures after { self.new ≡ with_disk host.now None self.old }
    {
        match self.index_of(host) {
            Some(at) => self.places[at].disk.take(),
            None => None,
        }
    }

    /// Puts a disk into the host's place, where the host has one and it is empty. Otherwise the disk is let go.
    pub fn put_back(&mut self, host: &Host, disk: MemDisk) -> bool
        ensures vacant { result ≡ is_vacant host.now self.old }
        ensures after { self.new ≡ (if result then with_disk host.now (Some disk) self.old else self.old) }
    {
        match self.index_of(host) {
            Some(at) => self.places[at].fill(disk),
            None => false,
        }
    }

    /// What the disk at the host's place reads. None where the host has no place, or it is empty.
    pub fn bytes(&self, host: &Host) -> Option<&[u8]>
        ensures { option_copied result ≡ bytes_of (disk_of host.now self.now) }
    {
        match self.index_of(host) {
            Some(at) => self.places[at].bytes(),
            None => None,
        }
    }

    /// Why this host gets no place, apart from want of memory.
    fn refusal(&self, host: &Host) -> Option<ShelfFault>
        ensures { result ≡ refusal host.now self.now }
    {
        if self.index_of(host).is_some() {
            Some(ShelfFault::Taken)
        } else if self.places.len() == MOST_SERVERS {
            Some(ShelfFault::Full)
        } else {
            None
        }
    }

    /// The index of the host's place.
    fn index_of(&self, host: &Host) -> Option<usize>
        ensures { result ≡ position (is_of host.now) self.now }
    {
        self.places.iter().position(|place| place.host == *host)
    }
}
