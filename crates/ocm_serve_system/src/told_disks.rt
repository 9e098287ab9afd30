//! A disk whose first fault an administrator is told at once.
ghost use Rattle.std.specs.Prelude.{◌≡◌};

use ocm_base::{Failed, NoMemory};
use ocm_disk::Disk;
use std::io::Eprint;

/// A disk whose first fault is told at once, on standard error: from then on its server makes no change until it is started
/// again.
pub struct ToldDisk<'a, R: Eprint, D: Disk> {
    rt: &'a R,
    disk: D,
}

impl<R: Eprint, D: Disk> Drop for ToldDisk<'_, R, D> {
    fn drop(self) {
        let ToldDisk { rt: _, disk: _ } = self;
    }
}

impl<'a, R: Eprint, D: Disk> ToldDisk<'a, R, D> {
    /// The same disk, with its first fault told.
    pub fn new(rt: &'a R, disk: D) -> ToldDisk<'a, R, D>
        ensures { result.disk ≡ disk }
    {
        ToldDisk { rt, disk }
    }

    /// Tells a fault where it is the first.
    fn tell(&self, done: &Result<(), Failed>) {
        if done.is_err() && self.disk.faults() == 1 {
            let _ = eprintln!(self.rt;
                "ocmd: the disk failed, and no change is made until the server is started again"
            );
        }
    }
}

impl<'a, R: Eprint, D: Disk> Disk for ToldDisk<'a, R, D> {
    ghost tells = { D.tells };

    ghost faithful = { λ d. D.faithful d.disk };

    ghost seen = { λ d. D.seen d.disk };

    ghost size = { λ d. D.size d.disk };

    ghost synced = { λ d. D.synced d.disk };

    ghost torn = { λ d. D.torn d.disk };

    ghost may_leave = { λ d. D.may_leave d.disk };

    ghost moment = { λ d. D.moment d.disk };

    ghost left_since = { λ d. D.left_since d.disk };

    ghost count = { λ d. D.count d.disk };

    ghost spare = { λ d. D.spare d.disk };

    ghost passes = { λ d. D.passes d.disk };

    ghost burnt = { λ d. D.burnt d.disk };

    ghost sizes = { λ d. D.sizes d.disk };

    ghost reads_an_image = { λ d. D.reads_an_image d.disk };

    ghost synced_is_an_image = { λ d. D.synced_is_an_image d.disk };

    ghost torn_is_an_image = { λ d. D.torn_is_an_image d.disk };

    ghost counts_now = { λ d. D.counts_now d.disk };

    ghost only_now = { λ d. D.only_now d.disk };

    fn len(&self) -> u64 {
        self.disk.len()
    }

    fn faults(&self) -> u64 {
        self.disk.faults()
    }

    fn room(&mut self, more: u64) -> Result<(), NoMemory> {
        self.disk.room(more)
    }

    fn read_at(&mut self, place: u64, buf: &mut [u8]) -> Result<(), Failed> {
        let done = self.disk.read_at(place, buf);
        self.tell(&done);
        done
    }

    fn write_at(&mut self, place: u64, bytes: &[u8]) -> Result<(), Failed> {
        let done = self.disk.write_at(place, bytes);
        self.tell(&done);
        done
    }

    fn cut(&mut self, len: u64) -> Result<(), Failed> {
        let done = self.disk.cut(len);
        self.tell(&done);
        done
    }

    fn sync(&mut self) -> Result<(), Failed> {
        let done = self.disk.sync();
        self.tell(&done);
        done
    }
}
