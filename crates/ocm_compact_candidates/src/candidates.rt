//! A shorter list of records that comes to the same: the asks that are neither ticks nor for files, each with its moment, and
//! then what stands at the end. What a share needs is made before it as collections. Those of them that do not stand at the
//! end are taken away before the files are made.
ghost use Rattle.std.specs.Prelude.{◌≤◌, ◌+◌, ◌^◌, length};

use crate::faults::CandidateFault;
use crate::keys::Keys;
use crate::made::Made;
use crate::texts::Texts;
use crate::wholes::{used_bytes, whole_of};
use ocm_base::{Bytes, List, NoMemory};
use ocm_entry::{Ask, Cmd, Method, Place};
use ocm_journal_records::{Stamped, read_stamped};
use ocm_path::Path;
use ocm_tree::Tree;
use ocm_types::Secret;
use std::alloc::Global;

/// The records so far, with what stands once they are gone through.
pub struct Candidate {
    pub alloc: Global,
    pub texts: Texts,
    keys: Keys,
    pub made: Made,
}

impl Drop for Candidate {
    fn drop(self) {
        let Candidate {
            alloc: _,
            texts: _,
            keys: _,
            made: _,
        } = self;
    }
}

/// The journal of a server, with what it comes to.
#[derive(Clone, Copy)]
pub struct Journal<'a> {
    /// The last moment.
    pub clock: u64,
    /// What stands at the end.
    pub files: &'a Tree,
    /// The records in form 2 of the asks that are neither ticks nor for files.
    pub others: &'a List<Bytes>,
    /// The size of an area.
    pub area: u64,
    /// The form of the records: 1 or 2.
    pub form: u8,
    /// The place of the first gate.
    pub place: u64,
    /// The records from there on.
    pub records: &'a [u8],
}

/// The records of a shorter list, in form 2, for an area of the same size, where they are no longer than those from which a
/// server went on to here; else those. `NotMade` where the area has no room for them.
pub fn make_candidate(alloc: Global, old: &Journal<'_>) -> Result<List<Bytes>, CandidateFault>
    requires { old.now.place + length old.now.records.now ≤ 2 ^ 63 }
{
    let room = old.area.saturating_sub(2);
    let least = least_of(alloc, old, wanted_of(room, old));
    match least {
        Err(CandidateFault::NotMade) => {
            whole_of(alloc, old.clock, room, old.form, old.place, old.records)
        }
        least => least,
    }
}

/// How many bytes a shorter list may take: no more than the records of an area that was read. Those of form 1 have no moments,
/// so with them they may be longer.
fn wanted_of(room: u64, old: &Journal<'_>) -> u64
    requires { old.now.place + length old.now.records.now ≤ 2 ^ 63 }
{
    if old.form == 1 {
        return room;
    }
    room.min(used_bytes(old.place, old.records))
}

/// The records of the least list, where they take at most this many bytes.
fn least_of(alloc: Global, old: &Journal<'_>, room: u64) -> Result<List<Bytes>, CandidateFault> {
    let mut made = Candidate {
        alloc,
        texts: Texts::new(alloc, room),
        keys: Keys::new(alloc),
        made: Made::new(alloc),
    };
    let clock = old.clock;
    made.add_others(old.others)?;
    made.add_files(clock, old.files)?;
    made.texts.add_moment(clock)?;
    Ok(made.into_texts())
}

impl Candidate {
    /// The records.
    fn into_texts(self) -> List<Bytes> {
        let Candidate {
            alloc: _,
            texts,
            keys,
            made,
        } = self;
        drop(keys);
        drop(made);
        texts.into_items()
    }

    /// Adds these records of asks that are neither ticks nor for files, with what they need.
    fn add_others(&mut self, others: &List<Bytes>) -> Result<(), CandidateFault> {
        for text in others.as_slice() {
            self.add_other(text)?;
        }
        Ok(())
    }

    /// Adds a record of an ask that is neither a tick nor for files, with what it needs.
    fn add_other(&mut self, text: &Bytes) -> Result<(), CandidateFault> {
        match read_stamped(self.alloc, 2, text.as_slice())? {
            Some(said) => {
                let needs = self.add_needs(&said);
                drop(said);
                needs?;
                self.texts.add_record(text.as_slice())
            }
            None => Err(CandidateFault::NotMade),
        }
    }

    /// Adds what the ask of a record needs, and notes the key of a user.
    fn add_needs(&mut self, said: &Stamped) -> Result<(), CandidateFault> {
        match said {
            Stamped::Timed(clock, ask) => self.add_needs_of(*clock, ask),
            Stamped::Bare(_) | Stamped::Moment(_) => Ok(()),
        }
    }

    /// Adds what an ask needs that is neither a tick nor for files: what is shared. Notes the key of a user.
    fn add_needs_of(&mut self, clock: u64, ask: &Ask) -> Result<(), CandidateFault> {
        match ask {
            Ask::AddUser { name: _, fresh } => {
                let key = fresh.secret(self.alloc)?;
                self.keys.add(key)?;
                Ok(())
            }
            Ask::Local { key, cmd } => match cmd {
                Cmd::Share { path, .. } => self.add_places(clock, key, path),
                _ => Ok(()),
            },
            _ => Ok(()),
        }
    }

    /// Makes collections at a path and above it, where they do not stand yet.
    fn add_places(&mut self, clock: u64, key: &Secret, path: &Path) -> Result<(), CandidateFault> {
        let user = self.keys.number_of(key);
        let mut missing = self.made.missing(user, path)?;
        if !self.made.has_room(&missing)? {
            self.clear(clock)?;
            missing = self.made.missing(user, path)?;
        }
        for _ in 0..missing.len() {
            if let Some(place) = missing.pop() {
                self.add_place(clock, key, place)?;
            }
        }
        Ok(())
    }

    /// Makes a collection.
    fn add_place(&mut self, clock: u64, key: &Secret, place: Place) -> Result<(), CandidateFault> {
        let path = place.path.copy()?;
        self.made.add(place)?;
        self.make(clock, key, Method::Mkcol, path, Bytes::new(self.alloc))
    }

    /// Takes away the collections that were made for shares.
    pub fn clear(&mut self, clock: u64) -> Result<(), CandidateFault> {
        let places = self.made.take_places();
        let cleared = self.clear_tops(clock, &places);
        drop(places);
        cleared
    }

    /// Takes away those of these places that lie in a user's root.
    fn clear_tops(&mut self, clock: u64, places: &List<Place>) -> Result<(), CandidateFault> {
        for place in places.as_slice() {
            if place.path.segments().len() == 1 {
                self.delete(clock, place)?;
            }
        }
        Ok(())
    }

    /// Takes away what stands at a place.
    pub fn delete(&mut self, clock: u64, place: &Place) -> Result<(), CandidateFault> {
        let key = self.key_of(place.user)?;
        let path = place.path.copy()?;
        self.make(clock, &key, Method::Delete, path, Bytes::new(self.alloc))
    }

    /// The key of the user of a number.
    pub fn key_of(&self, user: u32) -> Result<Secret, CandidateFault> {
        match self.keys.key_of(user) {
            Some(key) => Ok(key.copy()?),
            None => Err(CandidateFault::NotMade),
        }
    }

    /// Adds the record of an ask for files by the holder of a key.
    pub fn make(
        &mut self,
        clock: u64,
        key: &Secret,
        method: Method,
        path: Path,
        body: Bytes,
    ) -> Result<(), CandidateFault> {
        let ask = Ask::Dav {
            secret: key.copy()?,
            method,
            path,
            body,
        };
        self.texts.add(clock, &ask)
    }

    /// Adds the record of a copy or move by the holder of a key.
    pub fn carry(
        &mut self,
        clock: u64,
        key: &Secret,
        from: Path,
        to: Path,
        moving: bool,
    ) -> Result<(), CandidateFault> {
        let ask = Ask::Carry {
            secret: key.copy()?,
            from,
            to,
            moving,
            overwrite: true,
        };
        self.texts.add(clock, &ask)
    }
}
