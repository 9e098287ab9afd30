//! Collections with paths below them that are too long for an ask: they are made at a short path, and moved.
use crate::faults::CandidateFault;
use crate::made::above;
use ocm_base::{Bytes, NoMemory};
use ocm_entry::Place;
use ocm_limits::MOST_ASKED_PATH_BYTES;
use ocm_path::Path;
use ocm_tree::Tree;
use std::alloc::Global;
use std::collections::HashMap;

/// How many names are tried for one in a root that is free: a root has no more.
const MOST_CHILDREN: u32 = 4_096;

/// The collections in which something lies whose path is too long for an ask, and whose own path is not.
pub struct Bases {
    places: HashMap<Place, u32>,
}

impl Drop for Bases {
    fn drop(self) {
        let Bases { places: _ } = self;
    }
}

impl Bases {
    /// Those among what stands.
    pub fn of(alloc: Global, files: &Tree) -> Result<Bases, NoMemory> {
        let mut places = HashMap::new(alloc);
        for slot in 0..files.slot_count() {
            if let Some(node) = files.node(slot) {
                if is_long(&node.place.path) {
                    note_base(&mut places, above(&node.place)?)?;
                }
            }
        }
        Ok(Bases { places })
    }

    /// Whether there are none.
    pub fn is_empty(&self) -> bool {
        self.places.is_empty()
    }

    /// Whether this place is one.
    pub fn has(&self, place: &Place) -> bool {
        self.places.contains_key(place)
    }
}

/// Notes the place in which something lies whose path is too long, where its own is not.
fn note_base(places: &mut HashMap<Place, u32>, place: Place) -> Result<(), NoMemory> {
    if is_long(&place.path) {
        return Ok(());
    }
    places.insert(place, 0)?;
    Ok(())
}

/// Whether a path is too long for an ask.
fn is_long(path: &Path) -> bool {
    path.text_len() > MOST_ASKED_PATH_BYTES
}

/// A collection that is made at a short path in the root of its user.
pub struct Away {
    place: Place,
    /// How many bytes its path has.
    length: usize,
    /// Where it is made.
    short: Place,
}

impl Drop for Away {
    fn drop(self) {
        let Away {
            place: _,
            length: _,
            short: _,
        } = self;
    }
}

impl Away {
    /// That for a place. `NotMade` where the root of its user takes no more.
    pub fn at(alloc: Global, files: &Tree, place: &Place) -> Result<Away, CandidateFault> {
        let short = free_place(alloc, files, place.user)?;
        Ok(Away {
            place: place.copy()?,
            length: place.path.text_len(),
            short,
        })
    }

    /// Whether a place lies in the collection, or is its own.
    pub fn holds(&self, place: &Place) -> bool {
        self.place.user == place.user && place.path.starts_with(&self.place.path)
    }

    /// The number of its user.
    pub fn user(&self) -> u32 {
        self.place.user
    }

    /// The path at which it is made.
    pub fn short(&self) -> Result<Path, NoMemory> {
        self.short.path.copy()
    }

    /// Its own path.
    pub fn path(&self) -> Result<Path, NoMemory> {
        self.place.path.copy()
    }

    /// The path at which is made what lies in it. `NotMade` where that is too long too.
    pub fn renamed(&self, alloc: Global, path: &Path) -> Result<Path, CandidateFault> {
        let text = path.text()?;
        let short = self.short.path.text()?;
        let mut renamed = Bytes::of(alloc, short.as_str().as_bytes())?;
        let bytes = text.as_str().as_bytes();
        if self.length < bytes.len() {
            renamed.add(&bytes[self.length..])?;
        }
        path_of(alloc, renamed.as_slice())
    }
}

/// A place in the root of a user where nothing stands.
fn free_place(alloc: Global, files: &Tree, user: u32) -> Result<Place, CandidateFault> {
    for number in 0..=MOST_CHILDREN {
        let name = numbered(alloc, number)?;
        let place = Place {
            user,
            path: path_of(alloc, name.as_bytes())?,
        };
        if files.standing_at(&place).is_none() {
            return within_limits(files, place);
        }
    }
    Err(CandidateFault::NotMade)
}

/// A place, where one more collection may stand there.
fn within_limits(files: &Tree, place: Place) -> Result<Place, CandidateFault> {
    let root = above(&place)?;
    match files.limit_of_collection(&place, &root) {
        Some(_) => Err(CandidateFault::NotMade),
        None => Ok(place),
    }
}

/// The text of a path in a root that is named by a number.
fn numbered(alloc: Global, number: u32) -> Result<String, NoMemory> {
    let text = format!(in alloc; "/{number}")?;
    Ok(text)
}

/// The path of this text. `NotMade` where it is none of an ask.
fn path_of(alloc: Global, text: &[u8]) -> Result<Path, CandidateFault> {
    match str::from_utf8(text) {
        Ok(text) => match Path::of_text(alloc, text)? {
            Some(path) => Ok(path),
            None => Err(CandidateFault::NotMade),
        },
        Err(_) => Err(CandidateFault::NotMade),
    }
}
