//! The collections that are made for shares.
ghost use Rattle.std.specs.Prelude.{◌≡◌, IfOk};
ghost use Rattle.ocm_rules.specs.Files.{parent_of};

use ocm_base::{List, NoMemory};
use ocm_entry::Place;
use ocm_path::Path;
use ocm_tree::Tree;
use std::alloc::Global;
use std::collections::HashMap;
use std::mem;

/// How many of them may stand at once, and how many in one collection: no more than on any server.
const MOST_MADE: usize = 65_536;

const MOST_CHILDREN: u32 = 4_096;

/// The collections that were made for shares and stand.
pub struct Made {
    alloc: Global,
    /// How many of them lie in each of them, and in the roots of users.
    children: HashMap<Place, u32>,
    /// All of them, each behind the one in which it lies.
    places: List<Place>,
}

impl Drop for Made {
    fn drop(self) {
        let Made {
            alloc: _,
            children: _,
            places: _,
        } = self;
    }
}

impl Made {
    /// No collections.
    pub fn new(alloc: Global) -> Made {
        Made {
            alloc,
            children: HashMap::new(alloc),
            places: List::new(alloc),
        }
    }

    /// Whether a collection was made at a place and stands.
    pub fn stands(&self, place: &Place) -> bool {
        self.children.contains_key(place)
    }

    /// The places at this path of a user and above it where no collection was made, the lowest first.
    pub fn missing(&self, user: u32, path: &Path) -> Result<List<Place>, NoMemory> {
        let mut missing = List::new(self.alloc);
        let mut place = Place {
            user,
            path: path.copy()?,
        };
        for _ in 0..path.segments().len() {
            if self.stands(&place) {
                break;
            }
            let above = above(&place)?;
            missing.push(mem::replace(&mut place, above))?;
        }
        Ok(missing)
    }

    /// Whether these may be made too, each in the next one.
    pub fn has_room(&self, missing: &List<Place>) -> Result<bool, NoMemory> {
        match missing.as_slice().last() {
            Some(top) => {
                let above = above(top)?;
                let count = self.count_in(&above);
                let total = self.places.len().saturating_add(missing.len());
                Ok(count < MOST_CHILDREN && total <= MOST_MADE)
            }
            None => Ok(true),
        }
    }

    /// How many lie in a collection.
    fn count_in(&self, place: &Place) -> u32 {
        match self.children.get(place) {
            Some(count) => *count,
            None => 0,
        }
    }

    /// Notes that a collection was made.
    pub fn add(&mut self, place: Place) -> Result<(), NoMemory> {
        let above = above(&place)?;
        let count = self.count_in(&above).saturating_add(1);
        self.children.insert(above, count)?;
        self.places.push(place.copy()?)?;
        self.children.insert(place, 0)?;
        Ok(())
    }

    /// Those that do not stand on a server, and lie in one that does or in a root.
    pub fn gone(&self, files: &Tree) -> Result<List<Place>, NoMemory> {
        let mut gone = List::new(self.alloc);
        for place in self.places.as_slice() {
            if !files.is_collection(place) && files.is_collection(&above(place)?) {
                gone.push(place.copy()?)?;
            }
        }
        Ok(gone)
    }

    /// Notes that none stands any more, and gives those that stood.
    pub fn take_places(&mut self) -> List<Place> {
        self.children = HashMap::new(self.alloc);
        mem::replace(&mut self.places, List::new(self.alloc))
    }
}

/// The place in which a place lies; a root's is the root.
pub fn above(place: &Place) -> Result<Place, NoMemory>
    ensures { IfOk result (λ above. above ≡ parent_of place.now) }
{
    let path = place.path.parent()?;
    Ok(Place {
        user: place.user,
        path,
    })
}
