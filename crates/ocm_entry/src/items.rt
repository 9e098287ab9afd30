//! What PROPFIND tells (RFC 4918 section 9.1).

ghost use Rattle.std.specs.Prelude.{◌≡◌, ◌∷◌, length, map, IfOk};
ghost use Rattle.ocm_entry.specs.Listings.{item_in, told_path, told_size};

use crate::listings::DavChild;
use ocm_path::Path;
use ocm_texts::{List, NoMemory};
use std::marker::Model;

/// What stands at a path, and behind it what lies in it. Contracts see the list of all these items, each with its own
/// path; the path that they begin with is held once.
pub struct DavItems {
    path: Path,
    size: Option<u64>,
    inside: List<DavChild>,
}

impl Drop for DavItems {
    fn drop(self) {
        let DavItems {
            path: _,
            size: _,
            inside: _,
        } = self;
    }
}

impl Model for DavItems {
    ghost use Rattle.std.specs.Prelude.{List, ◌∷◌, map};
    ghost use Rattle.ocm_entry.specs.declared.listings.DavItem.{DavItem};
    ghost use Rattle.ocm_entry.specs.Listings.{item_in};

    ghost Value = { List DavItem };

    ghost view = { λ t. record { path = t.path; size = t.size } ∷ map (item_in t.path) t.inside };
}

impl DavItems {
    /// What stands at a path, a file of so many bytes or a collection, and what lies in it.
    pub fn of(path: Path, size: Option<u64>, inside: List<DavChild>) -> DavItems
        ensures { result ≡ record { path = path; size = size } ∷ map (item_in path) inside }
    {
        DavItems { path, size, inside }
    }

    /// How many items there are: at least one.
    pub fn len(&self) -> usize
        ensures { result ≡ length self.now }
    {
        self.inside.as_slice().len() + 1
    }

    /// The path of what stands there, below the holder's root.
    pub fn path(&self) -> &Path
        ensures { result.now ≡ told_path self.now }
    {
        &self.path
    }

    /// The bytes of the file that stands there, and none for a collection.
    pub fn size(&self) -> Option<u64>
        ensures { result ≡ told_size self.now }
    {
        self.size
    }

    /// What lies in it.
    pub fn inside(&self) -> &[DavChild]
        ensures { self.now ≡ record { path = told_path self.now; size = told_size self.now }
            ∷ map (item_in (told_path self.now)) result.now }
    {
        self.inside.as_slice()
    }

    /// The same items once more.
    pub fn copy(&self) -> Result<DavItems, NoMemory>
        ensures { IfOk result (λ items. items ≡ self.now) }
    {
        let path = self.path.copy()?;
        let inside = self.inside.copy()?;
        Ok(DavItems {
            path,
            size: self.size,
            inside,
        })
    }
}
