//! The records that make what stands at the end.
ghost use Rattle.std.specs.Prelude.{◌≡◌};
ghost use Rattle.std.specs.Ordering.{nat_cmp};
ghost use Rattle.std.specs.Cmp.Lexicographic.{slice_cmp};

use crate::aways::{Away, Bases};
use crate::candidates::Candidate;
use crate::faults::CandidateFault;
use ocm_base::{Bytes, NoMemory};
use ocm_entry::{Method, Node, Place, Standing};
use ocm_path::Path;
use ocm_tree::Tree;
use ocm_types::Secret;
use std::alloc::Global;
use std::cmp::Ordering;
use std::collections::HashMap;

/// A file of at least so many bytes is copied where the same user has one with the same bytes already: that is shorter.
const COPIED_FROM: usize = 1_024;

/// The slot of a node, by a key that puts a collection right before all that lies in it.
struct Spot {
    key: Bytes,
    slot: usize,
}

impl Drop for Spot {
    fn drop(self) {
        let Spot { key: _, slot: _ } = self;
    }
}

/// The bytes of a user's file.
#[derive(PartialEq, Eq, Hash)]
struct Body {
    user: u32,
    bytes: Bytes,
}

impl Drop for Body {
    fn drop(self) {
        let Body { user: _, bytes: _ } = self;
    }
}

/// How far what stands at the end was made.
#[derive(Drop)]
struct Pass<'a> {
    /// The moment at which it is made, which is the last one.
    clock: u64,
    /// What stands at the end.
    files: &'a Tree,
    /// For the bytes of files that were made the slot of such a file.
    bodies: HashMap<Body, usize>,
    /// The collections that have to be made elsewhere and moved.
    bases: Bases,
    /// That of them in which the next node lies.
    away: Option<Away>,
}

impl Candidate {
    /// Makes what stands at the end, and takes away what was made for shares and does not.
    pub fn add_files(&mut self, clock: u64, files: &Tree) -> Result<(), CandidateFault> {
        let mut pass = Pass {
            clock,
            files,
            bodies: HashMap::new(self.alloc),
            bases: Bases::of(self.alloc, files)?,
            away: None,
        };
        if pass.bases.is_empty() {
            self.clear_gone(clock, files)?;
        } else {
            self.clear(clock)?;
        }
        let spots = spots_of(self.alloc, files)?;
        for spot in spots.as_slice() {
            self.add_spot(&mut pass, spot.slot)?;
        }
        self.end_away(&mut pass)
    }

    /// Takes away the collections that were made for shares and do not stand at the end.
    fn clear_gone(&mut self, clock: u64, files: &Tree) -> Result<(), CandidateFault> {
        let places = self.made.gone(files)?;
        for place in places.as_slice() {
            self.delete(clock, place)?;
        }
        Ok(())
    }

    /// Makes the node of a slot.
    fn add_spot(&mut self, pass: &mut Pass<'_>, slot: usize) -> Result<(), CandidateFault> {
        let files = pass.files;
        match files.node(slot) {
            Some(node) => {
                self.go_on_to(pass, &node.place)?;
                self.add_node(pass, slot, node)
            }
            None => Ok(()),
        }
    }

    /// Moves a collection that was made elsewhere, where a place does not lie in it. Begins one where the place is that of one.
    fn go_on_to(&mut self, pass: &mut Pass<'_>, place: &Place) -> Result<(), CandidateFault> {
        let lies_in = match &pass.away {
            Some(away) => away.holds(place),
            None => false,
        };
        if lies_in {
            return Ok(());
        }
        self.end_away(pass)?;
        if pass.bases.has(place) {
            pass.away = Some(Away::at(self.alloc, pass.files, place)?);
        }
        Ok(())
    }

    /// Moves the collection that was made elsewhere, where there is one.
    fn end_away(&mut self, pass: &mut Pass<'_>) -> Result<(), CandidateFault> {
        match pass.away.take() {
            Some(away) => {
                let key = self.key_of(away.user())?;
                let from = away.short()?;
                let to = away.path()?;
                self.carry(pass.clock, &key, from, to, true)
            }
            None => Ok(()),
        }
    }

    /// Makes a node, by the key of its owner.
    fn add_node(
        &mut self,
        pass: &mut Pass<'_>,
        slot: usize,
        node: &Node,
    ) -> Result<(), CandidateFault> {
        let key = self.key_of(node.place.user)?;
        match &node.standing {
            Standing::Collection => self.add_collection(pass, &key, &node.place),
            Standing::File { body } => self.add_file(pass, &key, slot, &node.place, body),
        }
    }

    /// Makes a collection, where it was not made for a share.
    fn add_collection(
        &mut self,
        pass: &Pass<'_>,
        key: &Secret,
        place: &Place,
    ) -> Result<(), CandidateFault> {
        if self.made.stands(place) {
            return Ok(());
        }
        let path = path_in(self.alloc, pass, place)?;
        self.make(pass.clock, key, Method::Mkcol, path, Bytes::new(self.alloc))
    }

    /// Makes a file: by a copy where it is not short and the same bytes stand already.
    fn add_file(
        &mut self,
        pass: &mut Pass<'_>,
        key: &Secret,
        slot: usize,
        place: &Place,
        body: &Bytes,
    ) -> Result<(), CandidateFault> {
        let path = path_in(self.alloc, pass, place)?;
        match first_with(pass, slot, place.user, body)? {
            Some(first) => {
                let from = first.place.path.copy()?;
                self.carry(pass.clock, key, from, path, false)
            }
            None => self.make(pass.clock, key, Method::Put, path, body.copy()?),
        }
    }
}

/// A file of a user that was made with these bytes, where they are many. None where there is none. Notes that the file of the
/// slot is one, where it is made at its own path.
fn first_with<'a>(
    pass: &mut Pass<'a>,
    slot: usize,
    user: u32,
    body: &Bytes,
) -> Result<Option<&'a Node>, NoMemory> {
    if body.len() < COPIED_FROM {
        return Ok(None);
    }
    let bytes = body.copy()?;
    let known = Body { user, bytes };
    let first = if pass.away.is_some() {
        slot_of(&pass.bodies, &known)
    } else {
        pass.bodies.insert(known, slot)?
    };
    let files = pass.files;
    match first {
        Some(slot) => Ok(files.node(slot)),
        None => Ok(None),
    }
}

/// The slot of a file that was made with these bytes. None where there is none.
fn slot_of(bodies: &HashMap<Body, usize>, known: &Body) -> Option<usize> {
    match bodies.get(known) {
        Some(slot) => Some(*slot),
        None => None,
    }
}

/// The path at which what stands at a place is made.
fn path_in(alloc: Global, pass: &Pass<'_>, place: &Place) -> Result<Path, CandidateFault> {
    match &pass.away {
        Some(away) => away.renamed(alloc, &place.path),
        None => Ok(place.path.copy()?),
    }
}

/// The slots of all nodes, a collection right before all that lies in it.
fn spots_of(alloc: Global, files: &Tree) -> Result<Vec<Spot>, NoMemory> {
    let mut spots = Vec::new(alloc);
    for slot in 0..files.slot_count() {
        if let Some(node) = files.node(slot) {
            let key = key_of(alloc, &node.place)?;
            spots.push(Spot { key, slot })?;
        }
    }
    spots.sort_by(|spot, other| by_key(spot, other))?;
    Ok(spots)
}

/// How the keys of two slots compare.
fn by_key(spot: &Spot, other: &Spot) -> Ordering
    ensures { result ≡ slice_cmp nat_cmp spot.now.key other.now.key }
{
    spot.key.cmp(&other.key)
}

/// The user's number, and the segments of the path with an end behind each that sorts below all of their bytes.
fn key_of(alloc: Global, place: &Place) -> Result<Bytes, NoMemory> {
    let mut key = Bytes::of(alloc, &place.user.to_be_bytes())?;
    for segment in place.path.segments() {
        key.add(segment.as_str().as_bytes())?;
        key.add(&[0])?;
    }
    Ok(key)
}
