ghost use Rattle.std.specs.Prelude.{◌≡◌};
ghost use Rattle.ocm_rules.specs.Files.{is_at_or_above, parent_of, same_place};

use crate::kept::KeptNode;
use crate::places::{are_siblings, is_at_or_above, parent_segments};
use crate::trails::Span;
use ocm_entry::Place;
use std::marker::Model;

/// A place at, below or beside which nodes are sought. Most of the others are told apart by their
/// trails, without a look at their paths. Contracts see the place.
#[derive(Drop)]
pub struct Branch<'a> {
    place: &'a Place,
    below: Span,
    beside: Span,
}

impl<'a> Model for Branch<'a> {
    ghost use Rattle.ocm_entry.specs.declared.rows.Place.{Place};
    ghost use Rattle.ocm_rules.specs.Files.{parent_of};
    ghost use Rattle.ocm_tree.specs.Trails.{IsSpan};

    ghost Value = { Place };

    ghost view = { λ b. b.place.now };

    ghost invariant = { λ b. IsSpan b.below b.place.now × IsSpan b.beside (parent_of b.place.now) };
}

impl<'a> Branch<'a> {
    /// The branch of a place.
    pub fn new(place: &'a Place) -> Branch<'a>
        ensures { result ≡ place.now }
    {
        Branch {
            place,
            below: Span::of(place.user, place.path.segments()),
            beside: Span::of(place.user, parent_segments(&place.path)),
        }
    }

    /// The place.
    pub fn place(&self) -> &Place
        ensures { result.now ≡ self.now }
    {
        self.place
    }

    /// Whether a node lies at the place or below it.
    pub fn holds(&self, kept: &KeptNode) -> bool
        ensures { result ≡ is_at_or_above self.now kept.now.place }
    {
        self.below.has(kept.trail()) && is_at_or_above(self.place, kept.place())
    }

    /// Whether a node lies in the collection in which the place lies.
    pub fn is_beside(&self, kept: &KeptNode) -> bool
        ensures { result ≡ same_place (parent_of kept.now.place) (parent_of self.now) }
    {
        self.beside.has(kept.trail()) && are_siblings(kept.place(), self.place)
    }
}
