//! Places in a lane, and lists of them.

ghost use Rattle.std.specs.Prelude.{◌≡◌, ◌+◌, ◌<◌, ◌≤◌, ◌^◌, ◌∷◌, ◌++◌, [], length, not, slice_set, slice_index_or, true, IfSome};
ghost use Rattle.ocm_schedule.specs.Circles as circle;

use std::collections::LinkedList;
use std::mem;

/// A host that waits in a lane, whose it is, and the moment from which on it may go, in milliseconds.
#[derive(Clone, Copy)]
pub struct Place {
    pub from: u64,
    pub owner: usize,
    pub host: usize,
}

/// The first place of a list.
pub fn first(places: &LinkedList<Place>) -> Option<Place>
    ensures { result ≡ circle.first_of places.now }
{
    match places.front() {
        Some(place) => Some(*place),
        None => None,
    }
}

/// Moves the first place of one list to the end of another. It takes no memory.
fn shift(from: &mut LinkedList<Place>, to: &mut LinkedList<Place>)
    requires some { circle.some from.old ≡ true }
    requires few { length to.old + 1 < 2 ^ 63 }
    ensures from { from.new ≡ circle.behind from.old }
    ensures to { IfSome (circle.first_of from.old) (λ place. to.new ≡ to.old ++ place ∷ []) }
{
    let Ok(mut rest) = from.split_off(1) else {
        unreachable!()
    };
    let Ok(()) = to.append(from) else {
        unreachable!()
    };
    mem::swap(from, &mut rest);
}

/// Whether an owner has places.
pub fn has_places(own: &Vec<LinkedList<Place>>, owner: usize) -> bool
    requires known { owner < length own.now.items }
    ensures { result ≡ circle.some (slice_index_or own.now.items owner []) }
{
    !own[owner].is_empty()
}

/// Moves the first place of a list to the end of an owner's.
pub fn shift_to(own: &mut Vec<LinkedList<Place>>, owner: usize, places: &mut LinkedList<Place>)
    requires known { owner < length own.old.items }
    requires some { circle.some places.old ≡ true }
    requires few { length (slice_index_or own.old.items owner []) + 1 < 2 ^ 63 }
    ensures rest { places.new ≡ circle.behind places.old }
    ensures own { IfSome (circle.first_of places.old) (λ place. own.new.items ≡ slice_set own.old.items owner (slice_index_or own.old.items owner [] ++ place ∷ [])) }
{
    let to = &mut own[owner];
    shift(places, to);
}

/// Takes an owner's first place.
pub fn take_first(own: &mut Vec<LinkedList<Place>>, owner: usize) -> Option<Place>
    requires known { owner < length own.old.items }
    ensures first { result ≡ circle.first_of (slice_index_or own.old.items owner []) }
    ensures rest { own.new.items ≡ slice_set own.old.items owner (circle.behind (slice_index_or own.old.items owner [])) }
{
    let places = &mut own[owner];
    places.pop_front()
}
