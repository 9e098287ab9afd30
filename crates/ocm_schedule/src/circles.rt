//! Owners that take turns.

ghost use Rattle.std.specs.Prelude.{◌≡◌, ◌+◌, ◌<◌, ◌≤◌, ◌^◌, length, not, true, [], OnOk, IsSome};
ghost use Rattle.std.specs.VecDeque.{deque_len, deque_capacity};
ghost use Rattle.ocm_schedule.specs.Circles as circle;

use crate::places::{Place, first, has_places, shift_to, take_first};
use std::alloc::{AllocError, Global};
use std::collections::{LinkedList, VecDeque};
use std::marker::Model;

/// Owners that take turns: each has places, the oldest first, and those that have some stand in a circle. The first owner's first place has its
/// turn, and the owner goes to the end if it has more.
pub struct Circle {
    order: VecDeque<usize>,
    own: Vec<LinkedList<Place>>,
}

impl Model for Circle {
    ghost use Rattle.std.specs.Prelude.{◌-◌, length};
    ghost use Rattle.std.specs.VecDeque.{deque_len, deque_capacity};
    ghost use Rattle.ocm_schedule.specs.Circles.{Room, IsCircle, lines_of};

    ghost Value = { Room };

    ghost view = { λ a. record {
      lines = lines_of a.own.items a.order.items;
      owners = length a.own.items;
      room = deque_capacity a.order - deque_len a.order;
    } };

    ghost invariant = { λ a. IsCircle a.own.items a.order.items };
}

impl Drop for Circle {
    fn drop(self) {
        let Circle { order: _, own: _ } = self;
    }
}

/// Has an empty list for each owner up to this one that has none. An `Err` leaves all places where they are.
fn widen(own: &mut Vec<LinkedList<Place>>, owner: usize) -> Result<(), AllocError>
    ensures lists { circle.HasSameLists own.old.items own.new.items }
    ensures owners { length own.old.items ≤ length own.new.items }
    ensures ok { OnOk result (owner < length own.new.items) }
{
    while own.len() <= owner {
        let alloc = *own.allocator();
        own.push(LinkedList::new(alloc))?;
    }
    Ok(())
}

/// An owner goes to the end, if it is to.
fn append_if(goes: bool, order: &mut VecDeque<usize>, owner: usize)
    requires room { deque_len order.old < deque_capacity order.old }
    ensures items { order.new.items ≡ circle.with_last goes order.old.items owner }
    ensures len { deque_len order.new ≤ deque_len order.old + 1 }
    ensures capacity { deque_capacity order.new ≡ deque_capacity order.old }
{
    if goes {
        let Ok(()) = order.push_back(owner) else {
            unreachable!()
        };
    }
}

impl Circle {
    /// Nobody has a place.
    pub fn new(alloc: Global) -> Circle
        ensures { result.lines ≡ [] }
    {
        Circle {
            order: VecDeque::new(alloc),
            own: Vec::new(alloc),
        }
    }

    /// Makes room for so many more places, of this owner and of those that were named before. An `Err` leaves all places where they are.
    pub fn reserve(&mut self, owner: usize, places: usize) -> Result<(), AllocError>
        ensures lines { self.new.lines ≡ self.old.lines }
        ensures owners { self.old.owners ≤ self.new.owners }
        ensures room { self.old.room ≤ self.new.room }
        ensures ok { OnOk result ((owner < self.new.owners) × (places ≤ self.new.room)) }
    {
        widen(&mut self.own, owner)?;
        // Twice as many at once: `reserve` grows by what is there, and few owners may stand here while many hosts rest.
        if self.order.capacity() - self.order.len() < places {
            self.order.reserve(places.saturating_add(places))?;
        }
        Ok(())
    }

    /// Whether nobody has a place.
    pub fn is_empty(&self) -> bool
        ensures { result ≡ not (circle.stands self.now.lines) }
    {
        self.order.is_empty()
    }

    /// The first of these places joins those of its owner, which goes to the end of the circle if it had none. It takes no memory.
    pub fn join(&mut self, places: &mut LinkedList<Place>)
        requires some { circle.some places.old ≡ true }
        requires known { circle.OwnedWithin self.old.owners places.old }
        requires room { 0 < self.old.room }
        requires few { length (circle.places_in self.old.lines) + 1 < 2 ^ 63 }
        ensures rest { places.new ≡ circle.behind places.old }
        ensures joined { self.new.lines ≡ circle.joined_first self.old.lines places.old }
        ensures owners { self.new.owners ≡ self.old.owners }
        ensures room { self.old.room ≤ self.new.room + 1 }
    {
        let Some(place) = first(places) else {
            unreachable!()
        };
        let is_new = !has_places(&self.own, place.owner);
        append_if(is_new, &mut self.order, place.owner);
        shift_to(&mut self.own, place.owner, places);
    }

    /// The first owner's first place leaves, and the owner goes to the end if it has more. It takes no memory.
    pub fn next(&mut self) -> Option<Place>
        ensures first { result ≡ circle.first_in self.old.lines }
        ensures some { circle.stands self.old.lines ≡ true → IsSome result }
        ensures turned { self.new.lines ≡ circle.turned self.old.lines }
        ensures owners { self.new.owners ≡ self.old.owners }
        ensures room { self.old.room ≤ self.new.room }
    {
        let owner = self.order.pop_front()?;
        let place = take_first(&mut self.own, owner);
        let has_more = has_places(&self.own, owner);
        append_if(has_more, &mut self.order, owner);
        place
    }
}
