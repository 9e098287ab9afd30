ghost use Rattle.std.specs.Prelude.{◌≡◌, ◌&&◌, ◌<◌, ◌≤◌, ◌-◌, true, false, Some, None, map, filter, length, is_some, option_map, if◌then◌else◌, option_copied, slice_get, slice_index_or, slice_set, take, drop, min, vec_len, vec_capacity, OnOk};
ghost use Rattle.std.specs.HashMap as hash;
ghost use Rattle.std.specs.HashMap.{spare};
ghost use Rattle.ocm_entry.specs.declared.rows.Node.{Node};
ghost use Rattle.ocm_entry.specs.declared.rows.Place.{Place};
ghost use Rattle.ocm_entry.specs.declared.rows.Standing.TheVariants.{Collection};
ghost use Rattle.ocm_rules.specs.Files.{same_place, parent_of};
ghost use Rattle.ocm_tree.specs.Tables.{somes, slot_of, cleared, counted, IsTable};

use crate::branches::Branch;
use crate::kept::KeptNode;
use crate::limits::size_of;
use ocm_base::NoMemory;
use ocm_entry::{Place, Standing};
use std::collections::HashMap;

/// A count that is kept from the first on.
pub fn counted(kept: Option<&u32>) -> u32
    ensures { result ≡ counted (option_copied kept.entry) }
{
    match kept {
        Some(count) => *count,
        None => 0,
    }
}

/// Whether two tests pass.
pub fn are_both(first: bool, second: bool) -> bool
    ensures { result ≡ (first && second) }
{
    first && second
}

/// What stands where the node of a slot stands.
pub fn standing_in(slots: &[Option<KeptNode>], index: usize) -> Option<&Standing>
    requires within { index < length slots.now }
    ensures { option_copied result ≡ option_map (λ (n : Node). n.standing) (slice_index_or slots.now index None) }
{
    match &slots[index] {
        Some(kept) => Some(kept.standing()),
        None => None,
    }
}

/// The slot of this index alone.
pub fn one_of(slots: &[Option<KeptNode>], index: usize) -> &[Option<KeptNode>]
    requires within { index < length slots.now }
    ensures { result.now ≡ take 1 (drop index slots.now) }
{
    &slots[index..][..1]
}

/// Takes the node out of a slot that has one.
fn take_out(slots: &mut Vec<Option<KeptNode>>, index: usize) -> KeptNode
    requires within { index < length slots.old.items }
    requires full { is_some (slice_index_or slots.old.items index None) ≡ true }
    ensures node { Some result ≡ slice_index_or slots.old.items index None }
    ensures slots { slots.new.items ≡ slice_set slots.old.items index None }
    ensures room { vec_capacity slots.old - vec_len slots.old ≤ vec_capacity slots.new - vec_len slots.new }
{
    match slots[index].take() {
        Some(node) => node,
        None => unreachable!(),
    }
}

/// Room for so many more nodes in slots, and in the indexes beside them.
pub fn reserve_all(
    slots: &mut Vec<Option<KeptNode>>,
    places: &mut HashMap<Place, usize>,
    children: &mut HashMap<Place, u32>,
    more: usize,
) -> Result<(), NoMemory>
    ensures slots { slots.new.items ≡ slots.old.items }
    ensures places { (place : Place) → hash.get same_place places.new place ≡ hash.get same_place places.old place }
    ensures children { (place : Place) → hash.get same_place children.new place ≡ hash.get same_place children.old place }
    ensures room { OnOk result (more ≤ min (vec_capacity slots.new - vec_len slots.new) (min (spare places.new) (spare children.new))) }
{
    slots.reserve(more)?;
    places.reserve(more)?;
    children.reserve(more)?;
    Ok(())
}

/// Puts a node into a slot, in the place of another.
pub fn put_in(slots: &mut Vec<Option<KeptNode>>, index: usize, node: KeptNode)
    requires within { index < length slots.old.items }
    ensures slots { slots.new.items ≡ slice_set slots.old.items index (Some node) }
    ensures room { vec_capacity slots.old - vec_len slots.old ≤ vec_capacity slots.new - vec_len slots.new }
{
    slots[index] = Some(node);
}

/// Keeps no empty slot.
pub fn drop_empty(slots: &mut Vec<Option<KeptNode>>)
    ensures slots { slots.new.items ≡ filter is_some slots.old.items }
    ensures room { vec_capacity slots.old - vec_len slots.old ≤ vec_capacity slots.new - vec_len slots.new }
{
    slots.retain(|slot| slot.is_some());
}

/// Lessens the count of a collection by one, where it has one.
fn lessen_kept(children: &mut HashMap<Place, u32>, collection: &Place)
    ensures counts { (place : Place) → hash.get same_place children.new place
        ≡ (if same_place collection.now place then option_map (λ count. count - 1) (hash.get same_place children.old place) else hash.get same_place children.old place) }
    ensures spare { spare children.old ≤ spare children.new }
{
    if let Some(count) = children.get_mut(collection) {
        *count = count.saturating_sub(1);
    }
}

/// Lessens the count of a collection by one. Where none is left, it is no longer kept.
fn lessen(children: &mut HashMap<Place, u32>, collection: &Place)
    ensures counts { (place : Place) → counted (hash.get same_place children.new place)
        ≡ counted (hash.get same_place children.old place) - (if same_place collection.now place then 1 else 0) }
    ensures spare { spare children.old ≤ spare children.new }
{
    if counted(children.get(collection)) > 1 {
        lessen_kept(children, collection);
    } else {
        children.remove(collection);
    }
}

/// Whether the node of a slot lies at a place or below it.
fn is_below(slot: &Option<KeptNode>, there: &Branch<'_>) -> bool
    ensures clear { cleared there.now slot.now ≡ (if result then None else slot.now) }
    ensures full { result ≡ true → is_some slot.now ≡ true }
{
    match slot {
        Some(kept) => there.holds(kept),
        None => false,
    }
}

/// Lets the node of a slot stand no more.
pub fn remove_slot(
    slots: &mut Vec<Option<KeptNode>>,
    places: &mut HashMap<Place, usize>,
    children: &mut HashMap<Place, u32>,
    count: &mut usize,
    total: &mut u64,
    index: usize,
)
    requires within { index < length slots.old.items }
    requires full { is_some (slice_index_or slots.old.items index None) ≡ true }
    requires table { IsTable Collection slots.old.items places.old children.old count.old total.old false }
    ensures table { IsTable Collection slots.new.items places.new children.new count.new total.new false }
    ensures slots { slots.new.items ≡ slice_set slots.old.items index None }
    ensures room { vec_capacity slots.old - vec_len slots.old ≤ vec_capacity slots.new - vec_len slots.new }
    ensures places { spare places.old ≤ spare places.new }
    ensures children { spare children.old ≤ spare children.new }
{
    let kept = take_out(slots, index);
    *count -= 1;
    *total -= size_of(kept.standing());
    places.remove(kept.place());
    lessen(children, kept.parent());
}

/// Lets the node of a slot stand no more where it lies at a place or below it.
fn remove_where_below(
    slots: &mut Vec<Option<KeptNode>>,
    places: &mut HashMap<Place, usize>,
    children: &mut HashMap<Place, u32>,
    count: &mut usize,
    total: &mut u64,
    index: usize,
    there: &Branch<'_>,
)
    requires within { index < length slots.old.items }
    requires table { IsTable Collection slots.old.items places.old children.old count.old total.old false }
    ensures table { IsTable Collection slots.new.items places.new children.new count.new total.new false }
    ensures slots { slots.new.items ≡ slice_set slots.old.items index (cleared there.now (slice_index_or slots.old.items index None)) }
    ensures room { vec_capacity slots.old - vec_len slots.old ≤ vec_capacity slots.new - vec_len slots.new }
    ensures places { spare places.old ≤ spare places.new }
    ensures children { spare children.old ≤ spare children.new }
{
    if is_below(&slots[index], there) {
        remove_slot(slots, places, children, count, total, index);
    }
}

/// Lets nothing stand any more at a place and below it, by a walk over all slots.
pub fn remove_below(
    slots: &mut Vec<Option<KeptNode>>,
    places: &mut HashMap<Place, usize>,
    children: &mut HashMap<Place, u32>,
    count: &mut usize,
    total: &mut u64,
    there: &Branch<'_>,
)
    requires table { IsTable Collection slots.old.items places.old children.old count.old total.old false }
    ensures table { IsTable Collection slots.new.items places.new children.new count.new total.new false }
    ensures slots { slots.new.items ≡ map (cleared there.now) slots.old.items }
    ensures room { vec_capacity slots.old - vec_len slots.old ≤ vec_capacity slots.new - vec_len slots.new }
    ensures places { spare places.old ≤ spare places.new }
    ensures children { spare children.old ≤ spare children.new }
{
    for index in 0..slots.len() {
        remove_where_below(slots, places, children, count, total, index, there);
    }
}

/// Writes the number of a place that has one.
fn set_number(places: &mut HashMap<Place, usize>, place: &Place, number: usize)
    requires known { is_some (hash.get same_place places.old place.now) ≡ true }
    ensures places { (other : Place) → hash.get same_place places.new other ≡ (if same_place place.now other then Some number else hash.get same_place places.old other) }
    ensures spare { spare places.old ≤ spare places.new }
{
    if let Some(kept) = places.get_mut(place) {
        *kept = number;
    }
}

/// Numbers the places of the nodes in slots anew, each by how many slots come before its own. It
/// takes no memory: each of the places has a number already.
pub fn number_places(slots: &[Option<KeptNode>], places: &mut HashMap<Place, usize>)
    requires known { (place : Place) → is_some (hash.get same_place places.old place) ≡ is_some (slot_of slots.now place) }
    ensures found { (place : Place) → hash.get same_place places.new place ≡ slot_of slots.now place }
    ensures spare { spare places.old ≤ spare places.new }
{
    let mut left = slots.len();
    while left > 0 {
        left -= 1;
        if let Some(kept) = &slots[left] {
            set_number(places, kept.place(), left);
        }
    }
}
