ghost use Rattle.std.specs.Prelude.{◌≡◌, ◌<◌, ◌≤◌, ◌+◌, ◌∷◌, ◌++◌, [], length, map, true, Some, None, is_some, filter, sum_by, IfSome, OnOk, option_copied, slice_set};
ghost use Rattle.std.specs.List.{list_any};
ghost use Rattle.ocm_limits.specs.Limits.{most_nodes, most_stored_bytes};
ghost use Rattle.ocm_entry.specs.declared.rows.Node.{Node};
ghost use Rattle.ocm_entry.specs.declared.rows.Place.{Place};
ghost use Rattle.ocm_rules.specs.Files.{size_of, parent_of, is_at_or_above, total_size, child_count, limit_of};
ghost use Rattle.ocm_rules.specs.State.{node_at, EachOnce};
ghost use Rattle.ocm_tree.specs.Tables.{somes, slot_of, cleared, IsLeaf, IsLone};
ghost use Rattle.ocm_tree.specs.Carries.{amount_in, weight_in, makes_long, AreAmounts, IsLoneCarry};

use crate::amounts::{Amounts, amounts_after, amounts_by_one};
use crate::branches::Branch;
use crate::indexes::{
    are_both, counted, drop_empty, number_places, one_of, put_in, remove_below, remove_slot,
    reserve_all, standing_in,
};
use crate::kept::KeptNode;
use crate::limits::{size_at, size_of};
use crate::plans::PlannedNode;
use ocm_base::NoMemory;
use ocm_entry::{Place, Standing};
use std::alloc::Global;
use std::collections::HashMap;
use std::marker::Model;

/// The nodes, each place once, in slots that keep their numbers while other nodes go, with indexes
/// beside them. Contracts see the slots, and how many more nodes the table takes without memory.
pub struct NodeTable {
    /// What stands at each user's root.
    root: Standing,
    /// The nodes, in the order in which they came, between empty slots where nodes were.
    slots: Vec<Option<KeptNode>>,
    /// In which slot the node at a place is.
    places: HashMap<Place, usize>,
    /// How many nodes lie in a collection.
    children: HashMap<Place, u32>,
    /// How many nodes there are.
    count: usize,
    /// The bytes of all files.
    total: u64,
    /// Whether each node is known to lie in a user's root or where something stands.
    rooted: bool,
}

impl Drop for NodeTable {
    fn drop(self) {
        let NodeTable {
            root: _,
            slots: _,
            places: _,
            children: _,
            count: _,
            total: _,
            rooted: _,
        } = self;
    }
}

impl Model for NodeTable {
    ghost use Rattle.std.specs.Prelude.{◌-◌, min, vec_len, vec_capacity};
    ghost use Rattle.std.specs.HashMap.{spare};
    ghost use Rattle.ocm_tree.specs.Tables.{SlotLists, IsTable};

    ghost Value = { SlotLists };

    ghost view = { λ t. record { slots = t.slots.items; room = min (vec_capacity t.slots - vec_len t.slots) (min (spare t.places) (spare t.children)) } };

    ghost invariant = { λ t. IsTable t.root t.slots.items t.places t.children t.count t.total t.rooted };
}

impl NodeTable {
    ghost use Rattle.ocm_entry.specs.declared.rows.Standing.TheVariants.{Collection};
    ghost use Rattle.ocm_rules.specs.Files.{with_roots};

    /// A table without nodes.
    pub fn new(alloc: Global) -> NodeTable
        ensures { result.slots ≡ [] }
    {
        NodeTable {
            root: Standing::Collection,
            slots: Vec::new(alloc),
            places: HashMap::new(alloc),
            children: HashMap::new(alloc),
            count: 0,
            total: 0,
            rooted: true,
        }
    }

    /// The allocator of the table.
    pub fn allocator(&self) -> Global {
        *self.slots.allocator()
    }

    /// The slots.
    pub fn slots(&self) -> &[Option<KeptNode>]
        ensures slots { result.now ≡ self.now.slots }
        ensures once { EachOnce (somes self.now.slots) }
        ensures few { length (somes self.now.slots) ≤ most_nodes }
        ensures light { total_size (somes self.now.slots) ≤ most_stored_bytes }
    {
        let _root = &self.root;
        &self.slots
    }

    /// In which slot the node at a place is.
    pub fn slot_of(&self, place: &Place) -> Option<usize>
        ensures { result ≡ slot_of self.now.slots place.now }
    {
        self.places.get(place).copied()
    }

    /// What stands at a place below the users' roots.
    pub fn node_at(&self, place: &Place) -> Option<&Standing>
        ensures { option_copied result ≡ node_at (somes self.now.slots) place.now }
    {
        match self.places.get(place) {
            Some(index) => standing_in(&self.slots, *index),
            None => None,
        }
    }

    /// What stands at a place. At each user's root a collection stands.
    pub fn standing_at(&self, place: &Place) -> Option<&Standing>
        ensures { option_copied result ≡ with_roots (node_at (somes self.now.slots)) place.now }
    {
        if place.path.is_root() {
            Some(&self.root)
        } else {
            self.node_at(place)
        }
    }

    /// Whether a place is a user's root, or something stands there.
    fn has_root_or_node(&self, place: &Place) -> bool
        ensures { result ≡ is_some (with_roots (node_at (somes self.now.slots)) place.now) }
    {
        self.standing_at(place).is_some()
    }

    /// How many nodes lie in the collection at a place.
    pub fn child_count(&self, place: &Place) -> u32
        ensures count { result ≡ child_count (somes self.now.slots) place.now }
        ensures within { result ≤ most_nodes }
    {
        counted(self.children.get(place))
    }

    /// The bytes of all files.
    pub fn total_size(&self) -> u64
        ensures total { result ≡ total_size (somes self.now.slots) }
        ensures within { result ≤ most_stored_bytes }
    {
        self.total
    }

    /// How many nodes there are.
    pub fn len(&self) -> usize
        ensures len { result ≡ length (somes self.now.slots) }
        ensures within { result ≤ most_nodes }
    {
        self.count
    }

    /// Whether more than half of the slots are empty.
    pub fn is_sparse(&self) -> bool {
        self.slots.len() / 2 > self.count
    }

    /// Lets the empty slots go. It takes no memory.
    pub fn close_up(&mut self)
        ensures slots { self.new.slots ≡ filter is_some self.old.slots }
        ensures room { self.old.room ≤ self.new.room }
    {
        drop_empty(&mut self.slots);
        number_places(&self.slots, &mut self.places);
    }

    /// Room for so many more nodes.
    pub fn reserve(&mut self, more: usize) -> Result<(), NoMemory>
        ensures slots { self.new.slots ≡ self.old.slots }
        ensures ok { OnOk result (more ≤ self.new.room) }
    {
        reserve_all(&mut self.slots, &mut self.places, &mut self.children, more)
    }

    /// Lets nothing stand any more at a place and below it, and leaves the slots empty. It takes no
    /// memory.
    pub fn remove(&mut self, place: &Place)
        ensures slots { self.new.slots ≡ map (cleared place.now) self.old.slots }
        ensures room { self.old.room ≤ self.new.room }
    {
        if self.is_leaf(place) {
            self.remove_leaf(place);
        } else {
            self.remove_all(place);
        }
    }

    /// Whether nothing is known to stand below a place.
    fn is_leaf(&self, place: &Place) -> bool
        ensures { result ≡ true → IsLeaf (somes self.now.slots) place.now }
    {
        self.rooted && counted(self.children.get(place)) == 0
    }

    /// The slot of the only node at and below a place, where it is known that no other is.
    pub fn lone_slot(&self, place: &Place) -> Option<usize>
        ensures { IfSome result (IsLone self.now.slots place.now) }
    {
        let _root = &self.root;
        if self.is_leaf(place) {
            self.slot_of(place)
        } else {
            None
        }
    }

    /// Slots among which are all nodes at and below a place.
    pub fn slots_below(&self, place: &Place) -> &[Option<KeptNode>]
        ensures { filter (λ (n : Node). is_at_or_above place.now n.place) (somes result.now) ≡ filter (λ (n : Node). is_at_or_above place.now n.place) (somes self.now.slots) }
    {
        match self.lone_slot(place) {
            Some(index) => one_of(&self.slots, index),
            None => &self.slots,
        }
    }

    /// Whether it is known that nothing stands at a place and below it.
    fn is_bare(&self, place: &Place) -> bool
        ensures { result ≡ true → self.now.slots ≡ map (cleared place.now) self.now.slots }
    {
        self.is_leaf(place) && self.slot_of(place).is_none()
    }

    /// The amounts of the nodes as they stand, with those in the collection at a place.
    fn amounts_beside(&self, parent: &Place) -> Amounts
        ensures { (to : Place) → parent.now ≡ parent_of to → AreAmounts result (λ what. sum_by (weight_in what to) self.now.slots) }
    {
        Amounts {
            bytes: self.total_size(),
            nodes: self.len() as u64,
            siblings: u64::from(self.child_count(parent)),
            long: false,
        }
    }

    /// The slot of the only node at and below `from`, and the amounts of the nodes as they stand, where
    /// nothing stands at `to` and below it. None where this is not known without a walk over all slots.
    fn lone_carry(&self, from: &Place, to: &Place, parent: &Place) -> Option<(usize, Amounts)>
        requires { parent.now ≡ parent_of to.now }
        ensures { IfSome result (λ found. IsLoneCarry self.now.slots from.now to.now found.0 found.1) }
    {
        if !self.is_bare(to) {
            return None;
        }
        match self.lone_slot(from) {
            Some(index) => Some((index, self.amounts_beside(parent))),
            None => None,
        }
    }

    /// The amounts of the nodes after a copy or move. The parent is the place that `to` lies in.
    pub fn amounts_after(
        &self,
        from: &Branch<'_>,
        to: &Branch<'_>,
        parent: &Place,
        moving: bool,
    ) -> Amounts
        requires { parent.now ≡ parent_of to.now }
        ensures amounts { AreAmounts result (λ what. sum_by (amount_in what from.now to.now moving) self.now.slots) }
        ensures long { result.long ≡ list_any (makes_long from.now to.now) self.now.slots }
    {
        match self.lone_carry(from.place(), to.place(), parent) {
            Some((index, all)) => amounts_by_one(all, from, to, moving, &self.slots, index),
            None => amounts_after(from, to, moving, &self.slots),
        }
    }

    /// Lets nothing stand any more at a place below which nothing stands.
    fn remove_leaf(&mut self, place: &Place)
        requires leaf { IsLeaf (somes self.old.slots) place.now }
        ensures slots { self.new.slots ≡ map (cleared place.now) self.old.slots }
        ensures room { self.old.room ≤ self.new.room }
    {
        if let Some(index) = self.slot_of(place) {
            remove_slot(
                &mut self.slots,
                &mut self.places,
                &mut self.children,
                &mut self.count,
                &mut self.total,
                index,
            );
        }
    }

    /// Lets nothing stand any more at a place and below it, by a walk over all slots.
    fn remove_all(&mut self, place: &Place)
        ensures slots { self.new.slots ≡ map (cleared place.now) self.old.slots }
        ensures room { self.old.room ≤ self.new.room }
    {
        remove_below(
            &mut self.slots,
            &mut self.places,
            &mut self.children,
            &mut self.count,
            &mut self.total,
            &Branch::new(place),
        );
    }

    /// Lets nodes stand where nothing stands. It takes no memory.
    pub fn add_all(&mut self, nodes: Vec<PlannedNode>)
        requires room { length nodes.items ≤ self.old.room }
        requires once { EachOnce (somes self.old.slots ++ nodes.items) }
        requires few { length (somes self.old.slots ++ nodes.items) ≤ most_nodes }
        requires light { total_size (somes self.old.slots ++ nodes.items) ≤ most_stored_bytes }
        ensures slots { self.new.slots ≡ self.old.slots ++ map (λ (n : Node). Some n) nodes.items }
    {
        for planned in nodes {
            self.add(planned);
        }
    }

    /// Lets a node stand in the slot of the one that stands at its place. It takes no memory.
    pub fn replace(&mut self, index: usize, node: KeptNode)
        requires found { slot_of self.old.slots node.place ≡ Some index }
        requires within { limit_of (somes self.old.slots) node ≡ None }
        ensures slots { self.new.slots ≡ slice_set self.old.slots index (Some node) }
        ensures room { self.old.room ≤ self.new.room + 1 }
    {
        let older = size_at(self.node_at(node.place()));
        self.total = self.total - older + size_of(node.standing());
        put_in(&mut self.slots, index, node);
    }

    /// Lets a node stand where nothing stands. It takes no memory.
    pub fn add(&mut self, planned: PlannedNode)
        requires room { 0 < self.old.room }
        requires absent { node_at (somes self.old.slots) planned.place ≡ None }
        requires few { length (somes self.old.slots) < most_nodes }
        requires light { total_size (somes self.old.slots) + size_of planned.standing ≤ most_stored_bytes }
        ensures slots { self.new.slots ≡ self.old.slots ++ Some planned ∷ [] }
        ensures room { self.old.room ≤ self.new.room + 1 }
    {
        let index = self.slots.len();
        let above = planned.parent();
        let lies = self.has_root_or_node(above);
        let more = counted(self.children.get(above)) + 1;
        self.rooted = are_both(self.rooted, lies);
        self.count += 1;
        self.total += size_of(planned.standing());
        let node = planned.into_slot(&mut self.places, index, &mut self.children, more);
        self.slots.push_reserved(Some(node));
    }
}
