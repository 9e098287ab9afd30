ghost use Rattle.std.specs.Prelude.{◌≡◌, ◌≢◌, ◌<◌, ◌≤◌, ◌+◌, ◌++◌, ℕ, [], All, length, map, Some, None, true, filter, IfOk, IfSome, IsSomeAnd, OnOk, option_copied, vec_capacity};
ghost use Rattle.std.specs.Option.{option_or};
ghost use Rattle.ocm_limits.specs.Limits.{most_file_bytes, most_nodes, most_stored_bytes};
ghost use Rattle.ocm_path.specs.Paths.{Segments};
ghost use Rattle.ocm_entry.specs.Listings.{item_in};
ghost use Rattle.ocm_entry.specs.declared.rows.Node.{Node};
ghost use Rattle.ocm_entry.specs.declared.rows.Place.{Place};
ghost use Rattle.ocm_entry.specs.declared.rows.Standing.{Standing};
ghost use Rattle.ocm_entry.specs.declared.rows.Standing.TheVariants.{Collection, File};
ghost use Rattle.ocm_rules.specs.Files.{size_of, parent_of, is_at_or_above, total_size, with_node, with_roots, limit_of, nodes_after, Gone, Carried, copies, stays, path_limit, limit_of_carry};
ghost use Rattle.ocm_rules.specs.State.{node_at, EachOnce};
ghost use Rattle.ocm_rules.specs.Answers.{is_collection, items_in};
ghost use Rattle.ocm_law_origins.specs.Origins.{Origin, body_from, copied, origin_stays, origins_after, with_origin};
ghost use Rattle.ocm_tree.specs.Carries.{limit_after};
ghost use Rattle.ocm_tree.specs.Changes.{act_of};
ghost use Rattle.ocm_tree.specs.Standings.{origins_of};
ghost use Rattle.ocm_tree.specs.Tables.{somes};

use crate::amounts::limit_of_paths;
use crate::branches::Branch;
use crate::carries::PlannedCarry;
use crate::changes::{FileChange, Part};
use crate::comparing::{node_in, stand_alike};
use crate::entry_numbers::EntryNumbers;
use crate::firsts::first_standing;
use crate::kept::KeptNode;
use crate::limits::{first_passed, growth, size_at};
use crate::listing::children_of;
use crate::nodes::NodeTable;
use crate::numbers::{copy_numbers, drop_numbers};
use crate::plans::PlannedNode;
use crate::tags::{push_tags, tag_of};
use ocm_base::{Bytes, List, NoMemory};
use ocm_entry::{DavChild, Node, Place, Standing};
use ocm_limits::MOST_FILE_BYTES;
use ocm_types::Which;
use std::alloc::Global;
use std::marker::Model;

/// What stands on a server, each place once, with the number of the kept entry that put it there.
/// Contracts see the list of the nodes, for each node its place and its number, and how many more nodes
/// the tree takes without memory.
pub struct Tree {
    table: NodeTable,
    /// The numbers of the nodes, in the order of their slots.
    numbers: EntryNumbers,
    /// A tag for each slot, that of the place in which its node lies: nodes with other tags lie
    /// elsewhere, so that a listing looks at few.
    tags: Vec<u64>,
}

impl Drop for Tree {
    fn drop(self) {
        let Tree {
            table: _,
            numbers: _,
            tags: _,
        } = self;
    }
}

impl Model for Tree {
    ghost use Rattle.std.specs.Prelude.{◌-◌, min, vec_len, vec_capacity};
    ghost use Rattle.ocm_tree.specs.Standings.{origins_of, numbers_in};
    ghost use Rattle.ocm_tree.specs.Tables.{somes};
    ghost use Rattle.ocm_tree.specs.Trees.{TreeLists, AreBeside};

    ghost Value = { TreeLists };

    ghost view = { λ t. record { nodes = somes t.table.slots; origins = origins_of (somes t.table.slots) (numbers_in t.table.slots t.numbers.numbers); room = min t.table.room (min t.numbers.room (vec_capacity t.tags - vec_len t.tags)) } };

    ghost invariant = { λ t. AreBeside t.table.slots t.numbers.numbers t.tags.items };
}

impl Tree {
    /// A tree in which nothing stands but each user's root.
    pub fn new(alloc: Global) -> Tree
        ensures nodes { result.nodes ≡ [] }
        ensures origins { result.origins ≡ [] }
    {
        Tree {
            table: NodeTable::new(alloc),
            numbers: EntryNumbers::new(alloc),
            tags: Vec::new(alloc),
        }
    }

    /// What stands at a place. At each user's root a collection stands.
    pub fn standing_at(&self, place: &Place) -> Option<&Standing>
        ensures { option_copied result ≡ with_roots (node_at self.now.nodes) place.now }
    {
        self.table.standing_at(place)
    }

    /// Whether a collection stands at a place. At each user's root one stands.
    pub fn is_collection(&self, place: &Place) -> bool
        ensures { result ≡ is_collection (with_roots (node_at self.now.nodes) place.now) }
    {
        matches!(self.standing_at(place), Some(Standing::Collection))
    }

    /// The first limit that would be passed once a file with these bytes stands at a place: the bytes
    /// of a file (1,048,576), those of all files (268,435,456), the number of nodes (65,536), or that
    /// of the nodes in one collection (4,096). The parent is the place that the file's place lies in.
    pub fn limit_of(&self, place: &Place, parent: &Place, body: &Bytes) -> Option<Which>
        requires { parent.now ≡ parent_of place.now }
        ensures { result ≡ limit_of self.now.nodes (record { place = place.now; standing = File body.now }) }
    {
        let size = body.len() as u64;
        if size > MOST_FILE_BYTES {
            return Some(Which::FileSize);
        }
        self.limit_of_size(place, parent, size)
    }

    /// The first limit that would be passed once a collection stands at a place: the number of nodes
    /// (65,536), or that of the nodes in one collection (4,096). The parent is the place that the
    /// collection's place lies in.
    pub fn limit_of_collection(&self, place: &Place, parent: &Place) -> Option<Which>
        requires { parent.now ≡ parent_of place.now }
        ensures { result ≡ limit_of self.now.nodes (record { place = place.now; standing = Collection }) }
    {
        self.limit_of_size(place, parent, 0)
    }

    /// The first limit that would be passed once something of so many bytes stands at a place.
    fn limit_of_size(&self, place: &Place, parent: &Place, size: u64) -> Option<Which>
        requires parent { parent.now ≡ parent_of place.now }
        requires small { size ≤ most_file_bytes }
        ensures { (standing : Standing) → size_of standing ≡ size → result ≡ limit_of self.now.nodes (record { place = place.now; standing = standing }) }
    {
        let older = self.table.node_at(place);
        let total = self.table.total_size() - size_at(older) + size;
        let more = growth(older);
        let count = self.table.len() as u64 + u64::from(more);
        let children = u64::from(self.table.child_count(parent) + more);
        first_passed(total, count, children)
    }

    /// Room for one more node.
    pub fn room(&mut self) -> Result<(), NoMemory>
        ensures nodes { self.new.nodes ≡ self.old.nodes }
        ensures origins { self.new.origins ≡ self.old.origins }
        ensures ok { OnOk result (0 < self.new.room) }
    {
        self.reserve(1)
    }

    /// Room for so many more nodes. Where most slots are empty, they are let go first.
    fn reserve(&mut self, more: usize) -> Result<(), NoMemory>
        ensures nodes { self.new.nodes ≡ self.old.nodes }
        ensures origins { self.new.origins ≡ self.old.origins }
        ensures ok { OnOk result (more ≤ self.new.room) }
    {
        self.tidy();
        self.table.reserve(more)?;
        self.numbers.reserve(more)?;
        self.tags.reserve(more)?;
        Ok(())
    }

    /// Lets the empty slots go where they are most of all. It takes no memory.
    fn tidy(&mut self)
        ensures nodes { self.new.nodes ≡ self.old.nodes }
        ensures origins { self.new.origins ≡ self.old.origins }
        ensures room { self.old.room ≤ self.new.room }
    {
        if self.table.is_sparse() {
            self.close_up();
        }
    }

    /// Lets the empty slots go. It takes no memory.
    fn close_up(&mut self)
        ensures nodes { self.new.nodes ≡ self.old.nodes }
        ensures origins { self.new.origins ≡ self.old.origins }
        ensures room { self.old.room ≤ self.new.room }
    {
        self.numbers.close_up(self.table.slots());
        drop_numbers(&mut self.tags, self.table.slots());
        self.table.close_up();
    }

    /// Lets a node stand that the entry of this number puts, in the place of what stood at its place or
    /// as one more. No number so far is later. It takes no memory.
    pub fn put(&mut self, planned: PlannedNode, number: u64)
        requires room { 0 < self.old.room }
        requires within { limit_of self.old.nodes planned ≡ None }
        requires newest { All (λ (origin : Origin). origin.number ≤ number) self.old.origins }
        ensures nodes { self.new.nodes ≡ with_node self.old.nodes planned }
        ensures origins { self.new.origins ≡ with_origin self.old.origins (record { place = planned.place; number = number }) }
        ensures room { self.old.room ≤ self.new.room + 1 }
    {
        match self.table.slot_of(planned.place()) {
            Some(index) => {
                self.numbers.replace(index, number);
                self.table.replace(index, planned.into_node());
            }
            None => {
                self.numbers.add(number);
                self.tags.push_reserved(tag_of(planned.parent()));
                self.table.add(planned);
            }
        }
    }

    /// Lets nothing stand any more at a place and below it. It takes no memory.
    pub fn remove(&mut self, place: &Place)
        ensures nodes { self.new.nodes ≡ nodes_after (Some (Gone place.now)) self.old.nodes }
        ensures origins { self.new.origins ≡ origins_after (Some (Gone place.now)) 0 self.old.origins }
        ensures room { self.old.room ≤ self.new.room }
    {
        self.table.remove(place);
    }

    /// What lies in the collection at a place, in byte order of the names.
    pub fn children(&self, place: &Place) -> Result<List<DavChild>, NoMemory>
        ensures { IfOk result (λ inside. (path : Segments) → map (item_in path) inside ≡ items_in self.now.nodes place.now path) }
    {
        children_of(
            self.table.allocator(),
            self.table.slots(),
            &self.tags,
            place,
        )
    }

    /// The first limit that would be passed by a copy or move of what stands at `from`, and of all
    /// below it, to `to`: the bytes of a file (1,048,576), those of all files (268,435,456), the number
    /// of nodes (65,536), that of the nodes in the collection of `to` (4,096), or the bytes of a path
    /// (2,048). The parent is the place that `to` lies in.
    pub fn limit_of_carry(
        &self,
        from: &Place,
        to: &Place,
        parent: &Place,
        moving: bool,
    ) -> Option<Which>
        requires { parent.now ≡ parent_of to.now }
        ensures { IfSome (node_at self.now.nodes from.now) (λ standing. result ≡ limit_of_carry self.now.nodes from.now to.now moving standing) }
    {
        if size_at(self.table.node_at(from)) > MOST_FILE_BYTES {
            return Some(Which::FileSize);
        }
        self.limit_after(from, to, parent, moving)
    }

    /// The first limit that is passed by the numbers of what stands after a copy or move, else the limit
    /// on the paths that it makes, where one passes it.
    fn limit_after(&self, from: &Place, to: &Place, parent: &Place, moving: bool) -> Option<Which>
        requires { parent.now ≡ parent_of to.now }
        ensures { result ≡ option_or (limit_after self.now.nodes from.now to.now moving) (path_limit (copies from.now to.now self.now.nodes)) }
    {
        let source = Branch::new(from);
        let target = Branch::new(to);
        let after = self.table.amounts_after(&source, &target, parent, moving);
        let numbers = first_passed(after.bytes, after.nodes, after.siblings);
        numbers.or(limit_of_paths(after.long))
    }

    /// Plans a copy or move of what stands at `from`, and of all below it, to `to`, by which no limit
    /// is passed: copies of all that it makes.
    pub fn plan_carry(
        &self,
        from: &Place,
        to: &Place,
        moving: bool,
    ) -> Result<PlannedCarry, NoMemory>
        requires within { IsSomeAnd (node_at self.now.nodes from.now) (λ standing. limit_of_carry self.now.nodes from.now to.now moving standing ≡ None) }
        ensures { IfOk result (λ planned. planned ≡ record { from = from.now; to = to.now; moving = moving; nodes = copies from.now to.now self.now.nodes }) }
    {
        let slots = self.table.slots_below(from);
        PlannedCarry::new(self.table.allocator(), from, to, moving, slots)
    }

    /// Room for all that a copy or move makes.
    pub fn room_for(&mut self, planned: &PlannedCarry) -> Result<(), NoMemory>
        ensures nodes { self.new.nodes ≡ self.old.nodes }
        ensures origins { self.new.origins ≡ self.old.origins }
        ensures ok { OnOk result (length planned.now.nodes ≤ self.new.room) }
    {
        self.reserve(planned.len())
    }

    /// Makes a copy or move that was planned of what stands now. A copy has the number of what it is a
    /// copy of. It takes no memory.
    pub fn carry(&mut self, planned: PlannedCarry)
        requires copies { planned.nodes ≡ copies planned.from planned.to self.old.nodes }
        requires within { IsSomeAnd (node_at self.old.nodes planned.from) (λ standing. limit_of_carry self.old.nodes planned.from planned.to planned.moving standing ≡ None) }
        requires room { length planned.nodes ≤ self.old.room }
        ensures nodes { self.new.nodes ≡ nodes_after (Some (Carried planned.from planned.to planned.moving)) self.old.nodes }
        ensures origins { self.new.origins ≡ origins_after (Some (Carried planned.from planned.to planned.moving)) 0 self.old.origins }
    {
        let (from, to, moving, nodes, mut numbers) = planned.into_parts();
        self.note_numbers(&from, &mut numbers);
        self.clear(&from, &to, moving);
        self.add_all(nodes, &numbers);
    }

    /// Writes down the numbers of what stands at and below a place. It takes no memory.
    fn note_numbers(&self, from: &Place, kept: &mut Vec<u64>)
        requires empty { kept.old.items ≡ [] }
        requires room { length (filter (λ (n : Node). is_at_or_above from.now n.place) self.now.nodes) ≤ vec_capacity kept.old }
        ensures same { length kept.new.items ≡ length (filter (λ (n : Node). is_at_or_above from.now n.place) self.now.nodes) }
        ensures origins { (to : Place) → origins_of (copies from.now to self.now.nodes) kept.new.items ≡ copied from.now to self.now.origins }
        ensures once { EachOnce self.now.nodes }
    {
        copy_numbers(
            kept,
            self.numbers.numbers(),
            self.table.slots(),
            &Branch::new(from),
            self.table.lone_slot(from),
        );
    }

    /// Lets nodes stand where nothing stands, by the entries of these numbers. It takes no memory.
    fn add_all(&mut self, nodes: Vec<PlannedNode>, numbers: &[u64])
        requires same { length nodes.items ≡ length numbers.now }
        requires room { length nodes.items ≤ self.old.room }
        requires once { EachOnce (self.old.nodes ++ nodes.items) }
        requires few { length (self.old.nodes ++ nodes.items) ≤ most_nodes }
        requires light { total_size (self.old.nodes ++ nodes.items) ≤ most_stored_bytes }
        ensures nodes { self.new.nodes ≡ self.old.nodes ++ nodes.items }
        ensures origins { self.new.origins ≡ self.old.origins ++ origins_of nodes.items numbers.now }
    {
        push_tags(&mut self.tags, &nodes);
        self.table.add_all(nodes);
        self.numbers.extend(numbers);
    }

    /// Lets only what stays stand at a copy or move.
    fn clear(&mut self, from: &Place, to: &Place, moving: bool)
        ensures nodes { self.new.nodes ≡ filter (stays from.now to.now moving) self.old.nodes }
        ensures origins { self.new.origins ≡ filter (origin_stays from.now to.now moving) self.old.origins }
        ensures room { self.old.room ≤ self.new.room }
    {
        if moving {
            self.remove(from);
        }
        self.remove(to);
    }

    /// What the entry of this number put, where it still stands once a later entry makes a change: the
    /// first node by it that stays where it stands, else the first that is copied. None where nothing
    /// stands by it then. The nodes by one entry are found together, so that to ask for all numbers
    /// passes all nodes once.
    pub fn standing_by(&self, number: u64, change: &FileChange<'_>) -> Option<&Standing>
        ensures { (later : ℕ) → later ≢ number → option_copied result
            ≡ body_from (nodes_after (act_of change.now) self.now.nodes) (origins_after (act_of change.now) later self.now.origins) number }
    {
        let slots = self.table.slots();
        let found = self.numbers.nodes_of(number);
        match first_standing(found, slots, Part::Left, change) {
            Some(standing) => Some(standing),
            None => first_standing(found, slots, Part::Copied, change),
        }
    }

    /// Whether at each place the same stands as in another tree. By which entries it came, and in which
    /// order, may differ.
    pub fn stands_as(&self, other: &Tree) -> bool
        ensures { result ≡ true → (place : Place) → node_at self.now.nodes place ≡ node_at other.now.nodes place }
    {
        stand_alike(&self.table, &other.table)
    }

    /// All nodes, in the order of their slots, some of which are empty since their nodes went. The files have at most 268,435,456 bytes.
    pub fn nodes(&self) -> &[Option<KeptNode>]
        ensures nodes { somes result.now ≡ self.now.nodes }
        ensures light { total_size self.now.nodes ≤ most_stored_bytes }
    {
        self.table.slots()
    }

    /// How many slots there are. Each node is in one of them.
    pub fn slot_count(&self) -> usize {
        self.table.slots().len()
    }

    /// The node in the slot of this index. None where the slot is empty, or there is none.
    pub fn node(&self, index: usize) -> Option<&Node>
        ensures { IfSome result (λ node. node_at self.now.nodes node.now.place ≡ Some node.now.standing) }
    {
        node_in(self.table.slots(), index)
    }
}
