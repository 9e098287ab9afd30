ghost use Rattle.std.specs.Prelude.{◌≡◌, ◌≤◌, [], length, false, vec_capacity, IfOk};
ghost use Rattle.std.specs.List.{list_any};
ghost use Rattle.ocm_rules.specs.Files.{copies, is_too_long};
ghost use Rattle.ocm_tree.specs.Tables.{somes};
ghost use Rattle.ocm_tree.specs.Carries.{carried, makes_long_path};

use crate::branches::Branch;
use crate::kept::KeptNode;
use crate::plans::PlannedNode;
use ocm_base::NoMemory;
use ocm_entry::Place;
use std::alloc::Global;
use std::marker::Model;

/// A copy or move that is about to be made, with copies of all that it makes. Contracts see where from
/// and to, whether it moves, and the nodes that it makes.
pub struct PlannedCarry {
    from: Place,
    to: Place,
    moving: bool,
    nodes: Vec<PlannedNode>,
    /// No numbers yet, with room for one of each node.
    numbers: Vec<u64>,
}

impl Drop for PlannedCarry {
    fn drop(self) {
        let PlannedCarry {
            from: _,
            to: _,
            moving: _,
            nodes: _,
            numbers: _,
        } = self;
    }
}

impl Model for PlannedCarry {
    ghost use Rattle.std.specs.Prelude.{◌≡◌, ◌≤◌, [], length, vec_capacity};
    ghost use Rattle.ocm_tree.specs.Carries.{CarryLists};

    ghost Value = { CarryLists };

    ghost view = { λ c. record { from = c.from; to = c.to; moving = c.moving; nodes = c.nodes.items } };

    ghost invariant = { λ c. (c.numbers.items ≡ []) × (length c.nodes.items ≤ vec_capacity c.numbers) };
}

impl PlannedCarry {
    /// A copy or move of the nodes at and below `from`, which are among these.
    pub(crate) fn new(
        alloc: Global,
        from: &Place,
        to: &Place,
        moving: bool,
        slots: &[Option<KeptNode>],
    ) -> Result<PlannedCarry, NoMemory>
        requires within { list_any (makes_long_path from.now to.now) (somes slots.now) ≡ false }
        ensures { IfOk result (λ planned. planned ≡ record { from = from.now; to = to.now; moving = moving; nodes = copies from.now to.now (somes slots.now) }) }
    {
        let from = from.copy()?;
        let to = to.copy()?;
        let nodes = plan_copies(alloc, &from, &to, slots)?;
        let numbers = Vec::with_capacity(alloc, nodes.len())?;
        Ok(PlannedCarry {
            from,
            to,
            moving,
            nodes,
            numbers,
        })
    }

    /// From where it copies or moves.
    pub fn from(&self) -> &Place
        ensures { result.now ≡ self.now.from }
    {
        &self.from
    }

    /// To where it copies or moves.
    pub fn to(&self) -> &Place
        ensures { result.now ≡ self.now.to }
    {
        &self.to
    }

    /// Whether it moves.
    pub fn is_moving(&self) -> bool
        ensures { result ≡ self.now.moving }
    {
        self.moving
    }

    /// How many nodes it makes.
    pub(crate) fn len(&self) -> usize
        ensures { result ≡ length self.now.nodes }
    {
        self.nodes.len()
    }

    /// Where from and to, whether it moves, the nodes that it makes, and a list with room for a number
    /// of each.
    pub(crate) fn into_parts(self) -> (Place, Place, bool, Vec<PlannedNode>, Vec<u64>)
        ensures from { result.0 ≡ self.from }
        ensures to { result.1 ≡ self.to }
        ensures moving { result.2 ≡ self.moving }
        ensures nodes { result.3.items ≡ self.nodes }
        ensures empty { result.4.items ≡ [] }
        ensures room { length self.nodes ≤ vec_capacity result.4 }
    {
        let PlannedCarry {
            from,
            to,
            moving,
            nodes,
            numbers,
        } = self;
        (from, to, moving, nodes, numbers)
    }
}

/// A copy of a node, as it stands once carried.
fn plan_copy(from: &Place, to: &Place, node: &KeptNode) -> Result<PlannedNode, NoMemory>
    requires within { is_too_long (carried from.now to.now node.now) ≡ false }
    ensures { IfOk result (λ planned. planned ≡ carried from.now to.now node.now) }
{
    let path = node.place().path.moved(&from.path, &to.path)?;
    let parent = Place {
        user: to.user,
        path: path.parent()?,
    };
    let place = Place {
        user: to.user,
        path,
    };
    PlannedNode::new(place, parent, node.standing().copy()?)
}

/// Copies of the nodes at and below `from`, as they stand once carried.
fn plan_copies(
    alloc: Global,
    from: &Place,
    to: &Place,
    slots: &[Option<KeptNode>],
) -> Result<Vec<PlannedNode>, NoMemory>
    requires within { list_any (makes_long_path from.now to.now) (somes slots.now) ≡ false }
    ensures { IfOk result (λ planned. planned.items ≡ copies from.now to.now (somes slots.now)) }
{
    let branch = Branch::new(from);
    let mut planned = Vec::new(alloc);
    for slot in slots {
        if let Some(kept) = slot {
            if branch.holds(kept) {
                planned.push(plan_copy(from, to, kept)?)?;
            }
        }
    }
    Ok(planned)
}
