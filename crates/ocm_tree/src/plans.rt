ghost use Rattle.std.specs.Prelude.{◌≡◌, ◌<◌, ◌≤◌, ◌+◌, IfOk, Some, if◌then◌else◌};
ghost use Rattle.std.specs.HashMap as hash;
ghost use Rattle.std.specs.HashMap.{spare};
ghost use Rattle.ocm_entry.specs.declared.rows.Place.{Place};
ghost use Rattle.ocm_rules.specs.Files.{parent_of, same_place};

use crate::kept::KeptNode;
use ocm_base::NoMemory;
use ocm_entry::{Place, Standing};
use std::collections::HashMap;
use std::marker::Model;

/// A node that is about to stand, with all that a tree needs to take it without memory. Contracts
/// see the node.
pub struct PlannedNode {
    kept: KeptNode,
    key: Place,
    parent: Place,
}

impl Drop for PlannedNode {
    fn drop(self) {
        let PlannedNode {
            kept: _,
            key: _,
            parent: _,
        } = self;
    }
}

impl Model for PlannedNode {
    ghost use Rattle.std.specs.Prelude.{◌≡◌};
    ghost use Rattle.ocm_entry.specs.declared.rows.Node.{Node};
    ghost use Rattle.ocm_rules.specs.Files.{parent_of};

    ghost Value = { Node };

    ghost view = { λ p. p.kept };

    ghost invariant = { λ p. (p.key ≡ p.kept.place) × (p.parent ≡ parent_of p.kept.place) };
}

impl PlannedNode {
    /// A node at a place, given with the place that it lies in. What stands there is taken as it is:
    /// the bytes of a file are not copied.
    pub fn new(place: Place, parent: Place, standing: Standing) -> Result<PlannedNode, NoMemory>
        requires { parent ≡ parent_of place }
        ensures { IfOk result (λ planned. planned ≡ record { place = place; standing = standing }) }
    {
        let kept = KeptNode::new(place, parent, standing);
        let key = kept.place().copy()?;
        let parent = kept.parent().copy()?;
        Ok(PlannedNode { kept, key, parent })
    }

    /// Where the node is to stand.
    pub fn place(&self) -> &Place
        ensures { result.now ≡ self.now.place }
    {
        self.kept.place()
    }

    /// What is to stand there.
    pub fn standing(&self) -> &Standing
        ensures { result.now ≡ self.now.standing }
    {
        self.kept.standing()
    }

    /// The place that the node is to lie in.
    pub(crate) fn parent(&self) -> &Place
        ensures { result.now ≡ parent_of self.now.place }
    {
        &self.parent
    }

    /// The node alone.
    pub(crate) fn into_node(self) -> KeptNode
        ensures { result ≡ self }
    {
        let PlannedNode {
            kept,
            key: _,
            parent: _,
        } = self;
        kept
    }

    /// The node, once its place has this number in one index, and the place that it lies in this count in
    /// another. It takes no memory.
    pub(crate) fn into_slot(
        self,
        places: &mut HashMap<Place, usize>,
        index: usize,
        children: &mut HashMap<Place, u32>,
        count: u32,
    ) -> KeptNode
        requires places { 0 < spare places.old }
        requires children { 0 < spare children.old }
        ensures node { result ≡ self }
        ensures places { (place : Place) → hash.get same_place places.new place ≡ (if same_place self.place place then Some index else hash.get same_place places.old place) }
        ensures children { (place : Place) → hash.get same_place children.new place ≡ (if same_place (parent_of self.place) place then Some count else hash.get same_place children.old place) }
        ensures spare_places { spare places.old ≤ spare places.new + 1 }
        ensures spare_children { spare children.old ≤ spare children.new + 1 }
    {
        let PlannedNode { kept, key, parent } = self;
        let placed: Result<_, _> = places.insert(key, index);
        let _before = placed.unwrap();
        let counted: Result<_, _> = children.insert(parent, count);
        let _count = counted.unwrap();
        kept
    }
}
