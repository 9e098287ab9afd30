ghost use Rattle.std.specs.Prelude.{◌≡◌};
ghost use Rattle.ocm_rules.specs.Files.{parent_of};
ghost use Rattle.ocm_tree.specs.Trails.{place_trail};

use crate::trails::trail_of;
use ocm_entry::{Node, Place, Standing};
use std::marker::Model;

/// A node that stands, with the place that it lies in, which is looked up, without memory, when the
/// node goes, and with the trail of its own place. Contracts see the node.
pub struct KeptNode {
    node: Node,
    parent: Place,
    trail: u64,
}

impl Drop for KeptNode {
    fn drop(self) {
        let KeptNode {
            node: _,
            parent: _,
            trail: _,
        } = self;
    }
}

impl Model for KeptNode {
    ghost use Rattle.std.specs.Prelude.{◌≡◌};
    ghost use Rattle.ocm_entry.specs.declared.rows.Node.{Node};
    ghost use Rattle.ocm_rules.specs.Files.{parent_of};
    ghost use Rattle.ocm_tree.specs.Trails.{place_trail};

    ghost Value = { Node };

    ghost view = { λ k. k.node };

    ghost invariant = { λ k. (k.parent ≡ parent_of k.node.place) × (k.trail ≡ place_trail k.node.place) };
}

impl KeptNode {
    /// A node at a place, given with the place that it lies in.
    pub fn new(place: Place, parent: Place, standing: Standing) -> KeptNode
        requires { parent ≡ parent_of place }
        ensures { result ≡ record { place = place; standing = standing } }
    {
        let trail = trail_of(place.user, place.path.segments(), 0);
        let node = Node { place, standing };
        KeptNode {
            node,
            parent,
            trail,
        }
    }

    /// The node.
    pub fn node(&self) -> &Node
        ensures { result.now ≡ self.now }
    {
        &self.node
    }

    /// The place of the node.
    pub fn place(&self) -> &Place
        ensures { result.now ≡ self.now.place }
    {
        &self.node.place
    }

    /// What stands there.
    pub fn standing(&self) -> &Standing
        ensures { result.now ≡ self.now.standing }
    {
        &self.node.standing
    }

    /// The trail of the place of the node.
    pub fn trail(&self) -> u64
        ensures { result ≡ place_trail self.now.place }
    {
        self.trail
    }

    /// The place that the node lies in.
    pub fn parent(&self) -> &Place
        ensures { result.now ≡ parent_of self.now.place }
    {
        &self.parent
    }
}
