//! Whether the same stands in two trees.
ghost use Rattle.std.specs.Prelude.{◌≡◌, true, Some, IfSome, option_copied};
ghost use Rattle.std.specs.List.{list_all};
ghost use Rattle.ocm_entry.specs.declared.rows.Place.{Place};
ghost use Rattle.ocm_rules.specs.State.{EachOnce, node_at};
ghost use Rattle.ocm_tree.specs.Comparing.{is_same, stands_among};
ghost use Rattle.ocm_tree.specs.Tables.{somes};

use crate::kept::KeptNode;
use crate::nodes::NodeTable;
use ocm_entry::{Node, Standing};

/// Whether this stands where that may stand.
fn is_same(standing: &Standing, other: Option<&Standing>) -> bool
    ensures { result ≡ is_same standing.now (option_copied other.entry) }
{
    match (standing, other) {
        (Standing::Collection, Some(Standing::Collection)) => true,
        (Standing::File { body }, Some(Standing::File { body: other })) => *body == *other,
        _ => false,
    }
}

/// Whether the node of a slot stands in another table too.
fn stands_in(slot: &Option<KeptNode>, other: &NodeTable) -> bool
    ensures { result ≡ stands_among (somes other.now.slots) slot.now }
{
    match slot {
        Some(kept) => is_same(kept.standing(), other.node_at(kept.place())),
        None => true,
    }
}

/// Whether all nodes of slots stand in another table too.
fn all_stand_in(slots: &[Option<KeptNode>], other: &NodeTable) -> bool
    ensures { result ≡ list_all (stands_among (somes other.now.slots)) slots.now }
{
    slots.iter().all(|slot| stands_in(slot, other))
}

/// Whether at each place the same stands in two tables. Where as many nodes stand in both, and those of
/// one stand in the other, no other node stands there.
pub fn stand_alike(table: &NodeTable, other: &NodeTable) -> bool
    ensures { result ≡ true → (place : Place) → node_at (somes table.now.slots) place ≡ node_at (somes other.now.slots) place }
{
    let _others = other.slots();
    table.len() == other.len() && all_stand_in(table.slots(), other)
}

/// The node in the slot of this index. None where the slot is empty, or there is none.
pub fn node_in(slots: &[Option<KeptNode>], index: usize) -> Option<&Node>
    requires { EachOnce (somes slots.now) }
    ensures { IfSome result (λ node. node_at (somes slots.now) node.now.place ≡ Some node.now.standing) }
{
    if index >= slots.len() {
        return None;
    }
    match &slots[index] {
        Some(kept) => Some(kept.node()),
        None => None,
    }
}
