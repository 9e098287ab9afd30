ghost use Rattle.std.specs.Prelude.{◌≡◌, Some, None, option_copied};
ghost use Rattle.ocm_tree.specs.Changes.{act_of, passes};
ghost use Rattle.ocm_tree.specs.Standings.{least_among, passes_at, sooner, standing_of};
ghost use Rattle.ocm_tree.specs.Tables.{slot_passes};

use crate::changes::{FileChange, Part, passes};
use crate::kept::KeptNode;
use crate::orders::NumberedNode;
use ocm_entry::Standing;

/// Whether this becomes of the node of a slot by a change.
fn passes_in(slot: &Option<KeptNode>, part: Part, change: &FileChange<'_>) -> bool
    ensures { result ≡ slot_passes (passes part (act_of change.now)) slot.now }
{
    match slot {
        Some(kept) => passes(part, change, kept.node()),
        None => false,
    }
}

/// Whether this becomes of the node of the slot of this index by a change.
fn passes_at(slots: &[Option<KeptNode>], part: Part, change: &FileChange<'_>, index: usize) -> bool
    ensures { result ≡ passes_at (slot_passes (passes part (act_of change.now))) slots.now index }
{
    match slots.get(index) {
        Some(slot) => passes_in(slot, part, change),
        None => false,
    }
}

/// The lesser of two indexes, where there is a first.
fn sooner(first: Option<usize>, index: usize) -> Option<usize>
    ensures { result ≡ sooner first index }
{
    match first {
        Some(first) if first <= index => Some(first),
        Some(_) | None => Some(index),
    }
}

/// The least index of the found slots with a node of which this becomes by a change.
fn least_of(
    found: &[NumberedNode],
    slots: &[Option<KeptNode>],
    part: Part,
    change: &FileChange<'_>,
) -> Option<usize>
    ensures { result ≡ least_among (passes_at (slot_passes (passes part (act_of change.now))) slots.now) found.now None }
{
    let mut least = None;
    for node in found {
        if passes_at(slots, part, change, node.index) {
            least = sooner(least, node.index);
        }
    }
    least
}

/// What stands at the first of the nodes in the found slots, in the order of all, of which this
/// becomes by a change.
pub fn first_standing<'a>(
    found: &[NumberedNode],
    slots: &'a [Option<KeptNode>],
    part: Part,
    change: &FileChange<'_>,
) -> Option<&'a Standing>
    ensures { option_copied result ≡ standing_of slots.now (least_among (passes_at (slot_passes (passes part (act_of change.now))) slots.now) found.now None) }
{
    match least_of(found, slots, part, change) {
        Some(index) => standing_of(slots, index),
        None => None,
    }
}

/// What stands at the node of the slot of an index.
fn standing_of(slots: &[Option<KeptNode>], index: usize) -> Option<&Standing>
    ensures { option_copied result ≡ standing_of slots.now (Some index) }
{
    match slots.get(index) {
        Some(Some(kept)) => Some(kept.standing()),
        Some(None) | None => None,
    }
}
