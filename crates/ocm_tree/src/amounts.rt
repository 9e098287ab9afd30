ghost use Rattle.std.specs.Prelude.{◌≡◌, ◌≤◌, ◌||◌, Some, None, sum_by, if◌then◌else◌};
ghost use Rattle.std.specs.List.{list_any};
ghost use Rattle.ocm_rules.specs.Files.{same_place, parent_of, moved, stays};
ghost use Rattle.ocm_types.specs.declared.phases.Which.TheVariants.{PathLength};
ghost use Rattle.ocm_tree.specs.declared.amounts.Amount.{Amount};
ghost use Rattle.ocm_tree.specs.declared.amounts.Amount.TheVariants.{Bytes};
ghost use Rattle.ocm_tree.specs.Carries.{amount_of, amount_in, weight_in, AreAmounts, IsLoneCarry, makes_long_path, makes_long};

use crate::branches::Branch;
use crate::kept::KeptNode;
use crate::limits::size_of;
use crate::moving::joined_len;
use ocm_entry::Place;
use ocm_limits::MOST_PATH_BYTES;
use ocm_types::Which;

/// What is counted of the nodes after a copy or move.
pub enum Amount {
    /// The bytes of all files.
    Bytes,
    /// All nodes.
    Nodes,
    /// The nodes in the collection in which the copy lies.
    Siblings,
}

/// All amounts.
#[derive(Clone, Copy)]
pub struct Amounts {
    pub bytes: u64,
    pub nodes: u64,
    pub siblings: u64,
    /// Whether a copy has a path that is too long.
    pub long: bool,
}

/// Whether a node stays where it stands at a copy or move.
fn is_left(from: &Branch<'_>, to: &Branch<'_>, moving: bool, kept: &KeptNode) -> bool
    ensures { result ≡ stays from.now to.now moving kept.now }
{
    !to.holds(kept) && !(moving && from.holds(kept))
}

/// Whether the copy of a node lies in the collection in which the copy of all lies.
fn is_copied_beside(from: &Place, to: &Place, place: &Place) -> bool
    ensures { result ≡ same_place (parent_of (moved from.now to.now place.now)) (parent_of to.now) }
{
    let depth = place.path.segments().len();
    let rest = depth.saturating_sub(from.path.segments().len());
    rest == 0 || rest == 1 && to.path.is_root()
}

/// What a node adds to the amounts after a copy or move: what it is worth where it stays, and what it
/// is worth where it is copied to.
fn amounts_of(from: &Branch<'_>, to: &Branch<'_>, moving: bool, kept: &KeptNode) -> Amounts
    requires { amount_of Bytes from.now to.now moving kept.now ≤ 4294967296 }
    ensures amounts { AreAmounts result (λ what. amount_of what from.now to.now moving kept.now) }
    ensures long { result.long ≡ makes_long_path from.now to.now kept.now }
{
    let stayed = is_left(from, to, moving, kept);
    let copied = from.holds(kept);
    let beside = stayed && to.is_beside(kept);
    let copied_beside = copied && is_copied_beside(from.place(), to.place(), kept.place());
    let size = size_of(kept.standing());
    Amounts {
        bytes: times(stayed, size) + times(copied, size),
        nodes: u64::from(stayed) + u64::from(copied),
        siblings: u64::from(beside) + u64::from(copied_beside),
        long: makes_long_path(from, to, kept),
    }
}

/// A number, or none of it.
fn times(counts: bool, number: u64) -> u64
    ensures { result ≡ (if counts then number else 0) }
{
    if counts { number } else { 0 }
}

/// What the node of a slot adds to the amounts after a copy or move.
fn amounts_in(from: &Branch<'_>, to: &Branch<'_>, moving: bool, slot: &Option<KeptNode>) -> Amounts
    requires { amount_in Bytes from.now to.now moving slot.now ≤ 4294967296 }
    ensures amounts { AreAmounts result (λ what. amount_in what from.now to.now moving slot.now) }
    ensures long { result.long ≡ makes_long from.now to.now slot.now }
{
    match slot {
        Some(kept) => amounts_of(from, to, moving, kept),
        None => Amounts {
            bytes: 0,
            nodes: 0,
            siblings: 0,
            long: false,
        },
    }
}

/// What the node of a slot adds to the amounts as it stands.
fn weights_in(to: &Branch<'_>, slot: &Option<KeptNode>) -> Amounts
    ensures { AreAmounts result (λ what. weight_in what to.now slot.now) }
{
    match slot {
        Some(kept) => Amounts {
            bytes: size_of(kept.standing()),
            nodes: 1,
            siblings: u64::from(to.is_beside(kept)),
            long: false,
        },
        None => Amounts {
            bytes: 0,
            nodes: 0,
            siblings: 0,
            long: false,
        },
    }
}

/// The amounts of the nodes after a copy or move of one node, given with the amounts of the nodes as
/// they stand.
pub fn amounts_by_one(
    all: Amounts,
    from: &Branch<'_>,
    to: &Branch<'_>,
    moving: bool,
    slots: &[Option<KeptNode>],
    index: usize,
) -> Amounts
    requires lone { IsLoneCarry slots.now from.now to.now index all }
    requires few { (what : Amount) → sum_by (amount_in what from.now to.now moving) slots.now ≤ 4294967296 }
    ensures amounts { AreAmounts result (λ what. sum_by (amount_in what from.now to.now moving) slots.now) }
    ensures long { result.long ≡ list_any (makes_long from.now to.now) slots.now }
{
    let older = weights_in(to, &slots[index]);
    let newer = amounts_in(from, to, moving, &slots[index]);
    Amounts {
        bytes: all.bytes - older.bytes + newer.bytes,
        nodes: all.nodes - older.nodes + newer.nodes,
        siblings: all.siblings - older.siblings + newer.siblings,
        long: newer.long,
    }
}

/// The amounts of the nodes after a copy or move, in one pass.
pub fn amounts_after(
    from: &Branch<'_>,
    to: &Branch<'_>,
    moving: bool,
    slots: &[Option<KeptNode>],
) -> Amounts
    requires { (what : Amount) → sum_by (amount_in what from.now to.now moving) slots.now ≤ 4294967296 }
    ensures amounts { AreAmounts result (λ what. sum_by (amount_in what from.now to.now moving) slots.now) }
    ensures long { result.long ≡ list_any (makes_long from.now to.now) slots.now }
{
    let mut bytes = 0;
    let mut nodes = 0;
    let mut siblings = 0;
    let mut long = false;
    for slot in slots {
        let more = amounts_in(from, to, moving, slot);
        bytes += more.bytes;
        nodes += more.nodes;
        siblings += more.siblings;
        long = is_either(long, more.long);
    }
    Amounts {
        bytes,
        nodes,
        siblings,
        long,
    }
}

/// Whether a node is copied to a path that is too long.
fn makes_long_path(from: &Branch<'_>, to: &Branch<'_>, kept: &KeptNode) -> bool
    ensures { result ≡ makes_long_path from.now to.now kept.now }
{
    from.holds(kept)
        && joined_len(&to.place().path) + joined_len(&kept.place().path)
            > MOST_PATH_BYTES + joined_len(&from.place().path)
}

/// Whether one of two tests passes.
fn is_either(first: bool, second: bool) -> bool
    ensures { result ≡ (first || second) }
{
    first || second
}

/// The limit on the bytes of a path, where a path is too long.
pub fn limit_of_paths(long: bool) -> Option<Which>
    ensures { result ≡ (if long then Some PathLength else None) }
{
    if long { Some(Which::PathLength) } else { None }
}
