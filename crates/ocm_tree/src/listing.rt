ghost use Rattle.std.specs.Prelude.{◌≡◌, ◌++◌, ◌∷◌, [], length, map, filter, true, false, IfOk, OnOk};
ghost use Rattle.std.specs.Ordering.{nat_cmp};
ghost use Rattle.std.specs.Cmp.Lexicographic.{slice_cmp};
ghost use Rattle.ocm_rules.specs.Files.{same_place, parent_of, children};
ghost use Rattle.ocm_rules.specs.Answers.{item_size};
ghost use Rattle.ocm_tree.specs.Tables.{somes};
ghost use Rattle.ocm_tree.specs.Standings.{numbers_in};
ghost use Rattle.ocm_tree.specs.Tags.{parent_tag};
ghost use Rattle.ocm_tree.specs.Listing.{child_of, name_of, in_order_of_names, lies_in, listed};

use crate::kept::KeptNode;
use crate::places::is_parent;
use crate::tags::tag_of;
use ocm_base::{List, NoMemory};
use ocm_entry::{DavChild, Node, Place, Standing};
use std::alloc::Global;
use std::cmp::Ordering;

/// The bytes of a file; a collection has none.
fn item_size(standing: &Standing) -> Option<u64>
    ensures { result ≡ item_size standing.now }
{
    match standing {
        Standing::Collection => None,
        Standing::File { body } => Some(body.len() as u64),
    }
}

/// A node as it is told of in the collection that it lies in.
fn child_of(node: &Node) -> Result<DavChild, NoMemory>
    ensures { IfOk result (λ child. child ≡ child_of node.now) }
{
    let size = item_size(&node.standing);
    match node.place.path.last() {
        Some(name) => Ok(DavChild {
            name: Some(name.copy()?),
            size,
        }),
        None => Ok(DavChild { name: None, size }),
    }
}

/// The name of a child, and none at a root.
fn name_of(child: &DavChild) -> &str
    ensures { result.now ≡ name_of child.now }
{
    match &child.name {
        Some(name) => name.as_str(),
        None => "",
    }
}

/// How two names compare, byte by byte: names are short, and most of them differ early.
fn compared(name: &str, other: &str) -> Ordering
    ensures { result ≡ slice_cmp nat_cmp name.now other.now }
{
    name.as_bytes().iter().cmp(other.as_bytes().iter())
}

/// How the names of two children compare.
fn by_name(child: &DavChild, other: &DavChild) -> Ordering
    ensures { result ≡ slice_cmp nat_cmp (name_of child.now) (name_of other.now) }
{
    compared(name_of(child), name_of(other))
}

/// Sorts children by their names.
fn sort_by_name(children: &mut Vec<DavChild>) -> Result<(), NoMemory>
    ensures { OnOk result (children.new.items ≡ in_order_of_names children.old.items) }
{
    children.sort_by(|child, other| by_name(child, other))?;
    Ok(())
}

/// Adds what a node in a collection is told as.
fn push_node(found: &mut Vec<DavChild>, node: &Node) -> Result<(), NoMemory>
    ensures { OnOk result (found.new.items ≡ found.old.items ++ child_of node.now ∷ []) }
{
    let child = child_of(node)?;
    found.push(child)?;
    Ok(())
}

/// Adds what the node of a slot is told as, where it lies in a collection.
fn push_child(
    found: &mut Vec<DavChild>,
    slot: &Option<KeptNode>,
    place: &Place,
) -> Result<(), NoMemory>
    ensures { OnOk result (found.new.items ≡ found.old.items ++ listed child_of (lies_in place.now) slot.now) }
{
    if let Some(kept) = slot {
        if is_parent(place, kept.place()) {
            return push_node(found, kept.node());
        }
    }
    Ok(())
}

/// Adds what the node of a slot is told as, where it lies in a collection, as it may where a test
/// passes.
fn push_where(
    test: bool,
    found: &mut Vec<DavChild>,
    slot: &Option<KeptNode>,
    place: &Place,
) -> Result<(), NoMemory>
    requires { test ≡ false → listed child_of (lies_in place.now) slot.now ≡ [] }
    ensures { OnOk result (found.new.items ≡ found.old.items ++ listed child_of (lies_in place.now) slot.now) }
{
    if test {
        push_child(found, slot, place)
    } else {
        Ok(())
    }
}

/// What lies in a collection, in the order of the nodes. Only the nodes are looked at that have the
/// tag of the collection.
fn unsorted_children(
    alloc: Global,
    slots: &[Option<KeptNode>],
    tags: &[u64],
    place: &Place,
) -> Result<Vec<DavChild>, NoMemory>
    requires same { length slots.now ≡ length tags.now }
    requires tagged { numbers_in slots.now tags.now ≡ map parent_tag (somes slots.now) }
    ensures { IfOk result (λ found. found.items ≡ map child_of (filter (lies_in place.now) (somes slots.now))) }
{
    let wanted = tag_of(place);
    let mut found = Vec::new(alloc);
    for (index, tag) in tags.iter().enumerate() {
        push_where(*tag == wanted, &mut found, &slots[index], place)?;
    }
    Ok(found)
}

/// What lies in a collection, in byte order of the names.
pub fn children_of(
    alloc: Global,
    slots: &[Option<KeptNode>],
    tags: &[u64],
    place: &Place,
) -> Result<List<DavChild>, NoMemory>
    requires same { length slots.now ≡ length tags.now }
    requires tagged { numbers_in slots.now tags.now ≡ map parent_tag (somes slots.now) }
    ensures { IfOk result (λ found. found ≡ map child_of (children (somes slots.now) place.now)) }
{
    let mut found = unsorted_children(alloc, slots, tags, place)?;
    sort_by_name(&mut found)?;
    Ok(List::from_vec(found))
}
