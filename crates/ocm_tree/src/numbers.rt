ghost use Rattle.std.specs.Prelude.{◌≡◌, ◌≤◌, [], length, is_some, vec_capacity, IfSome};
ghost use Rattle.ocm_entry.specs.declared.rows.Node.{Node};
ghost use Rattle.ocm_rules.specs.Files.{is_at_or_above};
ghost use Rattle.ocm_tree.specs.Orders.{numbers_where};
ghost use Rattle.ocm_tree.specs.Tables.{slot_passes, IsLone};

use crate::branches::Branch;
use crate::kept::KeptNode;

/// Keeps the numbers of the slots that are not empty.
pub fn drop_numbers(numbers: &mut Vec<u64>, slots: &[Option<KeptNode>])
    requires { length slots.now ≡ length numbers.old.items }
    ensures numbers { numbers.new.items ≡ numbers_where is_some slots.now numbers.old.items }
    ensures capacity { vec_capacity numbers.new ≡ vec_capacity numbers.old }
{
    let mut kept = 0;
    for (index, slot) in slots.iter().enumerate() {
        if slot.is_some() {
            numbers[kept] = numbers[index];
            kept += 1;
        }
    }
    numbers.truncate(kept);
}

/// Whether the node of a slot lies at a place or below it.
fn lies_below(there: &Branch<'_>, slot: &Option<KeptNode>) -> bool
    ensures { result ≡ slot_passes (λ (n : Node). is_at_or_above there.now n.place) slot.now }
{
    match slot {
        Some(kept) => there.holds(kept),
        None => false,
    }
}

/// Writes down the numbers of the nodes at and below a place, by a look at one slot where the only node
/// there is known. It takes no memory.
pub fn copy_numbers(
    kept: &mut Vec<u64>,
    numbers: &[u64],
    slots: &[Option<KeptNode>],
    there: &Branch<'_>,
    lone: Option<usize>,
)
    requires same { length slots.now ≡ length numbers.now }
    requires empty { kept.old.items ≡ [] }
    requires room { length (numbers_where (slot_passes (λ (n : Node). is_at_or_above there.now n.place)) slots.now numbers.now) ≤ vec_capacity kept.old }
    requires lone { IfSome lone (IsLone slots.now there.now) }
    ensures { kept.new.items ≡ numbers_where (slot_passes (λ (n : Node). is_at_or_above there.now n.place)) slots.now numbers.now }
{
    match lone {
        Some(index) => kept.push_reserved(numbers[index]),
        None => copy_each(kept, numbers, slots, there),
    }
}

/// Writes down the numbers of the nodes at and below a place, by a walk over all slots. It takes no
/// memory.
fn copy_each(kept: &mut Vec<u64>, numbers: &[u64], slots: &[Option<KeptNode>], there: &Branch<'_>)
    requires same { length slots.now ≡ length numbers.now }
    requires empty { kept.old.items ≡ [] }
    requires room { length (numbers_where (slot_passes (λ (n : Node). is_at_or_above there.now n.place)) slots.now numbers.now) ≤ vec_capacity kept.old }
    ensures { kept.new.items ≡ numbers_where (slot_passes (λ (n : Node). is_at_or_above there.now n.place)) slots.now numbers.now }
{
    for (index, slot) in slots.iter().enumerate() {
        if lies_below(there, slot) {
            kept.push_reserved(numbers[index]);
        }
    }
}
