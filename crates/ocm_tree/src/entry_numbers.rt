ghost use Rattle.std.specs.Prelude.{◌≡◌, ◌≤◌, ◌<◌, ◌+◌, ◌++◌, ◌∷◌, [], ℕ, OnOk, length, nat_eq, is_some, slice_set, vec_len, vec_capacity};
ghost use Rattle.std.specs.List.{list_any};
ghost use Rattle.ocm_tree.specs.declared.orders.NumberedNode.{NumberedNode};
ghost use Rattle.ocm_tree.specs.Orders.{is_node, numbered, numbers_where};

use crate::kept::KeptNode;
use crate::numbers::drop_numbers;
use crate::orders::{NumberedNode, nodes_of, place_of, put_in_order, put_in_place};
use ocm_base::NoMemory;
use std::alloc::Global;
use std::marker::Model;

/// How many numbers at most are each put at their place, where the rest makes way, before it is faster to
/// sort all.
const FEW: usize = 32;

/// For each slot the number of the kept entry that put what stands there, or what stood there where the
/// slot is empty, and the slots in the order of these numbers. Contracts see the numbers in the order of
/// the slots, and for how many more there is room without memory.
pub struct EntryNumbers {
    numbers: Vec<u64>,
    /// Each slot once, in the order of the numbers.
    order: Vec<NumberedNode>,
}

impl Drop for EntryNumbers {
    fn drop(self) {
        let EntryNumbers {
            numbers: _,
            order: _,
        } = self;
    }
}

impl Model for EntryNumbers {
    ghost use Rattle.std.specs.Prelude.{◌-◌, min, vec_len, vec_capacity};
    ghost use Rattle.ocm_tree.specs.Orders.{NumberLists, IsInOrder};

    ghost Value = { NumberLists };

    ghost view = { λ t. record { numbers = t.numbers.items; room = min (vec_capacity t.numbers - vec_len t.numbers) (vec_capacity t.order - vec_len t.order) } };

    ghost invariant = { λ t. IsInOrder t.numbers.items t.order.items };
}

impl EntryNumbers {
    /// No numbers of no slots.
    pub fn new(alloc: Global) -> EntryNumbers
        ensures { result.numbers ≡ [] }
    {
        EntryNumbers {
            numbers: Vec::new(alloc),
            order: Vec::new(alloc),
        }
    }

    /// The numbers in the order of the slots.
    pub fn numbers(&self) -> &[u64]
        ensures { result.now ≡ self.now.numbers }
    {
        &self.numbers
    }

    /// The slots with this number.
    pub fn nodes_of(&self, number: u64) -> &[NumberedNode]
        ensures { (index : ℕ) → list_any (λ (node : NumberedNode). nat_eq node.index index) result.now ≡ list_any (is_node number index) (numbered 0 self.now.numbers) }
    {
        nodes_of(&self.order, number)
    }

    /// Room for so many more numbers.
    pub fn reserve(&mut self, more: usize) -> Result<(), NoMemory>
        ensures numbers { self.new.numbers ≡ self.old.numbers }
        ensures ok { OnOk result (more ≤ self.new.room) }
    {
        self.numbers.reserve(more)?;
        self.order.reserve(more)?;
        Ok(())
    }

    /// Gives one more slot this number. It takes no memory.
    pub fn add(&mut self, number: u64)
        requires { 0 < self.old.room }
        ensures numbers { self.new.numbers ≡ self.old.numbers ++ number ∷ [] }
        ensures room { self.old.room ≤ self.new.room + 1 }
    {
        let index = self.numbers.len();
        put_in_place(&mut self.order, NumberedNode { number, index });
        self.numbers.push_reserved(number);
    }

    /// Gives a slot another number. It takes no memory.
    pub fn replace(&mut self, index: usize, number: u64)
        requires { index < length self.old.numbers }
        ensures numbers { self.new.numbers ≡ slice_set self.old.numbers index number }
        ensures room { self.old.room ≤ self.new.room + 1 }
    {
        let older = self.numbers[index];
        let place = place_of(&self.order, older, index);
        let _gone = self.order.remove(place);
        put_in_place(&mut self.order, NumberedNode { number, index });
        self.numbers[index] = number;
    }

    /// Keeps the numbers of the slots that are not empty, in the order of these. It takes no memory.
    pub fn close_up(&mut self, slots: &[Option<KeptNode>])
        requires { length slots.now ≡ length self.old.numbers }
        ensures numbers { self.new.numbers ≡ numbers_where is_some slots.now self.old.numbers }
        ensures room { self.old.room ≤ self.new.room }
    {
        drop_numbers(&mut self.numbers, slots);
        put_in_order(&self.numbers, &mut self.order);
    }

    /// Gives so many more slots these numbers. It takes no memory.
    pub fn extend(&mut self, more: &[u64])
        requires { length more.now ≤ self.old.room }
        ensures { self.new.numbers ≡ self.old.numbers ++ more.now }
    {
        if more.len() <= FEW {
            self.add_each(more);
        } else {
            self.add_all(more);
        }
    }

    /// Gives so many more slots these numbers, each put at its place.
    fn add_each(&mut self, more: &[u64])
        requires { length more.now ≤ self.old.room }
        ensures { self.new.numbers ≡ self.old.numbers ++ more.now }
    {
        for number in more {
            self.add(*number);
        }
    }

    /// Gives so many more slots these numbers, and sorts all.
    fn add_all(&mut self, more: &[u64])
        requires { length more.now ≤ self.old.room }
        ensures { self.new.numbers ≡ self.old.numbers ++ more.now }
    {
        push_all(&mut self.numbers, more);
        put_in_order(&self.numbers, &mut self.order);
    }
}

/// Adds numbers behind others. It takes no memory.
fn push_all(numbers: &mut Vec<u64>, more: &[u64])
    requires room { length more.now + vec_len numbers.old ≤ vec_capacity numbers.old }
    ensures numbers { numbers.new.items ≡ numbers.old.items ++ more.now }
{
    numbers.extend_from_slice(more).unwrap();
}
