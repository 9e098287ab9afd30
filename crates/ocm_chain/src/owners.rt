ghost use Rattle.std.specs.Prelude.{◌≡◌, ◌<◌, ◌≤◌, ◌+◌, ◌++◌, ◌∷◌, [], length, IfOk, OnOk, unwrap_or, option_copied};
ghost use Rattle.ocm_limits.specs.Limits.{most_shares};
ghost use Rattle.ocm_chain.specs.Owners.{numbers_up};

use crate::steps::Steps;
use ocm_base::{List, NoMemory};
use std::alloc::Global;
use std::collections::HashMap;
use std::marker::Model;
use std::sync::ledger::Ledger;

/// A share's owner, and the number of the owner's share before it, 0 for none.
#[derive(Clone, Copy)]
pub struct OwnedLink {
    pub owner: u32,
    pub earlier: u32,
}

/// The owners of the shares, by number from 1 on.
pub struct OwnerIndex {
    links: Vec<OwnedLink>,
    /// The number of each owner's last share.
    last: HashMap<u32, u32>,
}

impl Drop for OwnerIndex {
    fn drop(self) {
        let OwnerIndex { links: _, last: _ } = self;
    }
}

impl Model for OwnerIndex {
    ghost use Rattle.std.specs.Prelude.{◌-◌, min, map, vec_len, vec_capacity};
    ghost use Rattle.std.specs.HashMap as hash;
    ghost use Rattle.ocm_chain.specs.Owners.{OwnerLists, IsOwnerIndex, owners_of};

    ghost Value = { OwnerLists };

    ghost view = { λ index. record { owners = owners_of index.links.items; room = min (vec_capacity index.links - vec_len index.links) (hash.spare index.last) } };

    ghost invariant = { λ index. IsOwnerIndex index.links.items index.last };
}

/// The number that is kept, and 0 where none is.
fn or_none(number: Option<&u32>) -> u32
    ensures { result ≡ unwrap_or (option_copied number.entry) 0 }
{
    match number {
        Some(number) => *number,
        None => 0,
    }
}

impl OwnerIndex {
    /// No shares.
    pub fn new(alloc: Global) -> OwnerIndex
        ensures { result.owners ≡ [] }
    {
        OwnerIndex {
            links: Vec::new(alloc),
            last: HashMap::new(alloc),
        }
    }

    /// The numbers of an owner's shares, ascending. It takes a step for each of them.
    pub fn owned<L: Ledger>(&self, owner: u32, steps: &mut Steps<L>) -> Result<List<u32>, NoMemory>
        ensures owned { IfOk result (λ list. list ≡ numbers_up self.now.owners owner (length self.now.owners)) }
        ensures cost { IfOk result (λ list. steps.new ≡ steps.old + length list) }
        ensures onward { steps.old ≤ steps.new }
    {
        let mut numbers = Vec::new(*self.links.allocator());
        let mut number = or_none(self.last.get(&owner));
        while number > 0 {
            steps.tick();
            numbers.push(number)?;
            number = self.links[number as usize - 1].earlier;
        }
        numbers.reverse();
        Ok(List::from_vec(numbers))
    }

    /// Room for one more share.
    pub fn room(&mut self) -> Result<(), NoMemory>
        ensures owners { self.new.owners ≡ self.old.owners }
        ensures ok { OnOk result (0 < self.new.room) }
        ensures room { self.old.room ≤ self.new.room }
    {
        self.links.reserve(1)?;
        self.last.reserve(1)?;
        Ok(())
    }

    /// Adds the owner of the next share.
    pub fn add(&mut self, owner: u32)
        requires room { 0 < self.old.room }
        requires few { length self.old.owners < most_shares }
        ensures owners { self.new.owners ≡ self.old.owners ++ owner ∷ [] }
        ensures room { self.old.room ≤ self.new.room + 1 }
    {
        let number = self.links.len() as u32 + 1;
        let earlier = or_none(self.last.get(&owner));
        let kept: Result<_, _> = self.last.insert(owner, number);
        let _before = kept.unwrap();
        self.links.push(OwnedLink { owner, earlier }).unwrap();
    }
}
