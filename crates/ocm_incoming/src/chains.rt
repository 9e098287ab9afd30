ghost use Rattle.std.specs.Prelude.{◌≡◌, ◌<◌, ◌≤◌, ◌+◌, ◌-◌, ◌++◌, ◌∷◌, [], length, slice_index, IfOk, OnOk};
ghost use Rattle.ocm_limits.specs.Limits.{most_records};
ghost use Rattle.ocm_incoming.specs.Groups.{members, kept_for, IsLastOf};

use ocm_base::{List, NoMemory};
use std::alloc::Global;
use std::collections::HashMap;
use std::marker::Model;

/// Members in order, numbered from 1, each of which belongs to a group that has a number. The members
/// of a group are found without a look at the others: each knows the one before it in its group.
pub struct Chain {
    groups: Vec<u32>,
    /// The number of the member before in the same group, or 0.
    earlier: Vec<u32>,
    /// The number of the last member of a group.
    last: HashMap<u32, u32>,
}

impl Drop for Chain {
    fn drop(self) {
        let Chain {
            groups: _,
            earlier: _,
            last: _,
        } = self;
    }
}

impl Model for Chain {
    ghost use Rattle.std.specs.Prelude.{◌-◌, min, vec_len, vec_capacity};
    ghost use Rattle.std.specs.HashMap as map;
    ghost use Rattle.ocm_incoming.specs.Groups.{ChainRows, IsChain};

    ghost Value = { ChainRows };

    ghost view = { λ chain. record {
      groups = chain.groups.items;
      room = min (vec_capacity chain.groups - vec_len chain.groups) (min (vec_capacity chain.earlier - vec_len chain.earlier) (map.spare chain.last));
    } };

    ghost invariant = { λ chain. IsChain chain.groups.items chain.earlier.items chain.last };
}

/// The number that is kept for a group, or 0 where there is none.
fn kept_for(places: &HashMap<u32, u32>, group: u32) -> u32
    ensures { result ≡ kept_for places.now group }
{
    places.get(&group).copied().unwrap_or(0)
}

impl Chain {
    /// No members.
    pub fn new(alloc: Global) -> Chain
        ensures { result.groups ≡ [] }
    {
        Chain {
            groups: Vec::new(alloc),
            earlier: Vec::new(alloc),
            last: HashMap::new(alloc),
        }
    }

    /// The group of the member of this number.
    pub fn group_of(&self, number: u32) -> u32
        requires from_one { 0 < number }
        requires within { number ≤ length self.now.groups }
        ensures { result ≡ slice_index self.now.groups (number - 1) }
    {
        self.groups[number as usize - 1]
    }

    /// The number of the last member of a group, or 0 where it has none.
    pub fn last(&self, group: u32) -> u32
        ensures { IsLastOf self.now.groups group (length self.now.groups) result }
    {
        kept_for(&self.last, group)
    }

    /// The number of the member before this one in its group, or 0 where there is none.
    pub fn earlier(&self, number: u32) -> u32
        requires from_one { 0 < number }
        requires within { number ≤ length self.now.groups }
        ensures { IsLastOf self.now.groups (slice_index self.now.groups (number - 1)) (number - 1) result }
    {
        self.earlier[number as usize - 1]
    }

    /// The numbers of the members of a group, ascending.
    pub fn members(&self, group: u32) -> Result<List<u32>, NoMemory>
        ensures { IfOk result (λ found. found ≡ members self.now.groups group) }
    {
        let mut found = Vec::new(*self.groups.allocator());
        let mut number = self.last(group);
        while number != 0 {
            found.push(number)?;
            number = self.earlier(number);
        }
        found.reverse();
        Ok(List::from_vec(found))
    }

    /// Makes room for one more member.
    pub fn room(&mut self) -> Result<(), NoMemory>
        ensures groups { self.new.groups ≡ self.old.groups }
        ensures ok { OnOk result (0 < self.new.room) }
        ensures kept { self.old.room ≤ self.new.room }
    {
        self.groups.reserve(1)?;
        self.earlier.reserve(1)?;
        self.last.reserve(1)?;
        Ok(())
    }

    /// Adds a member of a group.
    pub fn push(&mut self, group: u32)
        requires room { 0 < self.old.room }
        requires few { length self.old.groups < most_records }
        ensures groups { self.new.groups ≡ self.old.groups ++ group ∷ [] }
        ensures room { self.old.room ≤ self.new.room + 1 }
    {
        let before = kept_for(&self.last, group);
        let number = self.groups.len() as u32 + 1;
        let kept: Result<_, _> = self.last.insert(group, number);
        let _before = kept.unwrap();
        self.earlier.push_reserved(before);
        self.groups.push_reserved(group);
    }
}
