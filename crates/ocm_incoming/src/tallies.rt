ghost use Rattle.std.specs.Prelude.{◌≡◌, ◌<◌, ◌≤◌, ◌+◌, ◌++◌, ◌∷◌, [], length, OnOk};
ghost use Rattle.ocm_limits.specs.Limits.{most_records};
ghost use Rattle.ocm_rules.specs.State.{changed_at};
ghost use Rattle.ocm_incoming.specs.Groups.{one_if, counted, recounted};

use ocm_base::NoMemory;
use std::alloc::Global;
use std::marker::Model;

/// A member of a group, and whether it counts.
#[derive(Clone, Copy)]
pub struct Tag {
    pub group: u32,
    pub counts: bool,
}

/// Members in order, numbered from 1, each of which belongs to a group and counts or does not. How many
/// members of a group count is kept for each group.
///
/// A group has the number of a member.
pub struct Tally {
    tags: Vec<Tag>,
    /// How many members count, for each group that a member could have the number of.
    counts: Vec<u32>,
}

impl Drop for Tally {
    fn drop(self) {
        let Tally { tags: _, counts: _ } = self;
    }
}

impl Model for Tally {
    ghost use Rattle.std.specs.Prelude.{◌-◌, min, vec_len, vec_capacity};
    ghost use Rattle.ocm_incoming.specs.Groups.{TallyRows, IsTally};

    ghost Value = { TallyRows };

    ghost view = { λ tally. record {
      tags = tally.tags.items;
      room = min (vec_capacity tally.tags - vec_len tally.tags) (vec_capacity tally.counts - vec_len tally.counts);
    } };

    ghost invariant = { λ tally. IsTally tally.tags.items tally.counts.items };
}

/// What a member adds to the count of its group.
pub fn one_if(counts: bool) -> u32
    ensures { result ≡ one_if counts }
{
    if counts { 1 } else { 0 }
}

impl Tally {
    /// No members.
    pub fn new(alloc: Global) -> Tally
        ensures { result.tags ≡ [] }
    {
        Tally {
            tags: Vec::new(alloc),
            counts: Vec::new(alloc),
        }
    }

    /// How many members of a group count.
    pub fn count(&self, group: u32) -> u32
        requires from_one { 0 < group }
        requires within { group ≤ length self.now.tags }
        ensures { result ≡ counted self.now.tags group }
    {
        self.counts[group as usize - 1]
    }

    /// Makes room for one more member.
    pub fn room(&mut self) -> Result<(), NoMemory>
        ensures tags { self.new.tags ≡ self.old.tags }
        ensures ok { OnOk result (0 < self.new.room) }
        ensures kept { self.old.room ≤ self.new.room }
    {
        self.tags.reserve(1)?;
        self.counts.reserve(1)?;
        Ok(())
    }

    /// Adds a member. Its group has the number of a member before it, or its own.
    pub fn push(&mut self, group: u32, counts: bool)
        requires room { 0 < self.old.room }
        requires few { length self.old.tags < most_records }
        requires from_one { 0 < group }
        requires within { group ≤ length self.old.tags + 1 }
        ensures tags { self.new.tags ≡ self.old.tags ++ record { group = group; counts = counts } ∷ [] }
        ensures room { self.old.room ≤ self.new.room + 1 }
    {
        let place = group as usize - 1;
        self.counts.push_reserved(0);
        let count = self.counts[place] + one_if(counts);
        self.counts[place] = count;
        self.tags.push_reserved(Tag { group, counts });
    }

    /// Whether the member of this number counts from now on.
    pub fn set(&mut self, number: u32, counts: bool)
        requires from_one { 0 < number }
        requires within { number ≤ length self.old.tags }
        ensures tags { self.new.tags ≡ changed_at number (recounted counts) self.old.tags }
        ensures room { self.new.room ≡ self.old.room }
    {
        let index = number as usize - 1;
        let older = self.tags[index];
        let place = older.group as usize - 1;
        let count = self.counts[place] - one_if(older.counts) + one_if(counts);
        self.counts[place] = count;
        self.tags[index] = Tag {
            group: older.group,
            counts,
        };
    }
}
