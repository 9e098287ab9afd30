ghost use Rattle.std.specs.Prelude.{◌≡◌, ◌<◌, ◌≤◌, ◌+◌, ◌*◌, ◌^◌, ◌-◌, ◌&&◌, ℕ, List, [], length, nat_eq, Some, false, OnOk, IfOk, IfErr, slice_get};
ghost use Rattle.std.specs.Option.{option_map_or};
ghost use Rattle.ocm_limits.specs.Limits.{most_shares};
ghost use Rattle.ocm_rules.specs.Numbers.{same_text};

use crate::steps::Steps;
use ocm_base::NoMemory;
use ocm_types::SenderId;
use std::alloc::Global;
use std::cmp::Ordering;
use std::marker::Model;
use std::sync::ledger::Ledger;

/// A request to share further, with the number of the share that was made for it.
#[derive(Drop)]
pub struct RequestEntry {
    pub parent: u32,
    pub sender_id: SenderId,
    pub number: u32,
}

/// The numbers of shares by the requests for which they were made, in the order of the parents and
/// then of the bytes of the senders' marks.
pub struct RequestIndex {
    entries: Vec<RequestEntry>,
}

impl Drop for RequestIndex {
    fn drop(self) {
        let RequestIndex { entries: _ } = self;
    }
}

impl Model for RequestIndex {
    ghost use Rattle.std.specs.Prelude.{◌-◌, ◌≤◌, length, vec_len, vec_capacity};
    ghost use Rattle.ocm_limits.specs.Limits.{most_shares};
    ghost use Rattle.ocm_chain.specs.Indexes.{RequestLists, RequestsAscend};

    ghost Value = { RequestLists };

    ghost view = { λ index. record { entries = index.entries.items; room = vec_capacity index.entries - vec_len index.entries } };

    ghost invariant = { λ index. (length index.entries.items ≤ most_shares) × RequestsAscend index.entries.items };
}

impl RequestIndex {
    ghost use Rattle.ocm_chain.specs.Indexes.{number_for, number_or, request_cmp, IsEqualAt, ArePartedAt, RequestsAscend};
    ghost use Rattle.ocm_chain.specs.declared.requests.RequestEntry.{RequestEntry};

    /// No requests.
    pub fn new(alloc: Global) -> RequestIndex
        ensures { result.entries ≡ [] }
    {
        RequestIndex {
            entries: Vec::new(alloc),
        }
    }

    // The order of the entry at a place and a request. It is one step, and no other call reads the
    // requests.
    fn compare<L: Ledger>(
        &self,
        place: u32,
        parent: u32,
        sender_id: &SenderId,
        steps: &mut Steps<L>,
    ) -> Ordering
        requires { place < length self.now.entries }
        ensures order { (e : RequestEntry) → slice_get self.now.entries place ≡ Some e → result ≡ request_cmp e parent sender_id.now }
        ensures tick { steps.new ≡ steps.old + 1 }
    {
        steps.tick();
        let entry = &self.entries[place as usize];
        match entry.parent.cmp(&parent) {
            Ordering::Equal => entry.sender_id.cmp(sender_id),
            order => order,
        }
    }

    fn len(&self) -> u32
        ensures len { result ≡ length self.now.entries }
        ensures few { result ≤ most_shares }
        ensures order { RequestsAscend self.now.entries }
    {
        self.entries.len() as u32
    }

    // The place of a request, or the place at which it would stand.
    fn place_of<L: Ledger>(
        &self,
        parent: u32,
        sender_id: &SenderId,
        steps: &mut Steps<L>,
    ) -> Result<u32, u32>
        ensures found { IfOk result (IsEqualAt (λ (e : RequestEntry). request_cmp e parent sender_id.now) self.now.entries) }
        ensures absent { IfErr result (ArePartedAt (λ (e : RequestEntry). request_cmp e parent sender_id.now) self.now.entries) }
        ensures cost { 2 ^ (steps.new - steps.old) ≤ 2 * length self.now.entries + 1 }
        ensures onward { steps.old ≤ steps.new }
    {
        let mut low = 0;
        let mut high = self.len();
        while low < high {
            let middle = low + (high - low) / 2;
            match self.compare(middle, parent, sender_id, steps) {
                Ordering::Less => low = middle + 1,
                Ordering::Equal => return Ok(middle),
                Ordering::Greater => high = middle,
            }
        }
        Err(low)
    }

    /// The number that a request has here. It takes b steps at most, where 2 to the power of b is at
    /// most one more than twice the requests.
    pub fn find<L: Ledger>(
        &self,
        parent: u32,
        sender_id: &SenderId,
        steps: &mut Steps<L>,
    ) -> Option<u32>
        ensures found { result ≡ number_for self.now.entries parent sender_id.now }
        ensures cost { 2 ^ (steps.new - steps.old) ≤ 2 * length self.now.entries + 1 }
        ensures onward { steps.old ≤ steps.new }
    {
        match self.place_of(parent, sender_id, steps) {
            Ok(place) => Some(self.entries[place as usize].number),
            Err(_) => None,
        }
    }

    /// Room for one more request.
    pub fn room(&mut self) -> Result<(), NoMemory>
        ensures entries { self.new.entries ≡ self.old.entries }
        ensures ok { OnOk result (0 < self.new.room) }
        ensures room { self.old.room ≤ self.new.room }
    {
        self.entries.reserve(1)?;
        Ok(())
    }

    /// Adds a request, unless it has a number already.
    pub fn add<L: Ledger>(
        &mut self,
        parent: u32,
        sender_id: SenderId,
        number: u32,
        steps: &mut Steps<L>,
    )
        requires room { 0 < self.old.room }
        requires few { length self.old.entries < most_shares }
        ensures found { (p : ℕ) (s : List ℕ) → number_for self.new.entries p s ≡ number_or (number_for self.old.entries p s) (nat_eq parent p && same_text sender_id s) number }
        ensures len { length self.new.entries ≤ length self.old.entries + 1 }
        ensures room { self.old.room ≤ self.new.room + 1 }
    {
        if let Err(place) = self.place_of(parent, &sender_id, steps) {
            self.entries
                .insert(
                    place as usize,
                    RequestEntry {
                        parent,
                        sender_id,
                        number,
                    },
                )
                .unwrap();
        }
    }

    /// Adds the request of a share that was made for one, unless it has a number already.
    pub fn keep<L: Ledger>(
        &mut self,
        parent: Option<u32>,
        sender_id: Option<SenderId>,
        number: u32,
        steps: &mut Steps<L>,
    )
        requires room { 0 < self.old.room }
        requires few { length self.old.entries < most_shares }
        ensures found { (p : ℕ) (s : List ℕ) → number_for self.new.entries p s ≡ number_or (number_for self.old.entries p s) (option_map_or (nat_eq p) parent false && option_map_or (same_text s) sender_id false) number }
        ensures len { length self.new.entries ≤ length self.old.entries + 1 }
        ensures room { self.old.room ≤ self.new.room + 1 }
    {
        match (parent, sender_id) {
            (Some(parent), Some(sender_id)) => self.add(parent, sender_id, number, steps),
            _ => {}
        }
    }
}
