ghost use Rattle.std.specs.Prelude.{◌≡◌, ◌<◌, ◌≤◌, ◌+◌, ◌++◌, ◌∷◌, [], length, map, count_by, not, is_some, IsSome, IfOk, OnOk, option_copied};
ghost use Rattle.ocm_limits.specs.Limits.{most_records, most_requests};
ghost use Rattle.ocm_types.specs.declared.phases.Phase.TheVariants.{Pending};
ghost use Rattle.ocm_rules.specs.Numbers.{at_number, number_of};
ghost use Rattle.ocm_rules.specs.State.{changed_at};
ghost use Rattle.ocm_rules.specs.Equal.{same_offer};
ghost use Rattle.ocm_rules.specs.Offers.{is_of, is_known, is_given_up};
ghost use Rattle.ocm_incoming.specs.Lists.{offers_of, phase_at, phased, gone, stated, pending_among, records_for, requests_for, is_held_among, records_with, holds, unshared};

use crate::chains::Chain;
use crate::phases::{is_given_up, is_pending};
use crate::plans::PlannedOffer;
use crate::records::RecordTable;
use crate::rows::{Mark, Record};
use crate::tallies::{Tally, one_if};
use ocm_base::{List, NoMemory};
use ocm_entry::Request;
use ocm_rules::row_at;
use ocm_types::{Name, Phase, RequestPhase};
use std::alloc::Global;
use std::marker::Model;

/// What a server has received for its users: the offers with their phases, and the users' requests to
/// share them further. Both are numbered from 1.
///
/// Contracts see the lists of both, and how many more of each can be added without memory. There are
/// at most 65,536 of each.
pub struct Inbox {
    records: RecordTable,
    requests: Vec<Request>,
    /// The records that are for the same user.
    by_user: Chain,
    /// The records with the same mark.
    by_mark: Chain,
    /// The requests whose records are for the same user.
    by_asker: Chain,
    /// Which records of a user are undecided.
    pending: Tally,
    /// Which records with a mark are neither declined nor removed.
    held: Tally,
    alloc: Global,
}

impl Drop for Inbox {
    fn drop(self) {
        let Inbox {
            records: _,
            requests: _,
            by_user: _,
            by_mark: _,
            by_asker: _,
            pending: _,
            held: _,
            alloc: _,
        } = self;
    }
}

impl Model for Inbox {
    ghost use Rattle.std.specs.Prelude.{◌-◌, min, vec_len, vec_capacity};
    ghost use Rattle.ocm_incoming.specs.Lists.{InboxLists};
    ghost use Rattle.ocm_incoming.specs.Index.{IsInbox};

    ghost Value = { InboxLists };

    ghost view = { λ inbox. record {
      records = inbox.records.rows;
      requests = inbox.requests.items;
      room = min (min inbox.records.room (vec_capacity inbox.requests - vec_len inbox.requests)) (min (min inbox.by_user.room (min inbox.by_mark.room inbox.by_asker.room)) (min inbox.pending.room inbox.held.room));
    } };

    ghost invariant = { λ inbox. IsInbox inbox.records.rows inbox.requests.items inbox.by_user.groups inbox.by_mark.groups inbox.by_asker.groups inbox.pending.tags inbox.held.tags };
}

impl Inbox {
    /// Nothing was received.
    pub fn new(alloc: Global) -> Inbox
        ensures records { result.records ≡ [] }
        ensures requests { result.requests ≡ [] }
    {
        Inbox {
            records: RecordTable::new(alloc),
            requests: Vec::new(alloc),
            by_user: Chain::new(alloc),
            by_mark: Chain::new(alloc),
            by_asker: Chain::new(alloc),
            pending: Tally::new(alloc),
            held: Tally::new(alloc),
            alloc,
        }
    }

    /// The record of this number.
    pub fn received(&self, number: u32) -> Option<&Record>
        ensures { option_copied result ≡ at_number self.now.records number }
    {
        self.records.get(number)
    }

    /// The request of this number.
    pub fn request(&self, r: u32) -> Option<&Request>
        ensures { option_copied result ≡ at_number self.now.requests r }
    {
        row_at(&self.requests, r)
    }

    /// How many records and how many requests there are.
    pub fn counts(&self) -> (u32, u32)
        ensures records { result.0 ≡ length self.now.records }
        ensures requests { result.1 ≡ length self.now.requests }
    {
        (self.records.count(), self.requests.len() as u32)
    }

    /// The number of the first received offer that is equal in each field.
    pub fn same(&self, planned: &PlannedOffer) -> Option<u32>
        ensures first { result ≡ number_of (same_offer planned.now) (offers_of self.now.records) }
        ensures known { is_some result ≡ is_known (offers_of self.now.records) planned.now }
    {
        self.records.same(planned)
    }

    /// How many undecided records are for a user of this name.
    pub fn pending(&self, user: &Name) -> u32
        ensures { result ≡ pending_among self.now.records user.now }
    {
        match self.records.first_for(user) {
            Some(group) => self.pending.count(group),
            None => 0,
        }
    }

    /// Whether an offer with this mark was received.
    pub fn is_received(&self, mark: &Mark) -> bool
        ensures { result ≡ is_some (number_of (is_of mark.now.id mark.now.secret) (offers_of self.now.records)) }
    {
        self.records.first_with(mark).is_some()
    }

    /// Whether a record with this mark is neither declined nor removed.
    pub fn is_held(&self, mark: &Mark) -> bool
        ensures { result ≡ is_held_among self.now.records mark.now }
    {
        match self.records.first_with(mark) {
            Some(group) => self.held.count(group) > 0,
            None => false,
        }
    }

    /// The numbers of the records with this mark, ascending.
    pub fn with(&self, mark: &Mark) -> Result<List<u32>, NoMemory>
        ensures { IfOk result (λ numbers. numbers ≡ records_with self.now.records mark.now) }
    {
        match self.records.first_with(mark) {
            Some(group) => self.by_mark.members(group),
            None => Ok(List::new(self.alloc)),
        }
    }

    /// The numbers of the records for a user of this name, ascending.
    pub fn records_of(&self, user: &Name) -> Result<List<u32>, NoMemory>
        ensures { IfOk result (λ numbers. numbers ≡ records_for self.now.records user.now) }
    {
        match self.records.first_for(user) {
            Some(group) => self.by_user.members(group),
            None => Ok(List::new(self.alloc)),
        }
    }

    /// The numbers of the requests whose record is for a user of this name, ascending.
    pub fn requests_of(&self, user: &Name) -> Result<List<u32>, NoMemory>
        ensures { IfOk result (λ numbers. numbers ≡ requests_for self.now.records self.now.requests user.now) }
    {
        match self.records.first_for(user) {
            Some(group) => self.by_asker.members(group),
            None => Ok(List::new(self.alloc)),
        }
    }

    /// Makes room for one more record and one more request.
    pub fn room(&mut self) -> Result<(), NoMemory>
        ensures records { self.new.records ≡ self.old.records }
        ensures requests { self.new.requests ≡ self.old.requests }
        ensures ok { OnOk result (0 < self.new.room) }
        ensures kept { self.old.room ≤ self.new.room }
    {
        self.records.room()?;
        self.requests.reserve(1)?;
        self.by_user.room()?;
        self.by_mark.room()?;
        self.by_asker.room()?;
        self.pending.room()?;
        self.held.room()?;
        Ok(())
    }

    /// Adds a record of this offer, on which its recipient has not decided, and answers with its
    /// number. It takes no memory.
    pub fn receive(&mut self, planned: PlannedOffer) -> u32
        requires room { 0 < self.old.room }
        requires few { length self.old.records < most_records }
        ensures records { self.new.records ≡ self.old.records ++ record { offer = planned; phase = Pending } ∷ [] }
        ensures requests { self.new.requests ≡ self.old.requests }
        ensures number { result ≡ length self.new.records }
        ensures room { self.old.room ≤ self.new.room + 1 }
    {
        let number = self.records.count() + 1;
        let user = self.records.first_for(planned.user()).unwrap_or(number);
        let mark = self.records.first_with(planned.mark()).unwrap_or(number);
        self.records.add(planned);
        self.by_user.push(user);
        self.by_mark.push(mark);
        self.pending.push(user, true);
        self.held.push(mark, true);
        number
    }

    /// Adds a request, whose record is there, and answers with its number. It takes no memory.
    pub fn ask(&mut self, request: Request) -> u32
        requires room { 0 < self.old.room }
        requires few { length self.old.requests < most_requests }
        requires there { IsSome (at_number self.old.records request.received) }
        ensures records { self.new.records ≡ self.old.records }
        ensures requests { self.new.requests ≡ self.old.requests ++ request ∷ [] }
        ensures number { result ≡ length self.new.requests }
        ensures room { self.old.room ≤ self.new.room + 1 }
    {
        let group = self.by_user.group_of(request.received);
        self.by_asker.push(group);
        self.requests.push_reserved(request);
        self.requests.len() as u32
    }

    /// The record of this number is in this phase from now on. It takes no memory.
    pub fn set_phase(&mut self, number: u32, phase: Phase)
        requires { IsSome (at_number self.old.records number) }
        ensures records { self.new.records ≡ changed_at number (phased phase) self.old.records }
        ensures requests { self.new.requests ≡ self.old.requests }
        ensures room { self.new.room ≡ self.old.room }
    {
        self.records.set_phase(number, phase);
        self.pending.set(number, is_pending(phase));
        self.held.set(number, !is_given_up(phase));
    }

    /// The request of this number is in this state from now on. It takes no memory.
    pub fn set_state(&mut self, r: u32, state: RequestPhase)
        requires { IsSome (at_number self.old.requests r) }
        ensures records { self.new.records ≡ self.old.records }
        ensures requests { self.new.requests ≡ changed_at r (stated state) self.old.requests }
        ensures room { self.new.room ≡ self.old.room }
    {
        self.requests[r as usize - 1].state = state;
    }

    /// Each record with this mark that is neither declined nor removed is removed from now on, and no
    /// other changes. The answer is how many these are. It takes no memory.
    pub fn removed(&mut self, mark: &Mark) -> u32
        ensures records { self.new.records ≡ map (unshared mark.now) self.old.records }
        ensures requests { self.new.requests ≡ self.old.requests }
        ensures count { result ≡ count_by (holds mark.now) self.old.records }
        ensures room { self.new.room ≡ self.old.room }
    {
        let Some(group) = self.records.first_with(mark) else {
            return 0;
        };
        let mut number = self.by_mark.last(group);
        let mut count = 0;
        while number != 0 {
            count += one_if(self.remove(number));
            number = self.by_mark.earlier(number);
        }
        count
    }

    /// The record of this number is removed, unless it is declined or removed already. The answer is
    /// whether it was neither.
    fn remove(&mut self, number: u32) -> bool
        requires { IsSome (at_number self.old.records number) }
        ensures records { self.new.records ≡ changed_at number gone self.old.records }
        ensures requests { self.new.requests ≡ self.old.requests }
        ensures result { result ≡ not (is_given_up (phase_at self.old.records number)) }
        ensures room { self.new.room ≡ self.old.room }
    {
        let is_held = !is_given_up(self.phase_at(number));
        if is_held {
            self.set_phase(number, Phase::Removed);
        }
        is_held
    }

    /// The phase of the record of this number.
    fn phase_at(&self, number: u32) -> Phase
        ensures { result ≡ phase_at self.now.records number }
    {
        match self.received(number) {
            Some(record) => record.phase,
            None => Phase::Pending,
        }
    }
}
