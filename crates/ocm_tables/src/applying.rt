//! Room for a change, and the change itself.
ghost use Rattle.std.specs.Prelude.{◌≡◌, ◌≤◌, ◌<◌, ◌+◌, ◌++◌, length, map, None, All, IsSome, OnOk};
ghost use Rattle.ocm_limits.specs.Limits.{most_messages, most_records, most_restrictions};
ghost use Rattle.ocm_rules.specs.Numbers.{at_number};
ghost use Rattle.ocm_rules.specs.Files.{limit_of};
ghost use Rattle.ocm_rules.specs.State.{new_sent_row};
ghost use Rattle.ocm_law_origins.specs.Origins.{origins_after};
ghost use Rattle.ocm_tables.specs.Changes.{Fits, FitsOutcome, FitsRequest, FitsShare, FitsUser, HasNumbers, HasRoom, IsMessage, IsRecord, IsRequest, IsShare, acted, changed, entries_after, file_act, told_all, with_outcome, with_sent};
ghost use Rattle.ocm_tables.specs.declared.changes.TableChange.TheVariants as changes;
ghost use Rattle.ocm_tables.specs.declared.changes.Outcome.TheVariants as outcomes;

use crate::changes::{Outcome, TableChange};
use crate::tables::Tables;
use ocm_base::{List, NoMemory};
use ocm_chain::PlannedShare;
use ocm_change::Board;
use ocm_entry::{Place, Request};
use ocm_incoming::{Mark, PlannedOffer};
use ocm_outgoing::Outbox;
use ocm_rules::Message;
use ocm_tree::{PlannedCarry, PlannedNode};
use ocm_types::{Perms, Phase, RequestPhase};
use ocm_users::PlannedUser;

impl Tables {
    /// Takes the memory that a change and so many messages need. The lists stay.
    pub fn room(&mut self, change: &TableChange, messages: u32) -> Result<(), NoMemory>
        ensures state { self.new.state ≡ self.old.state }
        ensures entries { self.new.entries ≡ self.old.entries }
        ensures origins { self.new.origins ≡ self.old.origins }
        ensures change { OnOk result (HasRoom self.new.room change.now) }
        ensures messages { OnOk result (messages ≤ self.new.room.messages) }
    {
        self.outbox.room(messages)?;
        self.room_for(change)
    }

    /// Takes the memory that a change needs in its table. The lists stay.
    fn room_for(&mut self, change: &TableChange) -> Result<(), NoMemory>
        ensures state { self.new.state ≡ self.old.state }
        ensures entries { self.new.entries ≡ self.old.entries }
        ensures origins { self.new.origins ≡ self.old.origins }
        ensures change { OnOk result (HasRoom self.new.room change.now) }
        ensures messages { self.old.room.messages ≤ self.new.room.messages }
    {
        match change {
            TableChange::AddUser(_) => self.users.room(),
            TableChange::Put(_) => self.files.room(),
            TableChange::Carry(carry) => self.files.room_for(carry),
            TableChange::AddShare(_) => self.shares.room(),
            TableChange::Receive(_) => self.room_to_receive(),
            TableChange::AddRequest(_) => self.inbox.room(),
            TableChange::Nothing
            | TableChange::Advance { clock: _ }
            | TableChange::Remove(_)
            | TableChange::Close { id: _ }
            | TableChange::Limit { id: _, perms: _ }
            | TableChange::Expire { id: _, until: _ }
            | TableChange::SetPhase {
                number: _,
                phase: _,
            }
            | TableChange::TakeBack { request: _ }
            | TableChange::GiveUp(_)
            | TableChange::Tell {
                numbers: _,
                serial: _,
                perms: _,
            }
            | TableChange::Settle {
                number: _,
                outcome: _,
            } => Ok(()),
        }
    }

    fn room_to_receive(&mut self) -> Result<(), NoMemory>
        ensures state { self.new.state ≡ self.old.state }
        ensures entries { self.new.entries ≡ self.old.entries }
        ensures origins { self.new.origins ≡ self.old.origins }
        ensures records { OnOk result (0 < self.new.room.records) }
        ensures told { OnOk result (0 < self.new.room.told) }
        ensures messages { self.old.room.messages ≤ self.new.room.messages }
    {
        self.inbox.room()?;
        self.board.room()
    }

    /// Makes a change and sends its messages. It takes no memory.
    pub fn apply(&mut self, change: TableChange, messages: List<Message>)
        requires fits { Fits self.old.state change }
        requires numbers { HasNumbers self.old.state messages }
        requires room { HasRoom self.old.room change }
        requires sending { length messages ≤ self.old.room.messages }
        ensures state { self.new.state ≡ changed self.old.state change messages }
        ensures entries { self.new.entries ≡ entries_after self.old.entries change }
        ensures origins { self.new.origins ≡ origins_after (file_act change) self.new.entries self.old.origins }
    {
        self.count(&change);
        self.act(change);
        self.send(messages);
    }

    /// Counts a change.
    fn count(&mut self, change: &TableChange)
        ensures state { self.new.state ≡ self.old.state }
        ensures room { self.new.room ≡ self.old.room }
        ensures entries { self.new.entries ≡ entries_after self.old.entries change.now }
        ensures origins { self.new.origins ≡ self.old.origins }
    {
        self.entries = self.entries_after(change);
    }

    /// Makes a change that was counted, its messages aside.
    fn act(&mut self, change: TableChange)
        requires fits { Fits self.old.state change }
        requires room { HasRoom self.old.room change }
        ensures state { self.new.state ≡ acted self.old.state change }
        ensures entries { self.new.entries ≡ self.old.entries }
        ensures origins { self.new.origins ≡ origins_after (file_act change) self.old.entries self.old.origins }
        ensures messages { self.old.room.messages ≤ self.new.room.messages }
    {
        match change {
            TableChange::Nothing => {}
            TableChange::Advance { clock } => self.shares.advance(clock),
            TableChange::AddUser(user) => self.add_user(user),
            TableChange::Put(node) => self.put(node),
            TableChange::Remove(place) => self.remove(&place),
            TableChange::Carry(carry) => self.carry(carry),
            TableChange::AddShare(share) => self.add_share(share),
            TableChange::Close { id } => self.close(id),
            TableChange::Limit { id, perms } => self.limit(id, perms),
            TableChange::Expire { id, until } => self.expire(id, until),
            TableChange::Receive(offer) => self.receive(offer),
            TableChange::SetPhase { number, phase } => self.set_phase(number, phase),
            TableChange::AddRequest(request) => self.add_request(request),
            TableChange::TakeBack { request } => self.set_state(request, RequestPhase::Undone),
            TableChange::GiveUp(mark) => self.give_up(&mark),
            TableChange::Tell {
                numbers,
                serial,
                perms,
            } => self.tell(&numbers, serial, perms),
            TableChange::Settle { number, outcome } => self.settle(number, outcome),
        }
    }

    fn put(&mut self, node: PlannedNode)
        requires fits { limit_of self.old.state.nodes node ≡ None }
        requires room { 0 < self.old.room.files }
        ensures state { self.new.state ≡ acted self.old.state (changes.Put node) }
        ensures entries { self.new.entries ≡ self.old.entries }
        ensures origins { self.new.origins ≡ origins_after (file_act (changes.Put node)) self.old.entries self.old.origins }
        ensures messages { self.old.room.messages ≤ self.new.room.messages }
    {
        self.files.put(node, self.entries);
    }

    fn remove(&mut self, place: &Place)
        ensures state { self.new.state ≡ acted self.old.state (changes.Remove place.now) }
        ensures entries { self.new.entries ≡ self.old.entries }
        ensures origins { self.new.origins ≡ origins_after (file_act (changes.Remove place.now)) self.old.entries self.old.origins }
        ensures messages { self.old.room.messages ≤ self.new.room.messages }
    {
        self.files.remove(place);
    }

    fn carry(&mut self, carry: PlannedCarry)
        requires fits { Fits self.old.state (changes.Carry carry) }
        requires room { length carry.nodes ≤ self.old.room.files }
        ensures state { self.new.state ≡ acted self.old.state (changes.Carry carry) }
        ensures entries { self.new.entries ≡ self.old.entries }
        ensures origins { self.new.origins ≡ origins_after (file_act (changes.Carry carry)) self.old.entries self.old.origins }
        ensures messages { self.old.room.messages ≤ self.new.room.messages }
    {
        self.files.carry(carry);
    }

    fn add_user(&mut self, user: PlannedUser)
        requires fits { FitsUser self.old.state user }
        requires room { 0 < self.old.room.users }
        ensures state { self.new.state ≡ acted self.old.state (changes.AddUser user) }
        ensures entries { self.new.entries ≡ self.old.entries }
        ensures origins { self.new.origins ≡ self.old.origins }
        ensures messages { self.old.room.messages ≤ self.new.room.messages }
    {
        self.users.add(user);
    }

    fn add_share(&mut self, share: PlannedShare)
        requires fits { FitsShare self.old.state share }
        requires room { 0 < self.old.room.shares }
        ensures state { self.new.state ≡ acted self.old.state (changes.AddShare share) }
        ensures entries { self.new.entries ≡ self.old.entries }
        ensures origins { self.new.origins ≡ self.old.origins }
        ensures messages { self.old.room.messages ≤ self.new.room.messages }
    {
        let _id = self.shares.make(share);
    }

    fn close(&mut self, id: u32)
        requires { IsShare self.old.state id }
        ensures state { self.new.state ≡ acted self.old.state (changes.Close id) }
        ensures entries { self.new.entries ≡ self.old.entries }
        ensures origins { self.new.origins ≡ self.old.origins }
        ensures messages { self.old.room.messages ≤ self.new.room.messages }
    {
        self.shares.close(id);
    }

    fn limit(&mut self, id: u32, perms: Perms)
        requires share { IsShare self.old.state id }
        requires few { self.old.state.limits < most_restrictions }
        ensures state { self.new.state ≡ acted self.old.state (changes.Limit id perms) }
        ensures entries { self.new.entries ≡ self.old.entries }
        ensures origins { self.new.origins ≡ self.old.origins }
        ensures messages { self.old.room.messages ≤ self.new.room.messages }
    {
        self.shares.limit(id, perms);
        self.limits += 1;
    }

    fn expire(&mut self, id: u32, until: u64)
        requires { IsShare self.old.state id }
        ensures state { self.new.state ≡ acted self.old.state (changes.Expire id until) }
        ensures entries { self.new.entries ≡ self.old.entries }
        ensures origins { self.new.origins ≡ self.old.origins }
        ensures messages { self.old.room.messages ≤ self.new.room.messages }
    {
        self.shares.expire(id, until);
    }

    fn receive(&mut self, offer: PlannedOffer)
        requires few { length self.old.state.received < most_records }
        requires records { 0 < self.old.room.records }
        requires told { 0 < self.old.room.told }
        ensures state { self.new.state ≡ acted self.old.state (changes.Receive offer) }
        ensures entries { self.new.entries ≡ self.old.entries }
        ensures origins { self.new.origins ≡ self.old.origins }
        ensures messages { self.old.room.messages ≤ self.new.room.messages }
    {
        let perms = offer.offer().perms;
        let _number = self.inbox.receive(offer);
        self.board.add(perms);
    }

    /// Sets the phase of the received offer of this number.
    pub(crate) fn set_phase(&mut self, number: u32, phase: Phase)
        requires { IsRecord self.old.state number }
        ensures state { self.new.state ≡ acted self.old.state (changes.SetPhase number phase) }
        ensures entries { self.new.entries ≡ self.old.entries }
        ensures origins { self.new.origins ≡ self.old.origins }
        ensures messages { self.old.room.messages ≤ self.new.room.messages }
    {
        self.inbox.set_phase(number, phase);
    }

    fn add_request(&mut self, request: Request)
        requires fits { FitsRequest self.old.state request }
        requires room { 0 < self.old.room.records }
        ensures state { self.new.state ≡ acted self.old.state (changes.AddRequest request) }
        ensures entries { self.new.entries ≡ self.old.entries }
        ensures origins { self.new.origins ≡ self.old.origins }
        ensures messages { self.old.room.messages ≤ self.new.room.messages }
    {
        let _number = self.inbox.ask(request);
    }

    /// Sets the state of the request of this number.
    pub(crate) fn set_state(&mut self, request: u32, state: RequestPhase)
        requires { IsRequest self.old.state request }
        ensures state { self.new.state ≡ with_outcome self.old.state (outcomes.SetState request state) }
        ensures entries { self.new.entries ≡ self.old.entries }
        ensures origins { self.new.origins ≡ self.old.origins }
        ensures messages { self.old.room.messages ≤ self.new.room.messages }
    {
        self.inbox.set_state(request, state);
    }

    fn give_up(&mut self, mark: &Mark)
        ensures state { self.new.state ≡ acted self.old.state (changes.GiveUp mark.now) }
        ensures entries { self.new.entries ≡ self.old.entries }
        ensures origins { self.new.origins ≡ self.old.origins }
        ensures messages { self.old.room.messages ≤ self.new.room.messages }
    {
        let _count = self.inbox.removed(mark);
    }

    fn tell(&mut self, numbers: &List<u32>, serial: u32, perms: Perms)
        requires { All (λ number. IsRecord self.old.state number) numbers.now }
        ensures state { self.new.state ≡ acted self.old.state (changes.Tell numbers.now serial perms) }
        ensures entries { self.new.entries ≡ self.old.entries }
        ensures origins { self.new.origins ≡ self.old.origins }
        ensures messages { self.old.room.messages ≤ self.new.room.messages }
    {
        tell_all(&mut self.board, numbers.as_slice(), serial, perms);
    }

    fn settle(&mut self, number: u32, outcome: Outcome)
        requires message { IsMessage self.old.state number }
        requires outcome { FitsOutcome self.old.state outcome }
        ensures state { self.new.state ≡ acted self.old.state (changes.Settle number outcome) }
        ensures entries { self.new.entries ≡ self.old.entries }
        ensures origins { self.new.origins ≡ self.old.origins }
        ensures messages { self.old.room.messages ≤ self.new.room.messages }
    {
        self.outbox.settle(number);
        outcome.act(self);
    }

    /// Sends messages, behind those that were sent.
    fn send(&mut self, messages: List<Message>)
        requires numbers { HasNumbers self.old.state messages }
        requires room { length messages ≤ self.old.room.messages }
        ensures state { self.new.state ≡ with_sent self.old.state messages }
        ensures entries { self.new.entries ≡ self.old.entries }
        ensures origins { self.new.origins ≡ self.old.origins }
    {
        send_all(&mut self.outbox, messages);
    }
}

/// Tells the guests of the received offers of these numbers of these permissions.
fn tell_all(board: &mut Board, numbers: &[u32], serial: u32, perms: Perms)
    requires { All (λ number. IsSome (at_number board.old.told number)) numbers.now }
    ensures { board.new.told ≡ told_all numbers.now (record { serial = serial; perms = perms }) board.old.told }
{
    for number in numbers {
        board.take(*number, serial, perms);
    }
}

/// Adds messages behind those that were sent.
fn send_all(outbox: &mut Outbox, messages: List<Message>)
    requires few { length outbox.old.sent + length messages ≤ most_messages }
    requires room { length messages ≤ outbox.old.room }
    ensures { outbox.new.sent ≡ outbox.old.sent ++ map new_sent_row messages }
{
    for message in messages.into_vec() {
        let _number = outbox.push(message.subject, message.to, message.letter);
    }
}
