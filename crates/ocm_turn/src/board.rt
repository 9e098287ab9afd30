//! The table behind a turnstile, and the single steps of a turn at it.
ghost use Rattle.std.specs.Prelude.{◌≡◌, ◌≢◌, ℕ, ◌+◌, ◌<◌, ◌≤◌, ◌^◌, List, [], ◌∷◌, Option, Some, None, IfOk, IfErr, IfSome, IsTrue, is_some, true, false, length};
ghost use Rattle.ocm_entry.specs.Proper.{is_proper};
ghost use Rattle.ocm_entry.specs.declared.asks.Ask as asks;
ghost use Rattle.ocm_entry.specs.declared.entries.Entry.{Entry};
ghost use Rattle.ocm_turn.specs.Begun.{IfReplied, IfApart, IfBusy};
ghost use Rattle.ocm_turn.specs.Calls.{entry};
ghost use Rattle.ocm_turn.specs.Rule.{newcomer, IsIdle};
ghost use Rattle.ocm_turn.specs.Steps.{named, ticketed, passed, refused, finished, left_awaited, HasInHand, StandsAt, TurnCame, parted, beside, joined, Sound};
ghost use Rattle.ocm_turn.specs.declared.view.Stage.TheVariants.{Named};

use crate::behind::Behind;
use crate::dated::{Begun, Dated};
use crate::rule::{
    Check, Cut, Draw, Finish, Founded, Glue, Law, Limited, LookAtDone, Name, PassOn, Refuse,
    SetApart, Start, Told,
};
use crate::view::View;
use atomic_table::{Seat, Table};
use ocm_entry::{Ask, Reply};
use std::alloc::Global;
use std::marker::Brand;
use std::snapshot::Snapshot;
use std::sync::Wait;

/// Word 0: the next ticket.
const NEXT: usize = 0;
/// Word 1: the number of turns that are over.
const DONE: usize = 1;
/// The slot of the value.
const VALUE: usize = 0;

/// A seat at the table behind a turnstile.
pub type TurnSeat<T: Dated> = Seat<Option<Behind<T>>, View<T::Terms, T::Mark>>;

/// The table behind a turnstile, with the steps that keep its rule.
pub struct TurnTable<T: Dated> {
    pub(crate) table: Table<Option<Behind<T>>, View<T::Terms, T::Mark>, Start<T>, Law<T>, Global>,
    pub(crate) limit: u64,
    ghost limits: { (table.shared.key.limit ≡ limit) × (1 ≤ limit) × (limit ≤ 2 ^ 63) },
    ghost counts: { (table.shared.table_id.words ≡ 82) × (table.shared.table_id.slots ≡ 1) },
}

impl<T: Dated + Drop> Drop for TurnTable<T> {
    fn drop(self) {
        let TurnTable { table: _, limit: _ } = self;
    }
}

impl<T: Dated> TurnTable<T> {
    /// A board with the value at home, and its first seat. An `Err` is want of memory.
    pub fn make<J: Founded>(
        alloc: Global,
        value: T,
        limit: u64,
    ) -> Result<(TurnTable<T>, TurnSeat<T>), T>
        requires limit { (1 ≤ limit) × (limit ≤ 2 ^ 63) }
        requires value { (base : List Entry) × J.known base × T.stands value base [] × T.legal (T.terms value) base [] }
        requires home { T.awaited value ≡ None }
        ensures own { IfOk result (λ r. (r.1.table_id ≡ r.0.table.shared.table_id) × (r.0.limit ≡ limit)) }
        ensures seat { IfOk result (λ r. (base : List Entry) × (r.1.me ≡ (named (newcomer limit (T.terms value)) base, []))
            × J.known base × T.stands value base [] × T.legal (T.terms value) base []) }
        ensures err { IfErr result (λ v. v ≡ value) }
    {
        let about = Start {
            limit,
            value: Snapshot::of(&value),
        };
        let mut slots = Vec::new(alloc);
        if let Err(failed) = slots.push(Some(Behind::new(value))) {
            return Err(failed.value.unwrap().into_parts().0);
        }
        match Table::new(alloc, &[0; 82], slots, &about) {
            Ok((table, mut seat)) => {
                let board = TurnTable { table, limit };
                board.name::<Brand>(&mut seat);
                Ok((board, seat))
            }
            Err(refused) => {
                let mut slots = refused.slots;
                Err(slots.pop().unwrap().unwrap().into_parts().0)
            }
        }
    }

    fn name<J: Founded>(&self, seat: &mut TurnSeat<T>)
        requires own { (seat.old.table_id ≡ self.now.table.shared.table_id) × (seat.old.me ≡ (newcomer self.now.table.shared.key.limit (T.terms self.now.table.shared.key.value.value), [])) }
        requires value { (base : List Entry) × J.known base × T.stands self.now.table.shared.key.value.value base [] × T.legal (T.terms self.now.table.shared.key.value.value) base [] }
        requires home { T.awaited self.now.table.shared.key.value.value ≡ None }
        ensures own { seat.new.table_id ≡ seat.old.table_id }
        ensures named { (base : List Entry) × (seat.new.me ≡ (named seat.old.me.0 base, [])) × J.known base }
    {
        self.table.shared.load::<Name<J>>(seat, NEXT);
    }

    /// Draws a ticket, if no turn goes on.
    pub(crate) fn try_draw(&self, seat: &mut TurnSeat<T>) -> Option<u64>
        requires own { (seat.old.table_id ≡ self.now.table.shared.table_id) × (seat.old.me.0.ticket ≡ None) × (seat.old.me.0.turn ≡ false) × (seat.old.me.0.stage ≡ Named) }
        ensures own { seat.new.table_id ≡ seat.old.table_id }
        ensures drawn { IfSome result (λ n. seat.new.me ≡ (ticketed seat.old.me.0 n, seat.old.me.1)) }
        ensures none { result ≡ None → seat.new.me ≡ seat.old.me }
    {
        let done = self.table.shared.peek(DONE).min(u64::MAX - 1);
        if self.table.shared.peek(NEXT) != done {
            return None;
        }
        let found = self
            .table
            .shared
            .compare_exchange::<Draw>(seat, NEXT, done, done + 1);
        if found == done { Some(done) } else { None }
    }

    /// Returns at the turn of the ticket, with the value in the seat's hands. No turn goes on when a ticket is drawn, so the first
    /// look finds that it has come.
    fn wait_turn<L: Limited, R: Wait>(&self, rt: &R, seat: &mut TurnSeat<T>, ticket: u64)
        requires own { seat.old.table_id ≡ self.now.table.shared.table_id }
        requires limit { L.limit ≡ self.now.limit }
        requires ticket { (seat.old.me.0.ticket ≡ Some ticket) × (seat.old.me.0.turn ≡ false) × (seat.old.me.0.stage ≡ Named) × (seat.old.me.1 ≡ []) }
        ensures own { seat.new.table_id ≡ seat.old.table_id }
        ensures turn { TurnCame T.terms (StandsAt T.stands T.came) T.legal T.awaited L.limit seat.old.me seat.new.me }
    {
        for _ in rt.forever() {
            let done = self.table.shared.load::<LookAtDone<L>>(seat, DONE);
            if done == ticket {
                return;
            }
        }
        unreachable!()
    }

    /// Takes a turn once no other goes on, and returns with the value in the seat's hands.
    pub(crate) fn take_turn<R: Wait>(&self, rt: &R, seat: &mut TurnSeat<T>)
        requires own { (seat.old.table_id ≡ self.now.table.shared.table_id) × (seat.old.me.0.ticket ≡ None) × (seat.old.me.0.turn ≡ false) × (seat.old.me.0.stage ≡ Named) × (seat.old.me.1 ≡ []) }
        ensures own { seat.new.table_id ≡ seat.old.table_id }
        ensures turn { (n : ℕ) × TurnCame T.terms (StandsAt T.stands T.came) T.legal T.awaited self.now.limit (ticketed seat.old.me.0 n, []) seat.new.me }
    {
        let ticket = self.draw(rt, seat);
        self.wait_turn::<Brand, R>(rt, seat, ticket);
    }

    /// How many calls the value in the seat's hands has answered, and whether it awaits the end of one.
    pub(crate) fn look(&self, seat: &mut TurnSeat<T>) -> (u64, bool)
        requires own { seat.old.table_id ≡ self.now.table.shared.table_id }
        requires value { HasInHand T.terms (StandsAt T.stands T.came) T.legal T.awaited seat.old.me seat.old.me.0.found seat.old.me.0.found_moments seat.old.me.0.lent }
        ensures own { (seat.new.table_id ≡ seat.old.table_id) × (seat.new.me.0 ≡ seat.old.me.0) }
        ensures value { HasInHand T.terms (StandsAt T.stands T.came) T.legal T.awaited seat.new.me seat.new.me.0.found seat.new.me.0.found_moments seat.new.me.0.lent }
        ensures calls { result.0 ≡ length seat.new.me.0.found }
        ensures awaits { result.1 ≡ is_some seat.new.me.0.lent }
    {
        match seat.slot_mut(&self.table.shared, VALUE) {
            Some(behind) => (behind.calls, behind.value.awaits()),
            None => unreachable!(),
        }
    }

    /// Answers a call of the value in the seat's hands, and tells what the value is behind the step. It stays in its slot:
    /// nothing of it is moved.
    pub(crate) fn step(&self, seat: &mut TurnSeat<T>, ask: Ask) -> (Result<Reply, Ask>, Snapshot<T>)
        requires own { seat.old.table_id ≡ self.now.table.shared.table_id }
        requires proper { IsTrue (is_proper ask) }
        requires value { HasInHand T.terms (StandsAt T.stands T.came) T.legal T.awaited seat.old.me seat.old.me.0.found seat.old.me.0.found_moments seat.old.me.0.lent }
        requires below { length seat.old.me.0.found < self.now.limit }
        ensures own { (seat.new.table_id ≡ seat.old.table_id) × (seat.new.me.0 ≡ seat.old.me.0) }
        ensures replied { IfOk result.0 (λ r. HasInHand T.terms (StandsAt T.stands T.came) T.legal T.awaited seat.new.me (entry ask r ∷ seat.new.me.0.found) (T.moment result.1.value ∷ seat.new.me.0.found_moments) seat.new.me.0.lent) }
        ensures busy { IfErr result.0 (λ again. (again ≡ ask)
            × HasInHand T.terms (StandsAt T.stands T.came) T.legal T.awaited seat.new.me seat.new.me.0.found seat.new.me.0.found_moments seat.new.me.0.lent
            × (seat.new.me.0.lent ≢ None)) }
    {
        match seat.slot_mut(&self.table.shared, VALUE) {
            Some(behind) => {
                let stepped = behind.value.step(ask);
                if let Ok(_) = &stepped {
                    behind.calls += 1;
                }
                let now = Snapshot::of(&behind.value);
                (stepped, now)
            }
            None => unreachable!(),
        }
    }

    /// Begins a call of the value in the seat's hands, and tells what the value is behind the step. It stays in its slot:
    /// nothing of it is moved.
    pub(crate) fn begin(&self, seat: &mut TurnSeat<T>, ask: Ask) -> (Begun<T::Work>, Snapshot<T>)
        requires own { seat.old.table_id ≡ self.now.table.shared.table_id }
        requires proper { IsTrue (is_proper ask) }
        requires value { HasInHand T.terms (StandsAt T.stands T.came) T.legal T.awaited seat.old.me seat.old.me.0.found seat.old.me.0.found_moments seat.old.me.0.lent }
        requires below { length seat.old.me.0.found < self.now.limit }
        ensures own { (seat.new.table_id ≡ seat.old.table_id) × (seat.new.me.0 ≡ seat.old.me.0) }
        ensures replied { IfReplied result.0 (λ r. HasInHand T.terms (StandsAt T.stands T.came) T.legal T.awaited seat.new.me (entry ask r ∷ seat.new.me.0.found) (T.moment result.1.value ∷ seat.new.me.0.found_moments) seat.new.me.0.lent) }
        ensures apart { IfApart result.0 (λ work. (seat.new.me.0.lent ≡ None) × T.is_for work ask
            × HasInHand T.terms (StandsAt T.stands T.came) T.legal T.awaited seat.new.me seat.new.me.0.found seat.new.me.0.found_moments (Some (T.mark work))) }
        ensures busy { IfBusy result.0 (λ again. (again ≡ ask)
            × HasInHand T.terms (StandsAt T.stands T.came) T.legal T.awaited seat.new.me seat.new.me.0.found seat.new.me.0.found_moments seat.new.me.0.lent
            × (seat.new.me.0.lent ≢ None)) }
    {
        match seat.slot_mut(&self.table.shared, VALUE) {
            Some(behind) => {
                let begun = behind.value.begin(ask);
                if let Begun::Replied(_) = &begun {
                    behind.calls += 1;
                }
                let now = Snapshot::of(&behind.value);
                (begun, now)
            }
            None => unreachable!(),
        }
    }

    /// Ends a call of the value in the seat's hands, and tells what the value is behind the step.
    pub(crate) fn end(&self, seat: &mut TurnSeat<T>, work: T::Work) -> (Reply, Snapshot<T>)
        requires own { seat.old.table_id ≡ self.now.table.shared.table_id }
        requires value { HasInHand T.terms (StandsAt T.stands T.came) T.legal T.awaited seat.old.me seat.old.me.0.found seat.old.me.0.found_moments (Some (T.mark work)) }
        requires below { length seat.old.me.0.found < self.now.limit }
        // The work was done before, in no turn.
        requires is_done { T.is_done work }
        ensures own { (seat.new.table_id ≡ seat.old.table_id) × (seat.new.me.0 ≡ seat.old.me.0) }
        ensures ended { (ask : asks.Ask) → T.is_for work ask
            → HasInHand T.terms (StandsAt T.stands T.came) T.legal T.awaited seat.new.me (entry ask result.0 ∷ seat.new.me.0.found) (T.moment result.1.value ∷ seat.new.me.0.found_moments) None }
    {
        match seat.slot_mut(&self.table.shared, VALUE) {
            Some(behind) => {
                let reply = behind.value.end(work);
                behind.calls += 1;
                let after = Snapshot::of(&behind.value);
                (reply, after)
            }
            None => unreachable!(),
        }
    }

    /// Takes the value out.
    pub(crate) fn take_out(&self, mut seat: TurnSeat<T>) -> T
        requires own { seat.table_id ≡ self.now.table.shared.table_id }
        requires holds { (x : Behind T) × (seat.me.1 ≡ (0, Some x) ∷ []) }
        ensures value { (calls : ℕ) × (seat.me.1 ≡ (0, Some (record { value = result; calls = calls })) ∷ []) }
    {
        self.table
            .shared
            .exchange(&mut seat, VALUE, None)
            .unwrap()
            .into_parts()
            .0
    }

    /// Ends a call: the history gets its entry, with the moment of the value behind the call, and another turn
    /// may begin.
    pub(crate) fn finish<E: Told>(
        &self,
        seat: &mut TurnSeat<T>,
        ask: &Snapshot<Ask>,
        reply: &Reply,
        behind: &Snapshot<T>,
    )
        requires own { seat.old.table_id ≡ self.now.table.shared.table_id }
        requires told { (E.told ≡ entry ask.now.value reply.now) × (E.moment ≡ T.moment behind.now.value) }
        requires turn { (seat.old.me.0.turn ≡ true) × (seat.old.me.0.stage ≡ Named) }
        requires value { HasInHand T.terms (StandsAt T.stands T.came) T.legal T.awaited seat.old.me (E.told ∷ seat.old.me.0.found) (E.moment ∷ seat.old.me.0.found_moments) (left_awaited seat.old.me.0.held seat.old.me.0.lent) }
        requires below { length seat.old.me.0.found < self.now.limit }
        requires room { left_awaited seat.old.me.0.held seat.old.me.0.lent ≢ None → length seat.old.me.0.found + 1 < self.now.limit }
        ensures own { (seat.new.table_id ≡ seat.old.table_id) × (seat.new.me.1 ≡ []) }
        ensures told { seat.new.me.0 ≡ finished seat.old.me.0 E.told E.moment }
        ensures sound { Sound seat.new.me.0 × (length seat.new.me.0.mine ≤ length seat.new.me.0.seen) }
    {
        self.table.shared.fetch_add::<Finish<E>>(seat, DONE, 1);
        self.wake_one(seat);
    }

    /// Ends a turn in which a call began that has work to do apart. The seat has the mark of the work from then on.
    pub(crate) fn set_apart(&self, seat: &mut TurnSeat<T>, work: &T::Work)
        requires own { seat.old.table_id ≡ self.now.table.shared.table_id }
        requires turn { (seat.old.me.0.turn ≡ true) × (seat.old.me.0.stage ≡ Named) × (seat.old.me.0.lent ≡ None) }
        requires value { HasInHand T.terms (StandsAt T.stands T.came) T.legal T.awaited seat.old.me seat.old.me.0.found seat.old.me.0.found_moments (Some (T.mark work.now)) }
        requires below { length seat.old.me.0.found < self.now.limit }
        ensures own { seat.new.table_id ≡ seat.old.table_id }
        ensures view { seat.new.me ≡ (passed seat.old.me.0 (Some (T.mark work.now)), []) }
    {
        self.table.shared.fetch_add::<SetApart>(seat, DONE, 1);
        self.wake_one(seat);
    }

    /// Ends a turn in which no call began or ended.
    pub(crate) fn pass_on(&self, seat: &mut TurnSeat<T>)
        requires own { seat.old.table_id ≡ self.now.table.shared.table_id }
        requires turn { (seat.old.me.0.turn ≡ true) × (seat.old.me.0.stage ≡ Named) × (seat.old.me.0.held ≡ None) }
        requires value { HasInHand T.terms (StandsAt T.stands T.came) T.legal T.awaited seat.old.me seat.old.me.0.found seat.old.me.0.found_moments seat.old.me.0.lent }
        ensures own { seat.new.table_id ≡ seat.old.table_id }
        ensures view { seat.new.me ≡ (passed seat.old.me.0 None, []) }
    {
        self.table.shared.fetch_add::<PassOn>(seat, DONE, 1);
        self.wake_one(seat);
    }

    /// Ends a turn that found the limit reached.
    pub(crate) fn refuse(&self, seat: &mut TurnSeat<T>)
        requires own { seat.old.table_id ≡ self.now.table.shared.table_id }
        requires turn { (seat.old.me.0.turn ≡ true) × (seat.old.me.0.stage ≡ Named) × (seat.old.me.0.held ≡ None) }
        requires value { HasInHand T.terms (StandsAt T.stands T.came) T.legal T.awaited seat.old.me seat.old.me.0.found seat.old.me.0.found_moments seat.old.me.0.lent }
        ensures own { seat.new.table_id ≡ seat.old.table_id }
        ensures view { seat.new.me ≡ (refused seat.old.me.0, []) }
    {
        self.table.shared.fetch_add::<Refuse>(seat, DONE, 1);
        self.wake_one(seat);
    }

    /// Cuts a seat in two: the new one has seen the same and made no call, and has one of the parts.
    pub fn split(&self, seat: &mut TurnSeat<T>) -> TurnSeat<T>
        requires own { (seat.old.table_id ≡ self.now.table.shared.table_id) × IsIdle seat.old.me.0 × (seat.old.me.1 ≡ []) }
        ensures same { (seat.new.table_id ≡ seat.old.table_id) × (seat.new.me ≡ (parted seat.old.me.0, [])) }
        ensures new { (result.table_id ≡ seat.old.table_id) × (result.me ≡ (beside seat.old.me.0, [])) }
    {
        self.table.shared.split_seat::<Cut>(seat)
    }

    /// Makes one seat of two. The look after it shows what the rule says of both.
    pub fn join(&self, seat: &mut TurnSeat<T>, other: TurnSeat<T>)
        requires own { (seat.old.table_id ≡ self.now.table.shared.table_id) × IsIdle seat.old.me.0 × (seat.old.me.1 ≡ []) }
        requires other { (other.table_id ≡ self.now.table.shared.table_id) × IsIdle other.me.0 × (other.me.1 ≡ []) }
        ensures own { (seat.new.table_id ≡ seat.old.table_id) × (seat.new.me ≡ (joined seat.old.me.0 other.me.0, [])) }
        ensures sound { Sound seat.new.me.0 × (length seat.new.me.0.mine ≤ seat.new.me.0.limit) }
    {
        self.table.shared.join_seat::<Glue>(seat, other);
        self.table.shared.load::<Check>(seat, DONE);
    }
}
