//! Calls at the table behind a turnstile: each takes turns until it is over.
ghost use Rattle.std.specs.Prelude.{◌≡◌, ℕ, ◌+◌, ◌<◌, ◌≤◌, List, [], Option, Some, None, IfOk, OnOk, OnErr, IsTrue, true, length};
ghost use Rattle.ocm_entry.specs.Proper.{is_proper};
ghost use Rattle.ocm_entry.specs.declared.entries.Entry.{Entry};
ghost use Rattle.ocm_turn.specs.Begun.{IfOver, IfRefused, IfAgain};
ghost use Rattle.ocm_turn.specs.Calls.{entry, IsOlderPart, StandIn, InOrder};
ghost use Rattle.ocm_turn.specs.Passes.{all_parts};
ghost use Rattle.ocm_turn.specs.Rule.{IsIdle};
ghost use Rattle.ocm_turn.specs.Steps.{refused, settled, spent_at, HasInHand, HasCalled, IsLegal, StandsAt, Sound};
ghost use Rattle.ocm_turn.specs.declared.view.Stage.TheVariants.{Named};

use crate::board::{TurnSeat, TurnTable};
use crate::dated::{Begun, Dated};
use crate::turnstile::Spent;
use ocm_entry::{Ask, Reply};
use std::marker::Brand;
use std::snapshot::Snapshot;
use std::sync::Wait;

/// What a try at a call came to.
enum Tried {
    /// The reply. The call is over.
    Over(Reply),
    /// The limit is reached.
    Refused,
    /// The call has to wait for another's work. The ask comes back, and nothing happened.
    Again(Ask),
}

impl<T: Dated> TurnTable<T> {
    /// One call: takes turns until it is over, or until one finds the limit reached.
    pub fn call<R: Wait>(&self, rt: &R, seat: &mut TurnSeat<T>, ask: Ask) -> Result<Reply, Spent>
        requires own { (seat.old.table_id ≡ self.now.table.shared.table_id) × IsIdle seat.old.me.0 × (seat.old.me.1 ≡ []) }
        requires proper { IsTrue (is_proper ask) }
        ensures own { (seat.new.table_id ≡ seat.old.table_id) × IsIdle seat.new.me.0 × (seat.new.me.1 ≡ []) }
        ensures ok { IfOk result (λ r. HasCalled self.now.limit seat.old.me.0 seat.new.me.0 (entry ask r)) }
        ensures legal { OnOk result (IsLegal T.legal seat.new.me.0) }
        ensures sound { OnOk result (Sound seat.new.me.0 × (length seat.new.me.0.mine ≤ length seat.new.me.0.seen)) }
        ensures err { OnErr result ((history : List Entry) × (moments : List ℕ) × (awaited : Option T.Mark) × (seat.new.me.0 ≡ spent_at seat.old.me.0 history moments awaited)
            × (self.now.limit ≤ length history) × (seat.old.me.0.drawn ≤ length history)) }
    {
        let said = Snapshot::of(&ask);
        let mut ask = ask;
        let mut shown = 0;
        let queued = T::may_wait(&ask);
        if queued {
            self.queue(rt, seat);
        }
        for _ in rt.forever() {
            match self.try_once(rt, seat, &said, ask, queued) {
                Tried::Over(reply) => {
                    if queued {
                        self.leave_queue(seat);
                    }
                    return Ok(reply);
                }
                Tried::Refused => {
                    if queued {
                        self.leave_queue(seat);
                    }
                    return Err(Spent);
                }
                Tried::Again(again) => {
                    ask = again;
                    shown = self.wait_home(rt, seat, shown);
                }
            }
        }
        unreachable!()
    }

    /// A try at a call, as it is taken to need work or none.
    fn try_once<R: Wait>(
        &self,
        rt: &R,
        seat: &mut TurnSeat<T>,
        said: &Snapshot<Ask>,
        ask: Ask,
        may_wait: bool,
    ) -> Tried
        requires own { (seat.old.table_id ≡ self.now.table.shared.table_id) × IsIdle seat.old.me.0 × (seat.old.me.1 ≡ []) }
        requires proper { IsTrue (is_proper ask) }
        requires said { said.now.value ≡ ask }
        ensures own { (seat.new.table_id ≡ seat.old.table_id) × IsIdle seat.new.me.0 × (seat.new.me.1 ≡ []) }
        ensures over { IfOver result (λ r. HasCalled self.now.limit seat.old.me.0 seat.new.me.0 (entry ask r)
            × IsLegal T.legal seat.new.me.0 × Sound seat.new.me.0 × (length seat.new.me.0.mine ≤ length seat.new.me.0.seen)) }
        ensures refused { IfRefused result ((history : List Entry) × (moments : List ℕ) × (awaited : Option T.Mark) × (seat.new.me.0 ≡ spent_at seat.old.me.0 history moments awaited)
            × (self.now.limit ≤ length history) × (seat.old.me.0.drawn ≤ length history)) }
        ensures again { IfAgain result (λ again. (again ≡ ask) × (settled seat.new.me.0 ≡ settled seat.old.me.0)) }
    {
        if may_wait {
            self.try_call(rt, seat, said, ask)
        } else {
            self.try_step(rt, seat, said, ask)
        }
    }

    /// A try at a call: takes a turn, and ends the call where it has not to wait for another's work.
    fn try_call<R: Wait>(
        &self,
        rt: &R,
        seat: &mut TurnSeat<T>,
        said: &Snapshot<Ask>,
        ask: Ask,
    ) -> Tried
        requires own { (seat.old.table_id ≡ self.now.table.shared.table_id) × IsIdle seat.old.me.0 × (seat.old.me.1 ≡ []) }
        requires proper { IsTrue (is_proper ask) }
        requires said { said.now.value ≡ ask }
        ensures own { (seat.new.table_id ≡ seat.old.table_id) × IsIdle seat.new.me.0 × (seat.new.me.1 ≡ []) }
        ensures over { IfOver result (λ r. HasCalled self.now.limit seat.old.me.0 seat.new.me.0 (entry ask r)
            × IsLegal T.legal seat.new.me.0 × Sound seat.new.me.0 × (length seat.new.me.0.mine ≤ length seat.new.me.0.seen)) }
        ensures refused { IfRefused result ((history : List Entry) × (moments : List ℕ) × (awaited : Option T.Mark) × (seat.new.me.0 ≡ spent_at seat.old.me.0 history moments awaited)
            × (self.now.limit ≤ length history) × (seat.old.me.0.drawn ≤ length history)) }
        ensures again { IfAgain result (λ again. (again ≡ ask) × (settled seat.new.me.0 ≡ settled seat.old.me.0)) }
    {
        self.take_turn(rt, seat);
        let (calls, awaits) = self.look(seat);
        if calls >= self.limit {
            self.refuse(seat);
            return Tried::Refused;
        }
        // The last place belongs to the call whose end is awaited.
        if awaits && calls + 1 >= self.limit {
            self.pass_on(seat);
            return Tried::Again(ask);
        }
        let (begun, behind) = self.begin(seat, ask);
        match begun {
            Begun::Replied(reply) => {
                self.finish::<Brand>(seat, said, &reply, &behind);
                Tried::Over(reply)
            }
            Begun::Apart(work) => Tried::Over(self.go_apart(rt, seat, said, work)),
            Begun::Busy(again) => {
                self.pass_on(seat);
                Tried::Again(again)
            }
        }
    }

    /// A try at a call that is taken to need no work: it is answered within its turn, unless it has to wait for another's.
    fn try_step<R: Wait>(
        &self,
        rt: &R,
        seat: &mut TurnSeat<T>,
        said: &Snapshot<Ask>,
        ask: Ask,
    ) -> Tried
        requires own { (seat.old.table_id ≡ self.now.table.shared.table_id) × IsIdle seat.old.me.0 × (seat.old.me.1 ≡ []) }
        requires proper { IsTrue (is_proper ask) }
        requires said { said.now.value ≡ ask }
        ensures own { (seat.new.table_id ≡ seat.old.table_id) × IsIdle seat.new.me.0 × (seat.new.me.1 ≡ []) }
        ensures over { IfOver result (λ r. HasCalled self.now.limit seat.old.me.0 seat.new.me.0 (entry ask r)
            × IsLegal T.legal seat.new.me.0 × Sound seat.new.me.0 × (length seat.new.me.0.mine ≤ length seat.new.me.0.seen)) }
        ensures refused { IfRefused result ((history : List Entry) × (moments : List ℕ) × (awaited : Option T.Mark) × (seat.new.me.0 ≡ spent_at seat.old.me.0 history moments awaited)
            × (self.now.limit ≤ length history) × (seat.old.me.0.drawn ≤ length history)) }
        ensures again { IfAgain result (λ again. (again ≡ ask) × (settled seat.new.me.0 ≡ settled seat.old.me.0)) }
    {
        self.take_turn(rt, seat);
        let (calls, awaits) = self.look(seat);
        if calls >= self.limit {
            self.refuse(seat);
            return Tried::Refused;
        }
        if awaits && calls + 1 >= self.limit {
            self.pass_on(seat);
            return Tried::Again(ask);
        }
        let (stepped, behind) = self.step(seat, ask);
        match stepped {
            Ok(reply) => {
                self.finish::<Brand>(seat, said, &reply, &behind);
                Tried::Over(reply)
            }
            Err(again) => {
                self.pass_on(seat);
                Tried::Again(again)
            }
        }
    }

    /// Does the work of a call that was begun, in no turn, and ends the call in a turn of its own.
    fn go_apart<R: Wait>(
        &self,
        rt: &R,
        seat: &mut TurnSeat<T>,
        said: &Snapshot<Ask>,
        work: T::Work,
    ) -> Reply
        requires own { seat.old.table_id ≡ self.now.table.shared.table_id }
        requires turn { (seat.old.me.0.turn ≡ true) × (seat.old.me.0.stage ≡ Named) × (seat.old.me.0.lent ≡ None) }
        requires work { T.is_for work said.now.value }
        requires value { HasInHand T.terms (StandsAt T.stands T.came) T.legal T.awaited seat.old.me seat.old.me.0.found seat.old.me.0.found_moments (Some (T.mark work)) }
        requires below { length seat.old.me.0.found < self.now.limit }
        ensures own { (seat.new.table_id ≡ seat.old.table_id) × (seat.new.me.1 ≡ []) }
        ensures called { HasCalled self.now.limit seat.old.me.0 seat.new.me.0 (entry said.now.value result) }
        ensures legal { IsLegal T.legal seat.new.me.0 }
        ensures sound { Sound seat.new.me.0 × (length seat.new.me.0.mine ≤ length seat.new.me.0.seen) }
    {
        let mut work = work;
        self.set_apart(seat, &work);
        T::carry_out(&mut work);
        self.take_turn(rt, seat);
        let (reply, behind) = self.end(seat, work);
        self.finish::<Brand>(seat, said, &reply, &behind);
        self.call_home(seat);
        reply
    }

    /// The last turn, which is no call: takes the value out for good once it awaits nothing, and answers the number of
    /// calls.
    pub fn take_last<R: Wait>(&self, rt: &R, mut seat: TurnSeat<T>) -> (T, u64)
        requires own { (seat.table_id ≡ self.now.table.shared.table_id) × IsIdle seat.me.0 × (seat.me.1 ≡ []) }
        ensures terms { seat.me.0.terms ≡ Some (T.terms result.0) }
        ensures home { T.awaited result.0 ≡ None }
        ensures history { (history : List Entry) × (moments : List ℕ) × StandsAt T.stands T.came result.0 seat.me.0.base history moments × T.legal (T.terms result.0) seat.me.0.base history
            × IsOlderPart seat.me.0.seen history × (result.1 ≡ length history) × StandIn history seat.me.0.mine × IsOlderPart seat.me.0.moments moments × (length moments ≡ length history) }
        ensures order { InOrder seat.me.0.mine }
        ensures whole { seat.me.0.parts ≡ all_parts → length seat.me.0.mine ≡ result.1 }
        ensures drawn { seat.me.0.drawn ≤ result.1 }
        ensures limit { result.1 ≤ self.now.limit }
    {
        let calls = self.wait_alone(rt, &mut seat);
        (self.take_out(seat), calls)
    }

    /// Takes turns until the value awaits nothing, and answers how many calls it has answered.
    fn wait_alone<R: Wait>(&self, rt: &R, seat: &mut TurnSeat<T>) -> u64
        requires own { (seat.old.table_id ≡ self.now.table.shared.table_id) × IsIdle seat.old.me.0 × (seat.old.me.1 ≡ []) }
        ensures own { seat.new.table_id ≡ seat.old.table_id }
        ensures calls { result ≡ length seat.new.me.0.found }
        ensures home { seat.new.me.0.lent ≡ None }
        ensures value { HasInHand T.terms (StandsAt T.stands T.came) T.legal T.awaited seat.new.me seat.new.me.0.found seat.new.me.0.found_moments seat.new.me.0.lent }
        ensures same { settled seat.new.me.0 ≡ settled seat.old.me.0 }
        ensures history { IsOlderPart seat.old.me.0.seen seat.new.me.0.found × IsOlderPart seat.old.me.0.moments seat.new.me.0.found_moments × (length seat.new.me.0.found_moments ≡ length seat.new.me.0.found)
            × StandIn seat.new.me.0.found seat.old.me.0.mine × InOrder seat.old.me.0.mine × (seat.old.me.0.drawn ≤ length seat.new.me.0.found) × (length seat.new.me.0.found ≤ self.now.limit) }
        ensures whole { seat.old.me.0.parts ≡ all_parts → length seat.old.me.0.mine ≡ length seat.new.me.0.found }
    {
        for _ in rt.forever() {
            self.take_turn(rt, seat);
            let (calls, awaits) = self.look(seat);
            if !awaits {
                return calls;
            }
            self.pass_on(seat);
        }
        unreachable!()
    }
}
