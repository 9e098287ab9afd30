ghost use Rattle.std.specs.Prelude.{◌≡◌, ℕ, ◌<◌, ◌≤◌, ◌^◌, List, [], ◌∷◌, None, IfOk, IfErr, OnOk, OnErr, IsOkAnd, IsTrue, length, max, ◌+◌, ◌-◌};
ghost use Rattle.ocm_entry.specs.Proper.{is_proper};
ghost use Rattle.ocm_entry.specs.declared.entries.Entry.{Entry};
ghost use Rattle.ocm_turn.specs.Calls.{entry, call, IsOlderPart, StandIn, InOrder, longer, moments_of_longer, merged};
ghost use Rattle.ocm_turn.specs.Passes.{BelongsTo, SameGround, all_parts};

use crate::board::TurnTable;
use crate::dated::Dated;
use crate::pass::Pass;
use crate::rule::Founded;
use ocm_base::NoMemory;
use ocm_entry::{Ask, Reply};
use std::alloc::Global;
use std::marker::Model;
use std::sync::Wait;

/// The limit of calls is reached.
#[derive(Clone, Copy, Debug, PartialEq, Eq)]
pub struct Spent;

/// The value that stood behind a turnstile, and how many calls were made of it.
#[derive(Drop)]
pub struct Shut<T> {
    pub value: T,
    pub calls: u64,
}

/// A value that many threads call, one after another.
///
/// Each call waits until no turn goes on, and takes one. One that has work to do apart takes a second turn
/// behind it, and one that has to wait for another's work takes its turn anew. Whatever order the callers
/// come in, all replies are those of one legal history. Threads share a turnstile by reference, and each has
/// a [`Pass`] of its own.
pub struct Turnstile<T: Dated> {
    board: TurnTable<T>,
}

impl<T: Dated + Drop> Drop for Turnstile<T> {
    fn drop(self) {
        let Turnstile { board: _ } = self;
    }
}

impl<T: Dated> Model for Turnstile<T> {
    ghost use Rattle.ocm_turn.specs.Passes.{Gate};

    ghost Value = { Gate };

    ghost view = { λ t. record { id = t.board.table.shared.table_id; limit = t.board.limit } };
}

impl<T: Dated> Turnstile<T> {
    /// A turnstile in front of the value, for `limit` calls, and its first pass. Where memory is
    /// wanting the value comes back.
    pub fn make<J: Founded>(
        alloc: Global,
        value: T,
        limit: u64,
    ) -> Result<(Turnstile<T>, Pass<T>), T>
        requires limit { (1 ≤ limit) × (limit ≤ 2 ^ 63) }
        requires value { (base : List Entry) × J.known base × T.stands value base [] × T.legal (T.terms value) base [] }
        requires home { T.awaited value ≡ None }
        ensures limit { IfOk result (λ r. r.0.limit ≡ limit) }
        ensures own { IfOk result (λ r. BelongsTo r.0 r.1) }
        ensures terms { IfOk result (λ r. r.1.terms ≡ T.terms value) }
        ensures base { IfOk result (λ r. J.known r.1.base × T.stands value r.1.base [] × T.legal r.1.terms r.1.base []) }
        ensures new { IfOk result (λ r. (r.1.seen ≡ []) × (r.1.moments ≡ []) × (r.1.mine ≡ []) × (r.1.drawn ≡ 0)) }
        ensures whole { IfOk result (λ r. r.1.parts ≡ all_parts) }
        ensures err { IfErr result (λ v. v ≡ value) }
    {
        match TurnTable::make::<J>(alloc, value, limit) {
            Ok((board, seat)) => Ok((Turnstile { board }, Pass { seat, calls: 0 })),
            Err(value) => Err(value),
        }
    }

    /// Makes one call of the value: waits for its turns, asks, and answers the reply. The pass knows the
    /// history up to it from then on, and the moment behind it. `Spent` says that the limit is reached, and
    /// that nothing happened.
    pub fn call<R: Wait>(&self, rt: &R, pass: &mut Pass<T>, ask: Ask) -> Result<Reply, Spent>
        requires own { BelongsTo self.now pass.old }
        requires proper { IsTrue (is_proper ask) }
        ensures ground { SameGround pass.old pass.new × (pass.new.parts ≡ pass.old.parts) }
        ensures seen { IfOk result (λ r. (before : List Entry) × (pass.new.seen ≡ entry ask r ∷ before)
            × IsOlderPart pass.old.seen before × (length before ≡ pass.new.drawn)) }
        ensures legal { T.legal pass.new.terms pass.new.base pass.new.seen }
        ensures mine { IfOk result (λ r. pass.new.mine ≡ call pass.new.drawn (entry ask r) ∷ pass.old.mine) }
        ensures stand { StandIn pass.new.seen pass.new.mine × InOrder pass.new.mine }
        ensures below { OnOk result (pass.new.drawn < self.now.limit) }
        ensures spent { OnErr result (self.now.limit ≤ pass.new.drawn) }
        ensures nothing { OnErr result ((pass.new.seen ≡ pass.old.seen) × (pass.new.mine ≡ pass.old.mine)) }
        ensures drawn { pass.old.drawn ≤ pass.new.drawn }
        // The moment behind the call stands in front of those behind the earlier ones.
        ensures moments { IfOk result (λ r. (at : ℕ) × (earlier : List ℕ) × (pass.new.moments ≡ at ∷ earlier) × IsOlderPart pass.old.moments earlier) }
        ensures paired { length pass.new.moments ≡ length pass.new.seen }
        ensures no_moment { OnErr result (pass.new.moments ≡ pass.old.moments) }
    {
        let reply = self.board.call(rt, &mut pass.seat, ask)?;
        pass.calls += 1;
        Ok(reply)
    }

    /// A pass for another caller, which knows what this one knows and has made no call. This one gives
    /// it one of its parts; where it has no more than one, that one is lost, and no pass of the turnstile
    /// has all parts ever again. It takes no memory, and so never answers [`NoMemory`].
    pub fn split(&self, pass: &mut Pass<T>) -> Result<Pass<T>, NoMemory>
        requires own { BelongsTo self.now pass.old }
        ensures same { pass.new ≡ record pass.old { parts = pass.old.parts - 1 } }
        ensures own { IsOkAnd result (λ p. BelongsTo self.now p) }
        ensures ground { IfOk result (λ p. SameGround pass.old p) }
        ensures new { IfOk result (λ p. (p.seen ≡ pass.old.seen) × (p.moments ≡ pass.old.moments) × (p.mine ≡ []) × (p.drawn ≡ pass.old.drawn)) }
        ensures part { 1 < pass.old.parts → IfOk result (λ p. p.parts ≡ 1) }
    {
        let seat = self.board.split(&mut pass.seat);
        Ok(Pass { seat, calls: 0 })
    }

    /// One pass of two, which knows what both knew, has made the calls of both and has the parts of both.
    pub fn join(&self, pass: &mut Pass<T>, other: Pass<T>)
        requires own { BelongsTo self.now pass.old × BelongsTo self.now other }
        ensures ground { SameGround pass.old pass.new }
        ensures other { SameGround other pass.new }
        ensures seen { pass.new.seen ≡ longer pass.old.seen other.seen }
        ensures older { IsOlderPart pass.old.seen pass.new.seen × IsOlderPart other.seen pass.new.seen }
        ensures moments { pass.new.moments ≡ moments_of_longer pass.old.seen other.seen pass.old.moments other.moments }
        ensures older_moments { IsOlderPart pass.old.moments pass.new.moments × IsOlderPart other.moments pass.new.moments }
        ensures legal { T.legal pass.new.terms pass.new.base pass.new.seen }
        ensures mine { pass.new.mine ≡ merged pass.old.mine other.mine }
        ensures stand { StandIn pass.new.seen pass.new.mine × InOrder pass.new.mine }
        ensures drawn { pass.new.drawn ≡ max pass.old.drawn other.drawn }
        ensures parts { pass.new.parts ≡ pass.old.parts + other.parts }
    {
        let Pass { seat, calls } = other;
        self.board.join(&mut pass.seat, seat);
        pass.calls += calls;
    }

    /// The end: waits until the value awaits no call, and gives it back. A pass that has all parts made
    /// all calls.
    pub fn close<R: Wait>(self, rt: &R, pass: Pass<T>) -> Shut<T>
        requires own { BelongsTo self pass }
        ensures terms { T.terms result.value ≡ pass.terms }
        ensures home { T.awaited result.value ≡ None }
        ensures history { (history : List Entry) × T.stands result.value pass.base history × T.legal pass.terms pass.base history
            × IsOlderPart pass.seen history × StandIn history pass.mine × (result.calls ≡ length history)
            × (moments : List ℕ) × T.came result.value pass.base history moments × IsOlderPart pass.moments moments × (length moments ≡ length history) }
        ensures order { InOrder pass.mine }
        ensures whole { pass.parts ≡ all_parts → length pass.mine ≡ result.calls }
        ensures drawn { pass.drawn ≤ result.calls }
        ensures limit { result.calls ≤ self.limit }
    {
        let Pass { seat, calls: _ } = pass;
        let (value, calls) = self.board.take_last(rt, seat);
        Shut { value, calls }
    }
}
