ghost use Rattle.std.specs.Prelude.{◌≡◌, ◌≢◌, ℕ, List, [], ◌∷◌, Option, Some, None, is_some, IsTrue, IfOk, IfErr};
ghost use Rattle.ocm_entry.specs.Proper.{is_proper};
ghost use Rattle.ocm_entry.specs.declared.asks.Ask as asks;
ghost use Rattle.ocm_entry.specs.declared.entries.Entry.{Entry};
ghost use Rattle.ocm_turn.specs.Begun.{IfReplied, IfApart, IfBusy, IsNoReply};
ghost use Rattle.ocm_turn.specs.Calls.{entry};

use ocm_entry::{Ask, Object, Reply};

/// What a value makes of an ask in a turn.
pub enum Begun<W> {
    /// The reply. The call is over.
    Replied(Reply),
    /// What has to be done outside of the value's turns before the call ends.
    Apart(W),
    /// The call has to wait for another's work. The ask comes back, and nothing happened.
    Busy(Ask),
}

/// An object that answers a call in one turn, or in two with work of its own between them, as a write that takes long.
/// While it waits for the work of a call it answers other calls, as if that call had not begun.
///
/// Each call is tied to the moment at which it was over. A moment is a number, and what it counts is the implementation's
/// to say, as whether it ever falls. So is what a value that came to be by calls, with a moment behind each, has to do with
/// these moments.
pub trait Dated: Object {
    /// What a call does outside of the value's turns.
    type Work;

    /// What tells one piece of work from another. No value of it is made; contracts speak of it.
    type Mark;

    // The moment of what the value writes.
    ghost moment: { Self → ℕ };

    // Whether a value came to be what it is by these calls since the base, with these moments behind them: as many moments
    // as calls, the newest first.
    ghost came: { Self → List Entry → List Entry → List ℕ → Type 0 };

    // The mark of the work for which the value waits, if any.
    ghost awaited: { Self → Option Self.Mark };

    // The mark of a piece of work.
    ghost mark: { Self.Work → Self.Mark };

    // Whether a piece of work is that of a call with this ask.
    ghost is_for: { Self.Work → asks.Ask → Type 0 };

    // Whether a piece of work is done, well or badly.
    ghost is_done: { Self.Work → Type 0 };

    /// Whether a call with this ask may need work, or may have to wait for another's. It is a guess: a call that is taken to need
    /// none is answered by `step`, and any other is begun.
    fn may_wait(ask: &Ask) -> bool;

    /// Whether the value waits for the work of a call.
    fn awaits(&self) -> bool
        ensures { result ≡ is_some (awaited self.now) };

    /// Answers a call within one turn. An `Err` gives the ask back: it has to wait for another's work, and nothing happened.
    fn step(&mut self, ask: Ask) -> Result<Reply, Ask>
        requires proper { IsTrue (is_proper ask) }
        ensures terms { Self.terms self.new ≡ Self.terms self.old }
        ensures replied { IfOk result (λ r. (awaited self.new ≡ awaited self.old)
            × ((k h : List Entry) → Self.stands self.old k h → Self.legal (Self.terms self.old) k h → Self.stands self.new k (entry ask r ∷ h) × Self.legal (Self.terms self.old) k (entry ask r ∷ h)
            × ((moments : List ℕ) → came self.old k h moments → came self.new k (entry ask r ∷ h) (moment self.new ∷ moments)))) }
        ensures busy { IfErr result (λ again. (again ≡ ask) × (awaited self.new ≡ awaited self.old) × (awaited self.old ≢ None)) }
        ensures stays { IfErr result (λ again. (k h : List Entry) → Self.stands self.old k h → Self.legal (Self.terms self.old) k h → Self.stands self.new k h
            × ((moments : List ℕ) → came self.old k h moments → came self.new k h moments)) };

    /// Begins a call, and ends it where it needs no work.
    fn begin(&mut self, ask: Ask) -> Begun<Self::Work>
        requires proper { IsTrue (is_proper ask) }
        ensures terms { Self.terms self.new ≡ Self.terms self.old }
        ensures replied { IfReplied result (λ r. (awaited self.new ≡ awaited self.old)
            × ((k h : List Entry) → Self.stands self.old k h → Self.legal (Self.terms self.old) k h → Self.stands self.new k (entry ask r ∷ h) × Self.legal (Self.terms self.old) k (entry ask r ∷ h)
            × ((moments : List ℕ) → came self.old k h moments → came self.new k (entry ask r ∷ h) (moment self.new ∷ moments)))) }
        ensures apart { IfApart result (λ work. (awaited self.old ≡ None) × (awaited self.new ≡ Some (mark work)) × is_for work ask) }
        ensures busy { IfBusy result (λ again. (again ≡ ask) × (awaited self.new ≡ awaited self.old) × (awaited self.old ≢ None)) }
        ensures stays { IsNoReply result → (k h : List Entry) → Self.stands self.old k h → Self.legal (Self.terms self.old) k h → Self.stands self.new k h
            × ((moments : List ℕ) → came self.old k h moments → came self.new k h moments) };

    /// Does the work of a call, in no turn.
    fn carry_out(work: &mut Self::Work)
        ensures mark { mark work.new ≡ mark work.old }
        ensures is_for { (ask : asks.Ask) → is_for work.old ask → is_for work.new ask }
        ensures is_done { is_done work.new };

    /// Ends a call whose work is done.
    fn end(&mut self, work: Self::Work) -> Reply
        requires awaited { awaited self.old ≡ Some (mark work) }
        ensures terms { (ask : asks.Ask) → is_for work ask → Self.terms self.new ≡ Self.terms self.old }
        ensures awaited { awaited self.new ≡ None }
        ensures ended { (ask : asks.Ask) → is_for work ask → (k h : List Entry) → Self.stands self.old k h → Self.legal (Self.terms self.old) k h
            → Self.stands self.new k (entry ask result ∷ h) × Self.legal (Self.terms self.old) k (entry ask result ∷ h)
            × ((moments : List ℕ) → came self.old k h moments → came self.new k (entry ask result ∷ h) (moment self.new ∷ moments)) };

    // A value that stands for a base alone came to be by no calls.
    ghost begins: { (value : Self) (k : List Entry) → Self.stands value k [] → came value k [] [] };
}
