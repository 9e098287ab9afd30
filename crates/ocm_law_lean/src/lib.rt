//! A lean list of what a server keeps decides all that the whole list decides: each law is the
//! contract of a function that does nothing.
//!
//! Histories stand newest first. The lean list of a history is what is kept of it, without each tick
//! that another tick follows at once, and with the body of each PUT that no longer stands left empty.
#![tactic(auto)]

ghost use Rattle.std.specs.Prelude.{◌≡◌, ◌∷◌, ℕ, List};
ghost use Rattle.ocm_entry.specs.declared.asks.Ask.{Ask};
ghost use Rattle.ocm_entry.specs.declared.entries.Entry.{Entry};
ghost use Rattle.ocm_rules.specs.History.{IsAnswered, IsLegal, answer, kept};
ghost use Rattle.ocm_rules.specs.Lean.{count, lean};
ghost use Rattle.ocm_rules.specs.Messages.{view_of};
ghost use Rattle.ocm_rules.specs.Shares.{is_live, made};

/// The lean list of a legal history is kept whole: each of its entries changes something after those
/// before it.
pub fn lean_lists_are_kept()
    ensures { (host : List ℕ) (g : List Entry) → IsLegal host g → kept host (lean host g) ≡ lean host g }
{}

/// The replies in the lean list of a legal history are the answers after the entries before them.
pub fn lean_lists_are_answered()
    ensures { (host : List ℕ) (g : List Entry) → IsLegal host g → IsAnswered host (lean host g) }
{}

/// The lean list of a legal history is a legal history itself.
pub fn lean_lists_are_legal()
    ensures { (host : List ℕ) (g : List Entry) → IsLegal host g → IsLegal host (lean host g) }
{}

/// The lean list of a legal history has nothing more to leave out.
pub fn lean_lists_stay_lean()
    ensures { (host : List ℕ) (g : List Entry) → IsLegal host g → lean host (lean host g) ≡ lean host g }
{}

/// All that is read of a history is read of its lean list, also of a history that no server could have
/// had.
pub fn lean_lists_tell_all_that_is_read()
    ensures { (host : List ℕ) (g : List Entry) → view_of host (lean host g) ≡ view_of host (kept host g) }
{}

/// Histories with the same lean list have the same count.
pub fn lean_lists_decide_the_count()
    ensures { (host : List ℕ) (g other : List Entry) → lean host g ≡ lean host other → count host g ≡ count host other }
{}

/// Histories with the same lean list give the same answer to each ask.
pub fn lean_lists_decide_the_answers()
    ensures { (host : List ℕ) (g other : List Entry) (ask : Ask) → lean host g ≡ lean host other → answer host g ask ≡ answer host other ask }
{}

/// Histories with the same lean list have the same one after each further entry.
pub fn lean_lists_go_on_alike()
    ensures { (host : List ℕ) (g other : List Entry) (e : Entry) → lean host g ≡ lean host other → lean host (e ∷ g) ≡ lean host (e ∷ other) }
{}

/// Histories with the same lean list have the same shares, and the same of them are live.
pub fn lean_lists_decide_the_shares()
    ensures made { (host : List ℕ) (g other : List Entry) → lean host g ≡ lean host other → made host (kept host g) ≡ made host (kept host other) }
    ensures live { (host : List ℕ) (g other : List Entry) (i : ℕ) → lean host g ≡ lean host other → is_live host (kept host g) i ≡ is_live host (kept host other) i }
{}
