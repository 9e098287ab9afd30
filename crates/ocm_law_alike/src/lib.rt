//! Histories that come to the same rows, and to the same files at the same places, are answered alike,
//! now and after any further entries: each law is the contract of a function that does nothing.
//!
//! Histories stand newest first. In which order what stands came, and how many entries there were, no
//! answer depends on.
#![tactic(auto)]

ghost use Rattle.std.specs.Prelude.{◌≡◌, ◌∷◌, ℕ, List};
ghost use Rattle.ocm_entry.specs.declared.asks.Ask.{Ask};
ghost use Rattle.ocm_entry.specs.declared.entries.Entry.{Entry};
ghost use Rattle.ocm_entry.specs.declared.rows.Place.{Place};
ghost use Rattle.ocm_rules.specs.History.{IsAnswered, IsGiven, IsLegal, answer};
ghost use Rattle.ocm_rules.specs.Shares.{moment};
ghost use Rattle.ocm_rules.specs.State.{node_at, state_of};
ghost use Rattle.ocm_law_alike.specs.Alike.{AnswersAlike, AreAlike, IsAlike};
ghost use Rattle.ocm_law_alike.specs.Others.{others};

/// Alike histories give the same answer to each ask.
pub fn alike_histories_give_the_same_answers()
    ensures { (host : List ℕ) (g other : List Entry) (ask : Ask) → IsLegal host g → IsLegal host other → IsAlike host g other → answer host other ask ≡ answer host g ask }
{}

/// Alike histories go on alike by each entry: it is given after both or after none, and they are alike
/// with it.
pub fn alike_histories_go_on_alike()
    ensures given { (host : List ℕ) (g other : List Entry) (e : Entry) → IsLegal host g → IsLegal host other → IsAlike host g other → IsGiven host g e → IsGiven host other e }
    ensures alike { (host : List ℕ) (g other : List Entry) (e : Entry) → IsLegal host g → IsLegal host other → IsAlike host g other → IsAlike host (e ∷ g) (e ∷ other) }
{}

/// So alike histories answer alike, now and after any further entries.
pub fn alike_histories_answer_alike()
    ensures { (host : List ℕ) (g other : List Entry) → IsLegal host g → IsLegal host other → IsAlike host g other → AnswersAlike host g other }
{}

/// The asks that are neither ticks nor for files, each with its moment, the last moment, and what
/// stands at each place decide the lists of kept entries, where each has the reply that the rules give
/// and changed something.
pub fn other_asks_and_places_decide_the_lists()
    ensures { (host : List ℕ) (k other : List Entry) → IsAnswered host k → IsAnswered host other → others k ≡ others other → moment k ≡ moment other
        → ((place : Place) → node_at (state_of host k).nodes place ≡ node_at (state_of host other).nodes place) → AreAlike (state_of host k) (state_of host other) }
{}
