//! What is kept in memory of each entry, and the lean list: a law, the contract of a function that does nothing.
ghost use Rattle.std.specs.Prelude.{◌≡◌, ◌∷◌, ℕ, List, true};
ghost use Rattle.ocm_core.specs.Standing.{standing_body};
ghost use Rattle.ocm_entry.specs.declared.asks.Ask.{Ask};
ghost use Rattle.ocm_entry.specs.declared.entries.Entry.{Entry};
ghost use Rattle.ocm_rules.specs.History.{kept};
ghost use Rattle.ocm_rules.specs.Lean.{emptied_among, lean};
ghost use Rattle.ocm_law_sessions.specs.Sessions.{heard, would_change};
ghost use Rattle.ocm_law_sessions.specs.Written.{ask_records, records_of};
ghost use Rattle.ocm_history_records.specs.Kept.{kept_of, kept_records, lean_asks, lean_texts};
ghost use Rattle.ocm_history.specs.Kept.{bodies_with};

/// What is kept in memory makes the records of the lean list: of all that is kept, and of one entry more.
pub fn what_is_kept_makes_the_lean_records()
    ensures asks { (host : List ℕ) (g : List Entry)
        → lean_asks (standing_body host (kept host g)) 1 (kept_records (kept host g)) ≡ ask_records (emptied_among host (kept host g) (kept host g)) }
    ensures all { (host : List ℕ) (g : List Entry) (ask : Ask) → would_change host g ask ≡ true
        → lean_texts (bodies_with host g ask) (kept_records (kept host g)) (kept_of host g ask) ≡ records_of (lean host (heard host g ask ∷ g)) }
{}
