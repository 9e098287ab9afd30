//! The size of the lean list: a law, the contract of a function that does nothing.
ghost use Rattle.std.specs.Prelude.{◌≡◌, ◌≤◌, ◌+◌, ◌∷◌, ℕ, List, length, if◌then◌else◌, true};
ghost use Rattle.ocm_entry.specs.declared.asks.Ask.{Ask};
ghost use Rattle.ocm_entry.specs.declared.entries.Entry.{Entry};
ghost use Rattle.ocm_entry_bytes.specs.Spells.{spelling};
ghost use Rattle.ocm_rules.specs.Lean.{lean};
ghost use Rattle.ocm_entry.specs.Ticks.{is_tick};
ghost use Rattle.ocm_law_sessions.specs.Sessions.{heard, would_change};
ghost use Rattle.ocm_law_sessions.specs.Written.{asks_size};

/// With one entry more the records of asks take at most its record more, since a body that no longer stands
/// does not come back.
pub fn lean_lists_grow_by_one_record()
    ensures { (host : List ℕ) (g : List Entry) (ask : Ask) → would_change host g ask ≡ true
        → asks_size (lean host (heard host g ask ∷ g)) ≤ asks_size (lean host g) + (if is_tick ask then 0 else 13 + length (spelling ask)) }
{}
