//! What is promised of one server, of each server of a log.
ghost use Rattle.std.specs.Prelude.{◌≡◌, ◌∷◌, ◌++◌, ℕ, List, Bool, Some, true, false};
ghost use Rattle.ocm_entry.specs.declared.asks.Ask.{Ask};
ghost use Rattle.ocm_law_repeats.specs.Repeats.{is_for_records, is_repeat};
ghost use Rattle.ocm_law_sessions.specs.Sessions.{would_change};
ghost use Rattle.ocm_law_world.specs.World.{Session, history_of};
ghost use Rattle.ocm_law_openings.specs.Keeping.{Keeps};
ghost use Rattle.ocm_law_openings.specs.Openings.{Period};
ghost use Rattle.ocm_law_openings.specs.Worlds.{IsLife};
ghost use Rattle.ocm_law_network.specs.Network.{Event, IsLog, RepliesAreTheirs, session_of};

/// Each server of a log went through sessions that follow one another, from an empty file on, and keeps
/// what is promised of one: they have one legal history, requests for files are served exactly where every
/// link of the secret is open and grants them, and repeats act once.
pub fn every_server_of_a_log_keeps_what_is_promised()
    ensures { (foreign : List ℕ → Bool) (log : List Event) (host : List ℕ) (s : Session) → IsLog foreign log → RepliesAreTheirs foreign log → session_of log host ≡ Some s
        → (p : Period) × (older : List Period) × IsLife host s (p ∷ older) × Keeps host p older }
{}

/// An offer, notice or settlement that was taken at a server changes nothing after all that happens later,
/// whatever crashed since. The two notices that are for all records with an id and a secret act on records
/// that came since.
pub fn a_repeat_changes_nothing_in_the_network()
    ensures { (foreign : List ℕ → Bool) (log more : List Event) (host : List ℕ) (s t : Session) (ask : Ask) → IsLog foreign (more ++ log) → RepliesAreTheirs foreign (more ++ log)
        → session_of log host ≡ Some s → session_of (more ++ log) host ≡ Some t → is_repeat (history_of s) ask ≡ true → is_for_records ask ≡ false → would_change host (history_of t) ask ≡ false }
{}
