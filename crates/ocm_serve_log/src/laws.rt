//! What is logged of a run is true: each law is the contract of a function that does nothing.
ghost use Rattle.std.specs.Prelude.{ℕ, List, ◌++◌};
ghost use Rattle.ocm_entry.specs.declared.entries.Entry.{Entry};
ghost use Rattle.ocm_law_logs.specs.Logged.{AreTrue};
ghost use Rattle.ocm_law_sessions.specs.Sessions.{IsSession};
ghost use Rattle.ocm_serve_log.specs.Logs.{lines_since};

/// Each line of a run's log is true of its history, the calls h after the list k that was opened: of all that is kept of it,
/// and so of each journal that the server writes later.
pub fn logged_lines_are_true()
    ensures { (host : List ℕ) (area : ℕ) (k h : List Entry) → IsSession host area k h → AreTrue host (h ++ k) (lines_since host k h) }
{}
