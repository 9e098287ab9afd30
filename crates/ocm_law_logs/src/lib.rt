//! What a server logged of a read stays true of every journal that it writes later: each law is the
//! contract of a function that does nothing.
//!
//! Histories stand newest first: `later ++ g` is one that went on after `g`. No law asks that a
//! history is legal, since each holds of every list of entries.
#![tactic(auto)]

pub mod wrong;

ghost use Rattle.std.specs.Prelude.{◌≡◌, ◌≤◌, ◌++◌, ℕ, List, Option, IsTrue, None, Some};
ghost use Rattle.ocm_access_log.specs.Truth.{first_false, is_true, status_of};
ghost use Rattle.ocm_access_log.specs.declared.lines.LogLine.{LogLine};
ghost use Rattle.ocm_entry.specs.declared.asks.Ask.{Ask};
ghost use Rattle.ocm_entry.specs.declared.entries.Entry.{Entry};
ghost use Rattle.ocm_law_logs.specs.Logged.{AreTrue, is_read, is_true_of, line_after};
ghost use Rattle.ocm_law_sessions.specs.Crashes.{IsNext};
ghost use Rattle.ocm_law_sessions.specs.Readings.{opened};
ghost use Rattle.ocm_rules.specs.History.{answer, kept};
ghost use Rattle.ocm_rules.specs.Lean.{count, lean};
ghost use Rattle.ocm_rules.specs.Shares.{moment};

/// The answer to a read has a status: it is a file, a listing or a refusal.
pub fn reads_have_a_status()
    ensures { (host : List ℕ) (g : List Entry) (ask : Ask) → IsTrue (is_read ask) → (status : ℕ) × (status_of (answer host g ask) ≡ Some status) }
{}

/// As a history goes on, neither the place nor the moment falls that a line would have.
pub fn places_and_moments_do_not_fall()
    ensures places { (host : List ℕ) (later g : List Entry) → count host g ≤ count host (later ++ g) }
    ensures moments { (host : List ℕ) (later g : List Entry) → moment (kept host g) ≤ moment (kept host (later ++ g)) }
{}

/// Histories with the same lean list have the same line for a read.
pub fn lean_lists_decide_the_line()
    ensures { (host : List ℕ) (g other : List Entry) (ask : Ask) (status : ℕ) → lean host g ≡ lean host other → line_after host g ask status ≡ line_after host other ask status }
{}

/// What a server logs of a read is true of the history after which it answered.
pub fn what_is_logged_is_true()
    ensures { (host : List ℕ) (g : List Entry) (ask : Ask) (status : ℕ) → IsTrue (is_read ask) → status_of (answer host g ask) ≡ Some status
        → IsTrue (is_true_of host g (line_after host g ask status)) }
{}

/// A line about a read that is true of a history is true of whatever has the lean list of a later
/// one, so also of what a crash leaves of a session.
pub fn true_lines_stay_true()
    ensures later { (host : List ℕ) (later g next : List Entry) (line : LogLine) → IsTrue (is_read line.ask) → lean host next ≡ lean host (later ++ g)
        → IsTrue (is_true_of host g line) → IsTrue (is_true_of host next line) }
    ensures crash { (host : List ℕ) (k h : List Entry) (flight : Option Ask) (next : List Entry) (line : LogLine) → IsTrue (is_read line.ask) → IsNext host k h flight next
        → IsTrue (is_true_of host (h ++ k) line) → IsTrue (is_true_of host next line) }
{}

/// What a server logged of a read is true of whatever has the lean list of a later history, so of what
/// the records of every journal open to that it writes later.
pub fn what_was_logged_stays_true()
    ensures later { (host : List ℕ) (later g next : List Entry) (ask : Ask) (status : ℕ) → IsTrue (is_read ask) → status_of (answer host g ask) ≡ Some status
        → lean host next ≡ lean host (later ++ g) → IsTrue (is_true_of host next (line_after host g ask status)) }
    ensures journal { (host : List ℕ) (later g k : List Entry) (ask : Ask) (status form : ℕ) (records : List (List ℕ)) → IsTrue (is_read ask) → status_of (answer host g ask) ≡ Some status
        → opened host form records ≡ Some k → lean host k ≡ lean host (later ++ g) → IsTrue (is_true host k (line_after host g ask status)) }
{}

/// So a log whose lines were true of a history has no false line by what a later journal opens to.
pub fn true_logs_have_no_false_line()
    ensures later { (host : List ℕ) (later g next : List Entry) (lines : List LogLine) → lean host next ≡ lean host (later ++ g) → AreTrue host g lines → AreTrue host next lines }
    ensures journal { (host : List ℕ) (later g k : List Entry) (lines : List LogLine) (number form : ℕ) (records : List (List ℕ)) → opened host form records ≡ Some k
        → lean host k ≡ lean host (later ++ g) → AreTrue host g lines → first_false host k number lines ≡ None }
{}
