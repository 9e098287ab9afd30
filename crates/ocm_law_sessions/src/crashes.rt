//! What a crash leaves, from one session of a server to the next.
ghost use Rattle.std.specs.Prelude.{◌≡◌, ◌∷◌, ◌++◌, ℕ, List, Option, Bool, IsTrue, false, Some, None};
ghost use Rattle.ocm_entry.specs.declared.asks.Ask.{Ask};
ghost use Rattle.ocm_entry.specs.declared.entries.Entry.{Entry};
ghost use Rattle.ocm_entry.specs.declared.replies.Reply.TheVariants.{DiskFault};
ghost use Rattle.ocm_entry.specs.declared.rows.Share.{Share};
ghost use Rattle.ocm_rules.specs.History.{IsAnswered, IsLegal, kept};
ghost use Rattle.ocm_rules.specs.Lean.{lean};
ghost use Rattle.ocm_rules.specs.Numbers.{at_number};
ghost use Rattle.ocm_rules.specs.Shares.{is_live, made};
ghost use Rattle.ocm_law_sessions.specs.Crashes.{IsNext};
ghost use Rattle.ocm_law_sessions.specs.Sessions.{count_of, fault_in, heard, would_change};

/// What is kept of the list after a crash has the answers after the entries before them.
pub fn what_a_crash_leaves_is_answered()
    ensures { (host : List ℕ) (k h : List Entry) (flight : Option Ask) (next : List Entry) → IsNext host k h flight next → IsAnswered host (kept host next) }
{}

/// A share is there after a crash with its number, and is not live where it was not live before.
pub fn what_has_ended_stays_ended_over_a_crash()
    ensures there { (host : List ℕ) (k h : List Entry) (flight : Option Ask) (next : List Entry) (i : ℕ) (m : Share) → IsNext host k h flight next
        → at_number (made host (kept host (h ++ k))) i ≡ Some m → at_number (made host (kept host next)) i ≡ Some m }
    ensures ended { (host : List ℕ) (k h : List Entry) (flight : Option Ask) (next : List Entry) (i : ℕ) (m : Share) → IsLegal host (h ++ k) → IsNext host k h flight next
        → at_number (made host (kept host (h ++ k))) i ≡ Some m → is_live host (kept host (h ++ k)) i ≡ false → is_live host (kept host next) i ≡ false }
{}

/// What a crash between two calls may leave, it may also leave within a call.
pub fn a_call_may_leave_what_stood_before()
    ensures { (host : List ℕ) (k h : List Entry) (ask : Ask) (next : List Entry) → IsNext host k h None next → IsNext host k h (Some ask) next }
{}

/// Within a call whose ask would change something, a crash may leave what has the lean list of the
/// history with that change.
pub fn a_change_in_flight_may_be_kept()
    ensures { (host : List ℕ) (k h : List Entry) (ask : Ask) (next : List Entry) → fault_in h ≡ None → IsTrue (would_change host (h ++ k) ask) → IsLegal host next
        → lean host next ≡ lean host (heard host (h ++ k) ask ∷ h ++ k) → IsNext host k h (Some ask) next }
{}

/// A call that changes nothing and tells no disk fault leaves what a crash may leave.
pub fn calls_without_change_leave_what_may_follow()
    ensures { (host : List ℕ) (k h : List Entry) (e : Entry) (next : List Entry) → count_of e.reply ≡ None → kept host (e ∷ h ++ k) ≡ kept host (h ++ k)
        → IsNext host k h None next → IsNext host k (e ∷ h) None next }
{}

/// What a crash within a call may leave, it may leave after the call too where that was told a disk
/// fault, the first of its session.
pub fn a_fault_leaves_what_was_in_flight()
    ensures { (host : List ℕ) (k h : List Entry) (ask : Ask) (count : ℕ) (next : List Entry) → fault_in h ≡ None → IsNext host k h (Some ask) next
        → IsNext host k (record { ask = ask; reply = DiskFault count } ∷ h) None next }
{}
