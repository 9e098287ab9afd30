//! What the sessions of a server keep, and by what they can be decided.
ghost use Rattle.std.specs.Prelude.{◌≡◌, ◌∷◌, ◌++◌, [], ℕ, List, Option, Bool, IsTrue, true, false, not, ◌&&◌, if◌then◌else◌, Some, None};
ghost use Rattle.ocm_entry.specs.declared.asks.Ask.{Ask};
ghost use Rattle.ocm_entry.specs.declared.entries.Entry.{Entry};
ghost use Rattle.ocm_entry.specs.declared.replies.Reply.{Reply};
ghost use Rattle.ocm_rules.specs.History.{IsGiven, IsLegal, answer, is_failure, kept};
ghost use Rattle.ocm_rules.specs.Lean.{lean};
ghost use Rattle.ocm_law_sessions.specs.Readings.{opened};
ghost use Rattle.ocm_law_sessions.specs.Sessions.{IsReply, IsReplyAfter, IsSession, count_of, fault_in, fits, heard, would_change};
ghost use Rattle.ocm_law_sessions.specs.Written.{IsSpelled, record_of};

/// The calls of a session are a legal history after what it opened to.
pub fn a_session_is_a_legal_history()
    ensures { (host : List ℕ) (area : ℕ) (k h : List Entry) → IsSession host area k h → IsLegal host (h ++ k) }
{}

/// Each reply that a session allows is one that the rules give, or tells that the server could not do it.
pub fn replies_of_a_session_are_given()
    ensures { (host : List ℕ) (area : ℕ) (k h : List Entry) (ask : Ask) (reply : Reply) → IsReply host area k h ask reply → IsGiven host (h ++ k) (record { ask = ask; reply = reply }) }
{}

/// What is kept of a history grows by an entry exactly where that is no failure and its ask would
/// change something. So an ask with its answer is kept where it would change something, and else
/// leaves what is kept, and the lean list.
pub fn what_is_kept_grows_by_changes()
    ensures entry { (host : List ℕ) (g : List Entry) (e : Entry) → IsGiven host g e
        → kept host (e ∷ g) ≡ (if not (is_failure e.reply) && would_change host g e.ask then e ∷ kept host g else kept host g) }
    ensures changed { (host : List ℕ) (g : List Entry) (ask : Ask) → would_change host g ask ≡ true → kept host (heard host g ask ∷ g) ≡ heard host g ask ∷ kept host g }
    ensures unchanged { (host : List ℕ) (g : List Entry) (ask : Ask) → would_change host g ask ≡ false → kept host (heard host g ask ∷ g) ≡ kept host g }
    ensures lean { (host : List ℕ) (g : List Entry) (ask : Ask) → would_change host g ask ≡ false → lean host (heard host g ask ∷ g) ≡ lean host g }
{}

/// An entry that tells that the server could not do it leaves what is kept, and the lean list.
pub fn failures_leave_what_is_kept()
    ensures kept { (host : List ℕ) (g : List Entry) (e : Entry) → IsTrue (is_failure e.reply) → kept host (e ∷ g) ≡ kept host g }
    ensures lean { (host : List ℕ) (g : List Entry) (e : Entry) → IsTrue (is_failure e.reply) → lean host (e ∷ g) ≡ lean host g }
{}

/// No answer of the rules tells that the server could not do it, and so none tells a disk fault.
pub fn answers_are_no_failures()
    ensures failure { (host : List ℕ) (g : List Entry) (ask : Ask) → is_failure (answer host g ask) ≡ false }
    ensures fault { (host : List ℕ) (g : List Entry) (ask : Ask) → count_of (answer host g ask) ≡ None }
{}

/// After a disk fault nothing changes in a session, and no other fault is told.
pub fn nothing_changes_after_a_fault()
    ensures told { (host : List ℕ) (area : ℕ) (k h : List Entry) (e : Entry) (count : ℕ) → fault_in h ≡ Some count → IsReply host area k h e.ask e.reply → count_of e.reply ≡ None }
    ensures fault { (host : List ℕ) (area : ℕ) (k h : List Entry) (e : Entry) (count : ℕ) → fault_in h ≡ Some count → IsReply host area k h e.ask e.reply → fault_in (e ∷ h) ≡ Some count }
    ensures kept { (host : List ℕ) (area : ℕ) (k h : List Entry) (e : Entry) (count : ℕ) → fault_in h ≡ Some count → IsReply host area k h e.ask e.reply → kept host (e ∷ h ++ k) ≡ kept host (h ++ k) }
{}

/// Histories with the same lean list would change by the same asks, have room for the same ones and
/// allow the same replies. So a session can be decided by any list with the lean list of its history.
pub fn lean_lists_decide_the_replies()
    ensures changes { (host : List ℕ) (g other : List Entry) (ask : Ask) → lean host g ≡ lean host other → would_change host g ask ≡ would_change host other ask }
    ensures answers { (host : List ℕ) (g other : List Entry) (ask : Ask) → lean host g ≡ lean host other → heard host g ask ≡ heard host other ask }
    ensures fits { (host : List ℕ) (area : ℕ) (g other : List Entry) (ask : Ask) → lean host g ≡ lean host other → fits host area g ask ≡ fits host area other ask }
    ensures replies { (host : List ℕ) (area : ℕ) (fault : Option ℕ) (g other : List Entry) (ask : Ask) (reply : Reply) → lean host g ≡ lean host other
        → IsReplyAfter host area fault g ask reply → IsReplyAfter host area fault other ask reply }
{}

/// Where records open to a list with the lean list of a history, they open with the record of a change
/// to the list with that entry, which has the lean list of the history with it. The record is the
/// one after what is kept of the history.
pub fn a_change_is_read_back()
    ensures opens { (host : List ℕ) (form : ℕ) (records : List (List ℕ)) (k g : List Entry) (ask : Ask) → opened host form records ≡ Some k → lean host k ≡ lean host g
        → IsTrue (would_change host g ask) → IsSpelled (heard host g ask ∷ k) → opened host form (records ++ record_of form k (heard host g ask) ∷ []) ≡ Some (heard host g ask ∷ k) }
    ensures lean { (host : List ℕ) (k g : List Entry) (e : Entry) → lean host k ≡ lean host g → lean host (e ∷ k) ≡ lean host (e ∷ g) }
    ensures same { (host : List ℕ) (form : ℕ) (k g : List Entry) (e : Entry) → kept host k ≡ k → lean host k ≡ lean host g → record_of form k e ≡ record_of form (kept host g) e }
{}
