//! The one history of a server's sessions.
ghost use Rattle.std.specs.Prelude.{◌≡◌, ◌∷◌, ◌++◌, ℕ, List, Bool, Some, false};
ghost use Rattle.ocm_entry.specs.declared.asks.Ask.{Ask};
ghost use Rattle.ocm_entry.specs.declared.entries.Entry.{Entry};
ghost use Rattle.ocm_entry.specs.declared.replies.Reply.{Reply};
ghost use Rattle.ocm_entry.specs.declared.rows.Share.{Share};
ghost use Rattle.ocm_rules.specs.History.{kept};
ghost use Rattle.ocm_rules.specs.Numbers.{at_number};
ghost use Rattle.ocm_rules.specs.Shares.{is_live, made};
ghost use Rattle.ocm_law_sessions.specs.Sessions.{IsReply, IsReplyAfter, fault_in};
ghost use Rattle.ocm_law_openings.specs.Openings.{Follow, IsOneHistory, Period, history_in};

/// Sessions that follow one another have one legal history, with the calls of all of them in their order.
pub fn sessions_have_one_legal_history()
    ensures { (host : List ℕ) (p : Period) (older : List Period) → Follow host (p ∷ older) → (g : List Entry) × IsOneHistory host p older g }
{}

/// That history decides the replies of the last session, and goes on with each of them.
pub fn the_one_history_decides_the_replies()
    ensures told { (host : List ℕ) (p : Period) (older : List Period) (g : List Entry) (ask : Ask) (reply : Reply) → IsOneHistory host p older g
        → IsReply host p.area p.base p.calls ask reply → IsReplyAfter host p.area (fault_in p.calls) g ask reply }
    ensures back { (host : List ℕ) (p : Period) (older : List Period) (g : List Entry) (ask : Ask) (reply : Reply) → IsOneHistory host p older g
        → IsReplyAfter host p.area (fault_in p.calls) g ask reply → IsReply host p.area p.base p.calls ask reply }
{}

/// A share that had ended in an earlier session is there in each later one with its number, and has ended.
pub fn what_has_ended_stays_ended_through_openings()
    ensures { (host : List ℕ) (newer older : List Period) (p q : Period) (i : ℕ) (m : Share) → Follow host (p ∷ newer ++ q ∷ older)
        → at_number (made host (kept host (history_in q))) i ≡ Some m → is_live host (kept host (history_in q)) i ≡ false
        → (at_number (made host (kept host (history_in p))) i ≡ Some m) × (is_live host (kept host (history_in p)) i ≡ false) }
{}
