//! What follows from the rules, each law as the contract of a function that does nothing.
ghost use Rattle.std.specs.Prelude.{◌≡◌, ◌∷◌, ℕ, List, Some, true};
ghost use Rattle.std.specs.List.{list_all};
ghost use Rattle.ocm_types.specs.declared.letters.Notice.TheVariants.{Declined, ReshareUndo};
ghost use Rattle.ocm_types.specs.declared.rights.Rights.{Rights};
ghost use Rattle.ocm_entry.specs.declared.asks.Ask.{Ask};
ghost use Rattle.ocm_entry.specs.declared.asks.Ask.TheVariants.{Local, Notice};
ghost use Rattle.ocm_entry.specs.declared.asks.Cmd.TheVariants.{Limit, Unshare};
ghost use Rattle.ocm_entry.specs.declared.replies.Reply.{Reply};
ghost use Rattle.ocm_entry.specs.declared.entries.Entry.{Entry};
ghost use Rattle.ocm_entry.specs.declared.rows.Place.{Place};
ghost use Rattle.ocm_rules.specs.Answers.{reply_in};
ghost use Rattle.ocm_rules.specs.Files.{at, nodes, with_roots};
ghost use Rattle.ocm_rules.specs.History.{IsAnswered, IsLegal, answer, kept};
ghost use Rattle.ocm_rules.specs.Messages.{is_away, out, view_of};
ghost use Rattle.ocm_rules.specs.Shares.{effective, is_live, named};
ghost use Rattle.ocm_rules.specs.Views.{effective_with, is_live_without};
ghost use Rattle.ocm_rules.specs.State.{EachOnce, after, node_at, state_of, view_in};

/// What is kept of a history is kept of it again, whole.
pub fn kept_stays_kept()
    ensures { (host : List ℕ) (g : List Entry) → kept host (kept host g) ≡ kept host g }
{}

/// The reply to an ask depends on the kept entries alone, also of a history that no server could have
/// had.
pub fn kept_entries_decide_the_reply()
    ensures { (host : List ℕ) (g : List Entry) (ask : Ask) → answer host g ask ≡ answer host (kept host g) ask }
{}

/// Of a legal history, each kept entry changed something and has the reply that the rules give after
/// the kept ones before it.
pub fn kept_entries_are_answered()
    ensures { (host : List ℕ) (g : List Entry) → IsLegal host g → IsAnswered host (kept host g) }
{}

/// No message of a legal history goes to the host that sends it.
pub fn no_message_comes_home()
    ensures { (host : List ℕ) (g : List Entry) → IsLegal host g → list_all (is_away host) (out host (kept host g)) ≡ true }
{}

/// All that is read of a legal history is looked up in its lists of rows.
pub fn lists_tell_all_that_is_read()
    ensures { (host : List ℕ) (g : List Entry) → IsLegal host g → view_of host (kept host g) ≡ view_in (state_of host (kept host g)) }
{}

/// What a legal history answers is what its lists answer.
pub fn lists_give_the_reply()
    ensures { (host : List ℕ) (g : List Entry) (ask : Ask) → IsLegal host g → answer host g ask ≡ reply_in (view_in (state_of host (kept host g))) ask }
{}

/// One more entry of a legal history is one more step of its lists, or none where it changes nothing.
pub fn lists_go_on_by_an_entry()
    ensures { (host : List ℕ) (g : List Entry) (e : Entry) → IsLegal host g → state_of host (kept host (e ∷ g)) ≡ after (state_of host (kept host g)) e.ask e.reply }
{}

/// What the last entry left at a place is what stands there among the nodes.
pub fn nodes_tell_what_stands()
    ensures { (host : List ℕ) (g : List Entry) (place : Place) → at host g place ≡ with_roots (node_at (nodes host g)) place }
{}

/// The shares that are cut off by an end are those that are no longer live after it: a share is live
/// without the closed one exactly where it is live after the entry that closes it.
pub fn ended_shares_are_no_longer_live()
    ensures unshared { (host : List ℕ) (before : List Entry) (key : List ℕ) (closed : ℕ) (reply : Reply) (i : ℕ)
        → is_live_without (view_of host before) closed i ≡ is_live host (record { ask = Local key (Unshare closed); reply = reply } ∷ before) i }
    ensures declined { (host : List ℕ) (before : List Entry) (id secret fresh : List ℕ) (closed : ℕ) (reply : Reply) → named id ≡ Some closed → (i : ℕ)
        → is_live_without (view_of host before) closed i ≡ is_live host (record { ask = Notice (Declined id secret) fresh; reply = reply } ∷ before) i }
    ensures undone { (host : List ℕ) (before : List Entry) (id secret fresh : List ℕ) (closed : ℕ) (reply : Reply) → named id ≡ Some closed → (i : ℕ)
        → is_live_without (view_of host before) closed i ≡ is_live host (record { ask = Notice (ReshareUndo id secret) fresh; reply = reply } ∷ before) i }
{}

/// What guests are told at a limit is what they may do after it.
pub fn limited_rights_are_those_after_the_limit()
    ensures { (host : List ℕ) (before : List Entry) (key : List ℕ) (limited : ℕ) (perms : Rights) (reply : Reply) (i : ℕ)
        → effective_with (view_of host before) limited perms i ≡ effective host (record { ask = Local key (Limit limited perms); reply = reply } ∷ before) i }
{}

/// Each place stands once among the nodes.
pub fn each_place_stands_once()
    ensures { (host : List ℕ) (g : List Entry) → EachOnce (nodes host g) }
{}
