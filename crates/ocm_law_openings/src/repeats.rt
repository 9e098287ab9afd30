//! What another server says once more acts once, through all openings.
ghost use Rattle.std.specs.Prelude.{◌≡◌, ◌⊎◌, ◌∷◌, ℕ, List, Option, Some, true, false};
ghost use Rattle.std.specs.List.{list_any};
ghost use Rattle.ocm_types.specs.declared.addresses.Address.{Address};
ghost use Rattle.ocm_types.specs.declared.letters.Notice.TheVariants.{Changed, ReshareRequest, Unshared};
ghost use Rattle.ocm_types.specs.declared.rights.Rights.{Rights};
ghost use Rattle.ocm_entry.specs.declared.asks.Ask.{Ask};
ghost use Rattle.ocm_entry.specs.declared.asks.Ask.TheVariants.{Notice, Settle};
ghost use Rattle.ocm_entry.specs.declared.entries.Entry.{Entry};
ghost use Rattle.ocm_entry.specs.declared.replies.Reply.{Reply};
ghost use Rattle.ocm_entry.specs.declared.replies.Reply.TheVariants.{Child, NoMemory};
ghost use Rattle.ocm_rules.specs.History.{answer, kept};
ghost use Rattle.ocm_rules.specs.Messages.{view_of};
ghost use Rattle.ocm_rules.specs.Numbers.{numbers};
ghost use Rattle.ocm_rules.specs.Offers.{offers};
ghost use Rattle.ocm_law_repeats.specs.Repeats.{entry_of, is_behind, is_child, is_for_records, is_removable, is_repeat, was_answered, with_removed, with_told};
ghost use Rattle.ocm_law_sessions.specs.Sessions.{IsReply, would_change};
ghost use Rattle.ocm_law_openings.specs.Openings.{Follow, IsOneHistory, Period, history_in, was_taken_in};

/// An offer, notice or settlement that is equal to one that was taken in any of a server's sessions, drawn
/// bytes aside, changes nothing and is answered by the rules. The two notices that are for all records
/// with an id and a secret are told of below.
pub fn a_repeat_changes_nothing_through_openings()
    ensures nothing { (host : List ℕ) (p : Period) (older : List Period) (ask : Ask) → Follow host (p ∷ older)
        → was_taken_in (p ∷ older) ask ≡ true → is_for_records ask ≡ false → would_change host (history_in p) ask ≡ false }
    ensures kept { (host : List ℕ) (p : Period) (older : List Period) (ask : Ask) (reply : Reply) → Follow host (p ∷ older)
        → was_taken_in (p ∷ older) ask ≡ true → is_for_records ask ≡ false → IsReply host p.area p.base p.calls ask reply
        → ((reply ≡ answer host (history_in p) ask) ⊎ (reply ≡ NoMemory)) × (kept host (record { ask = ask; reply = reply } ∷ history_in p) ≡ kept host (history_in p)) }
{}

/// A message of which one answer was taken in any session takes no other, whatever status and id it has.
pub fn a_message_is_settled_once_through_openings()
    ensures { (host : List ℕ) (p : Period) (older : List Period) (number status other_status : ℕ) (id other_id : Option (List ℕ)) → Follow host (p ∷ older)
        → was_taken_in (p ∷ older) (Settle number status id) ≡ true → would_change host (history_in p) (Settle number other_status other_id) ≡ false }
{}

/// A request to share further that is equal to one that was answered by a child in any session is answered
/// by the same child.
pub fn a_repeated_request_has_the_same_child_through_openings()
    ensures { (host : List ℕ) (p : Period) (older : List Period) (id secret : List ℕ) (with : Address) (sender_id : List ℕ) (asked : Option Rights) (fresh : List ℕ) (n : ℕ) → Follow host (p ∷ older)
        → list_any (λ (q : Period). was_answered (is_child n) (history_in q) (Notice (ReshareRequest id secret with sender_id asked) fresh)) (p ∷ older) ≡ true
        → answer host (history_in p) (Notice (ReshareRequest id secret with sender_id asked) fresh) ≡ Child n }
{}

/// An Unshared would change something exactly where a record with its id and secret, first received after
/// the last equal Unshared that was taken in the one history, is not declined. It acts on such records
/// alone.
pub fn an_unshared_acts_on_later_records_alone_through_openings()
    ensures changes { (host : List ℕ) (p : Period) (older : List Period) (g : List Entry) (id secret fresh : List ℕ) → IsOneHistory host p older g
        → would_change host (history_in p) (Notice (Unshared id secret) fresh) ≡ list_any (is_removable host g id secret fresh) (numbers (offers (kept host g))) }
    ensures alone { (host : List ℕ) (p : Period) (older : List Period) (g : List Entry) (id secret fresh : List ℕ) → IsOneHistory host p older g
        → view_of host (kept host (entry_of host (history_in p) (Notice (Unshared id secret) fresh) ∷ history_in p)) ≡ with_removed (view_of host (kept host (history_in p))) (is_removable host g id secret fresh) }
{}

/// A Changed would change something exactly where a record with its id and secret, first received after
/// the last equal Changed that was taken in the one history, was told a lower serial. It acts on such
/// records alone.
pub fn a_changed_acts_on_later_records_alone_through_openings()
    ensures changes { (host : List ℕ) (p : Period) (older : List Period) (g : List Entry) (id secret : List ℕ) (serial : ℕ) (perms : Rights) (fresh : List ℕ) → IsOneHistory host p older g
        → would_change host (history_in p) (Notice (Changed id secret serial perms) fresh) ≡ list_any (is_behind host g id secret serial perms fresh) (numbers (offers (kept host g))) }
    ensures alone { (host : List ℕ) (p : Period) (older : List Period) (g : List Entry) (id secret : List ℕ) (serial : ℕ) (perms : Rights) (fresh : List ℕ) → IsOneHistory host p older g
        → view_of host (kept host (entry_of host (history_in p) (Notice (Changed id secret serial perms) fresh) ∷ history_in p)) ≡ with_told (view_of host (kept host (history_in p))) (is_behind host g id secret serial perms fresh) (record { serial = serial; perms = perms }) }
{}
