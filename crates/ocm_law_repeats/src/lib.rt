//! A repeat acts once: what another server says once more changes nothing once more. Each sentence of
//! this law is the contract of a function that does nothing.
#![tactic(auto)]

ghost use Rattle.std.specs.Prelude.{◌≡◌, ℕ, List, ◌∷◌, Option, true, false};
ghost use Rattle.std.specs.List.{list_any};
ghost use Rattle.ocm_types.specs.declared.addresses.Address.{Address};
ghost use Rattle.ocm_types.specs.declared.letters.Notice.TheVariants.{ReshareRequest, Unshared, Changed};
ghost use Rattle.ocm_types.specs.declared.rights.Rights.{Rights};
ghost use Rattle.ocm_entry.specs.declared.asks.Ask.{Ask};
ghost use Rattle.ocm_entry.specs.declared.asks.Ask.TheVariants.{Notice, Settle};
ghost use Rattle.ocm_entry.specs.declared.entries.Entry.{Entry};
ghost use Rattle.ocm_entry.specs.declared.replies.Reply.TheVariants.{Child};
ghost use Rattle.ocm_rules.specs.Numbers.{numbers};
ghost use Rattle.ocm_rules.specs.Offers.{offers};
ghost use Rattle.ocm_rules.specs.Messages.{view_of};
ghost use Rattle.ocm_rules.specs.History.{IsLegal, answer, kept};
ghost use Rattle.ocm_law_repeats.specs.Repeats.{entry_of, is_behind, is_child, is_for_records, is_removable, is_repeat, was_answered, with_removed, with_told, would_change};

pub mod cases;

/// An offer, notice or settlement that is equal to one that was taken, drawn bytes aside, changes
/// nothing. The two notices that are for all records with an id and a secret are told of below.
pub fn a_repeat_changes_nothing()
    ensures { (host : List ℕ) (g : List Entry) (ask : Ask) → IsLegal host g → is_repeat g ask ≡ true → is_for_records ask ≡ false → would_change host g ask ≡ false }
{}

/// A message of which one answer was taken takes no other: a settlement changes nothing once one of the
/// same message was taken, whatever status and id they have.
pub fn a_message_is_settled_once()
    ensures { (host : List ℕ) (g : List Entry) (number status other_status : ℕ) (id other_id : Option (List ℕ)) → IsLegal host g → is_repeat g (Settle number status id) ≡ true → would_change host g (Settle number other_status other_id) ≡ false }
{}

/// A request to share further that is equal to one that was answered by a child is answered by the
/// same child, whatever the drawn bytes are, and whatever came between.
pub fn a_repeated_request_has_the_same_child()
    ensures { (host : List ℕ) (g : List Entry) (id secret : List ℕ) (with : Address) (sender_id : List ℕ) (asked : Option Rights) (fresh : List ℕ) (n : ℕ) → IsLegal host g → was_answered (is_child n) g (Notice (ReshareRequest id secret with sender_id asked) fresh) ≡ true → answer host g (Notice (ReshareRequest id secret with sender_id asked) fresh) ≡ Child n }
{}

/// An Unshared would change something exactly where a record with its id and secret, first received
/// after the last equal Unshared that was taken, is not declined. Where none was taken before, these
/// are all records with its id and secret.
pub fn an_unshared_changes_later_records()
    ensures { (host : List ℕ) (g : List Entry) (id secret fresh : List ℕ) → IsLegal host g → would_change host g (Notice (Unshared id secret) fresh) ≡ list_any (is_removable host g id secret fresh) (numbers (offers (kept host g))) }
{}

/// An Unshared acts on such records alone: they are removed, and all else that is read of the history
/// is as before.
pub fn an_unshared_acts_on_later_records_alone()
    ensures { (host : List ℕ) (g : List Entry) (id secret fresh : List ℕ) → IsLegal host g → view_of host (kept host (entry_of host g (Notice (Unshared id secret) fresh) ∷ g)) ≡ with_removed (view_of host (kept host g)) (is_removable host g id secret fresh) }
{}

/// A Changed would change something exactly where a record with its id and secret, first received after
/// the last equal Changed that was taken, was told a lower serial. Where none was taken before, these
/// are all records with its id and secret.
pub fn a_changed_changes_later_records()
    ensures { (host : List ℕ) (g : List Entry) (id secret : List ℕ) (serial : ℕ) (perms : Rights) (fresh : List ℕ) → IsLegal host g → would_change host g (Notice (Changed id secret serial perms) fresh) ≡ list_any (is_behind host g id secret serial perms fresh) (numbers (offers (kept host g))) }
{}

/// A Changed acts on such records alone: their guests were told its serial and permissions, and all
/// else that is read of the history is as before.
pub fn a_changed_acts_on_later_records_alone()
    ensures { (host : List ℕ) (g : List Entry) (id secret : List ℕ) (serial : ℕ) (perms : Rights) (fresh : List ℕ) → IsLegal host g → view_of host (kept host (entry_of host g (Notice (Changed id secret serial perms) fresh) ∷ g)) ≡ with_told (view_of host (kept host g)) (is_behind host g id secret serial perms fresh) (record { serial = serial; perms = perms }) }
{}
