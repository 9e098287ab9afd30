//! Worked cases of the two exceptions, each as the contract of a function that does nothing: a notice
//! that was taken is sent once more after another offer came with the same id and secret.
ghost use Rattle.std.specs.Prelude.{◌≡◌, ◌++◌, [], ◌∷◌, false, true};
ghost use Rattle.ocm_types.specs.declared.phases.Phase.TheVariants as phases;
ghost use Rattle.ocm_entry.specs.declared.asks.Cmd.TheVariants.{List};
ghost use Rattle.ocm_entry.specs.declared.listings.Line.TheVariants as lines;
ghost use Rattle.ocm_entry.specs.declared.replies.Reply.TheVariants.{Listing, Noticed};
ghost use Rattle.ocm_rules.specs.Cases.{bob_commands, change_for_bob, history, host_of_bob, offer_to_bob, replies_after, to_read, unshared_for_bob};
ghost use Rattle.ocm_law_repeats.specs.Repeats.{is_repeat, would_change};
ghost use Rattle.ocm_law_repeats.specs.Cases.{ended_before, renamed_offer, told_before};

/// An Unshared that changed nothing removes, when it is sent once more, the record that came since, and
/// leaves the other declined. A third changes nothing.
pub fn an_unshared_comes_again()
    ensures repeat { is_repeat (history host_of_bob ended_before) unshared_for_bob ≡ true }
    ensures second { would_change host_of_bob (history host_of_bob ended_before) unshared_for_bob ≡ true }
    ensures third { would_change host_of_bob (history host_of_bob (ended_before ++ unshared_for_bob ∷ [])) unshared_for_bob ≡ false }
    ensures after { replies_after host_of_bob (history host_of_bob ended_before) (unshared_for_bob ∷ bob_commands List ∷ [])
        ≡ (Noticed ∷ Listing (lines.Received 1 offer_to_bob phases.Declined ∷ lines.Received 2 renamed_offer phases.Removed ∷ []) ∷ []) }
{}

/// A Changed tells, when it is sent once more, the record that came since. A third changes nothing.
pub fn a_changed_comes_again()
    ensures repeat { is_repeat (history host_of_bob told_before) (change_for_bob 1 to_read) ≡ true }
    ensures second { would_change host_of_bob (history host_of_bob told_before) (change_for_bob 1 to_read) ≡ true }
    ensures third { would_change host_of_bob (history host_of_bob (told_before ++ change_for_bob 1 to_read ∷ [])) (change_for_bob 1 to_read) ≡ false }
    ensures after { replies_after host_of_bob (history host_of_bob told_before) (bob_commands List ∷ change_for_bob 1 to_read ∷ bob_commands List ∷ [])
        ≡ (Listing (lines.Received 1 (record offer_to_bob { perms = to_read }) phases.Pending ∷ lines.Received 2 renamed_offer phases.Pending ∷ [])
        ∷ Noticed
        ∷ Listing (lines.Received 1 (record offer_to_bob { perms = to_read }) phases.Pending ∷ lines.Received 2 (record renamed_offer { perms = to_read }) phases.Pending ∷ [])
        ∷ []) }
{}
