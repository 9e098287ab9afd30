//! Why the definitions are as they are: for each of these wrong ones a law would be false. Each
//! counterexample is computed, as the contract of a function that does nothing.
ghost use Rattle.std.specs.Prelude.{◌≡◌, ◌++◌, [], ◌∷◌, codes, false, true, Some};
ghost use Rattle.ocm_types.specs.declared.phases.Phase.TheVariants.{Accepting, Confirmed, Refused};
ghost use Rattle.ocm_types.specs.Rights.{is_within};
ghost use Rattle.ocm_entry.specs.declared.asks.Method.TheVariants.{Get};
ghost use Rattle.ocm_entry.specs.declared.refusals.Why.TheVariants.{UnknownShare};
ghost use Rattle.ocm_entry.specs.declared.replies.Reply.TheVariants.{Done, File, Noticed};
ghost use Rattle.ocm_rules.specs.declared.rows.Told.{Told};
ghost use Rattle.ocm_rules.specs.Answers.{dav_reply, refused};
ghost use Rattle.ocm_rules.specs.Cases.{host_of_bob, offer_to_bob, our_host, root_path, second_secret, to_write};
ghost use Rattle.ocm_rules.specs.History.{IsLegal, kept};
ghost use Rattle.ocm_rules.specs.Messages.{acceptance, out, phase, view_of};
ghost use Rattle.ocm_rules.specs.Numbers.{at_number};
ghost use Rattle.ocm_rules.specs.Offers.{told};
ghost use Rattle.ocm_rules.specs.Settlements.{is_success};
ghost use Rattle.ocm_rules.specs.Shares.{effective, granted_to, is_live, made, perms, used};
ghost use Rattle.ocm_rules.specs.Views.{limits};
ghost use Rattle.ocm_law_grants.specs.Grants.{are_different};
ghost use Rattle.ocm_law_world.specs.Guests.{IsMade};
ghost use Rattle.ocm_law_world.specs.Stories.{Return};
ghost use Rattle.ocm_law_world.specs.Cases.{acceptance_told, accepted, exaggerated, forged, kept_in, story};
ghost use Rattle.ocm_law_world.specs.Wrong.{drawn_twice, ended, first_change_late, forged_settlement, grant_by_itself, kept_unheard, later_call_alone, more_than_asked, more_than_granted, own_rights, parent_ended, phase_when_sent, reply_without_permissions, second_change, settled_by_failure, taken, told_as_it_comes, told_as_taken, told_by_a_forger, without_calls};

/// Were a record confirmed when its acceptance is sent, a guest would have a confirmed share that
/// nobody made.
pub fn no_record_is_confirmed_when_its_acceptance_is_sent()
    ensures confirmed { phase_when_sent host_of_bob (kept_in (story forged) host_of_bob) 1 ≡ Confirmed }
    ensures unmade { IsMade (story forged) offer_to_bob → ⊥ }
{}

/// Were the permissions of an acceptance not compared, a guest would have a confirmed share with more
/// permissions than were granted.
pub fn the_permissions_of_an_acceptance_are_compared()
    ensures taken { reply_without_permissions (view_of our_host (kept_in (story exaggerated) our_host)) offer_to_bob ≡ Noticed }
    ensures confirmed { phase host_of_bob (kept_in (story (exaggerated ++ acceptance_told Noticed ∷ Return Done ∷ [])) host_of_bob) 1 ≡ Confirmed }
    ensures less { IsMade (story (exaggerated ++ acceptance_told Noticed ∷ Return Done ∷ [])) offer_to_bob → ⊥ }
{}

/// Could anybody ask a server to settle a message, a forger would confirm a share that nobody made.
pub fn a_settlement_arises_by_a_delivery_alone()
    ensures confirmed { phase host_of_bob (kept_in (story (forged ++ forged_settlement host_of_bob ∷ [])) host_of_bob) 1 ≡ Confirmed }
    ensures unmade { IsMade (story (forged ++ forged_settlement host_of_bob ∷ [])) offer_to_bob → ⊥ }
{}

/// Could a crash lose what was acknowledged, a share that its owner ended would be live again.
pub fn a_crash_loses_no_acknowledged_end()
    ensures ended { is_live our_host (kept_in (story ended) our_host) 1 ≡ false }
    ensures live_again { is_live our_host (kept_in (without_calls (story ended) our_host) our_host) 1 ≡ true }
{}

/// Were drawn bytes taken that served before, two shares would have one secret.
pub fn drawn_bytes_serve_once()
    ensures { are_different (used our_host (kept our_host drawn_twice)) ≡ false }
{}

/// Were the permissions that a guest asks for not compared with the share's, a share below it would
/// be granted more; were a limit not compared with the grant, it would permit more; and did a share
/// let its guest do what its own permissions say, it would let it do more than the share above.
pub fn permissions_are_compared_and_cut_down()
    ensures asked { is_within (granted_to (made our_host (kept our_host more_than_asked)) 2) (granted_to (made our_host (kept our_host more_than_asked)) 1) ≡ false }
    ensures limited { is_within (perms our_host (kept our_host more_than_granted) 1) (granted_to (made our_host (kept our_host more_than_granted)) 1) ≡ false }
    ensures own { is_within (perms our_host (kept our_host own_rights) 2) (effective our_host (kept our_host own_rights) 1) ≡ false }
{}

/// Did a guest take each change as it comes, the serial that it was told would fall.
pub fn changes_are_taken_by_their_serials()
    ensures before { (told_as_it_comes offer_to_bob second_change).serial ≡ 2 }
    ensures after { (told_as_it_comes offer_to_bob first_change_late).serial ≡ 1 }
    ensures by_serial { (told first_change_late 1).serial ≡ 2 }
{}

/// Who knows the secret of an offer can tell its guest anything: what was told is then after no limit
/// of the owner's.
pub fn the_owner_alone_knows_the_secret()
    ensures told { told (kept_in (story told_by_a_forger) host_of_bob) 1 ≡ (let other : Told = record { serial = 7; perms = to_write } in other) }
    ensures unlimited { limits (kept_in (story told_by_a_forger) our_host) ≡ 0 }
{}

/// A crash may keep what was not heard. Were that not looked at, a forger could tell a guest anything
/// in a run in which its server answers the owner alone.
pub fn a_crash_may_keep_what_was_not_heard()
    ensures told { told kept_unheard 1 ≡ (let other : Told = record { serial = 7; perms = to_write } in other) }
    ensures unlimited { limits (kept_in (story taken) our_host) ≡ 0 }
{}

/// Were a refusal told as if the message was taken, an answer under way would say yes to the
/// acceptance of an offer that nobody made.
pub fn a_refusal_is_told_as_one()
    ensures sent { at_number (out host_of_bob (kept_in (story forged) host_of_bob)) 1 ≡ Some (acceptance 1 offer_to_bob) }
    ensures well { is_success (told_as_taken (refused UnknownShare)) ≡ true }
    ensures unmade { IsMade (story forged) offer_to_bob → ⊥ }
{}

/// Did each status settle a message, the 503 of a server whose disk failed would refuse for ever what
/// its next session takes.
pub fn a_failure_settles_nothing()
    ensures refused { phase host_of_bob settled_by_failure 1 ≡ Refused }
    ensures waits { phase host_of_bob (kept_in (story accepted) host_of_bob) 1 ≡ Accepting }
{}

/// Could a crash lose a call and keep a later one, a server's history would be no legal one.
pub fn a_crash_keeps_calls_in_their_order()
    ensures { IsLegal our_host later_call_alone → ⊥ }
{}

/// Were a secret let in by its own share alone, it would read after the share above it was ended.
pub fn a_share_ends_with_the_one_above_it()
    ensures ended { is_live our_host (kept our_host parent_ended) 2 ≡ false }
    ensures read { dav_reply (view_of our_host (kept our_host parent_ended)) (grant_by_itself (view_of our_host (kept our_host parent_ended)) second_secret) Get root_path [] ≡ File (codes "hi") }
{}
