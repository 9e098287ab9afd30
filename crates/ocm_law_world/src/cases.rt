//! Worked stories of two servers, each as the contract of a function that does nothing.
ghost use Rattle.std.specs.Prelude.{◌≡◌, ◌++◌, [], ◌∷◌, List};
ghost use Rattle.ocm_types.specs.declared.phases.Phase.TheVariants.{Accepting, Confirmed, Refused};
ghost use Rattle.ocm_entry.specs.declared.refusals.Why.TheVariants.{NotPermitted, UnknownShare};
ghost use Rattle.ocm_entry.specs.declared.replies.Reply.TheVariants.{Done, Noticed};
ghost use Rattle.ocm_rules.specs.Answers.{refused};
ghost use Rattle.ocm_rules.specs.Cases.{host_of_bob, offer_to_bob, our_host};
ghost use Rattle.ocm_rules.specs.Messages.{phase};
ghost use Rattle.ocm_law_world.specs.Guests.{IsMade};
ghost use Rattle.ocm_law_world.specs.World.{IsReached, World};
ghost use Rattle.ocm_law_world.specs.Stories.{Crash, Event, IsStory, Return, after};
ghost use Rattle.ocm_law_world.specs.Cases.{acceptance_told, accepted, alice_abroad, confirmed_abroad, exaggerated, forged, kept_in, story};

/// A story each event of which is a step leads to a world that a run reaches.
pub fn stories_are_runs()
    ensures { (w : World) (events : List Event) → IsReached w → IsStory w events → IsReached (after w events) }
{}

/// Where the answer to an acceptance is lost, the record waits. The acceptance may be delivered once
/// more, and its answer confirms the record; the lost one is under way for ever.
pub fn a_lost_answer_may_be_asked_for_again()
    ensures lost { phase host_of_bob (kept_in (story (accepted ++ acceptance_told Noticed ∷ [])) host_of_bob) 1 ≡ Accepting }
    ensures again { phase host_of_bob (kept_in (story (accepted ++ acceptance_told Noticed ∷ acceptance_told Noticed ∷ Return Done ∷ [])) host_of_bob) 1 ≡ Confirmed }
    ensures run { IsReached (story (accepted ++ acceptance_told Noticed ∷ acceptance_told Noticed ∷ Return Done ∷ [])) }
{}

/// An answer may come after the crashes of both servers.
pub fn an_answer_may_come_after_crashes()
    ensures after { phase host_of_bob (kept_in (story (accepted ++ acceptance_told Noticed ∷ Crash host_of_bob ∷ Crash our_host ∷ Return Done ∷ [])) host_of_bob) 1 ≡ Confirmed }
    ensures run { IsReached (story (accepted ++ acceptance_told Noticed ∷ Crash host_of_bob ∷ Crash our_host ∷ Return Done ∷ [])) }
{}

/// A forged offer may be accepted by its guest, and is refused by the owner that it names.
pub fn a_forged_offer_is_refused_by_its_owner()
    ensures accepted { phase host_of_bob (kept_in (story forged) host_of_bob) 1 ≡ Accepting }
    ensures refused { phase host_of_bob (kept_in (story (forged ++ acceptance_told (refused UnknownShare) ∷ Return Done ∷ [])) host_of_bob) 1 ≡ Refused }
    ensures run { IsReached (story (forged ++ acceptance_told (refused UnknownShare) ∷ Return Done ∷ [])) }
{}

/// So is one that has the right secret, and more permissions than were granted.
pub fn an_exaggerated_offer_is_refused_by_its_owner()
    ensures refused { phase host_of_bob (kept_in (story (exaggerated ++ acceptance_told (refused NotPermitted) ∷ Return Done ∷ [])) host_of_bob) 1 ≡ Refused }
    ensures run { IsReached (story (exaggerated ++ acceptance_told (refused NotPermitted) ∷ Return Done ∷ [])) }
{}

/// A server of another program may say yes to the acceptance of an offer, whatever it has made.
pub fn a_foreign_server_says_what_it_will()
    ensures confirmed { phase host_of_bob (kept_in (after alice_abroad confirmed_abroad) host_of_bob) 1 ≡ Confirmed }
    ensures unmade { IsMade (after alice_abroad confirmed_abroad) offer_to_bob → ⊥ }
    ensures run { IsReached (after alice_abroad confirmed_abroad) }
{}
