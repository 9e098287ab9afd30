//! A worked log, and what the premise is for, each as the contract of a function that does nothing.
ghost use Rattle.std.specs.Prelude.{◌≡◌, [], Some, option_map};
ghost use Rattle.ocm_types.specs.declared.phases.Phase.TheVariants.{Confirmed};
ghost use Rattle.ocm_rules.specs.Cases.{host_of_bob, offer_to_bob};
ghost use Rattle.ocm_rules.specs.Messages.{phase};
ghost use Rattle.ocm_law_world.specs.Guests.{IsMade};
ghost use Rattle.ocm_law_world.specs.World.{Session, kept_at};
ghost use Rattle.ocm_law_network.specs.Network.{Along, IsLog, RepliesAreTheirs, session_of, world_of};
ghost use Rattle.ocm_law_network.specs.Carried.{ConnectionsCarry};
ghost use Rattle.ocm_law_network.specs.Cases.{IsSomeReply, alone, forged, invented, mistaken, told};

/// Bob accepts an offer, alice's server takes the acceptance on the connection of its post, and the page of its reply comes
/// back and confirms the record.
pub fn an_acceptance_is_answered_over_the_network()
    ensures log { IsLog alone told }
    ensures carried { ConnectionsCarry alone told }
    ensures theirs { RepliesAreTheirs alone told }
    ensures confirmed { option_map (λ (s : Session). phase host_of_bob (kept_at host_of_bob s) 1) (session_of told host_of_bob) ≡ Some Confirmed }
{}

/// Were the replies of alice's host not its own, bob would have a confirmed share that nobody made.
pub fn a_yes_comes_from_the_owners_server()
    ensures log { IsLog alone forged }
    ensures confirmed { option_map (λ (s : Session). phase host_of_bob (kept_at host_of_bob s) 1) (session_of forged host_of_bob) ≡ Some Confirmed }
    ensures unmade { IsMade (world_of alone forged []) offer_to_bob → ⊥ }
    ensures theirs { RepliesAreTheirs alone forged → ⊥ }
{}

/// Were any page of alice's server enough, what it said when bob declined an offer of hers would confirm another that she never
/// made.
pub fn a_yes_answers_the_letter_of_its_own_connection()
    ensures log { IsLog alone mistaken }
    ensures pages { Along (IsSomeReply alone) mistaken }
    ensures confirmed { option_map (λ (s : Session). phase host_of_bob (kept_at host_of_bob s) 2) (session_of mistaken host_of_bob) ≡ Some Confirmed }
    ensures unmade { IsMade (world_of alone mistaken []) invented → ⊥ }
    ensures theirs { RepliesAreTheirs alone mistaken → ⊥ }
{}
