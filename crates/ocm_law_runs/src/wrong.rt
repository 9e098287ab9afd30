//! Why the definitions are as they are: for each of these wrong ones a law of transcripts would be
//! false. Each counterexample is computed, as the contract of a function that does nothing.
ghost use Rattle.std.specs.Prelude.{◌≡◌, [], ◌∷◌, codes, false, true, Some, option_map};
ghost use Rattle.ocm_types.specs.declared.phases.Phase.TheVariants.{Accepting};
ghost use Rattle.ocm_rules.specs.Cases.{host_of_bob, offer_to_bob, our_host};
ghost use Rattle.ocm_rules.specs.History.{IsLegal};
ghost use Rattle.ocm_rules.specs.Messages.{phase};
ghost use Rattle.ocm_rules.specs.Shares.{is_live};
ghost use Rattle.ocm_transcript.specs.Texts.{line_text};
ghost use Rattle.ocm_script_run.specs.Servers.{Server, new_server, server_at};
ghost use Rattle.ocm_script_run.specs.Transcript.{run};
ghost use Rattle.ocm_law_runs.specs.Standing.{IsMade, kept_at};
ghost use Rattle.ocm_law_runs.specs.Wrong.{ended_after_crash, ended_server, forged_at_bob, get, sharing_server, unshare, without_calls};

/// Were an `unshare` that printed `500 no memory` taken as done, a share would be live that was ended.
pub fn an_end_is_done_where_204_is_printed()
    ensures printed { (run (true ∷ []) (sharing_server ∷ []) 1 unshare).text ≡ line_text 1 (codes "500 no memory") }
    ensures live { option_map (λ (server : Server). is_live our_host (kept_at our_host server) 1) (server_at (run (true ∷ []) (sharing_server ∷ []) 1 unshare).world our_host) ≡ Some true }
{}

/// Memory may be wanting at a refusal too: `401 unauthorized` is not all that is printed.
pub fn a_refusal_may_want_memory()
    ensures { (run (true ∷ []) (ended_server ∷ []) 1 get).text ≡ line_text 1 (codes "500 no memory") }
{}

/// Could a crash lose calls, a share that was ended would be live again.
pub fn a_crash_loses_no_call()
    ensures ended { is_live our_host (kept_at our_host ended_after_crash) 1 ≡ false }
    ensures live_again { is_live our_host (kept_at our_host (without_calls ended_after_crash)) 1 ≡ true }
{}

/// Were a server's history its calls since the last crash alone, it would be no legal one.
pub fn a_history_begins_before_the_last_crash()
    ensures { IsLegal our_host ended_after_crash.calls → ⊥ }
{}

/// Were a record taken for confirmed once it was accepted, it would be of an offer that nobody made.
pub fn an_acceptance_confirms_nothing()
    ensures accepted { phase host_of_bob (kept_at host_of_bob forged_at_bob) 1 ≡ Accepting }
    ensures unmade { IsMade (new_server our_host ∷ forged_at_bob ∷ []) offer_to_bob → ⊥ }
{}
