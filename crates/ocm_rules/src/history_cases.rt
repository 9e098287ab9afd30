//! Worked cases of what is kept of a history, and of what later replies can depend on, each as the
//! contract of a function that does nothing.
ghost use Rattle.std.specs.Prelude.{◌≡◌, ℕ, List, [], ◌∷◌, Some, None, codes, false, true};
ghost use Rattle.ocm_entry.specs.declared.asks.Ask.TheVariants.{Due, Offer, Settle, Tick};
ghost use Rattle.ocm_entry.specs.declared.asks.Cmd.TheVariants.{Accept, Unshare};
ghost use Rattle.ocm_entry.specs.declared.replies.Reply.TheVariants.{Created, Done, File, NoMemory, Noticed, Number, Recipient, Replaced};
ghost use Rattle.ocm_entry.specs.declared.refusals.Why.TheVariants.{ParentMissing};
ghost use Rattle.ocm_rules.specs.Answers.{refused};
ghost use Rattle.ocm_rules.specs.Cases.{add_alice, add_bob, alice_commands, alice_key, alice_shares, bob, bob_commands, chain, change_for_bob, copy_by, delete_by, first_bytes, get_by, given, history, host_of_bob, mkcol_by, offer_to_bob, our_host, path_c, path_d, path_f, path_of_one, path_of_two, put_by, root_path, sharing, to_read, to_read_and_share, unshared_for_bob};
ghost use Rattle.ocm_rules.specs.Files.{at, child_count, nodes, total_size};
ghost use Rattle.ocm_rules.specs.History.{kept};
ghost use Rattle.ocm_rules.specs.Lean.{count, lean, still_stands};
ghost use Rattle.ocm_rules.specs.Shares.{made};
ghost use Rattle.ocm_entry.specs.declared.rows.Standing.TheVariants.{Collection};

/// An entry that changes nothing is not kept: a read, a refusal, an ask for which there was no memory,
/// a repeated offer or change, an earlier clock.
pub fn only_changes_are_kept()
    ensures read { kept our_host (given (get_by alice_key path_f) (File (codes "hi")) ∷ history our_host (sharing to_read)) ≡ history our_host (sharing to_read) }
    ensures refusal { kept our_host (given (put_by alice_key (path_of_two (codes "g") (codes "x")) (codes "hi")) (refused ParentMissing) ∷ history our_host (sharing to_read)) ≡ history our_host (sharing to_read) }
    ensures no_memory { kept our_host (given (put_by alice_key path_f (codes "yo")) NoMemory ∷ history our_host (sharing to_read)) ≡ history our_host (sharing to_read) }
    ensures clock { kept our_host (history our_host (add_alice ∷ Tick 5 ∷ Tick 5 ∷ Tick 4 ∷ [])) ≡ history our_host (add_alice ∷ Tick 5 ∷ []) }
    ensures repeated { kept host_of_bob (history host_of_bob (add_bob ∷ Offer offer_to_bob ∷ Offer offer_to_bob ∷ change_for_bob 0 to_read ∷ change_for_bob 1 to_read ∷ change_for_bob 1 to_read ∷ unshared_for_bob ∷ unshared_for_bob ∷ []))
        ≡ history host_of_bob (add_bob ∷ Offer offer_to_bob ∷ change_for_bob 1 to_read ∷ unshared_for_bob ∷ []) }
{}

/// Of the worked histories all that changed something is counted, without the ticks.
pub fn entries_are_counted()
    ensures expiring { count our_host (history our_host (add_alice ∷ Tick 5 ∷ put_by alice_key path_f (codes "hi") ∷ Tick 6 ∷ get_by alice_key path_f ∷ Tick 7 ∷ [])) ≡ 2 }
{}

/// What later replies can depend on: of ticks that follow one another the last, and the bytes of files
/// that still stand.
pub fn what_no_reply_depends_on_is_left_out()
    ensures ticks { lean our_host (history our_host (add_alice ∷ Tick 5 ∷ Tick 6 ∷ mkcol_by alice_key path_c ∷ Tick 7 ∷ [])) ≡ history our_host (add_alice ∷ Tick 6 ∷ mkcol_by alice_key path_c ∷ Tick 7 ∷ []) }
    ensures replaced { lean our_host (history our_host (add_alice ∷ put_by alice_key path_f (codes "hi") ∷ put_by alice_key path_f (codes "yo") ∷ []))
        ≡ history our_host (add_alice ∷ put_by alice_key path_f [] ∷ put_by alice_key path_f (codes "yo") ∷ []) }
    ensures copied { lean our_host (history our_host (add_alice ∷ put_by alice_key path_f (codes "hi") ∷ copy_by alice_key path_f path_d ∷ put_by alice_key path_f (codes "yo") ∷ []))
        ≡ history our_host (add_alice ∷ put_by alice_key path_f (codes "hi") ∷ copy_by alice_key path_f path_d ∷ put_by alice_key path_f (codes "yo") ∷ []) }
    ensures removed { lean our_host (history our_host (add_alice ∷ put_by alice_key path_f (codes "hi") ∷ delete_by alice_key path_f ∷ []))
        ≡ history our_host (add_alice ∷ put_by alice_key path_f [] ∷ delete_by alice_key path_f ∷ []) }
{}

/// A file that was replaced counts once, with its last bytes.
pub fn replaced_file_counts_once()
    ensures size { total_size (nodes our_host (history our_host (add_alice ∷ put_by alice_key path_f (codes "hi") ∷ put_by alice_key path_f (codes "hello") ∷ []))) ≡ 5 }
    ensures children { child_count (nodes our_host (history our_host (add_alice ∷ put_by alice_key path_f (codes "hi") ∷ put_by alice_key path_f (codes "hello") ∷ []))) (record { user = 1; path = root_path }) ≡ 1 }
{}

/// An entry that no server would have given adds what can be read of it: a share by nobody is none,
/// and a root stays a collection.
pub fn impossible_entries_add_nothing()
    ensures share_by_nobody { made our_host (given (alice_shares path_f bob to_read first_bytes) (Number 1) ∷ []) ≡ [] }
    ensures root { at our_host (given (put_by alice_key root_path (codes "hi")) Created ∷ history our_host (add_alice ∷ [])) (record { user = 1; path = root_path }) ≡ Some Collection }
{}
