//! Worked cases of the rules, each as the contract of a function that does nothing: what a server
//! answers that is asked this, one ask after another.
ghost use Rattle.std.specs.Prelude.{◌≡◌, ◌++◌, [], ◌∷◌, Some, None, codes, false, true};
ghost use Rattle.ocm_types.specs.declared.phases.Phase.TheVariants.{Confirmed};
ghost use Rattle.ocm_types.specs.Rights.{all_rights};
ghost use Rattle.ocm_entry.specs.declared.asks.Ask.TheVariants.{Local, Offer, Settle, Tick};
ghost use Rattle.ocm_entry.specs.declared.asks.Cmd.TheVariants.{Accept, Expire, Limit, List, Unshare};
ghost use Rattle.ocm_entry.specs.declared.listings.Line.TheVariants as lines;
ghost use Rattle.ocm_entry.specs.declared.refusals.Why.TheVariants.{NotAllowed, NotFound, NotPermitted, Occupied, ParentMissing, RootStays, SamePlace, SenderIdReused, Unauthorized, WrongPhase};
ghost use Rattle.ocm_entry.specs.declared.replies.Reply.TheVariants.{Child, Created, Done, File, Items, Key, Listing, Noticed, Number, Recipient, Removed, Replaced};
ghost use Rattle.ocm_rules.specs.Answers.{refused};
ghost use Rattle.ocm_rules.specs.Cases.{add_alice, add_bob, alice_commands, alice_key, alice_shares, bob, bob_commands, bob_key, carol, change_for_bob, copy_by, dan, delete_by, first_bytes, first_secret, get_by, head_by, history, host_of_bob, list0_by, list1_by, mkcol_by, move_by, move_over_by, offer_to_bob, our_host, path_c, path_d, path_f, path_of_one, path_of_two, put_by, replies, replies_after, request_for, root_path, second_bytes, second_secret, sharing, third_bytes, to_read, to_read_and_share, to_write, undo_of_second};
ghost use Rattle.ocm_rules.specs.Lean.{count};

/// A file is put and shared, and its guest reads it until the share is ended.
pub fn first_run()
    ensures { replies our_host (add_alice
        ∷ put_by alice_key path_f (codes "hi")
        ∷ alice_shares path_f bob to_read first_bytes
        ∷ get_by first_secret root_path
        ∷ alice_commands (Unshare 1)
        ∷ get_by first_secret root_path
        ∷ get_by alice_key (path_of_one (codes "g"))
        ∷ [])
        ≡ (Key alice_key ∷ Created ∷ Number 1 ∷ File (codes "hi") ∷ Done ∷ refused Unauthorized ∷ refused NotFound ∷ []) }
{}

/// Collections are made, listed and deleted, with the files in them.
pub fn files_and_collections()
    ensures { replies our_host (add_alice
        ∷ mkcol_by alice_key path_c
        ∷ put_by alice_key (path_of_two (codes "c") (codes "a & b")) (codes "hello")
        ∷ list1_by alice_key path_c
        ∷ mkcol_by alice_key path_c
        ∷ put_by alice_key (path_of_two (codes "n") (codes "x")) (codes "hi")
        ∷ head_by alice_key (path_of_two (codes "c") (codes "a & b"))
        ∷ delete_by alice_key root_path
        ∷ delete_by alice_key path_c
        ∷ list0_by alice_key path_c
        ∷ [])
        ≡ (Key alice_key
        ∷ Created
        ∷ Created
        ∷ Items (record { path = path_c; size = None } ∷ record { path = path_of_two (codes "c") (codes "a & b"); size = Some 5 } ∷ [])
        ∷ refused NotAllowed
        ∷ refused ParentMissing
        ∷ File (codes "hello")
        ∷ refused RootStays
        ∷ Removed
        ∷ refused NotFound
        ∷ []) }
{}

/// The secret of a share commands nothing, and no share is limited to more than was granted.
pub fn limit_refusals()
    ensures { replies_after our_host (history our_host (sharing to_read)) (Local first_secret (Limit 1 to_read)
        ∷ alice_commands (Limit 1 to_write)
        ∷ alice_commands List
        ∷ [])
        ≡ (refused Unauthorized
        ∷ refused NotPermitted
        ∷ Listing (lines.Share 1 path_f bob to_read true ∷ [])
        ∷ []) }
{}

/// A repeated request gets the child that was made for it, also once that child ended, and another
/// request may not have its `senderId`.
pub fn reshare_repeats_and_undo()
    ensures { replies_after our_host (history our_host (sharing to_read_and_share)) (request_for carol second_bytes
        ∷ request_for carol third_bytes
        ∷ request_for dan third_bytes
        ∷ get_by second_secret root_path
        ∷ undo_of_second
        ∷ get_by second_secret root_path
        ∷ request_for carol third_bytes
        ∷ get_by second_secret root_path
        ∷ [])
        ≡ (Child 2
        ∷ Child 2
        ∷ refused SenderIdReused
        ∷ File (codes "hi")
        ∷ Noticed
        ∷ refused Unauthorized
        ∷ Child 2
        ∷ refused Unauthorized
        ∷ []) }
{}

/// A share ends at its moment, and no clock and no later end brings it back.
pub fn expiring_share()
    ensures { replies_after our_host (history our_host (sharing to_read)) (alice_commands (Expire 1 100)
        ∷ Tick 99
        ∷ get_by first_secret root_path
        ∷ Tick 100
        ∷ get_by first_secret root_path
        ∷ Tick 50
        ∷ get_by first_secret root_path
        ∷ alice_commands (Expire 1 200)
        ∷ [])
        ≡ (Done
        ∷ Done
        ∷ File (codes "hi")
        ∷ Done
        ∷ refused Unauthorized
        ∷ Done
        ∷ refused Unauthorized
        ∷ refused WrongPhase
        ∷ []) }
{}

/// What is copied stands twice, and what is moved once; nothing is overwritten unasked, and nothing is
/// carried into itself.
pub fn copy_and_move()
    ensures { replies our_host (add_alice
        ∷ mkcol_by alice_key path_c
        ∷ put_by alice_key (path_of_two (codes "c") (codes "x")) (codes "hi")
        ∷ copy_by alice_key path_c path_d
        ∷ get_by alice_key (path_of_two (codes "d") (codes "x"))
        ∷ move_by alice_key path_c path_d
        ∷ move_by alice_key path_d (path_of_two (codes "d") (codes "e"))
        ∷ put_by alice_key (path_of_two (codes "c") (codes "x")) (codes "yo")
        ∷ move_over_by alice_key path_c path_d
        ∷ get_by alice_key (path_of_two (codes "c") (codes "x"))
        ∷ get_by alice_key (path_of_two (codes "d") (codes "x"))
        ∷ [])
        ≡ (Key alice_key
        ∷ Created
        ∷ Created
        ∷ Created
        ∷ File (codes "hi")
        ∷ refused Occupied
        ∷ refused SamePlace
        ∷ Replaced
        ∷ Replaced
        ∷ refused NotFound
        ∷ File (codes "yo")
        ∷ []) }
{}

/// A guest's server takes the change with the greatest serial, in whatever order changes come.
pub fn changes_out_of_order()
    ensures { replies host_of_bob (add_bob
        ∷ Offer offer_to_bob
        ∷ bob_commands (Accept 1)
        ∷ Settle 1 201 None
        ∷ change_for_bob 1 to_read_and_share
        ∷ change_for_bob 2 to_read
        ∷ change_for_bob 1 to_read_and_share
        ∷ bob_commands List
        ∷ [])
        ≡ (Key bob_key
        ∷ Recipient (codes "bob")
        ∷ Done
        ∷ Done
        ∷ Noticed
        ∷ Noticed
        ∷ Noticed
        ∷ Listing (lines.Received 1 (record offer_to_bob { perms = to_read }) Confirmed ∷ [])
        ∷ []) }
{}
