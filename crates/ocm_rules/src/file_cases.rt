//! Worked cases of users, files and shares, each as the contract of a function that does nothing.
ghost use Rattle.std.specs.Prelude.{◌≡◌, ◌<◌, ◌≤◌, ℕ, List, [], ◌∷◌, Some, None, codes, false, length, replicate, true};
ghost use Rattle.ocm_types.specs.declared.phases.Which.TheVariants as limits;
ghost use Rattle.ocm_entry.specs.declared.asks.Ask.TheVariants.{Carry, Dav};
ghost use Rattle.ocm_entry.specs.declared.asks.Cmd.TheVariants.{Expire, Share, Unshare};
ghost use Rattle.ocm_entry.specs.declared.asks.Method.TheVariants.{Get, Mkcol};
ghost use Rattle.ocm_entry.specs.declared.refusals.AddressField.TheVariants.{ShareWith};
ghost use Rattle.ocm_entry.specs.declared.refusals.Why.TheVariants.{BodyRefused, Collision, Limit, NotAllowed, NotFound, NotPermitted, OwnHost, ParentMissing, RootStays, SamePlace, Unauthorized, UserExists, WrongPhase};
ghost use Rattle.ocm_entry.specs.declared.replies.Reply.TheVariants.{Created, Done, File, Items, Key, Number, Removed, Replaced};
ghost use Rattle.ocm_rules.specs.Answers.{refused};
ghost use Rattle.ocm_rules.specs.Cases.{add_alice, alice, alice_commands, alice_key, alice_shares, bob, carol, copy_by, delete_by, dora_commands, dora_key, add_dora, first_bytes, first_secret, get_by, history, list1_by, mkcol_by, move_by, move_over_by, our_host, path_c, path_d, path_f, path_of_one, path_of_two, put_by, replies, replies_after, root_path, second_bytes, second_secret, sharing, sixteen_of, third_bytes, to_read, to_read_and_write, to_write};

/// A name is given once, and drawn bytes serve once: as a key or as a secret, also where the share was
/// ended.
pub fn names_and_drawn_bytes_serve_once()
    ensures { replies_after our_host (history our_host (sharing to_read)) (add_alice
        ∷ add_dora (sixteen_of 170)
        ∷ add_dora first_bytes
        ∷ alice_shares path_f bob to_read (sixteen_of 170)
        ∷ alice_commands (Unshare 1)
        ∷ alice_shares path_f bob to_read first_bytes
        ∷ alice_shares path_f bob to_read second_bytes
        ∷ add_dora (sixteen_of 221)
        ∷ [])
        ≡ (refused UserExists
        ∷ refused Collision
        ∷ refused Collision
        ∷ refused Collision
        ∷ Done
        ∷ refused Collision
        ∷ Number 2
        ∷ Key dora_key
        ∷ []) }
{}

/// What is shared has to stand there, as the root always does, and its guest is of another host, which
/// is told first.
pub fn shares_want_something_and_another_host()
    ensures { replies our_host (add_alice
        ∷ alice_shares path_f bob to_read first_bytes
        ∷ alice_shares path_f alice to_read first_bytes
        ∷ alice_shares root_path bob to_read first_bytes
        ∷ [])
        ≡ (Key alice_key ∷ refused NotFound ∷ refused (OwnHost ShareWith) ∷ Number 1 ∷ []) }
{}

/// The guest's `/` is what was shared: here a file, in which nothing lies, and which it may neither
/// delete nor move. A guest does what was granted and no more.
pub fn guest_does_what_was_granted()
    ensures reader { replies_after our_host (history our_host (sharing to_read)) (get_by first_secret root_path
        ∷ get_by first_secret path_f
        ∷ put_by first_secret root_path (codes "hello")
        ∷ delete_by first_secret root_path
        ∷ copy_by first_secret root_path path_f
        ∷ [])
        ≡ (File (codes "hi") ∷ refused NotFound ∷ refused NotPermitted ∷ refused NotPermitted ∷ refused NotPermitted ∷ []) }
    ensures writer { replies_after our_host (history our_host (sharing to_write)) (get_by first_secret root_path
        ∷ put_by first_secret path_f (codes "hello")
        ∷ put_by first_secret root_path (codes "hello")
        ∷ delete_by first_secret root_path
        ∷ copy_by first_secret path_f path_c
        ∷ move_by first_secret root_path path_c
        ∷ move_by first_secret path_f path_c
        ∷ get_by alice_key path_f
        ∷ [])
        ≡ (refused NotPermitted ∷ refused ParentMissing ∷ Replaced ∷ refused RootStays ∷ refused NotPermitted ∷ refused RootStays ∷ refused NotFound ∷ File (codes "hello") ∷ []) }
{}

/// A guest of a collection puts, copies and moves in it, and the owner finds all of it there.
pub fn guest_writes_in_a_collection()
    ensures { replies our_host (add_alice
        ∷ mkcol_by alice_key path_c
        ∷ alice_shares path_c bob to_read_and_write first_bytes
        ∷ put_by first_secret path_f (codes "hi")
        ∷ copy_by first_secret path_f path_d
        ∷ move_by first_secret path_d path_c
        ∷ copy_by first_secret path_c root_path
        ∷ list1_by first_secret root_path
        ∷ get_by alice_key (path_of_two (codes "c") (codes "c"))
        ∷ delete_by alice_key path_c
        ∷ get_by first_secret path_f
        ∷ put_by first_secret path_f (codes "hi")
        ∷ [])
        ≡ (Key alice_key
        ∷ Created
        ∷ Number 1
        ∷ Created
        ∷ Created
        ∷ Created
        ∷ refused RootStays
        ∷ Items (record { path = root_path; size = None } ∷ record { path = path_c; size = Some 2 } ∷ record { path = path_f; size = Some 2 } ∷ [])
        ∷ File (codes "hi")
        ∷ Removed
        ∷ refused NotFound
        ∷ refused ParentMissing
        ∷ []) }
{}

/// Before a share is ended an absent path is not found; afterwards its secret holds nothing, whatever
/// stands at the path. Other shares and the owner's own key go on.
pub fn ended_share_reads_nothing()
    ensures { replies_after our_host (history our_host (sharing to_read)) (alice_shares path_f bob to_write second_bytes
        ∷ get_by first_secret path_c
        ∷ alice_commands (Unshare 1)
        ∷ get_by first_secret root_path
        ∷ get_by first_secret path_c
        ∷ put_by first_secret root_path (codes "yo")
        ∷ move_by first_secret path_c path_d
        ∷ put_by second_secret root_path (codes "yo")
        ∷ get_by alice_key path_f
        ∷ [])
        ≡ (Number 2
        ∷ refused NotFound
        ∷ Done
        ∷ refused Unauthorized
        ∷ refused Unauthorized
        ∷ refused Unauthorized
        ∷ refused Unauthorized
        ∷ Replaced
        ∷ File (codes "yo")
        ∷ []) }
{}

/// A share is ended once, by its owner alone; that it belongs to another user is told before its phase.
/// A command wants the key of a user.
pub fn share_is_ended_once_by_its_owner()
    ensures { replies_after our_host (history our_host (sharing to_read)) (add_dora (sixteen_of 221)
        ∷ dora_commands (Unshare 1)
        ∷ dora_commands (Expire 1 0)
        ∷ alice_commands (Unshare 0)
        ∷ alice_commands (Unshare 2)
        ∷ alice_commands (Unshare 1)
        ∷ alice_commands (Unshare 1)
        ∷ dora_commands (Unshare 1)
        ∷ [])
        ≡ (Key dora_key
        ∷ refused NotFound
        ∷ refused NotFound
        ∷ refused NotFound
        ∷ refused NotFound
        ∷ Done
        ∷ refused WrongPhase
        ∷ refused NotFound
        ∷ []) }
{}

/// A share whose end has passed already ends at once.
pub fn end_in_the_past_ends_at_once()
    ensures { replies_after our_host (history our_host (sharing to_read)) (alice_commands (Expire 1 0) ∷ get_by first_secret root_path ∷ [])
        ≡ (Done ∷ refused Unauthorized ∷ []) }
{}

/// A collection is made without a body, where nothing stands, in a collection; each user has files of
/// their own.
pub fn collections_are_made_where_nothing_stands()
    ensures { replies our_host (add_alice
        ∷ mkcol_by alice_key root_path
        ∷ mkcol_by alice_key (path_of_two (codes "c") (codes "d"))
        ∷ Dav alice_key Mkcol path_c (codes "x")
        ∷ mkcol_by alice_key path_c
        ∷ Dav alice_key Mkcol path_c (codes "x")
        ∷ get_by alice_key path_c
        ∷ put_by alice_key path_c (codes "x")
        ∷ put_by alice_key root_path (codes "x")
        ∷ add_dora (sixteen_of 221)
        ∷ get_by dora_key path_c
        ∷ [])
        ≡ (Key alice_key
        ∷ refused NotAllowed
        ∷ refused ParentMissing
        ∷ refused BodyRefused
        ∷ Created
        ∷ refused NotAllowed
        ∷ refused NotAllowed
        ∷ refused NotAllowed
        ∷ refused NotAllowed
        ∷ Key dora_key
        ∷ refused NotFound
        ∷ []) }
{}

/// A collection is copied with all in it, onto what stands there and what stood in that; the copy does
/// not change with what was copied.
pub fn collections_are_carried_whole()
    ensures { replies our_host (add_alice
        ∷ mkcol_by alice_key path_c
        ∷ put_by alice_key (path_of_two (codes "c") (codes "x")) (codes "hi")
        ∷ mkcol_by alice_key path_d
        ∷ put_by alice_key (path_of_two (codes "d") (codes "y")) (codes "yo")
        ∷ Carry alice_key path_c path_d false true
        ∷ get_by alice_key (path_of_two (codes "d") (codes "y"))
        ∷ put_by alice_key (path_of_two (codes "c") (codes "x")) (codes "ho")
        ∷ get_by alice_key (path_of_two (codes "d") (codes "x"))
        ∷ copy_by alice_key path_c (path_of_two (codes "n") (codes "c"))
        ∷ copy_by alice_key (path_of_two (codes "c") (codes "x")) path_c
        ∷ copy_by alice_key path_f path_c
        ∷ [])
        ≡ (Key alice_key
        ∷ Created
        ∷ Created
        ∷ Created
        ∷ Created
        ∷ Replaced
        ∷ refused NotFound
        ∷ Replaced
        ∷ File (codes "hi")
        ∷ refused ParentMissing
        ∷ refused SamePlace
        ∷ refused NotFound
        ∷ []) }
{}
