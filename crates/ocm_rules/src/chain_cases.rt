//! Worked cases of a share that is shared further, at the owner's server and at a guest's, each as
//! the contract of a function that does nothing.
ghost use Rattle.std.specs.Prelude.{◌≡◌, [], ◌∷◌, Some, None, codes, decimal, false, true};
ghost use Rattle.ocm_types.specs.declared.letters.Letter.TheVariants as letters;
ghost use Rattle.ocm_types.specs.declared.letters.Notice.TheVariants.{Accepted, Changed, Declined, ReshareRequest, ReshareUndo, Unshared};
ghost use Rattle.ocm_types.specs.declared.phases.Phase.TheVariants as phases;
ghost use Rattle.ocm_types.specs.declared.phases.RequestPhase.TheVariants as states;
ghost use Rattle.ocm_types.specs.Rights.{all_rights};
ghost use Rattle.ocm_entry.specs.declared.asks.Ask.TheVariants.{Due, Notice, Offer, Settle, Tick};
ghost use Rattle.ocm_entry.specs.declared.asks.Cmd.TheVariants.{Accept, Decline, Expire, Limit, List, Reshare, Undo, Unshare};
ghost use Rattle.ocm_entry.specs.declared.listings.Line.TheVariants as lines;
ghost use Rattle.ocm_entry.specs.declared.refusals.Why.TheVariants.{NotFound, NotOurHost, NotPermitted, OwnHost, ShareClosed, SenderIdReused, Unauthorized, UnknownShare, UnknownUser, WrongPhase};
ghost use Rattle.ocm_entry.specs.declared.refusals.AddressField.TheVariants as fields;
ghost use Rattle.ocm_entry.specs.declared.replies.Reply.TheVariants as replies_are;
ghost use Rattle.ocm_entry.specs.declared.replies.Reply.TheVariants.{Child, Done, File, Key, Left, Listing, Noticed, Number, Recipient, Replaced};
ghost use Rattle.ocm_rules.specs.Answers.{refused};
ghost use Rattle.ocm_rules.specs.Cases.{accepted_by, add_bob, change_for_bob, second_bytes, sharing, unshared_for_bob, alice_commands, alice_key, alice, bob, bob_commands, bob_key, carol, chain, chain_at_bob, change_told, dan, end_told, first_secret, get_by, history, host_of_bob, message_to, no_bytes, offer_in_chain, offer_to_bob, our_host, path_f, put_by, replies, replies_after, request_for, root_path, second_secret, third_bytes, third_secret, to_read, to_read_and_share, to_write, undo_of_second};

/// A guest of a guest of a guest reads the owner's file.
pub fn chain_reads()
    ensures answered { replies our_host chain
        ≡ (Key alice_key ∷ replies_are.Created ∷ Number 1 ∷ Done ∷ Noticed ∷ Child 2 ∷ Done ∷ Noticed ∷ Child 3 ∷ Done ∷ Noticed ∷ []) }
    ensures reads { replies_after our_host (history our_host chain) (get_by third_secret root_path ∷ put_by third_secret root_path (codes "yo") ∷ get_by alice_key path_f ∷ Due ∷ [])
        ≡ (File (codes "hi") ∷ Replaced ∷ File (codes "yo") ∷ replies_are.Due [] ∷ []) }
{}

/// Where the first share ends, all below it end, and each guest is told.
pub fn revoked_chain()
    ensures { replies_after our_host (history our_host chain) (alice_commands (Unshare 1)
        ∷ get_by second_secret root_path
        ∷ get_by third_secret root_path
        ∷ Due
        ∷ alice_commands (Unshare 2)
        ∷ [])
        ≡ (Done
        ∷ refused Unauthorized
        ∷ refused Unauthorized
        ∷ replies_are.Due (end_told 4 bob 1 first_secret ∷ end_told 5 carol 2 second_secret ∷ end_told 6 dan 3 third_secret ∷ [])
        ∷ refused WrongPhase
        ∷ []) }
{}

/// Where a share below ended before, the end above is told to those who are left.
pub fn chain_ends_from_below()
    ensures { replies_after our_host (history our_host chain) (alice_commands (Unshare 2)
        ∷ alice_commands (Unshare 1)
        ∷ Due
        ∷ [])
        ≡ (Done
        ∷ Done
        ∷ replies_are.Due (end_told 4 carol 2 second_secret ∷ end_told 5 dan 3 third_secret ∷ end_told 6 bob 1 first_secret ∷ [])
        ∷ []) }
{}

/// Word that a share was taken wants the share's own id and secret, and no more than was granted.
pub fn unknown_share_is_not_taken()
    ensures { replies_after our_host (history our_host (sharing to_read)) (accepted_by (codes "9") first_secret bob
        ∷ accepted_by (codes "1") second_secret bob
        ∷ accepted_by (codes "1") first_secret bob
        ∷ [])
        ≡ (refused UnknownShare
        ∷ refused UnknownShare
        ∷ refused NotPermitted
        ∷ []) }
{}

/// Where the first share is limited, so are all below it, and each guest is told.
pub fn limited_chain()
    ensures { replies_after our_host (history our_host chain) (alice_commands (Limit 1 to_read_and_share)
        ∷ put_by third_secret root_path (codes "yo")
        ∷ get_by third_secret root_path
        ∷ Due
        ∷ [])
        ≡ (Done
        ∷ refused NotPermitted
        ∷ File (codes "hi")
        ∷ replies_are.Due (change_told 4 bob 1 first_secret 1 to_read_and_share ∷ change_told 5 carol 2 second_secret 1 to_read_and_share ∷ change_told 6 dan 3 third_secret 1 to_read_and_share ∷ [])
        ∷ []) }
{}

/// A limit that changes nothing for a guest is not told, nor one that leaves a guest no rights; the
/// serials count all limits, and a share's later message waits for its earlier one.
pub fn limits_are_told_where_they_change()
    ensures { replies_after our_host (history our_host chain) (alice_commands (Limit 2 to_read_and_share)
        ∷ alice_commands (Limit 2 to_read_and_share)
        ∷ alice_commands (Limit 1 to_write)
        ∷ Due
        ∷ Settle 4 503 None
        ∷ Settle 4 201 None
        ∷ Settle 4 201 None
        ∷ Settle 9 201 None
        ∷ Due
        ∷ [])
        ≡ (Done
        ∷ Done
        ∷ Done
        ∷ replies_are.Due (change_told 4 carol 2 second_secret 1 to_read_and_share ∷ change_told 5 dan 3 third_secret 1 to_read_and_share ∷ change_told 6 bob 1 first_secret 3 to_write ∷ [])
        ∷ Left
        ∷ Done
        ∷ Done
        ∷ refused NotFound
        ∷ replies_are.Due (change_told 5 dan 3 third_secret 1 to_read_and_share ∷ change_told 6 bob 1 first_secret 3 to_write ∷ [])
        ∷ []) }
{}

/// Where the first share's end comes, all below it end, and nobody is told.
pub fn expired_chain()
    ensures { replies_after our_host (history our_host chain) (alice_commands (Expire 1 10) ∷ Tick 10 ∷ get_by third_secret root_path ∷ Due ∷ [])
        ≡ (Done ∷ Done ∷ refused Unauthorized ∷ replies_are.Due [] ∷ []) }
{}

/// Where a guest gives a share up, the guests below it are told, and that guest is not.
pub fn declined_chain()
    ensures { replies_after our_host (history our_host chain) (Notice (Declined (codes "1") first_secret) no_bytes
        ∷ Due
        ∷ Notice (Declined (codes "1") first_secret) no_bytes
        ∷ accepted_by (codes "1") first_secret bob
        ∷ get_by third_secret root_path
        ∷ [])
        ≡ (Noticed
        ∷ replies_are.Due (end_told 4 carol 2 second_secret ∷ end_told 5 dan 3 third_secret ∷ [])
        ∷ Noticed
        ∷ refused ShareClosed
        ∷ refused Unauthorized
        ∷ []) }
{}

/// Where a guest takes a further share back, its guest and the guests below are told. It wants the
/// parent's secret, not the child's own.
pub fn undone_chain()
    ensures { replies_after our_host (history our_host chain) (Notice (ReshareUndo (codes "2") second_secret) no_bytes
        ∷ undo_of_second
        ∷ Due
        ∷ get_by first_secret root_path
        ∷ get_by second_secret root_path
        ∷ [])
        ≡ (refused UnknownShare
        ∷ Noticed
        ∷ replies_are.Due (end_told 4 carol 2 second_secret ∷ end_told 5 dan 3 third_secret ∷ [])
        ∷ File (codes "hi")
        ∷ refused Unauthorized
        ∷ []) }
{}

/// The offer of a further share names the owner, and the parent's guest as its sender.
pub fn offers_of_the_chain()
    ensures { replies_after our_host (history our_host (sharing all_rights)) (request_for carol second_bytes ∷ Due ∷ [])
        ≡ (Child 2
        ∷ replies_are.Due (message_to 1 bob (letters.Offer (offer_in_chain 1 first_secret alice bob)) ∷ message_to 2 carol (letters.Offer (offer_in_chain 2 second_secret bob carol)) ∷ [])
        ∷ []) }
{}

/// At a guest's server a request to share further is asked, granted with the id that comes back, and
/// taken back.
pub fn request_at_the_guest()
    ensures { replies_after host_of_bob (history host_of_bob chain_at_bob) (Due
        ∷ bob_commands (Undo 1)
        ∷ Settle 2 201 None
        ∷ Settle 2 201 (Some (codes "2"))
        ∷ bob_commands List
        ∷ bob_commands (Undo 1)
        ∷ bob_commands (Undo 1)
        ∷ Due
        ∷ [])
        ≡ (replies_are.Due (message_to 2 alice (letters.Notice (ReshareRequest (codes "1") first_secret carol (decimal 1) None)) ∷ [])
        ∷ refused WrongPhase
        ∷ Left
        ∷ Done
        ∷ Listing (lines.Received 1 offer_to_bob phases.Confirmed ∷ lines.Request 1 1 carol None (states.Granted (codes "2")) ∷ [])
        ∷ Done
        ∷ refused WrongPhase
        ∷ replies_are.Due (message_to 3 alice (letters.Notice (ReshareUndo (codes "2") first_secret)) ∷ [])
        ∷ []) }
{}

/// A record is accepted once, and refused where the owner's server will not have its acceptance.
pub fn refused_acceptance()
    ensures { replies host_of_bob (add_bob
        ∷ Offer offer_to_bob
        ∷ Offer offer_to_bob
        ∷ bob_commands List
        ∷ bob_commands (Accept 1)
        ∷ bob_commands (Accept 1)
        ∷ Due
        ∷ bob_commands List
        ∷ Settle 1 500 None
        ∷ Settle 1 403 None
        ∷ bob_commands List
        ∷ bob_commands (Decline 1)
        ∷ [])
        ≡ (Key bob_key
        ∷ Recipient (codes "bob")
        ∷ Recipient (codes "bob")
        ∷ Listing (lines.Received 1 offer_to_bob phases.Pending ∷ [])
        ∷ Done
        ∷ refused WrongPhase
        ∷ replies_are.Due (message_to 1 alice (letters.Notice (Accepted (codes "1") first_secret (Some alice) (Some bob) (Some all_rights))) ∷ [])
        ∷ Listing (lines.Received 1 offer_to_bob phases.Accepting ∷ [])
        ∷ Left
        ∷ Done
        ∷ Listing (lines.Received 1 offer_to_bob phases.Refused ∷ [])
        ∷ refused WrongPhase
        ∷ []) }
{}

/// A record that was accepted can still be declined, and stays declined.
pub fn decline_after_accept()
    ensures { replies host_of_bob (add_bob
        ∷ Offer offer_to_bob
        ∷ bob_commands (Accept 1)
        ∷ bob_commands (Decline 1)
        ∷ Due
        ∷ Settle 1 403 None
        ∷ Due
        ∷ bob_commands List
        ∷ bob_commands (Decline 1)
        ∷ [])
        ≡ (Key bob_key
        ∷ Recipient (codes "bob")
        ∷ Done
        ∷ Done
        ∷ replies_are.Due (message_to 1 alice (letters.Notice (Accepted (codes "1") first_secret (Some alice) (Some bob) (Some all_rights))) ∷ [])
        ∷ Done
        ∷ replies_are.Due (message_to 2 alice (letters.Notice (Declined (codes "1") first_secret)) ∷ [])
        ∷ Listing (lines.Received 1 offer_to_bob phases.Declined ∷ [])
        ∷ refused WrongPhase
        ∷ []) }
{}

/// A record that was told to be shared no more is removed, and takes changes all the same; an equal
/// offer brings no new one.
pub fn removed_record()
    ensures { replies_after host_of_bob (history host_of_bob chain_at_bob) (unshared_for_bob
        ∷ bob_commands List
        ∷ bob_commands (Reshare 1 dan None)
        ∷ change_for_bob 1 to_read
        ∷ Offer offer_to_bob
        ∷ unshared_for_bob
        ∷ bob_commands List
        ∷ [])
        ≡ (Noticed
        ∷ Listing (lines.Received 1 offer_to_bob phases.Removed ∷ lines.Request 1 1 carol None states.Asked ∷ [])
        ∷ refused WrongPhase
        ∷ Noticed
        ∷ Recipient (codes "bob")
        ∷ Noticed
        ∷ Listing (lines.Received 1 (record offer_to_bob { perms = to_read }) phases.Removed ∷ lines.Request 1 1 carol None states.Asked ∷ [])
        ∷ []) }
{}

/// Offers are for users of this host alone, from owners of other hosts.
pub fn refused_offers()
    ensures { replies_after host_of_bob (history host_of_bob chain_at_bob) (Offer (record offer_to_bob { with = carol })
        ∷ Offer (record offer_to_bob { with = record { user = codes "eve"; host = host_of_bob } })
        ∷ Offer (record offer_to_bob { owner = bob })
        ∷ Offer (record offer_to_bob { with = record { user = codes "bob"; host = host_of_bob } })
        ∷ [])
        ≡ (refused NotOurHost ∷ refused UnknownUser ∷ refused (OwnHost fields.Owner) ∷ Recipient (codes "bob") ∷ []) }
{}

/// What nobody here knows is refused: a share, a record, a user's command about another's things.
pub fn unknown_things()
    ensures { replies_after our_host (history our_host chain) (Notice (Declined (codes "4") first_secret) no_bytes
        ∷ Notice (Declined (codes "01") first_secret) no_bytes
        ∷ Notice (Declined (codes "1") second_secret) no_bytes
        ∷ Notice (ReshareUndo (codes "1") first_secret) no_bytes
        ∷ Notice (Unshared (codes "1") first_secret) no_bytes
        ∷ Notice (Changed (codes "1") first_secret 1 to_read) no_bytes
        ∷ Notice (Accepted (codes "1") first_secret (Some bob) None None) no_bytes
        ∷ Notice (Accepted (codes "1") first_secret None (Some carol) None) no_bytes
        ∷ Notice (Accepted (codes "1") first_secret None None None) no_bytes
        ∷ alice_commands (Unshare 4)
        ∷ alice_commands (Accept 1)
        ∷ alice_commands (Undo 1)
        ∷ [])
        ≡ (refused UnknownShare
        ∷ refused UnknownShare
        ∷ refused UnknownShare
        ∷ refused UnknownShare
        ∷ refused UnknownShare
        ∷ refused UnknownShare
        ∷ refused NotPermitted
        ∷ refused NotPermitted
        ∷ Noticed
        ∷ refused NotFound
        ∷ refused NotFound
        ∷ refused NotFound
        ∷ []) }
{}
