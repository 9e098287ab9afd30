//! Worked cases of requests to share further and of what other servers say of a share, each as the
//! contract of a function that does nothing.
ghost use Rattle.std.specs.Prelude.{◌≡◌, [], ◌∷◌, Some, None, codes, decimal, false, true};
ghost use Rattle.ocm_types.specs.declared.letters.Letter.TheVariants as letters;
ghost use Rattle.ocm_types.specs.declared.letters.Notice.TheVariants.{Accepted, Changed, Declined, ReshareRequest, Unshared};
ghost use Rattle.ocm_types.specs.declared.phases.Phase.TheVariants as phases;
ghost use Rattle.ocm_types.specs.Rights.{all_rights};
ghost use Rattle.ocm_entry.specs.declared.asks.Ask.TheVariants.{AddUser, Due, Local, Notice, Offer, Settle};
ghost use Rattle.ocm_entry.specs.declared.asks.Cmd.TheVariants.{Accept, Decline, Limit, List, Reshare, Undo, Unshare};
ghost use Rattle.ocm_entry.specs.declared.listings.Line.TheVariants as lines;
ghost use Rattle.ocm_entry.specs.declared.refusals.AddressField.TheVariants.{ShareWith};
ghost use Rattle.ocm_entry.specs.declared.refusals.Why.TheVariants.{Collision, NotFound, NotPermitted, OwnHost, SenderIdReused, ShareClosed, UnknownShare, WrongPhase};
ghost use Rattle.ocm_entry.specs.declared.replies.Reply.TheVariants as replies_are;
ghost use Rattle.ocm_entry.specs.declared.replies.Reply.TheVariants.{Child, Done, Key, Listing, Noticed, Number, Recipient};
ghost use Rattle.ocm_rules.specs.Answers.{refused};
ghost use Rattle.ocm_rules.specs.Cases.{add_bob, alice, alice_commands, alice_key, bob, bob_commands, bob_key, carol, change_for_bob, chain, chain_at_bob, dan, dora_key, first_bytes, first_secret, history, host_of_bob, no_bytes, offer_to_bob, our_host, path_f, replies, replies_after, request_for, second_bytes, second_secret, sharing, sixteen_of, third_bytes, third_secret, to_read, to_read_and_share, to_write};
ghost use Rattle.ocm_rules.specs.Shares.{effective, made, perms};

/// A request may ask for no more than the parent lets its guest do, for a guest of another host, with
/// drawn bytes that served for nothing yet; it wants the parent's secret and a live parent.
pub fn requests_are_refused_in_order()
    ensures { replies_after our_host (history our_host (sharing to_read_and_share)) (Notice (ReshareRequest (codes "1") second_secret carol (codes "1") None) second_bytes
        ∷ Notice (ReshareRequest (codes "1") first_secret carol (codes "1") (Some to_write)) second_bytes
        ∷ Notice (ReshareRequest (codes "1") first_secret alice (codes "1") (Some to_read)) second_bytes
        ∷ Notice (ReshareRequest (codes "1") first_secret carol (codes "1") (Some to_read)) first_bytes
        ∷ Notice (ReshareRequest (codes "1") first_secret carol (codes "1") (Some to_read)) second_bytes
        ∷ Notice (ReshareRequest (codes "1") first_secret carol (codes "1") None) third_bytes
        ∷ Notice (ReshareRequest (codes "1") first_secret carol (codes "2") None) third_bytes
        ∷ Notice (ReshareRequest (codes "2") second_secret dan (codes "1") None) (sixteen_of 1)
        ∷ alice_commands (Unshare 1)
        ∷ Notice (ReshareRequest (codes "1") first_secret dan (codes "3") None) (sixteen_of 1)
        ∷ Notice (ReshareRequest (codes "1") first_secret carol (codes "1") (Some to_read)) (sixteen_of 1)
        ∷ [])
        ≡ (refused UnknownShare
        ∷ refused NotPermitted
        ∷ refused (OwnHost ShareWith)
        ∷ refused Collision
        ∷ Child 2
        ∷ refused SenderIdReused
        ∷ Child 3
        ∷ refused NotPermitted
        ∷ Done
        ∷ refused ShareClosed
        ∷ Child 2
        ∷ []) }
{}

/// A further share that was asked for without permissions is granted what the parent lets its guest do
/// at that moment; its effective rights follow later limits of the parent, its own permissions do not.
pub fn further_share_is_granted_what_the_parent_has()
    ensures answered { replies_after our_host (history our_host (sharing all_rights)) (alice_commands (Limit 1 to_read_and_share)
        ∷ request_for carol second_bytes
        ∷ alice_commands (Limit 1 to_read)
        ∷ alice_commands (Unshare 2)
        ∷ alice_commands List
        ∷ [])
        ≡ (Done
        ∷ Child 2
        ∷ Done
        ∷ Done
        ∷ Listing (lines.Share 1 path_f bob to_read true ∷ lines.Share 2 path_f carol to_read_and_share false ∷ [])
        ∷ []) }
    ensures permissions { perms our_host (history our_host chain) 3 ≡ all_rights }
    ensures rights { effective our_host (history our_host (sharing to_read_and_share)) 1 ≡ to_read_and_share }
{}

/// A guest that understood more than was granted is not permitted.
pub fn acceptance_is_within_the_grant()
    ensures { replies_after our_host (history our_host (sharing to_read)) (Notice (Accepted (codes "1") first_secret (Some alice) (Some bob) (Some to_read)) no_bytes
        ∷ Notice (Accepted (codes "1") first_secret None None (Some to_read_and_share)) no_bytes
        ∷ [])
        ≡ (Noticed ∷ refused NotPermitted ∷ []) }
{}

/// At a guest's server a request wants a confirmed record whose permissions, as its guest was told
/// last, hold the right to share and what is asked for.
pub fn request_wants_what_the_guest_was_told()
    ensures { replies host_of_bob (add_bob
        ∷ Offer offer_to_bob
        ∷ bob_commands (Reshare 1 carol None)
        ∷ bob_commands (Accept 1)
        ∷ bob_commands (Reshare 1 carol None)
        ∷ Settle 1 201 None
        ∷ change_for_bob 1 to_read_and_share
        ∷ bob_commands (Reshare 1 carol (Some to_write))
        ∷ bob_commands (Reshare 1 carol (Some to_read))
        ∷ change_for_bob 2 to_read
        ∷ bob_commands (Reshare 1 carol (Some to_read))
        ∷ bob_commands (Reshare 2 carol None)
        ∷ [])
        ≡ (Key bob_key
        ∷ Recipient (codes "bob")
        ∷ refused WrongPhase
        ∷ Done
        ∷ refused WrongPhase
        ∷ Done
        ∷ Noticed
        ∷ refused NotPermitted
        ∷ Number 1
        ∷ Noticed
        ∷ refused NotPermitted
        ∷ refused NotFound
        ∷ []) }
{}

/// A user has nothing to say of another user's records and requests, and lists none of them.
pub fn records_belong_to_their_user()
    ensures { replies_after host_of_bob (history host_of_bob chain_at_bob) (AddUser (codes "dora") (sixteen_of 221)
        ∷ Settle 2 201 (Some (codes "2"))
        ∷ Local dora_key (Accept 1)
        ∷ Local dora_key (Decline 1)
        ∷ Local dora_key (Reshare 1 carol None)
        ∷ Local dora_key (Undo 1)
        ∷ Local dora_key List
        ∷ [])
        ≡ (Key dora_key
        ∷ Done
        ∷ refused NotFound
        ∷ refused NotFound
        ∷ refused NotFound
        ∷ refused NotFound
        ∷ Listing []
        ∷ []) }
{}

/// Word of an end or of a change before the offer came does nothing to it: it is refused, or it acted
/// on an earlier offer alone.
pub fn notices_act_on_records_that_are_there()
    ensures { replies host_of_bob (add_bob
        ∷ Notice (Unshared (codes "1") first_secret) no_bytes
        ∷ Offer offer_to_bob
        ∷ change_for_bob 3 to_read
        ∷ Notice (Unshared (codes "1") first_secret) no_bytes
        ∷ Offer (record offer_to_bob { name = codes "g" })
        ∷ change_for_bob 2 to_write
        ∷ bob_commands List
        ∷ [])
        ≡ (Key bob_key
        ∷ refused UnknownShare
        ∷ Recipient (codes "bob")
        ∷ Noticed
        ∷ Noticed
        ∷ Recipient (codes "bob")
        ∷ Noticed
        ∷ Listing (lines.Received 1 (record offer_to_bob { perms = to_read }) phases.Removed ∷ lines.Received 2 (record offer_to_bob { name = codes "g"; perms = to_write }) phases.Pending ∷ [])
        ∷ []) }
{}
