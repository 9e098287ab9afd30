//! Worked cases of the limits and of the order of refusals, each as the contract of a function that
//! does nothing.
ghost use Rattle.std.specs.Prelude.{◌≡◌, ◌+◌, ◌<◌, ◌≤◌, ℕ, List, [], ◌∷◌, Some, None, codes, false, length, replicate, true};
ghost use Rattle.ocm_types.specs.declared.letters.Offer.{Offer};
ghost use Rattle.ocm_types.specs.declared.phases.Phase.TheVariants.{Confirmed, Pending};
ghost use Rattle.ocm_types.specs.declared.phases.Which.TheVariants as limits;
ghost use Rattle.ocm_types.specs.declared.rights.Rights.{Rights};
ghost use Rattle.ocm_types.specs.Rights.{all_rights};
ghost use Rattle.ocm_entry.specs.declared.asks.Ask.TheVariants.{Dav};
ghost use Rattle.ocm_entry.specs.declared.asks.Method.TheVariants.{Get};
ghost use Rattle.ocm_entry.specs.declared.refusals.AddressField.TheVariants.{ShareWith};
ghost use Rattle.ocm_entry.specs.declared.refusals.Why.TheVariants.{Collision, Limit, NotAllowed, NotFound, NotPermitted, OwnHost, ParentMissing, UserExists, WrongPhase};
ghost use Rattle.ocm_entry.specs.declared.replies.Reply.TheVariants.{Created, Key, Number, Recipient, Replaced};
ghost use Rattle.ocm_entry.specs.declared.rows.Node.{Node};
ghost use Rattle.ocm_entry.specs.declared.rows.Place.{Place};
ghost use Rattle.ocm_entry.specs.declared.rows.Share.{Share};
ghost use Rattle.ocm_entry.specs.declared.rows.Standing.TheVariants.{Collection};
ghost use Rattle.ocm_rules.specs.Answers.{add_user_reply, is_full_of_changes, limit_reply, limited, mkcol_reply, new_offer_reply, pending_count, put_reply, refused, reshare_reply, share_reply};
ghost use Rattle.ocm_rules.specs.Cases.{add_alice, alice_key, get_by, history, offer_to_bob, our_host, path_f, put_by, sharing, to_read, to_read_and_share, to_write};
ghost use Rattle.ocm_rules.specs.Files.{child_count, is_too_long, parent_of, passed_by, path_limit, size_of, total_size};
ghost use Rattle.ocm_entry.specs.Proper.{is_proper};
ghost use Rattle.ocm_rules.specs.History.{answer};
ghost use Rattle.ocm_rules.specs.Messages.{change_count};
ghost use Rattle.ocm_rules.specs.Offers.{is_known};
ghost use Rattle.ocm_rules.specs.Views.{View};

/// The longest file that is taken has 1,048,576 bytes, whether it is new or replaces another.
pub fn file_has_a_longest_size()
    ensures longest { (body : List ℕ) → length body ≤ 1048576 → answer our_host (history our_host (add_alice ∷ [])) (put_by alice_key path_f body) ≡ Created }
    ensures too_long { (body : List ℕ) → 1048576 < length body → answer our_host (history our_host (add_alice ∷ [])) (put_by alice_key path_f body) ≡ limited limits.FileSize }
    ensures longest_again { (body : List ℕ) → length body ≤ 1048576 → answer our_host (history our_host (sharing to_read)) (put_by alice_key path_f body) ≡ Replaced }
    ensures too_long_again { (body : List ℕ) → 1048576 < length body → answer our_host (history our_host (sharing to_read)) (put_by alice_key path_f body) ≡ limited limits.FileSize }
{}

/// The files of a server may reach each limit and pass none. Of the limits that would be passed the
/// first is told: of the file's size, of all files, of the nodes, of the collection's children.
pub fn files_have_limits()
    ensures reached { (all : List Node) (node : Node) → size_of node.standing ≡ 1048576 → total_size all ≡ 268435456 → length all ≡ 65536 → child_count all (parent_of node.place) ≡ 4096 → passed_by all node ≡ None }
    ensures file { (all : List Node) (node : Node) → size_of node.standing ≡ 1048577 → total_size all ≡ 268435457 → passed_by all node ≡ Some limits.FileSize }
    ensures all_files { (all : List Node) (node : Node) → size_of node.standing ≡ 1048576 → total_size all ≡ 268435457 → length all ≡ 65537 → passed_by all node ≡ Some limits.AllFiles }
    ensures all_nodes { (all : List Node) (node : Node) → size_of node.standing ≡ 1048576 → total_size all ≡ 268435456 → length all ≡ 65537 → child_count all (parent_of node.place) ≡ 4097 → passed_by all node ≡ Some limits.Nodes }
    ensures children { (all : List Node) (node : Node) → size_of node.standing ≡ 1048576 → total_size all ≡ 268435456 → length all ≡ 65536 → child_count all (parent_of node.place) ≡ 4097 → passed_by all node ≡ Some limits.Children }
{}

/// A copy or move makes no path of more than 2,048 bytes.
pub fn carried_paths_have_a_limit()
    ensures longest { is_too_long (record { place = record { user = 1; path = replicate 2047 97 ∷ [] }; standing = Collection }) ≡ false }
    ensures too_long { is_too_long (record { place = record { user = 1; path = replicate 2048 97 ∷ [] }; standing = Collection }) ≡ true }
    ensures told { path_limit (record { place = record { user = 1; path = replicate 2048 97 ∷ [] }; standing = Collection } ∷ []) ≡ Some limits.PathLength }
{}

/// The last user, share, request and record that a server takes, and the refusals of one more.
pub fn numbers_have_limits()
    ensures last_user { add_user_reply false 4095 false alice_key ≡ Key alice_key }
    ensures user_too_many { add_user_reply false 4096 false alice_key ≡ limited limits.Users }
    ensures last_share { share_reply false (Some Collection) 65535 false ≡ Number 65536 }
    ensures share_too_many { share_reply false (Some Collection) 65536 false ≡ limited limits.Shares }
    ensures last_request { reshare_reply (Some offer_to_bob) Confirmed all_rights None 65535 ≡ Number 65536 }
    ensures request_too_many { reshare_reply (Some offer_to_bob) Confirmed all_rights None 65536 ≡ limited limits.Requests }
{}

/// A user has at most 256 records that are not decided; an offer that is known is taken all the same.
pub fn pending_records_have_a_limit()
    ensures last { (v : View) (offer : Offer) → is_known v.offers offer ≡ false → pending_count v offer.with.user ≡ 255 → length v.offers ≡ 65535 → new_offer_reply v offer ≡ Recipient offer.with.user }
    ensures too_many { (v : View) (offer : Offer) → is_known v.offers offer ≡ false → pending_count v offer.with.user ≡ 256 → new_offer_reply v offer ≡ limited limits.Pending }
    ensures known { (v : View) (offer : Offer) → is_known v.offers offer ≡ true → new_offer_reply v offer ≡ Recipient offer.with.user }
    ensures too_many_records { (v : View) (offer : Offer) → is_known v.offers offer ≡ false → pending_count v offer.with.user ≡ 255 → length v.offers ≡ 65536 → new_offer_reply v offer ≡ limited limits.Records }
{}

/// A server sends at most 655,360 messages that tell changed permissions, and keeps at most
/// 4,294,967,295 limits.
pub fn changes_have_limits()
    ensures last { (v : View) → change_count v.messages ≡ 655350 → v.limits ≡ 4294967294 → is_full_of_changes v 10 ≡ false }
    ensures too_many_messages { (v : View) → change_count v.messages ≡ 655350 → is_full_of_changes v 11 ≡ true }
    ensures too_many_limits { (v : View) → change_count v.messages ≡ 655350 → v.limits ≡ 4294967295 → is_full_of_changes v 0 ≡ true }
{}

/// Where several refusals hold one is told: of a new user that the name is taken, then the limit,
/// then the drawn bytes; of a share the guest's host, then the path, the limit and the drawn bytes;
/// of a limit the phase, then the permissions, then the limit on changes; of a request the phase,
/// then the permissions; of a PUT that a collection stands there, then that none is above, then a
/// limit; of MKCOL the body after these two and before a limit.
pub fn first_refusal_is_told()
    ensures name { add_user_reply true 4096 true alice_key ≡ refused UserExists }
    ensures users { add_user_reply false 4096 true alice_key ≡ limited limits.Users }
    ensures guest { share_reply true None 65536 true ≡ refused (OwnHost ShareWith) }
    ensures path { share_reply false None 65536 true ≡ refused NotFound }
    ensures shares { share_reply false (Some Collection) 65536 true ≡ limited limits.Shares }
    ensures collection { put_reply (Some Collection) None (Some limits.FileSize) ≡ refused NotAllowed }
    ensures parent { put_reply None None (Some limits.FileSize) ≡ refused ParentMissing }
    ensures above { mkcol_reply None None true (Some limits.Nodes) ≡ refused ParentMissing }
    ensures phase { reshare_reply (Some offer_to_bob) Pending to_read None 65536 ≡ refused WrongPhase }
    ensures permissions { reshare_reply (Some offer_to_bob) Confirmed to_read None 65536 ≡ refused NotPermitted }
    ensures asked { reshare_reply (Some offer_to_bob) Confirmed to_read_and_share (Some to_write) 65536 ≡ refused NotPermitted }
    ensures ended { (share : Share) → limit_reply (Some share) false to_write true ≡ refused WrongPhase }
    ensures changes { (share : Share) → share.granted ≡ to_write → limit_reply (Some share) true to_write true ≡ limited limits.Changes }
{}

/// An ask is proper where its path is spelled in at most 1,024 bytes and a GET has no body.
pub fn proper_asks_have_short_paths()
    ensures longest_path { is_proper (get_by alice_key (replicate 1023 97 ∷ [])) ≡ true }
    ensures path_too_long { is_proper (get_by alice_key (replicate 1024 97 ∷ [])) ≡ false }
    ensures put_with_body { is_proper (put_by alice_key path_f (codes "hi")) ≡ true }
    ensures get_with_body { is_proper (Dav alice_key Get path_f (codes "hi")) ≡ false }
{}
