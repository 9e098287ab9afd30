//! What a guest was told of the permissions of a share.
ghost use Rattle.std.specs.Prelude.{◌≡◌, ◌≤◌, ◌<◌, ℕ, List, Some};
ghost use Rattle.ocm_types.specs.declared.letters.Offer.{Offer};
ghost use Rattle.ocm_rules.specs.declared.rows.Message.{Message};
ghost use Rattle.ocm_types.specs.declared.phases.Phase.TheVariants.{Confirmed};
ghost use Rattle.ocm_rules.specs.Messages.{out, phase};
ghost use Rattle.ocm_rules.specs.Numbers.{at_number};
ghost use Rattle.ocm_rules.specs.Offers.{offers, told};
ghost use Rattle.ocm_rules.specs.Shares.{address_of};
ghost use Rattle.ocm_rules.specs.Users.{users};
ghost use Rattle.ocm_entry.specs.Deliveries.{letter_ask};
ghost use Rattle.ocm_law_world.specs.Guests.{HearsOwnerAlone, IsAfterLimit};
ghost use Rattle.ocm_law_world.specs.Hearing.{HearsInRun, IsOwnersWord};
ghost use Rattle.ocm_law_world.specs.World.{IsReached, Run, Session, World, empty_among, kept_at};

/// The serial that the guest of a record was told never falls, from one step to the next and over
/// every crash.
pub fn what_was_told_is_never_older()
    ensures { (w later : World) (host : List ℕ) (s : Session) (n : ℕ) (offer : Offer) → IsReached w → Run w later → w.session host ≡ Some s → at_number (offers (kept_at host s)) n ≡ Some offer
        → (t : Session) × (later.session host ≡ Some t) × (at_number (offers (kept_at host t)) n ≡ Some offer) × ((told (kept_at host s) n).serial ≤ (told (kept_at host t) n).serial) }
{}

/// What a guest was told with the serial 0 is what the offer says, whoever told anything else. Where
/// nobody but the owner's server tells it other permissions, what it was told with another serial is
/// what the share, which was there then, let its guest do after the owner's limit of that number.
/// Where the record is confirmed, that share has the record's owner and recipient.
pub fn what_was_told_is_what_the_owner_permits()
    ensures first { (w : World) (host : List ℕ) (s : Session) (n : ℕ) (offer : Offer) → IsReached w → w.session host ≡ Some s → at_number (offers (kept_at host s)) n ≡ Some offer
        → (told (kept_at host s) n).serial ≡ 0 → (told (kept_at host s) n).perms ≡ offer.perms }
    ensures later { (w : World) (host : List ℕ) (s : Session) (n : ℕ) (offer : Offer) → IsReached w → w.session host ≡ Some s → at_number (offers (kept_at host s)) n ≡ Some offer → HearsOwnerAlone w host s offer
        → 0 < (told (kept_at host s) n).serial
        → (y : Session) × (w.session offer.owner.host ≡ Some y) × IsAfterLimit offer.owner.host (kept_at offer.owner.host y) offer (told (kept_at host s) n) }
    ensures confirmed { (w : World) (host : List ℕ) (s y : Session) (n : ℕ) (offer : Offer) (l : IsAfterLimit offer.owner.host (kept_at offer.owner.host y) offer (told (kept_at host s) n)) → IsReached w
        → w.session host ≡ Some s → at_number (offers (kept_at host s)) n ≡ Some offer → phase host (kept_at host s) n ≡ Confirmed → w.session offer.owner.host ≡ Some y
        → (address_of offer.owner.host (users (kept_at offer.owner.host y)) l.share.owner ≡ offer.owner) × (l.share.with ≡ offer.with) }
{}

/// A host that takes nothing of an offer's permissions but the owner's word, at each step of a run,
/// keeps nothing else. What the owner's server delivers is its word.
pub fn who_hears_the_owner_alone_keeps_its_word()
    ensures run { (w : World) (run : Run (empty_among w.foreign) w) (host : List ℕ) (offer : Offer) → HearsInRun host offer (empty_among w.foreign) w run → (s : Session) → w.session host ≡ Some s → HearsOwnerAlone w host s offer }
    ensures delivered { (w : World) (offer : Offer) (s : Session) (number : ℕ) (message : Message) (fresh : List ℕ) → w.session offer.owner.host ≡ Some s
        → at_number (out offer.owner.host (kept_at offer.owner.host s)) number ≡ Some message → IsOwnersWord w offer (letter_ask message.letter fresh) }
{}

/// So along each run: what a guest was told with the serial 0 is what the offer says; and in a run in
/// which its server takes nothing of an offer's permissions but the owner's word, what it was told with
/// another serial is what the share, which was there then, let its guest do after the owner's limit of
/// that number.
pub fn what_was_told_in_a_run_is_what_the_owner_permits()
    ensures first { (w : World) (run : Run (empty_among w.foreign) w) (host : List ℕ) (s : Session) (n : ℕ) (offer : Offer) → w.session host ≡ Some s → at_number (offers (kept_at host s)) n ≡ Some offer
        → (told (kept_at host s) n).serial ≡ 0 → (told (kept_at host s) n).perms ≡ offer.perms }
    ensures later { (w : World) (run : Run (empty_among w.foreign) w) (host : List ℕ) (s : Session) (n : ℕ) (offer : Offer) → HearsInRun host offer (empty_among w.foreign) w run → w.session host ≡ Some s → at_number (offers (kept_at host s)) n ≡ Some offer
        → 0 < (told (kept_at host s) n).serial
        → (y : Session) × (w.session offer.owner.host ≡ Some y) × IsAfterLimit offer.owner.host (kept_at offer.owner.host y) offer (told (kept_at host s) n) }
{}
