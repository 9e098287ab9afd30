//! A guest's confirmed share was made by its owner with no less permission.
ghost use Rattle.std.specs.Prelude.{◌≡◌, ◌∷◌, ◌++◌, ℕ, List, false, IsTrue, Some};
ghost use Rattle.ocm_types.specs.declared.letters.Notice.TheVariants.{Accepted};
ghost use Rattle.ocm_types.specs.declared.letters.Offer.{Offer};
ghost use Rattle.ocm_types.specs.declared.phases.Phase.TheVariants.{Confirmed};
ghost use Rattle.ocm_entry.specs.declared.asks.Ask.TheVariants.{Notice};
ghost use Rattle.ocm_entry.specs.declared.replies.Reply.{Reply};
ghost use Rattle.ocm_rules.specs.Messages.{acceptance, out, phase};
ghost use Rattle.ocm_rules.specs.Numbers.{at_number};
ghost use Rattle.ocm_rules.specs.Offers.{offers};
ghost use Rattle.ocm_rules.specs.Settlements.{is_success};
ghost use Rattle.ocm_law_sessions.specs.Sessions.{IsReply, IsSession};
ghost use Rattle.ocm_entry.specs.Deliveries.{delivered_status};
ghost use Rattle.ocm_law_world.specs.Guests.{IsMade, Makes, view_at};
ghost use Rattle.ocm_law_world.specs.World.{Answer, IsReached, Run, Session, World, empty, kept_at};

/// A server that says yes to an acceptance has made the share that it tells of: it compares owner,
/// recipient, secret and permissions with its own.
pub fn an_acceptance_is_compared_by_the_owner()
    ensures { (host : List ℕ) (s : Session) (offer : Offer) (fresh : List ℕ) (reply : Reply)
        → IsReply host s.area s.base s.calls (Notice (Accepted offer.id offer.secret (Some offer.owner) (Some offer.with) (Some offer.perms)) fresh) reply
        → IsTrue (is_success (delivered_status reply)) → Makes (view_at host s) offer }
{}

/// An answer that is under way and says yes to the acceptance of an offer tells the truth: the offer's
/// owner has made it, where the owner's host is not of another program. Where no host is, each does.
pub fn an_answer_under_way_is_true()
    ensures among_others { (w : World) (newer older : List Answer) (a : Answer) (s : Session) (n : ℕ) (offer : Offer) → IsReached w → w.answers ≡ newer ++ a ∷ older → w.session a.host ≡ Some s
        → at_number (out a.host (kept_at a.host s)) a.number ≡ Some (acceptance n offer) → IsTrue (is_success a.status) → w.foreign offer.owner.host ≡ false → IsMade w offer }
    ensures alone { (w : World) (newer older : List Answer) (a : Answer) (s : Session) (n : ℕ) (offer : Offer) → Run empty w → w.answers ≡ newer ++ a ∷ older → w.session a.host ≡ Some s
        → at_number (out a.host (kept_at a.host s)) a.number ≡ Some (acceptance n offer) → IsTrue (is_success a.status) → IsMade w offer }
{}

/// Where a record is confirmed, the server of its owner is there, and has made the share that the
/// record's offer says: with its owner, recipient and secret, and with all its permissions granted.
/// So it is where that host is not of another program, whatever others are; and where no host is, it is
/// so of each record.
pub fn a_confirmed_share_was_made_by_its_owner()
    ensures among_others { (w : World) (host : List ℕ) (s : Session) (n : ℕ) (offer : Offer) → IsReached w → w.session host ≡ Some s → at_number (offers (kept_at host s)) n ≡ Some offer
        → phase host (kept_at host s) n ≡ Confirmed → w.foreign offer.owner.host ≡ false → IsMade w offer }
    ensures alone { (w : World) (host : List ℕ) (s : Session) (n : ℕ) (offer : Offer) → Run empty w → w.session host ≡ Some s → at_number (offers (kept_at host s)) n ≡ Some offer
        → phase host (kept_at host s) n ≡ Confirmed → IsMade w offer }
{}
