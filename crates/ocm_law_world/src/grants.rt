//! What one server keeps to holds at every server of every run.
ghost use Rattle.std.specs.Prelude.{◌≡◌, ◌<◌, ℕ, List, IsTrue, Some};
ghost use Rattle.ocm_types.specs.Rights.{is_within};
ghost use Rattle.ocm_entry.specs.declared.rows.Share.{Share};
ghost use Rattle.ocm_rules.specs.History.{IsLegal};
ghost use Rattle.ocm_rules.specs.Numbers.{at_number};
ghost use Rattle.ocm_rules.specs.Shares.{effective, granted_to, made, perms, used};
ghost use Rattle.ocm_law_grants.specs.Grants.{IsBelow, are_different};
ghost use Rattle.ocm_law_sessions.specs.Sessions.{IsSession};
ghost use Rattle.ocm_law_world.specs.World.{IsReached, Session, World, history_of, kept_at};

/// The calls at each server are those of a session after what its journal opened to, and so its
/// history is a legal one.
pub fn every_server_has_a_legal_history()
    ensures session { (w : World) (host : List ℕ) (s : Session) → IsReached w → w.session host ≡ Some s → IsSession host s.area s.base s.calls }
    ensures legal { (w : World) (host : List ℕ) (s : Session) → IsReached w → w.session host ≡ Some s → IsLegal host (history_of s) }
{}

/// At each server no key is another user's key or a share's secret, and no secret is another share's.
pub fn keys_and_secrets_differ_everywhere()
    ensures { (w : World) (host : List ℕ) (s : Session) → IsReached w → w.session host ≡ Some s → IsTrue (are_different (used host (kept_at host s))) }
{}

/// At each server a share that has a parent was made after it, with its owner and its root; its guest
/// got it from the parent's guest, and was granted no more than the parent's guest.
pub fn shares_lie_below_their_parents_everywhere()
    ensures { (w : World) (host : List ℕ) (s : Session) (i p : ℕ) (m : Share) → IsReached w → w.session host ≡ Some s → at_number (made host (kept_at host s)) i ≡ Some m → m.parent ≡ Some p
        → (q : Share) × (at_number (made host (kept_at host s)) p ≡ Some q) × (p < i) × IsBelow m q }
{}

/// At each server what a share lets its guest do is within what the share above lets its own guest
/// do, and the permissions of a share are within what was granted.
pub fn permissions_stay_within_the_grant_everywhere()
    ensures parent { (w : World) (host : List ℕ) (s : Session) (i p : ℕ) (m : Share) → IsReached w → w.session host ≡ Some s → at_number (made host (kept_at host s)) i ≡ Some m → m.parent ≡ Some p
        → IsTrue (is_within (effective host (kept_at host s) i) (effective host (kept_at host s) p)) }
    ensures grant { (w : World) (host : List ℕ) (s : Session) (i : ℕ) → IsReached w → w.session host ≡ Some s → IsTrue (is_within (perms host (kept_at host s) i) (granted_to (made host (kept_at host s)) i)) }
{}
