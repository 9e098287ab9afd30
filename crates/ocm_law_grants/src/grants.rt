//! Secrets name one holder, and a share permits no more than the one above it.
ghost use Rattle.std.specs.Prelude.{◌≡◌, ◌<◌, ℕ, List, IsTrue, Some};
ghost use Rattle.ocm_types.specs.Rights.{is_within};
ghost use Rattle.ocm_entry.specs.declared.entries.Entry.{Entry};
ghost use Rattle.ocm_entry.specs.declared.rows.Share.{Share};
ghost use Rattle.ocm_rules.specs.History.{IsLegal, kept};
ghost use Rattle.ocm_rules.specs.Numbers.{at_number};
ghost use Rattle.ocm_rules.specs.Shares.{effective, granted_to, made, perms, used};
ghost use Rattle.ocm_law_grants.specs.Grants.{IsBelow, are_different};

/// No key is another user's key or a share's secret, and no secret is another share's.
pub fn keys_and_secrets_differ()
    ensures { (host : List ℕ) (g : List Entry) → IsLegal host g → IsTrue (are_different (used host (kept host g))) }
{}

/// A share that has a parent was made after it, with its owner and its root; its guest got it from the
/// parent's guest, and was granted no more than the parent's guest.
pub fn shares_lie_below_their_parents()
    ensures { (host : List ℕ) (g : List Entry) (i p : ℕ) (m : Share) → IsLegal host g → at_number (made host (kept host g)) i ≡ Some m → m.parent ≡ Some p
        → (q : Share) × (at_number (made host (kept host g)) p ≡ Some q) × (p < i) × IsBelow m q }
{}

/// What a share lets its guest do is within what the share above lets its own guest do.
pub fn shares_permit_no_more_than_their_parents()
    ensures { (host : List ℕ) (g : List Entry) (i p : ℕ) (m : Share) → IsLegal host g → at_number (made host (kept host g)) i ≡ Some m → m.parent ≡ Some p
        → IsTrue (is_within (effective host (kept host g) i) (effective host (kept host g) p)) }
{}

/// The permissions of a share are within what was granted, whatever its owner limited it to.
pub fn permissions_stay_within_the_grant()
    ensures { (host : List ℕ) (g : List Entry) (i : ℕ) → IsLegal host g → IsTrue (is_within (perms host (kept host g) i) (granted_to (made host (kept host g)) i)) }
{}
