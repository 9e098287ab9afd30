//! Laws of the definitions, each the contract of a function that computes nothing.
ghost use Rattle.std.specs.Prelude.{◌≡◌, ℕ, List, Result};
ghost use Rattle.ocm_journal_audit.specs.Audits.{Audits};

/// An audit tells one thing of bytes: one text, or one place.
pub fn an_audit_tells_one_thing()
    ensures { (bytes : List ℕ) (told other : Result (List ℕ) ℕ) → Audits bytes told → Audits bytes other → told ≡ other }
{}
