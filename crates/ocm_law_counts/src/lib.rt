//! Messages have numbers: the limits on shares, received offers, requests and told changes keep those
//! that a server sends within 1,048,576. Each sentence of this law is the contract of a function that
//! does nothing.
#![tactic(auto)]

ghost use Rattle.std.specs.Prelude.{◌≡◌, ◌≤◌, ℕ, List, length};
ghost use Rattle.ocm_limits.specs.Limits.{most_messages};
ghost use Rattle.ocm_entry.specs.declared.entries.Entry.{Entry};
ghost use Rattle.ocm_rules.specs.History.{IsLegal, kept};
ghost use Rattle.ocm_rules.specs.Messages.{out};
ghost use Rattle.ocm_law_counts.specs.Counts.{counted_messages};

pub mod cases;

/// A server sends at most two messages for each share, each received offer and each request, beside
/// those that tell changed permissions: that a share was made and that it ended, that an offer was
/// accepted and that it was declined, a request and that it is taken back. It is one for a share that
/// is live, for an offer that was accepted and not given up, and for a request that is not taken back,
/// and none for an offer that is pending.
pub fn messages_are_about_what_is_kept()
    ensures { (host : List ℕ) (g : List Entry) → IsLegal host g → length (out host (kept host g)) ≤ counted_messages host (kept host g) }
{}

/// A server's messages never pass 1,048,576.
pub fn messages_have_numbers()
    ensures { (host : List ℕ) (g : List Entry) → IsLegal host g → length (out host (kept host g)) ≤ most_messages }
{}
