//! The messages that one server sends to others.
//!
//! An [`Outbox`] keeps every message that was sent, numbered from 1, with whether it is settled. Of the
//! messages about one thing the later wait for the earlier, so that at most one of them is due: the
//! first that is not settled. The outbox holds those in an index by what they are about, and their
//! numbers in order, so that it tells what is due in time that grows with what is due, and not with all
//! that was ever sent.
#![tactic(auto)]

mod fronts;
mod outbox;
mod rows;
mod walks;

pub use outbox::Outbox;
