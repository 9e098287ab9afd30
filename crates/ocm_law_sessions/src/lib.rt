//! The histories of a server that keeps its changes in a journal, as definitions: what the records of a
//! journal say, which records are written for a history, which histories a session can have, and what
//! a crash may leave. What follows from them stands as laws, each the contract of a function that does
//! nothing.
//!
//! Histories stand newest first, and the records of a journal oldest first. A session that opened to
//! the list `k` and had the calls `h` has the history `h ++ k`.
#![tactic(auto)]

pub mod crashes;
pub mod records;
pub mod sessions;
