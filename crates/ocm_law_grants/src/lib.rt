//! What follows from the rules of one server, each law as the contract of a function that does nothing.
//!
//! Histories stand newest first: `later ++ g` is a history that went on after `g`.
#![tactic(auto)]

pub mod grants;
pub mod revocation;
