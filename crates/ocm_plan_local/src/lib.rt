//! What a server answers to the commands of its users, what that changes, and which messages it sends.
//!
//! [`plan_command`] reads the tables, leaves them alone, and gives a [`Planned`](ocm_plan::Planned):
//! the reply of the rules, with the change and the messages that the reply makes. A command names a
//! user by the key of the account, and speaks of the user's own shares, of the shares that the user
//! received, or of the user's requests to share these further.
#![tactic(auto)]

mod commands;
mod guests;
mod listings;
mod reads;
mod shares;

pub use commands::plan_command;
