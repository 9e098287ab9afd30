//! What a server answers to an ask, what that changes, and which messages it sends.
//!
//! A [`Planned`] is made from the tables of a server, which stay: the reply of the rules, with the change
//! and the messages that the reply makes. All memory that these need is taken when it is made, but for the
//! room in the tables. The plans for new users and ticks stand here; those for commands, for requests for
//! files, and for what other servers say stand in crates of their own.
#![tactic(auto)]

mod limits;
mod messages;
mod plans;
mod users;

pub use limits::is_full;
pub use messages::{offered_share, one_message, told_of_ends, told_of_perms};
pub use plans::Planned;
pub use users::{plan_new_user, plan_tick};
