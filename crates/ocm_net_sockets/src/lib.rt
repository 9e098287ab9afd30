//! The real outside of a server: its listening socket, and the connections that each worker has in a set of its own, where
//! they wait at the cost of no worker.
//!
//! Contracts know nothing of what the system tells: what stands here is safe, and each call but those that wait returns.
#![tactic(auto)]

mod entrances;
mod places;
mod seats;
mod servings;

pub use entrances::{Entrance, Limits};
pub use servings::Serving;
