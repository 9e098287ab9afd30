//! The post of the worker that delivers: many deliveries beside one another, each exchange in a thread of its own, in the
//! order of a schedule that is fair between hosts and between those who write to them.
//!
//! Contracts know nothing of what a socket gives or takes: what stands here is safe, and each call but those that wait
//! returns.
#![tactic(auto)]

mod delivering;
mod hosts;
mod items;
mod letters;
mod noted;
mod notes;
mod owners;
mod policy;
mod posts;
mod rounds;
mod seats;
mod tables;
mod works;

pub use delivering::Delivering;
pub use noted::{Exchanges, Given};
pub use posts::Posts;
