//! A connection of the system's, as a server has it: the bytes that came ahead of who reads them, with where a request
//! ends in them, those that were taken and are not sent yet, and its times.
//!
//! Contracts know nothing of what a socket gives or takes: what stands here is safe, and each call returns.
#![tactic(auto)]

mod bodies;
mod incoming;
mod lines;
mod outgoing;
mod states;
mod times;
mod wholes;

pub use lines::{ClientLine, Origin};
pub use states::{State, Step};
