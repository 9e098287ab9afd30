//! Servers of this program that run beside each other and talk over a network, as one log of what happened
//! (`specs/Network.antt`): the network's log is a run of the world of servers that deliver messages and crash, so that the
//! laws of all runs hold of it. Each law is the contract of a function that does nothing.
//!
//! Logs and histories stand newest first.
#![tactic(auto)]

pub mod beside;
pub mod carried;
pub mod cases;
pub mod laws;
pub mod logs;
pub mod promises;
pub mod working;
