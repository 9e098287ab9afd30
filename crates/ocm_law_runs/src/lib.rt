//! The servers of a script are a run of the world of servers that send each other messages and crash:
//! what a transcript tells is what such a run answers, so that the laws of all runs hold of it. Each
//! law is the contract of a function that does nothing.
//!
//! Histories stand newest first.
#![tactic(auto)]

pub mod laws;
pub mod runs;
pub mod scripts;
pub mod wrong;
