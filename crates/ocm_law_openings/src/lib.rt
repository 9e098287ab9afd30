//! One server through the openings of its file: its sessions have one legal history, which outlives every
//! crash, and what was taken once acts once, whatever crashed since. Each law is the contract of a
//! function that does nothing.
//!
//! Histories and sessions stand newest first.
#![tactic(auto)]

pub mod histories;
pub mod keeping;
pub mod repeats;
pub mod worlds;
