//! What one kept entry makes of a server's lists, ask by ask: which of them change, and to what. Each
//! law is the contract of a function that does nothing. All other lists stay (`step` of the rules).
#![tactic(auto)]

pub mod commands;
pub mod files;
pub mod notices;
pub mod others;
pub mod refused;
