//! When a server serves a request for files: exactly where the request's secret is a user's key, or names
//! a share of which every link up to the owner is open and grants the request. Each law is the contract of
//! a function that does nothing.
//!
//! Histories stand newest first. A session that opened to the list `k` and had the calls `h` has the
//! history `h ++ k`.
#![tactic(auto)]

pub mod links;
pub mod requests;
pub mod wrong;
