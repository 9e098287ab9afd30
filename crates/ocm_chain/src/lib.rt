//! The shares of one server: a chain from each share up to the one that the owner made.
//!
//! [`Chain`] keeps for each share what is left of it by itself and all those above it, so that
//! to answer who may do what takes the same time at any depth. A share is planned first, as a
//! [`PlannedShare`], and room is made for it; planning and room take memory, and the changes take none.
//!
//! Each call that looks at a row or searches an index counts its looks in [`Steps`], which take no
//! bytes and do nothing at run time: how many they are at most is a clause of the call.
#![tactic(auto)]

mod answers;
mod chains;
mod hypotheses;
mod owners;
mod plans;
mod reaches;
mod requests;
mod rows;
mod secrets;
mod settling;
mod steps;

pub use answers::{Access, Change};
pub use chains::Chain;
pub use plans::{PlannedShare, plan_share};
pub use reaches::{Reach, Row};
pub use rows::Rows;
pub use secrets::SecretIndex;
pub use steps::{Probes, Steps};
