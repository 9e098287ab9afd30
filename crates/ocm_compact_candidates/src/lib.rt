//! Shorter lists of records that come to the same as the journal of a server: what [`make_candidate`] makes of what stands at
//! the end and of the asks that are neither ticks nor for files.
//!
//! Nothing is proved of these lists but that they are made safely: who uses one goes through it and compares.
#![tactic(auto)]

mod aways;
mod candidates;
mod faults;
mod keys;
mod made;
mod records;
mod standing;
mod texts;
mod wholes;

pub use candidates::{Journal, make_candidate};
pub use faults::CandidateFault;
pub use records::dated;
