//! What is promised of a running server: of one run from its disk to its disk, and of one run after another,
//! whatever crashes between them.
//!
//! Histories and runs stand newest first.
#![tactic(auto)]

pub mod running;

pub use running::serve_keeps_what_is_promised;
