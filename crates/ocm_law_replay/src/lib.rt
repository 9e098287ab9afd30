//! What is promised of `replay`, from the clauses of `command`: the transcript that it writes is one of
//! which all laws hold.
#![tactic(auto)]

pub mod replaying;

pub use replaying::command_keeps_what_is_promised;
