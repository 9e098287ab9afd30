//! The commands of the program `ocmd` that work on standard input, or on nothing, over any source and sink: `replay`,
//! `trace` and `drill`, which run servers of a script, and by way of `ocm_commands_files` the plain ones.
#![tactic(auto)]

mod commands;
mod drills;
mod scripts;
mod traces;

pub use commands::command;
