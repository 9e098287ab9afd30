//! The commands of the program `ocmd` that take one input and run no server, `audit`, `check`, `logcheck` and `compact`,
//! beside `help` and `version`, over any source and sink; and for all commands their words, their input and their statuses.
#![tactic(auto)]

mod audits;
mod checks;
mod commands;
mod compacts;
mod ends;
mod help;
mod lines;
mod logchecks;
mod words;

pub use commands::{read_input, run_plain, status_of, usage};
pub use ends::{End, Fault};
pub use lines::name_line;
pub use words::{Command, Kind};
