//! Access logs: whether the lines of a log are true of the journal of the server that wrote it.
//!
//! A line says what a read was answered, with the place and the moment at which it was. [`check_log`] reads the journal's
//! image, goes once through its records, and looks up each line where the list so far has the line's place.
#![tactic(auto)]

mod blanks;
mod checks;
mod faults;
mod laws;
mod refusing;
mod replays;
mod stepping;

pub use checks::check_log;
pub use faults::LogFault;
pub use laws::{
    a_check_tells_one_thing, the_empty_list_is_the_same_for_all_hosts,
    what_an_audit_refuses_is_refused,
};
