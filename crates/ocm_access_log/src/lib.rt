//! Access logs: the lines in which a server tells what its readers were answered, how a log is written and read, and which
//! lines are true of its history.
#![tactic(auto)]

mod cuts;
mod escapes;
mod faults;
mod laws;
mod lines;
mod logs;
mod statuses;
mod words;
mod writing;

pub use faults::LogReadFault;
pub use laws::{a_line_is_read_back, a_log_is_read_back, a_read_is_loggable};
pub use lines::LogLine;
pub use logs::read_log;
pub use statuses::status_of;
pub use writing::{is_reading, log_line};
