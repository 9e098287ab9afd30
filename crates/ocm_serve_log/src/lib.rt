//! A store that is served and logs what it answers to its readers.
#![tactic(auto)]

mod laws;
mod logged;
mod logging;
mod logs;
mod serving;
mod sinks;

pub use laws::logged_lines_are_true;
pub use logged::LoggedStore;
pub use logs::Log;
pub use serving::{LoggedRun, serve_logged};
pub use sinks::LogSink;
