//! What the lines of a script ask of its servers, whatever stands for these, and what they print: the transcript of a
//! script, the log of the reads at one of its servers, and the summary of a script that is made from a number.
#![tactic(auto)]

mod asked;
mod deliveries;
mod drills;
pub mod laws;
mod line_parts;
mod replays;
mod runs;
mod servers;
mod talks;
mod traces;

pub use drills::summarise;
pub use replays::{WorldFault, run_events};
pub use servers::{ScriptServer, ScriptServers};
pub use talks::talk;
pub use traces::{log_events, names, write_input};
