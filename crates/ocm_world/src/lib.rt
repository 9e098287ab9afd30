//! Servers that are run from a script, each a store on a disk in memory, and the transcript of what they answered.
#![tactic(auto)]

mod drills;
mod nodes;
mod replays;
mod servers;
mod traces;

pub use drills::drill;
pub use ocm_script::{Body, Event, ScriptFault, read_script};
pub use ocm_script_run::{WorldFault, laws, names};
pub use replays::replay;
pub use traces::trace;
