//! What a running server takes from the system, and what it tells an administrator.
//!
//! No line that it writes holds a key, a secret or anything of a message.
#![tactic(auto)]

mod admin_keys;
mod host_names;
mod notes;
mod openings;
mod told_disks;
mod unblocked_lines;

pub use admin_keys::read_admin;
pub use host_names::tell_host;
pub use notes::{Note, tell_end, tell_fault, tell_key_fault, tell_log, tell_place};
pub use openings::{Cause, OpenFault, Opening, StandIns};
pub use told_disks::ToldDisk;
pub use unblocked_lines::{DroppedLines, Unblocked};
