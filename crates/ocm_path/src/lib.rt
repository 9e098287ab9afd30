//! Paths below a user's or a share's root: how their texts are read and written.
#![tactic(auto)]

mod escapes;
mod faults;
mod laws;
mod paths;
mod reading;
mod segments;

pub use escapes::add_escaped;
pub use faults::PathFault;
pub use laws::escaped_reads_back;
pub use paths::Path;
