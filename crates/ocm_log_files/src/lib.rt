//! The file of a log: lines go behind those that it has, and it is made anew where it was moved away.
//!
//! It makes the system's calls by itself, so that a thread that has the file can open the next one. Contracts know nothing
//! of what the system tells: what stands here is safe, and returns. They say which bytes begin as a log does.
#![tactic(auto)]

mod descriptors;
mod faults;
mod files;
mod lines;

pub use faults::LogFault;
pub use files::LogFile;
