//! What the records of a journal say, and which of them may follow one another.
#![tactic(auto)]

mod stamps;

pub use stamps::{Stamped, moment_past, read_stamped};
