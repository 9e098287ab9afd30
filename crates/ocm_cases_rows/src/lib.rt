//! How rows of cases are read, and how what they tell is written: the programs whose names begin with `ocm_cases_` read
//! their standard input so, a case a line. `None` is a row that is no case, or want of memory.
#![tactic(auto)]

mod disks;
mod lines;
mod numbers;
mod replies;
mod steps;
mod streams;
mod texts;

pub use disks::{add_bytes, crash_of, digits_told, limit_of};
pub use lines::tell_lines;
pub use numbers::{clock_of, only};
pub use replies::add_reply;
pub use steps::{Steps, steps_told};
pub use streams::{bytes_of, escaped, named_told, stream_of, unescaped};
pub use texts::{add, cut, line_of};
