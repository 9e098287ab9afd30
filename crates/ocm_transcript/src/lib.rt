//! How the transcript of a script shows replies: a first line, with the number of the script's line, and a
//! further line for each share, received offer and request that a user lists, and for each item of a
//! collection.
#![tactic(auto)]

mod items;
mod lines;
mod replies;

pub use lines::line_text;
pub use replies::{reply_lines, told_line};
