//! The command `ocmd dav`: one request to a real server for its files over WebDAV (RFC 4918).
#![tactic(auto)]

mod bodies;
mod calls;
mod ends;
mod laws;
mod remotes;
mod tasks;
mod tellings;
mod verbs;

pub use ends::End;
pub use laws::words_have_one_answer;
pub use remotes::remote;
pub use tasks::{WordsFault, test_words};
