//! A letter that is posted to a server of this program is delivered: the bytes of the post are one message, which asks
//! the server what the letter says, and the page of the reply tells the sender the answer. The server's own discovery
//! document leads there. Each law is the contract of a function that does nothing.
#![tactic(auto)]

pub mod laws;
mod letters;
pub mod wrong;

pub use letters::letters_may_be_sent;
