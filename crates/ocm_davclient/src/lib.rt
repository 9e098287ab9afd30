//! The client of a server's files over WebDAV (RFC 4918): the search for the server's document, and then one request a call.
//! What a server sends back can't do more than make one of the named answers.
#![tactic(auto)]

mod answers;
mod clients;
mod faults;
mod laws;

pub use clients::Client;
pub use faults::ClientFault;
pub use laws::call_has_one_answer;
