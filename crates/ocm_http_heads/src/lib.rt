//! Heads of HTTP/1.1 messages that stand alone (RFC 9112): where a head ends, what it says, and how long it makes
//! the body. It reads no stream: the bytes of a head, or of a chunk line, are given to it.
#![tactic(auto)]

mod chunk_lines;
mod closings;
mod endings;
mod feeds;
mod fields;
mod laws;
mod lengths;
mod replies;
mod requests;

pub use chunk_lines::{ChunkLine, read_chunk_line};
pub use closings::{are_ows, skip_ows};
pub use endings::{Found, Look, Stand, blanks};
pub use feeds::before_feed;
pub use fields::{Field, Head};
pub use laws::{head_ends_with_first_empty_line, trailers_end_with_first_empty_line};
pub use lengths::{Length, LengthFault, length_of_reply, length_of_request};
pub use replies::read_reply;
pub use requests::read_request;
