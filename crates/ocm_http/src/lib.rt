//! Messages of HTTP/1.1 out of a stream that comes in any pieces, and messages written (RFC 9112).
#![tactic(auto)]

mod bodies;
mod chunks;
mod endings;
mod fronts;
mod heads;
mod laws;
mod messages;
mod read_heads;
mod reader;
mod reading;
mod stages;
mod windows;
mod writing;

pub use fronts::{Front, read_front};
pub use laws::{
    bytes_are_one_frame, fixed_replies_are_written_replies, message_is_first_of_stream,
    message_is_request, more_bytes_change_nothing, request_is_whole, written_messages_are_a_stream,
    written_reply_is_read_back, written_request_is_read_back,
};
pub use messages::{FrameFault, Kind, Message};
pub use ocm_http_heads::{Field, Head};
pub use read_heads::ReadHead;
pub use reader::Reader;
pub use writing::{Fixed, fixed_text, write_fixed, write_reply, write_request};
