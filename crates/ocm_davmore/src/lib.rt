//! Three header fields of a request: the `Destination` of a COPY or a MOVE (RFC 4918 section 10.3),
//! the `Range` of a GET (RFC 9110 section 14.2), and the `Origin` of what a browser posts (RFC 6454
//! section 7); and the parts of a target that are read alike in a `Destination` and in a request's
//! first line.
#![tactic(auto)]

mod addresses;
mod destinations;
mod faults;
pub mod laws;
mod numbers;
mod origins;
mod ranges;

pub use destinations::{before_query, begins_with_slash, below_dav, read_destination};
pub use faults::DestinationFault;
pub use origins::is_own_origin;
pub use ranges::{Span, read_range};
