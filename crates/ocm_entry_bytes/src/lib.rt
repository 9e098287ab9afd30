//! The bytes of asks, as a journal keeps them: an ask that may change something has one spelling
//! ([`encode`], [`add_ask`], [`decode`]).
#![tactic(auto)]

mod appending;
mod decoding;
mod encoding;
mod entry_faults;
mod fields;
pub mod laws;

pub use decoding::decode;
pub use encoding::{add_ask, encode, has_spelling};
pub use entry_faults::EntryFault;
