//! Texts, bytes and lists in small types, and the numbers and bytes that texts write.
//!
//! Want of memory is an answer of its own everywhere ([`NoMemory`]), and is merged with no other.
//! What makes a new value takes the allocator first; a value that grows or is copied keeps its own.
#![tactic(auto)]

mod byte_lists;
mod copies;
mod decimals;
mod failures;
mod hex_digits;
mod joining;
mod lists;
mod text_lists;

pub use byte_lists::Bytes;
pub use copies::Copied;
pub use decimals::decimal_read;
pub use failures::{Failed, NoMemory};
pub use hex_digits::{HexFault, hex_of, hex_read};
pub use joining::and;
pub use lists::List;
pub use text_lists::Text;
