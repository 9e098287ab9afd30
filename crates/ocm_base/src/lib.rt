//! The outside as three traits, a clock, a source and a sink, each with a form in memory and one over the system. All of
//! `ocm_texts` comes with them: texts, bytes and lists in small types, and the numbers and bytes that texts write.
//!
//! Want of memory is an answer of its own everywhere ([`NoMemory`]), and is merged with no other.
//! What makes a new value takes the allocator first; a value that grows or is copied keeps its own.
#![tactic(auto)]

mod clocks;
mod gates;
mod ghost_bytes;
mod joined;
mod memory_sinks;
mod memory_sources;
mod outside;
mod streams;
mod traces;
mod whole;

pub use clocks::{Clock, MemClock, StdClock};
pub use gates::Gate;
pub use ghost_bytes::GhostBytes;
pub use joined::Joined;
pub use memory_sinks::{MemSink, PureSink};
pub use memory_sources::{MemSource, PureSource};
pub use ocm_texts::{
    Bytes, Copied, Failed, HexFault, List, NoMemory, Text, and, decimal_read, hex_of, hex_read,
};
pub use outside::{Sink, Source};
pub use streams::{StdSink, StdSource};
pub use traces::Trace;
pub use whole::{ReadEnd, read_whole, write_all};
