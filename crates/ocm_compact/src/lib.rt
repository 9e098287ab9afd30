//! Journals in their least form: what later answers can depend on, and nothing else.
//!
//! [`compact`] goes through the records of a journal, makes a shorter list of records, goes through that
//! too, and compares what both lists come to. Only where that is alike, it makes the bytes of a journal of
//! the shorter list. How the shorter list is made no proof rests on.
#![tactic(auto)]

mod compacting;
mod comparing;
mod dated;
mod faults;
mod images;
mod replays;

pub use compacting::compact;
pub use faults::CompactFault;
