//! The memory of one server: the state of a core, and what is kept of each entry of its history, so that
//! the shortest journal that gives the same replies can be written without a look at the disk.
//!
//! A change goes through three steps: [`History::prepare`] takes all memory for it and drafts its record,
//! the record is written, and [`History::make`] makes the change. [`History::lean_records`] gives the
//! records of the shortest journal with that change, and [`take_records`] goes once over the records of a
//! journal to get the memory of the server that wrote them.
#![tactic(auto)]

mod histories;
pub mod laws;
mod reading;

pub use histories::{History, let_go};
pub use ocm_history_records::{Draft, KeptRecord, KeptRecords, RecordFault, ReplayFault};
pub use reading::take_records;
