//! The records of an area, in the one piece of memory from which they are written, or into which they were read.
#![tactic(auto)]

mod area_records;
mod placed_records;

pub use area_records::AreaRecords;
pub use placed_records::{PlacedArea, PlacedLeft, PlacedRecord, PlacedRecords, place_area};
