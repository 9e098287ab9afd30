//! The records that a server keeps: what is written down of each ask that changes something, how large it is, and what
//! of it stays in memory, so that the shortest journal that gives the same replies can be written without a look at the
//! disk.
//!
//! [`Draft::of`] makes the record of an ask and what is kept of it. [`KeptRecords`] holds what is kept of all entries: the
//! newest one by one, all others in blocks of bytes. [`KeptLeft`] goes over them, a [`KeptView`] at a time.
//! [`add_asked`] and [`add_text`] write of it what the shortest journal has.
#![tactic(auto)]

mod blocks;
mod drafts;
mod faults;
mod kept;
pub mod laws;
mod lists;
mod reading;
mod texts;
mod views;

pub use drafts::Draft;
pub use faults::{RecordFault, ReplayFault};
pub use kept::KeptRecord;
pub use lists::{KeptLeft, KeptRecords};
pub use reading::read_proper;
pub use texts::{add_asked, add_text};
pub use views::KeptView;
