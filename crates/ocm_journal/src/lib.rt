//! A journal of records on a disk: a crash at any moment leaves the records that were acknowledged.
#![tactic(auto)]

mod appending;
mod faults;
mod journal;
mod laws;
mod loading;
mod making;
mod reading;
mod renewing;
mod steps;
mod telling;

pub use appending::AppendFault;
pub use faults::OpenFault;
pub use journal::Journal;
pub use laws::{an_image_is_opened, what_is_opened_is_blank_or_an_image};
pub use renewing::RenewFault;
