//! A server whose history outlives every crash: the memory of one server, and a journal on a disk that has each change
//! before it is told.
//!
//! [`Store::load`] opens the history that a disk has, and [`Store`] answers one ask after another as an
//! [`ocm_entry::Object`]. What changes something is planned, then written, and then made, so that a
//! change that was told is on the disk. The records are appended; where one no longer fits into the
//! live area of the journal, all that later replies can depend on is written anew into the other one.
//!
//! The same goes in three calls: [`Store::begin`] plans a change and parts the memory, a [`Front`], from the journal,
//! [`Writing::write`] appends the record, and [`Store::end`] makes the change. In between the front answers what changes
//! nothing, as the store did before the change was begun.
#![tactic(auto)]

mod acting;
mod apart;
pub mod laws;
mod load_faults;
mod loading;
mod parting;
mod ready;
mod settling;
mod stores;
mod terms;
mod write_faults;
mod writing;

pub use apart::{Begun, Front, Mark, Writing};
pub use load_faults::LoadFault;
pub use stores::Store;
pub use terms::Terms;
