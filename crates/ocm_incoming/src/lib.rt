//! A guest's side of one server: the offers that it received, and the requests to share them further.
//!
//! An [`Inbox`] keeps both in the order in which they came, each numbered from 1, with indexes by hash
//! and by links beside them: no ask takes time that grows with the number of all records. An offer is
//! planned first, as a [`PlannedOffer`], which is the step that wants memory, as is [`Inbox::room`];
//! no change wants any.
#![tactic(auto)]

mod chains;
mod inboxes;
mod phases;
mod plans;
mod records;
mod rows;
mod tallies;

pub use inboxes::Inbox;
pub use plans::{PlannedOffer, plan_offer};
pub use rows::{Mark, Record};
