//! What one server remembers: its users, shares, files, received offers, requests and messages, each in
//! a table of its own.
//!
//! [`Tables`] reads them by the words of the rules, for callers that plan a reply, and makes a
//! [`TableChange`] in them. Contracts see the lists of the rules, and for how many more rows there is room.
//! [`Tables::room`] takes the memory that a change needs, and [`Tables::apply`] takes none.
#![tactic(auto)]

mod applying;
mod changes;
mod files;
mod guests;
mod holders;
mod messages;
mod shares;
mod tables;

pub use changes::{Outcome, TableChange};
pub use ocm_chain::{Probes, Steps};
pub use tables::Tables;
