//! What a server answers to other servers, what that changes, and which messages it sends: offers of
//! shares, notices about shares, which messages are due, and what was answered to a message.
//!
//! Each plan is made from the tables of the server, which stay.
#![tactic(auto)]

mod news;
mod notices;
mod offers;
mod reads;
mod requests;
mod settlements;

pub use notices::plan_notice;
pub use offers::plan_offer;
pub use settlements::{plan_due, plan_settle};
