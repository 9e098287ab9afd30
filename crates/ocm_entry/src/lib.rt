//! What a server is asked, what it answers, and the rows that its history is told in.
//!
//! An [`Ask`] is one step of a server: a request of a guest or of a user, a message of another
//! server, or a step that the server takes by itself. It is answered by one [`Reply`], and both
//! together are an [`Entry`] of the server's history.
#![tactic(auto)]

mod asks;
mod entries;
mod items;
mod listings;
mod object;
mod refusals;
mod replies;
mod rows;

pub use asks::{Ask, Cmd, Method};
pub use entries::Entry;
pub use items::DavItems;
pub use listings::{DavChild, DavItem, Line};
pub use object::Object;
pub use refusals::{AddressField, Why};
pub use replies::Reply;
pub use rows::{Grant, Node, Place, Request, Share, Standing, User};
