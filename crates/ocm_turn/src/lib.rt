//! Many threads, one value, one history.
//!
//! A [`Turnstile`] stands in front of a value that answers one ask at a time. Its callers take turns, each
//! once no other goes on, so the replies of all of them are those of one legal history, in which each
//! call stands once. A call that has work to do, as a write that takes long, takes two turns and does
//! it between them. Other callers have their turns meanwhile, and one such call goes on at a time. A
//! caller that waits sleeps. Behind each call stands a moment of the value, of which the value's own
//! trait, [`Dated`], says what it is tied to.
//!
//! Each caller has a [`Pass`]. What two callers know of each other's calls is what their passes have
//! seen: an order in time between passes that were never split from one another or joined is not told,
//! nor is it that a turn comes.
#![tactic(auto)]

mod behind;
mod bells;
mod board;
mod calling;
mod dated;
pub mod laws;
mod pass;
mod rule;
mod turnstile;
mod view;

pub use dated::{Begun, Dated};
pub use pass::Pass;
pub use rule::Founded;
pub use turnstile::{Shut, Spent, Turnstile};
pub use view::Call;
