//! Delivery of what one server has for another: the search for the other's discovery document, and the post to the end
//! point that it names (Open Cloud Mesh API 1.1). What a peer sends back can't do more than make one of the named answers.
//! `deliver` makes the exchanges of a delivery over a `Dial`; `Delivery` leaves them to others, so that many go on beside one
//! another. A server's rounds are over a `Post`.
#![tactic(auto)]

mod children;
mod deliveries;
mod dial_posts;
mod dials;
mod exchanges;
mod faults;
mod laws;
mod machines;
mod memory_dials;
mod posts;
mod replies;
mod searches;
mod sites;
mod stages;

pub use deliveries::{Answered, deliver};
pub use dial_posts::DialPost;
pub use dials::Dial;
pub use exchanges::{DialEnd, Exchange};
pub use faults::PumpFault;
pub use laws::{deliveries_are_runs, delivery_has_one_answer, machine_delivers};
pub use machines::{Delivery, Question};
pub use memory_dials::MemDial;
pub use posts::Post;
pub use replies::send;
pub use searches::discover;
pub use sites::Site;
pub use stages::Stage;
