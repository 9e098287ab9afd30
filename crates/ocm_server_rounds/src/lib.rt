//! Rounds of delivery: what a server has for other servers is asked for at its turnstile, delivered, and settled by
//! what came back (Open Cloud Mesh API 1.1).
#![tactic(auto)]

mod pumped;
mod rounds;
mod settling;

pub use pumped::{Pumped, RoundEnd};
pub use rounds::pump_round;
