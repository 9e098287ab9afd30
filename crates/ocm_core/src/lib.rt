//! One server's state: the reply to each ask after its history, and the change that the reply makes.
//!
//! An ask is answered in three steps, so that what must not fail can come last: [`Core::answer`] plans
//! the reply and the change and leaves the state alone, [`Core::room`] takes the memory that the change
//! needs, and [`Core::apply`] makes the change, which takes none. [`Core::take`] does all three for an ask that was
//! answered once.
#![tactic(auto)]

pub mod laws;
mod server;

pub use ocm_plan::Planned;
pub use server::Core;
