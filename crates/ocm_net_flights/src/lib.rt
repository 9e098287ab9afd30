//! One exchange with another server, which is driven to its end: a request on a connection of its own, and its reply.
//!
//! Contracts know nothing of what a socket gives or takes: what stands here is safe, and each call returns.
#![tactic(auto)]

mod addresses;
mod courses;
mod faults;
mod flights;
mod interims;
mod lone;
mod peers;
mod replies;
mod waits;

pub use addresses::{Addresses, name_and_port};
pub use faults::ExchangeFault;
pub use flights::Limits;
pub use lone::exchange_alone;
pub use peers::{Peers, is_local_host};
