//! A server's doors, connections and dials over TCP.
//!
//! Contracts know nothing of what a socket will give. What stands here meets the traits of the server, and tells what came
//! and what was sent.
#![tactic(auto)]

mod books;
mod conns;
mod dial_books;
mod dials;
mod doors;
mod posts;

pub use conns::StreamConn;
pub use dials::ClientDial;
pub use doors::NetDoor;
pub use ocm_net_flights::{Peers, is_local_host};
pub use posts::TcpPost;
