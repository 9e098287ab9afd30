//! The commands `serve` and `dav` of the program `ocmd`, over the network.
#![tactic(auto)]

mod complaints;
mod remotes;
mod servers;

pub use ocm_serve_options::asks_serve;
pub use remotes::{asks_remote, run_remote, told};
pub use servers::run_server;
