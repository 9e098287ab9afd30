//! A running server: workers, each with a door, a post and a clock of its own, over one object behind a turnstile.
#![tactic(auto)]

mod doors;
mod memory_doors;
mod objects;
mod passes;
mod returned;
mod served;
mod workers;

pub use doors::Door;
pub use memory_doors::MemDoor;
pub use objects::{Finished, serve_object};
pub use ocm_server_connections::{
    Conn, Draw, Ended, GateConn, GateEvent, MemConn, Node, Pair, PureConn, RestConn, gate_conn,
    respond, rest_conn, serve_conn,
};
pub use ocm_server_rounds::{Pumped, RoundEnd, pump_round};
pub use returned::Back;
pub use served::{Served, served_status};
pub use workers::{Rounds, Worker, serve_all, serve_worker};
