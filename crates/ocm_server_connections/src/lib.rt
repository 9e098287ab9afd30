//! Connections served message by message, over one object behind a turnstile.
#![tactic(auto)]

mod answering;
mod conns;
mod draws;
mod endings;
mod gates;
mod nodes;
mod page_notes;
mod pairs;
mod responding;
mod resting;
mod serving;

pub use answering::{is_done, page_for};
pub use conns::Conn;
pub use draws::Draw;
pub use endings::{Ended, Missed};
pub use gates::{GateConn, GateEvent, GateSink, GateSource, gate_conn};
pub use nodes::Node;
pub use page_notes::PageNotes;
pub use pairs::{MemConn, Pair, PureConn};
pub use responding::respond;
pub use resting::{RestConn, rest_conn};
pub use serving::{counted, ending_after, serve_conn};
