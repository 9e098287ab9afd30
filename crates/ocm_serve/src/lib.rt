//! A running server: its workers, and the whole of it by a plan, from what it takes from the system to its status.
#![tactic(auto)]

mod log_files;
mod logged;
mod running;
mod workers;

pub use logged::run_logged;
pub use ocm_serve_store::serve;
pub use ocm_serve_system::{Cause, Note, OpenFault, Opening, StandIns, ToldDisk};
pub use running::run;
pub use workers::{NetWorker, workers_for};
