//! The words of a command line that asks for a running server, as orders for it.
#![tactic(auto)]

mod commands;
mod complaint_lines;
mod complaints;
mod keys;
mod option_names;
mod options;
mod plans;
mod reading;

pub use complaint_lines::Shown;
pub use complaints::{Complaint, complaint_of, host_given};
pub use keys::{KeyFault, read_key};
pub use option_names::OptionName;
pub use plans::{AdminKey, Orders, Peers, Plan, PlanFault};
pub use reading::{asks_help, asks_serve, read_plan};
