//! Audits of a journal's file: what each record says, line by line, and nothing of a file that is no journal.
#![tactic(auto)]

mod audits;
mod faults;
mod labels;
mod laws;
mod lines;
mod testing;
mod writing;

pub use audits::audit;
pub use faults::AuditFault;
pub use labels::own_host;
pub use laws::an_audit_tells_one_thing;
pub use testing::first_refused;
