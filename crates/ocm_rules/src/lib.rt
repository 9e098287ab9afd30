//! The rules of one server, as definitions over its history: a list of entries, each an ask with the
//! reply that was given, the newest first.
#![tactic(auto)]

pub mod cases;
pub mod chain_cases;
pub mod file_cases;
pub mod history_cases;
pub mod laws;
pub mod limit_cases;
mod numbers;
pub mod request_cases;
mod rows;
mod settlements;
pub mod step_laws;

pub use numbers::row_at;
pub use rows::{Message, ReceivedRow, SentRow, ShareRow, Subject, Told};
pub use settlements::{is_acceptance, is_change, is_refusal, is_success, settles, wants_id};
