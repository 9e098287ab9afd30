//! The values of Open Cloud Mesh API 1.1: names, servers, addresses, secrets and permissions, and the offers and
//! notifications that two servers send each other.
#![tactic(auto)]

mod address_faults;
mod addresses;
mod draws;
mod hosts;
mod identifiers;
pub mod laws;
mod letters;
mod names;
mod phases;
mod rights;
mod secrets;
mod shared;
mod texts;

pub use address_faults::AddressFault;
pub use addresses::Address;
pub use draws::Fresh;
pub use hosts::Host;
pub use identifiers::{ProviderId, SenderId};
pub use letters::{Letter, Notice, Numbered, Offer};
pub use names::{Name, ShareName};
pub use phases::{Phase, RequestPhase, Which};
pub use rights::{Need, Perms, Rights};
pub use secrets::Secret;
pub use shared::Shared;
pub use texts::TextFault;
