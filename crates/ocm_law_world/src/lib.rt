//! Several servers that send each other messages, and crash, as definitions (`specs/World.antt`); and
//! what holds along every run of them, each law as the contract of a function that does nothing.
//! Worked stories show that the definitions can be met, and wrong ones what each law rests on.
//!
//! Histories stand newest first.
#![tactic(auto)]

pub mod cases;
pub mod grants;
pub mod guests;
pub mod revocation;
pub mod settlements;
pub mod told;
pub mod wrong;
