//! What a thread waits at: a set of descriptors (epoll(7)), and a bell that another thread rings (eventfd(2)). Beside it
//! single reads and writes of a stream, which wait for nothing.
//!
//! Contracts know nothing of what the system tells: what stands here is safe, and each call but `Set::wait` and
//! `wait_for_bytes` returns at once.
#![tactic(auto)]

mod bells;
mod clocks;
mod owning;
mod sets;
mod streams;

pub use bells::Bell;
pub use clocks::millis;
pub use owning::{last_error, owned};
pub use sets::Set;
pub use streams::{read_now, wait_for_bytes, write_now};
