//! A disk with a clock and a crash model, in memory and over a real file, and a shelf of disks by host.
#![tactic(auto)]

mod accounts;
mod crashes;
mod disk;
mod files;
mod gate_disks;
mod images;
mod marks;
mod memory;
mod overwrite;
mod shelf;

pub use crashes::Crash;
pub use disk::Disk;
pub use files::{FileDisk, Missing};
pub use gate_disks::GateDisk;
pub use memory::MemDisk;
pub use shelf::{Shelf, ShelfFault, ShelfPlace};
