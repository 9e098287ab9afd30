//! A store that is served from its disk to its disk. Others read it while the record of a change is written.
#![tactic(auto)]

mod followed;
mod following;
mod serving;

pub use followed::{Followed, Origin, StoreOrFront};
pub use following::may_change;
pub use serving::{MOST_CALLS, ended, names_of, refused, serve};
