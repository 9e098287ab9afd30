//! The users of a server, found by their keys and their names.
//!
//! A [`UserTable`] keeps them in the order in which they came, numbered from 1, with indexes by hash
//! beside them: no call takes time that grows with the number of users. A user is planned first, as a
//! [`PlannedUser`], which is the step that wants memory; adding it wants none.
#![tactic(auto)]

mod plans;
mod tables;

pub use plans::PlannedUser;
pub use tables::UserTable;
