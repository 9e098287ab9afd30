//! The slow and plain program of the rules: it answers an ask by a search of the history itself.
//!
//! It has no index and keeps no state, and each small function is one definition of the rules. So
//! the fast server can be compared with it. It answers new users, shares and their ends, and files that
//! are read and put.
#![tactic(auto)]

mod answers;
mod files;
mod histories;
mod numbers;
mod shares;
mod users;

pub use answers::answer;
