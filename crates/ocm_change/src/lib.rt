//! What each guest of a server was last told of its permissions.
//!
//! A [`Board`] has a row for each received offer, in their order. After [`Board::room`] a row is added
//! without memory, and a row is changed without memory at any time.
#![tactic(auto)]

mod boards;

pub use boards::Board;
