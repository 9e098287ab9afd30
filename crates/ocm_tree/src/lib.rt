//! What stands on a server: the files and collections of all users, found by their places.
//!
//! A [`Tree`] holds a node for each place at which something stands, in slots that keep their numbers
//! while other nodes go, and hash indexes beside them, so that to look up, to put, and to remove a file or
//! an empty collection take no time that grows with the number of nodes. A listing passes over one number
//! for each slot, a tag of the place in which its node lies, and looks at the nodes with the tag of the
//! collection; to remove, copy or move a collection that is not empty walks over all slots, and so does a
//! copy or move in the place of something. Each node has a trail, a number of its user and its first
//! segments: what lies at and below a place has its trail between two numbers, so that a walk compares
//! numbers, and looks at few paths. What wants memory is planned first, as a [`PlannedNode`] or a
//! [`PlannedCarry`], and room is taken for it; the change itself wants none.
//!
//! For each slot it keeps the number of the kept entry that put what stands there, copied along by
//! copies and moves, and the slots in the order of these numbers: [`Tree::standing_by`] finds what an
//! entry put without a walk over all nodes. An empty slot keeps its number and its tag until the empty
//! slots are let go, where room is taken while they are more than half of all.
#![tactic(auto)]

mod amounts;
mod branches;
mod carries;
mod changes;
mod comparing;
mod entry_numbers;
mod firsts;
mod indexes;
mod kept;
mod limits;
mod listing;
mod moving;
mod nodes;
mod numbers;
mod orders;
mod places;
mod plans;
mod tags;
mod trails;
mod trees;

pub use carries::PlannedCarry;
pub use changes::FileChange;
pub use kept::KeptNode;
pub use places::is_at_or_above;
pub use plans::PlannedNode;
pub use trees::Tree;
