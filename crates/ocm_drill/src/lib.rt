//! Drills: long scripts that are made from a number, and the summary of what the run of a script did.
//!
//! A script opens with four servers, `n0.example` to `n3.example`, each with a user, `u0` to `u3`, and with a
//! collection `/d` of that user, in which is a file `f`. The events behind these are drawn, by a generator whose
//! first state is the number: of each its kind, then at which server it happens, then what it names.
//!
//! ```text
//! 0  share    `/d`, with the user of another server and for some permissions
//! 1  pump     all messages of the server that are due are given
//! 2  accept   a received share, of a number up to 16
//! 3  reshare  a received share, with the user of another server
//! 4  unshare  a share, of a number up to 16
//! 5  get      the file in a share, by a secret that one of the events may have made
//! 6  limit    a share, of a number up to 16, to some permissions
//! 7  crash    the server is dropped, and loaded from all that was written
//! ```
#![tactic(auto)]

mod drawn;
mod draws;
mod federation;
mod names;
mod openings;
mod scripts;
mod statuses;
mod summaries;
mod tallies;

pub use names::drill_hosts;
pub use scripts::drill_script;
pub use summaries::Summary;
pub use tallies::Tally;
