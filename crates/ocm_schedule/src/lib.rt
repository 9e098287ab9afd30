//! The order in which other servers are delivered to: which host is asked next, for which job, and when.
//!
//! A [`Schedule`] takes jobs for hosts by [`Schedule::due`], says by [`Schedule::next`] which exchange is to begin, and is told by
//! [`Schedule::ended`] how it ended. What holds of it over whole runs is said by the laws: no host starves ([`no_host_starves`]), and the jobs
//! of a host keep their order ([`jobs_in_order`]).
#![tactic(auto)]

mod circles;
mod hosts;
mod lanes;
mod laws;
mod places;
mod schedules;

pub use laws::{
    jobs_in_order, lanes_as_planned, no_host_starves, nothing_begins_early, others_rest,
    owners_stand_once, places_are_own,
};
pub use schedules::{Ending, Plan, Schedule, Turn};
