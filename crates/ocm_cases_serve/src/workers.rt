//! Workers of rows.
use crate::backs::add_ends;
use crate::doors::CaseDoor;
use crate::ends::ends_of;
use crate::gates::Gates;
use crate::manners::Manner;
use ocm_base::MemClock;
use ocm_cases_rows::clock_of;
use ocm_pump::{DialPost, MemDial};
use ocm_server::{Draw, GateConn, Worker};
use ocm_turn::Dated;
use std::alloc::Global;

/// A worker in memory, of an object that is served.
pub type Hand<T> = Worker<T, CaseDoor<GateConn>, DialPost<MemDial>, MemClock>;

/// Adds the workers of a row, `; ` between two. The first connection of each is of this manner, and the clock of each gives
/// these values, `,` between two.
pub fn add_workers<T: Dated + Drop>(
    alloc: Global,
    gates: &Gates,
    workers: &mut Vec<Hand<T>>,
    rows: &str,
    manner: Manner,
    clocks: &str,
) -> Option<()> {
    for row in rows.split("; ") {
        match ends_of(alloc, gates, row, manner).zip(clock_of(alloc, clocks)) {
            Some(((door, dial), clock)) => {
                let post = DialPost::new(dial);
                let worker = Worker::new(door, post, Draw::new([0; 32], 0), clock);
                workers.push(worker).ok()?;
            }
            None => return None,
        }
    }
    Some(())
}

/// Adds what is told of each worker. The named pages are those of its first connection.
pub fn add_worked<T: Dated>(
    alloc: Global,
    text: &mut String,
    workers: &[Hand<T>],
    pages: &str,
) -> Option<()> {
    for worker in workers {
        add_ends(alloc, text, &worker.door, worker.post.dial(), pages)?;
    }
    Some(())
}
