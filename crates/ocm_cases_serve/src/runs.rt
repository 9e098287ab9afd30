//! Runs of a server from its disk to its disk.
ghost use Rattle.std.specs.Prelude.{◌<◌, length};

use crate::backs::served_told;
use crate::disks::disk_of;
use crate::gates::Gates;
use crate::manners::Manner;
use crate::plans::plan_of;
use crate::stores::kept_told;
use crate::workers::{Hand, add_worked, add_workers};
use ocm_cases_rows::{add, cut};
use ocm_disk::GateDisk;
use ocm_serve_options::Plan;
use ocm_serve_store::{Followed, serve};
use ocm_server::Served;
use std::alloc::Global;
use std::sync::Wait;
use std::thread::Threads;

/// What a run comes to, `WORDS; DISK; WORKER; WORKER`.
pub fn run_told<R: Threads + Wait + Sync>(
    rt: &R,
    alloc: Global,
    gates: &Gates,
    row: &str,
) -> Option<String> {
    let (words, row) = cut(row, "; ");
    let plan = plan_of(alloc, words)?;
    let told = planned_told(rt, alloc, &plan, gates, row, Manner::failing(0, 0), "");
    drop(plan);
    told
}

/// What a run by a plan comes to, `DISK; WORKER; WORKER`. The first connection of each worker is of this manner.
pub fn planned_told<R: Threads + Wait + Sync>(
    rt: &R,
    alloc: Global,
    plan: &Plan,
    gates: &Gates,
    row: &str,
    manner: Manner,
    pages: &str,
) -> Option<String> {
    let (disk, rows) = cut(row, "; ");
    let mut workers = Vec::new(alloc);
    let added = add_workers(alloc, gates, &mut workers, rows, manner, "0");
    let told = match added.and(disk_of(alloc, gates, disk)) {
        Some(disk) => workers_told(rt, alloc, plan, &mut workers, disk, pages),
        None => None,
    };
    drop(workers);
    told
}

fn workers_told<R: Threads + Wait + Sync>(
    rt: &R,
    alloc: Global,
    plan: &Plan,
    workers: &mut Vec<Hand<Followed<GateDisk>>>,
    disk: GateDisk,
    pages: &str,
) -> Option<String> {
    if workers.is_empty() {
        drop(disk);
        return None;
    }
    let (served, disk) = serve(rt, alloc, plan, workers.as_mut_slice(), disk, [0; 32]);
    ended_told(alloc, served, workers.as_slice(), disk, pages)
}

fn ended_told(
    alloc: Global,
    served: Served,
    workers: &[Hand<Followed<GateDisk>>],
    disk: GateDisk,
    pages: &str,
) -> Option<String> {
    let mut text = String::new(alloc);
    let ended = add(&mut text, served_told(alloc, served));
    let worked = ended.and(add_worked(alloc, &mut text, workers, pages));
    let parted = worked.and(text.push_str("; ").ok());
    let kept = parted.and(add(&mut text, kept_told(alloc, disk)));
    kept.and(Some(text))
}
