//! Runs of a server with a log, from its disk to its disk.
ghost use Rattle.std.specs.Prelude.{◌≡◌, [], Some};

use crate::backs::served_told;
use crate::disks::disk_of;
use crate::gates::Gates;
use crate::manners::Manner;
use crate::plans::plan_of;
use crate::sinks::{CaseSink, sink_of};
use crate::stores::kept_told;
use crate::workers::{Hand, add_worked, add_workers};
use ocm_base::Sink;
use ocm_cases_rows::{add, cut};
use ocm_disk::GateDisk;
use ocm_serve_log::{LoggedRun, LoggedStore, serve_logged};
use ocm_serve_options::Plan;
use std::alloc::Global;
use std::sync::Wait;
use std::thread::Threads;

/// A worker in memory of a server with a log.
type LoggedHand = Hand<LoggedStore<GateDisk, CaseSink>>;

/// What a run with a log comes to, `CLOCKS PIECE FAILS ROOM; WORDS; DISK; WORKER; WORKER`.
pub fn logged_told<R: Threads + Wait + Sync>(
    rt: &R,
    alloc: Global,
    gates: &Gates,
    row: &str,
) -> Option<String> {
    let (log, row) = cut(row, "; ");
    let (words, row) = cut(row, "; ");
    let plan = plan_of(alloc, words)?;
    let told = planned_told(rt, alloc, &plan, gates, log, row);
    drop(plan);
    told
}

fn planned_told<R: Threads + Wait + Sync>(
    rt: &R,
    alloc: Global,
    plan: &Plan,
    gates: &Gates,
    log: &str,
    row: &str,
) -> Option<String> {
    let (clocks, words) = cut(log, " ");
    let (disk, rows) = cut(row, "; ");
    let mut workers = Vec::new(alloc);
    let added = add_workers(alloc, gates, &mut workers, rows, Manner::ready(), clocks);
    let told = match added.and(disk_of(alloc, gates, disk)) {
        Some(disk) => sunk_told(rt, alloc, plan, &mut workers, disk, words),
        None => None,
    };
    drop(workers);
    told
}

fn sunk_told<R: Threads + Wait + Sync>(
    rt: &R,
    alloc: Global,
    plan: &Plan,
    workers: &mut Vec<LoggedHand>,
    disk: GateDisk,
    words: &str,
) -> Option<String> {
    match sink_of(alloc, words) {
        Some(sink) => workers_told(rt, alloc, plan, workers, disk, sink),
        None => {
            drop(disk);
            None
        }
    }
}

fn workers_told<R: Threads + Wait + Sync>(
    rt: &R,
    alloc: Global,
    plan: &Plan,
    workers: &mut Vec<LoggedHand>,
    disk: GateDisk,
    sink: CaseSink,
) -> Option<String>
    requires fresh { ⟦<CaseSink as Sink>⟧.taken sink ≡ Some [] }
{
    if workers.is_empty() {
        drop(disk);
        drop(sink);
        return None;
    }
    let run = serve_logged(rt, alloc, plan, workers.as_mut_slice(), disk, sink, [0; 32]);
    run_told(alloc, run, workers.as_slice())
}

/// What is told of a run as of one without a log, and behind that how many lines were left out, and of its sink.
fn run_told(
    alloc: Global,
    run: LoggedRun<GateDisk, CaseSink>,
    workers: &[LoggedHand],
) -> Option<String> {
    let LoggedRun {
        served,
        disk,
        sink,
        left_out,
        out_of_memory: _,
    } = run;
    let mut text = String::new(alloc);
    let ended = add(&mut text, served_told(alloc, served));
    let worked = ended.and(add_worked(alloc, &mut text, workers, ""));
    let parted = worked.and(text.push_str("; ").ok());
    let kept = parted.and(add(&mut text, kept_told(alloc, disk)));
    let left = kept.and(add(&mut text, left_told(alloc, left_out)));
    let told = left.and(add(&mut text, sink.told(alloc)));
    drop(sink);
    told.and(Some(text))
}

fn left_told(alloc: Global, left_out: u64) -> Option<String> {
    format!(in alloc; "; {left_out} left out, ").ok()
}
