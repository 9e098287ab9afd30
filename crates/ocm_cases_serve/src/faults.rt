//! Runs in which each call fails in turn.
use crate::gates::Gates;
use crate::manners::Manner;
use crate::plans::plan_of;
use crate::runs::planned_told;
use crate::series::Series;
use ocm_cases_rows::cut;
use ocm_serve_options::Plan;
use std::alloc::Global;
use std::sync::Wait;
use std::thread::Threads;

/// What these runs come to, `KIND COUNT; PAGES; WORDS; DISK; WORKER`: a line for those that follow one another and come to the
/// same.
pub fn faults_told<R: Threads + Wait + Sync>(
    rt: &R,
    alloc: Global,
    gates: &Gates,
    row: &str,
) -> Option<String> {
    let (calls, row) = cut(row, "; ");
    let (pages, row) = cut(row, "; ");
    let (words, row) = cut(row, "; ");
    let plan = plan_of(alloc, words)?;
    let mut series = Series::new(alloc);
    let whole = add_runs(rt, alloc, &mut series, &plan, gates, calls, pages, row);
    drop(plan);
    let text = series.into_text();
    whole.and(Some(text))
}

fn add_runs<R: Threads + Wait + Sync>(
    rt: &R,
    alloc: Global,
    series: &mut Series,
    plan: &Plan,
    gates: &Gates,
    calls: &str,
    pages: &str,
    row: &str,
) -> Option<()> {
    let (kind, count) = cut(calls, " ");
    let count: u64 = count.parse().ok()?;
    for before in 0..count {
        let manner = Manner::failing_at(kind, before.saturating_add(1));
        match planned_told(rt, alloc, plan, gates, row, manner, pages) {
            Some(told) => series.add(alloc, before, told)?,
            None => return None,
        }
    }
    series.close(alloc, count)
}
