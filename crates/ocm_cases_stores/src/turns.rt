//! Turnstiles in front of stores.
ghost use Rattle.std.specs.Prelude.{◌≤◌, ◌^◌, List, []};
ghost use Rattle.ocm_entry.specs.declared.entries.Entry.{Entry};
ghost use Rattle.ocm_store.specs.Stores.{IsLegalUnder, Stands, terms_of};

use crate::asks::ask_of;
use crate::gates::Gates;
use crate::replies::reply_told;
use ocm_cases_rows::{Steps, cut, steps_told};
use ocm_disk::{Disk, MemDisk};
use ocm_entry::Reply;
use ocm_serve_store::Followed;
use ocm_store::Store;
use ocm_turn::{Spent, Turnstile};
use ocm_types::Host;
use std::alloc::Global;
use std::marker::Brand;
use std::sync::Wait;

/// What a turnstile with this limit in front of a new store tells, `LIMIT; ASK; ASK`: each reply, and at last how many
/// calls were made. An ask behind the word `other` is made with a pass that was split off before the first call.
pub fn turns_told<R: Wait>(rt: &R, alloc: Global, row: &str) -> Option<String> {
    let (limit, asks) = row.split_once("; ")?;
    let limit: u64 = limit.parse().ok()?;
    if limit < 1 || limit > 1000 {
        return None;
    }
    match Host::read(alloc, "a.example") {
        Ok(host) => turns_of(rt, alloc, host, limit, asks),
        Err(_) => None,
    }
}

fn turns_of<R: Wait>(rt: &R, alloc: Global, host: Host, limit: u64, asks: &str) -> Option<String>
    requires { (1 ≤ limit) × (limit ≤ 2 ^ 63) }
{
    match Store::load(alloc, MemDisk::new(alloc), host, 4096) {
        Ok(store) => turns_by(rt, alloc, store, limit, asks),
        Err(_) => None,
    }
}

fn turns_by<R: Wait>(
    rt: &R,
    alloc: Global,
    store: Store<MemDisk>,
    limit: u64,
    asks: &str,
) -> Option<String>
    requires limit { (1 ≤ limit) × (limit ≤ 2 ^ 63) }
    requires stands { (k : List Entry) × Stands ⟦<MemDisk as Disk>⟧ store k [] × IsLegalUnder (terms_of store) k [] }
{
    match Turnstile::make::<Brand>(alloc, Followed::new(store), limit) {
        Ok((turnstile, pass)) => gates_told(rt, alloc, Gates::of(turnstile, pass)?, asks),
        Err(followed) => {
            drop(followed);
            None
        }
    }
}

fn gates_told<R: Wait>(rt: &R, alloc: Global, gates: Gates, asks: &str) -> Option<String> {
    let mut turns = Turns { rt, gates };
    let told = steps_told(alloc, &mut turns, asks);
    let Turns { rt, gates } = turns;
    let calls = gates.close(rt);
    calls_told(alloc, told, calls)
}

fn calls_told(alloc: Global, told: Option<String>, calls: u64) -> Option<String> {
    match told {
        Some(told) => format!(in alloc; "{}; {calls} calls", told.as_str()).ok(),
        None => None,
    }
}

/// Calls at a turnstile, by a runtime that may wait.
struct Turns<'a, R> {
    rt: &'a R,
    gates: Gates,
}

impl<'a, R: Wait> Steps for Turns<'a, R> {
    fn step_told(&mut self, alloc: Global, kind: &str, row: &str) -> Option<String> {
        if kind == "other" {
            let (kind, row) = cut(row, " ");
            let ask = ask_of(alloc, kind, row)?;
            return answer_told(alloc, self.gates.call_other(self.rt, ask));
        }
        let ask = ask_of(alloc, kind, row)?;
        answer_told(alloc, self.gates.call(self.rt, ask))
    }
}

fn answer_told(alloc: Global, answer: Result<Reply, Spent>) -> Option<String> {
    match answer {
        Ok(reply) => {
            let told = reply_told(alloc, &reply);
            drop(reply);
            told
        }
        Err(Spent) => String::from_str(alloc, "spent").ok(),
    }
}
