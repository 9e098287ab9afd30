//! The fast server and the plain program, which take the same asks.
ghost use Rattle.std.specs.Prelude.{◌≡◌, ◌∷◌, ◌++◌, IfOk, IfSome, IsTrue, OnOk};
ghost use Rattle.ocm_core.specs.Standing.{IsPlanned};
ghost use Rattle.ocm_rules_reference.specs.Histories.{ArePlain, is_basic, is_plain};

use crate::asks::ask_of;
use crate::both::replies_told;
use ocm_base::{List, NoMemory, and};
use ocm_cases_rows::{Steps, steps_told};
use ocm_core::{Core, Planned};
use ocm_entry::{Ask, Cmd, Entry, Method, Reply};
use ocm_rules_reference::answer;
use ocm_types::Host;
use std::alloc::Global;
use std::marker::Model;

/// The fast server, and the history that the plain program searches, newest first.
#[derive(Drop)]
struct Run {
    host: Host,
    core: Core,
    history: List<Entry>,
}

impl Model for Run {
    ghost use Rattle.std.specs.Prelude.{List};
    ghost use Rattle.ocm_entry.specs.declared.entries.Entry.{Entry};
    ghost use Rattle.ocm_rules_reference.specs.Histories.{ArePlain};

    ghost Value = { List Entry };

    ghost view = { λ run. run.history };

    ghost invariant = { λ run. ArePlain run.history };
}

/// What both answer to each ask of a row. None where an ask is none, or where memory was wanting.
pub fn both_told(alloc: Global, row: &str) -> Option<String> {
    let mut run = new_run(alloc)?;
    let told = steps_told(alloc, &mut run, row);
    drop(run);
    told
}

fn new_run(alloc: Global) -> Option<Run> {
    let host = Host::read(alloc, "a.example").ok()?;
    let copy = host.copy();
    match and(host, copy) {
        Ok((host, copy)) => Some(Run {
            host,
            core: Core::new(alloc, copy),
            history: List::new(alloc),
        }),
        Err(_) => None,
    }
}

impl Steps for Run {
    fn step_told(&mut self, alloc: Global, kind: &str, row: &str) -> Option<String> {
        match plain_ask_of(alloc, kind, row) {
            Some(ask) => asked(alloc, self, ask),
            None => None,
        }
    }
}

/// The ask of these words, where the plain program answers it.
fn plain_ask_of(alloc: Global, kind: &str, row: &str) -> Option<Ask>
    ensures { IfSome result (λ ask. IsTrue (is_plain ask)) }
{
    let ask = ask_of(alloc, kind, row)?;
    if has_plain_answer(&ask) {
        Some(ask)
    } else {
        drop(ask);
        None
    }
}

/// Whether an ask is one that the plain program answers.
fn has_plain_answer(ask: &Ask) -> bool
    ensures { result ≡ is_basic ask.now }
{
    match ask {
        Ask::AddUser { .. } => true,
        Ask::Local { cmd, .. } => matches!(cmd, Cmd::Share { .. } | Cmd::Unshare { .. }),
        Ask::Dav { method, .. } => matches!(method, Method::Get | Method::Put),
        _ => false,
    }
}

/// What both answer to an ask, which they go on by.
fn asked(alloc: Global, run: &mut Run, ask: Ask) -> Option<String>
    requires { IsTrue (is_plain ask) }
{
    match both(
        alloc,
        &run.host,
        &mut run.core,
        run.history.as_slice(),
        &ask,
    ) {
        Ok((plain, (fast, changes))) => {
            let told = replies_told(alloc, &plain, &fast, changes);
            drop(plain);
            gone_on(alloc, run, Entry { ask, reply: fast }, told)
        }
        Err(NoMemory) => {
            drop(ask);
            None
        }
    }
}

/// What was told of an entry, once it is the newest of the history.
fn gone_on(alloc: Global, run: &mut Run, entry: Entry, told: Option<String>) -> Option<String>
    requires { IsTrue (is_plain entry.ask) }
{
    match with_entry(alloc, entry, run.history.as_slice()) {
        Ok(history) => {
            run.history = history;
            told
        }
        Err(NoMemory) => {
            drop(told);
            None
        }
    }
}

/// The reply of the plain program, and that of the fast server with whether it changes something.
fn both(
    alloc: Global,
    host: &Host,
    core: &mut Core,
    history: &[Entry],
    ask: &Ask,
) -> Result<(Reply, (Reply, bool)), NoMemory>
    requires ask { IsTrue (is_plain ask.now) }
    requires history { ArePlain history.now }
{
    if history.len() > 1000 {
        return Err(NoMemory);
    }
    let plain = answer(alloc, host, history, ask)?;
    and(plain, given(core, ask))
}

/// The reply of the fast server, which goes on by it, and whether it changes something.
fn given(core: &mut Core, ask: &Ask) -> Result<(Reply, bool), NoMemory>
    requires { IsTrue (is_plain ask.now) }
{
    match core.answer(ask) {
        Ok(planned) => made(core, planned),
        Err(NoMemory) => Err(NoMemory),
    }
}

/// The reply that was planned, once its change is made, and whether it changes something.
fn made(core: &mut Core, planned: Planned) -> Result<(Reply, bool), NoMemory>
    requires { IsPlanned core.old.state planned }
{
    let changes = planned.changes();
    match core.room(&planned) {
        Ok(()) => Ok((core.apply(planned), changes)),
        Err(NoMemory) => unmade(planned),
    }
}

/// Lets go what was planned and is not made.
fn unmade(planned: Planned) -> Result<(Reply, bool), NoMemory> {
    let (reply, change, sent) = planned.into_parts();
    drop(reply);
    drop(change);
    drop(sent);
    Err(NoMemory)
}

/// A history with one more entry, which is the newest.
fn with_entry(alloc: Global, entry: Entry, before: &[Entry]) -> Result<List<Entry>, NoMemory>
    ensures { IfOk result (λ entries. entries ≡ entry ∷ before.now) }
{
    let mut entries = List::new(alloc);
    entries.push(entry)?;
    add_copies(&mut entries, before)?;
    Ok(entries)
}

fn add_copies(entries: &mut List<Entry>, more: &[Entry]) -> Result<(), NoMemory>
    ensures { OnOk result (entries.new ≡ entries.old ++ more.now) }
{
    match more {
        [] => Ok(()),
        [entry, rest @ ..] => {
            entries.push(entry.copy()?)?;
            add_copies(entries, rest)?;
            Ok(())
        }
    }
}
