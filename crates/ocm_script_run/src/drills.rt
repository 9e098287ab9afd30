//! What came of a script that is made from a number, summed up.
ghost use Rattle.std.specs.Prelude.{◌≡◌, ◌≤◌, ℕ, List, [], map, IfOk, OnOk, IsTrue, length};
ghost use Rattle.std.specs.List.{list_all};
ghost use Rattle.ocm_limits.specs.Limits.{most_lines};
ghost use Rattle.ocm_drill.specs.Script as made;
ghost use Rattle.ocm_drill.specs.Summary as summaries;
ghost use Rattle.ocm_drill.specs.Summary.{AreCounts};
ghost use Rattle.ocm_script_run.specs.Asked.{asks_properly};
ghost use Rattle.ocm_script_run.specs.Drills.{Texts, kept_by, summary_of};
ghost use Rattle.ocm_script_run.specs.Servers.{World};

use crate::runs::run;
use crate::servers::ScriptServers;
use ocm_base::{Bytes, NoMemory};
use ocm_drill::{Summary, Tally, drill_hosts, drill_script};
use ocm_script::Event;
use ocm_types::Host;
use std::alloc::Global;

/// Runs the script that is made from a number, and gives its summary.
pub fn summarise<S: ScriptServers>(
    alloc: Global,
    number: u64,
    events: u32,
    servers: &mut S,
) -> Result<Bytes, NoMemory>
    requires few { events ≤ 90000 }
    requires none { S.stand servers.old [] }
    ensures { IfOk result (λ text. (texts : List (List ℕ)) × (final : World) × Texts [] 1 (made.made_script number events) texts final × S.stand servers.new final × (text ≡ summary_of events texts final)) }
{
    let script = drill_script(alloc, number, events)?;
    let tally = tally_lines(alloc, script.as_slice(), servers);
    drop(script);
    let tally = tally?;
    with_counts(alloc, 16 + events, &tally, servers)
}

/// Runs the lines of a script, and counts the statuses of what they print.
fn tally_lines<S: ScriptServers>(
    alloc: Global,
    events: &[Event],
    servers: &mut S,
) -> Result<Tally, NoMemory>
    requires proper { IsTrue (list_all asks_properly events.now) }
    requires few { length events.now ≤ most_lines }
    requires none { S.stand servers.old [] }
    ensures { IfOk result (λ tally. (texts : List (List ℕ)) × (final : World) × Texts [] 1 events.now texts final × S.stand servers.new final × AreCounts tally texts) }
{
    let mut tally = Tally::new(alloc)?;
    let mut number = 1;
    for event in events {
        let text = run(alloc, servers, number, event)?;
        tally.add(text.as_slice());
        number += 1;
    }
    Ok(tally)
}

/// The summary of so many events that were tallied, with how many entries each server of a made script
/// keeps.
fn with_counts<S: ScriptServers>(
    alloc: Global,
    events: u32,
    tally: &Tally,
    servers: &S,
) -> Result<Bytes, NoMemory>
    ensures { IfOk result (λ text. (texts : List (List ℕ)) (world : World) → AreCounts tally.now texts → S.stand servers.now world
        → text ≡ summaries.summary events texts (map (λ host. (host, kept_by world host)) made.drill_hosts)) }
{
    let hosts = drill_hosts(alloc)?;
    let mut summary = Summary::new(alloc, events, tally)?;
    add_counts(alloc, &mut summary, hosts.as_slice(), servers)?;
    Ok(summary.into_bytes())
}

/// Adds to a summary how many entries the server of each host keeps.
fn add_counts<S: ScriptServers>(
    alloc: Global,
    summary: &mut Summary,
    hosts: &[Host],
    servers: &S,
) -> Result<(), NoMemory>
    ensures { OnOk result ((world : World) (events : ℕ) (texts : List (List ℕ)) → S.stand servers.now world → summary.old ≡ summaries.summary events texts []
        → summary.new ≡ summaries.summary events texts (map (λ host. (host, kept_by world host)) hosts.now)) }
{
    for host in hosts {
        summary.add_kept(alloc, host, kept(servers, host))?;
    }
    Ok(())
}

/// How many entries the server of this host keeps that are no tick.
fn kept<S: ScriptServers>(servers: &S, host: &Host) -> u64
    ensures { (world : World) → S.stand servers.now world → result ≡ kept_by world host.now }
{
    match servers.state(host) {
        Some(state) => state.0,
        None => 0,
    }
}
