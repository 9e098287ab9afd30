//! The transcript of a script, and why a script was not run to its end.
ghost use Rattle.std.specs.Prelude.{◌≡◌, ◌≤◌, [], Err, OnOk, OnErr, IsTrue, length};
ghost use Rattle.std.specs.List.{list_all};
ghost use Rattle.ocm_base.specs.Outside.{Rose};
ghost use Rattle.ocm_limits.specs.Limits.{most_lines};
ghost use Rattle.ocm_script_run.specs.Asked.{asks_properly};
ghost use Rattle.ocm_script_run.specs.Servers.{World};
ghost use Rattle.ocm_script_run.specs.Transcript.{Writes, WritesPart};

use crate::runs::run;
use crate::servers::ScriptServers;
use ocm_base::{Failed, NoMemory, Sink, write_all};
use ocm_script::Event;
use std::alloc::Global;

/// Why a script was not run to its end.
#[derive(Clone, Copy, Debug, PartialEq, Eq)]
pub enum WorldFault {
    /// The sink failed.
    WriteFault,
    /// There was no memory for the transcript, or for a server.
    NoMemory,
}

impl From<NoMemory> for WorldFault {
    ghost use Rattle.ocm_script_run.specs.declared.replays.WorldFault.TheVariants.{NoMemory};

    ghost from_gives = { λ _ e. e ≡ NoMemory };

    fn from(_e: NoMemory) -> WorldFault {
        WorldFault::NoMemory
    }
}

impl From<Failed> for WorldFault {
    ghost use Rattle.ocm_script_run.specs.declared.replays.WorldFault.TheVariants.{WriteFault};

    ghost from_gives = { λ _ e. e ≡ WriteFault };

    fn from(_e: Failed) -> WorldFault {
        WorldFault::WriteFault
    }
}

/// Runs the lines of a script, and writes its transcript. Where it ends early, a front of a transcript was
/// written.
pub fn run_events<S: ScriptServers, K: Sink>(
    alloc: Global,
    events: &[Event],
    servers: &mut S,
    sink: &mut K,
) -> Result<(), WorldFault>
    requires proper { IsTrue (list_all asks_properly events.now) }
    requires few { length events.now ≤ most_lines }
    requires none { S.stand servers.old [] }
    ensures ok { OnOk result ((final : World) × Writes events.now (K.taken sink.old) (K.taken sink.new) final × S.stand servers.new final) }
    ensures err { OnErr result (WritesPart events.now (K.taken sink.old) (K.taken sink.new)) }
    ensures rose { result ≡ Err WorldFault.WriteFault → Rose (K.faults sink.old) (K.faults sink.new) }
    ensures never_falls { K.faults sink.old ≤ K.faults sink.new }
{
    let mut number = 1;
    for event in events {
        let text = run(alloc, servers, number, event)?;
        write_all(sink, text.as_slice())?;
        number += 1;
    }
    Ok(())
}
