ghost use Rattle.std.specs.Prelude.{◌≡◌, ◌≢◌, ◌<◌, ◌≤◌, ◌↔◌, ◌∷◌, ◌++◌, [], length, Err, IfOk, IsTrue, OnOk};
ghost use Rattle.std.specs.List.{list_all};
ghost use Rattle.ocm_limits.specs.Limits.{most_lines};
ghost use Rattle.ocm_script.specs.Events.{has_short_paths};
ghost use Rattle.ocm_script.specs.Lines.{lines_of};
ghost use Rattle.ocm_script.specs.Script as script;
ghost use Rattle.ocm_script.specs.Script.{Reads, script_of};

use crate::events::Event;
use crate::faults::{LineFault, ScriptFault};
use crate::forms::event_of;
use crate::lines::{count_lines, first_line};
use ocm_base::{List, NoMemory};
use ocm_limits::MOST_LINES;
use ocm_types::Host;
use std::alloc::Global;

/// Reads a script: the event of each of its lines, in their order.
pub fn read_script(alloc: Global, bytes: &[u8]) -> Result<List<Event>, ScriptFault>
    ensures exact { Reads result (script_of bytes.now) }
    ensures each_line { IfOk result (λ events. length events ≡ length (lines_of bytes.now)) }
    ensures within { IfOk result (λ events. length events ≤ most_lines) }
    ensures short { IfOk result (λ events. IsTrue (list_all has_short_paths events)) }
    ensures too_many { (result ≡ Err ScriptFault.TooMany)
        ↔ (most_lines < length (lines_of bytes.now)) }
{
    if count_lines(bytes) > MOST_LINES {
        return Err(ScriptFault::TooMany);
    }
    let events = events_of(alloc, bytes)?;
    Ok(events)
}

/// Names the host of the server that an event makes, if it makes one.
fn name_node(named: &mut List<Host>, event: &Event) -> Result<(), NoMemory>
    ensures { OnOk result (named.new ≡ script.named_after named.old event.now) }
{
    if let Some(host) = event.node() {
        named.push(host.copy()?)?;
    }
    Ok(())
}

/// Adds the event of a further line, and names the host of the server that it makes.
fn add_event(events: &mut List<Event>, named: &mut List<Host>, event: Event) -> Result<(), NoMemory>
    ensures events { OnOk result (events.new ≡ events.old ++ event ∷ []) }
    ensures named { OnOk result (named.new ≡ script.named_after named.old event) }
{
    let done = name_node(named, &event);
    events.push(event)?;
    done
}

/// The events of at most so many lines.
fn events_of(alloc: Global, bytes: &[u8]) -> Result<List<Event>, ScriptFault>
    requires { length (lines_of bytes.now) ≤ most_lines }
    ensures exact { Reads result (script.events_of 1 [] (lines_of bytes.now)) }
    ensures each_line { IfOk result (λ events. length events ≡ length (lines_of bytes.now)) }
    ensures short { IfOk result (λ events. IsTrue (list_all has_short_paths events)) }
    ensures not_many { result ≢ Err ScriptFault.TooMany }
{
    let mut events = List::new(alloc);
    let mut named = List::new(alloc);
    let mut rest = bytes;
    let mut number: u32 = 1;
    while !rest.is_empty() {
        let (line, behind) = first_line(rest);
        let event = match event_of(alloc, named.as_slice(), line) {
            Ok(event) => event,
            Err(LineFault::Bad) => {
                drop(named);
                drop(events);
                return Err(ScriptFault::Line(number));
            }
            Err(LineFault::NoMemory) => {
                drop(named);
                drop(events);
                return Err(ScriptFault::NoMemory);
            }
        };
        if add_event(&mut events, &mut named, event).is_err() {
            drop(named);
            drop(events);
            return Err(ScriptFault::NoMemory);
        }
        rest = behind;
        number += 1;
    }
    Ok(events)
}
