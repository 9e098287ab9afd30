//! Scripts that are made from a number.

ghost use Rattle.std.specs.Prelude.{◌≡◌, ◌≤◌, ◌+◌, ◌++◌, [], length, IfOk, OnOk, IsTrue};
ghost use Rattle.std.specs.List.{list_all};
ghost use Rattle.ocm_script.specs.Events.{has_short_paths};
ghost use Rattle.ocm_drill.specs.Script as script;
ghost use Rattle.ocm_drill.specs.Script.{made_script};

use crate::drawn::Step;
use crate::draws::Drawing;
use crate::federation::Federation;
use ocm_base::{List, NoMemory, and};
use ocm_script::Event;
use std::alloc::Global;

impl Federation {
    /// Adds the events that are drawn, so many.
    fn add_drawn(
        &self,
        alloc: Global,
        made: &mut List<Event>,
        number: u64,
        events: u32,
    ) -> Result<(), NoMemory>
        ensures { OnOk result (made.new ≡ made.old ++ (script.drawn_events events events number).0) }
    {
        let mut drawing = Drawing::new(number);
        for j in 0..events {
            let step = Step {
                number: j + 1,
                events,
            };
            let event = self.drawn(alloc, &mut drawing, step)?;
            made.push(event)?;
        }
        Ok(())
    }

    /// Adds the events of a script.
    fn add_script(
        &self,
        alloc: Global,
        made: &mut List<Event>,
        number: u64,
        events: u32,
    ) -> Result<(), NoMemory>
        requires { made.old ≡ [] }
        ensures { OnOk result (made.new ≡ made_script number events) }
    {
        self.add_opening(made)?;
        self.add_drawn(alloc, made, number, events)
    }
}

/// The script of a number: 16 events that make four servers, each with a user, a collection and a file, and then so many
/// events that are drawn. The same numbers give the same script.
#[tactic(auto, using(crate::proofs::Made::length_made, crate::proofs::Made::short_made))]
pub fn drill_script(alloc: Global, number: u64, events: u32) -> Result<List<Event>, NoMemory>
    requires { events ≤ 90000 }
    ensures made { IfOk result (λ made. made ≡ made_script number events) }
    ensures length { IfOk result (λ made. length made ≡ 16 + events) }
    ensures short { IfOk result (λ made. IsTrue (list_all has_short_paths made)) }
{
    let federation = Federation::new(alloc)?;
    let mut made = List::new(alloc);
    let done = federation.add_script(alloc, &mut made, number, events);
    let (made, ()) = and(made, done)?;
    Ok(made)
}
