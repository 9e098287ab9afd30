//! The events that are drawn: `j` is the number of an event, from 1, and `i` that of a server, from 0.

ghost use Rattle.std.specs.Prelude.{◌≡◌, ◌<◌, ◌≤◌, IfOk};
ghost use Rattle.ocm_drill.specs.Script as script;

use crate::draws::Drawing;
use crate::federation::{Federation, SERVERS};
use crate::names::{drawn_bytes, perms, secret};
use ocm_base::{NoMemory, and};
use ocm_disk::Crash;
use ocm_entry::{Cmd, Method};
use ocm_script::Event;
use std::alloc::Global;

/// How many kinds of drawn events there are.
const KINDS: u32 = 8;

/// The greatest number of a share or a received offer that an event names.
const NUMBERS: u32 = 16;

/// How many sets of permissions there are.
const PERMS: u32 = 7;

/// Which of so many events one is, counted from 1.
#[derive(Clone, Copy)]
pub struct Step {
    /// Its number.
    pub number: u32,
    /// How many events there are.
    pub events: u32,
    ghost within: { (1 ≤ number) × (number ≤ events) },
}

impl Federation {
    /// A command of a server's user.
    fn commanded(&self, i: u32, cmd: Cmd) -> Result<Event, NoMemory>
        requires { i < 4 }
        ensures { IfOk result (λ event. event ≡ script.commanded i cmd) }
    {
        let (cmd, (host, key)) = and(cmd, self.account(i))?;
        Ok(Event::Local { host, key, cmd })
    }

    /// The collection is shared with the user of another server.
    #[tactic(auto, unfolding(crate::specs::Script::shared))]
    fn shared(&self, drawing: &mut Drawing, j: u32, i: u32) -> Result<Event, NoMemory>
        requires { i < 4 }
        ensures event { IfOk result (λ event. event ≡ (script.shared j i drawing.old).0) }
        ensures state { drawing.new ≡ (script.shared j i drawing.old).1 }
    {
        let which = drawing.pick(SERVERS - 1);
        let bits = drawing.pick(PERMS) + 1;
        let (path, with) = and(self.collection()?, self.other(i, which).copy())?;
        let cmd = Cmd::Share {
            path,
            with,
            perms: perms(bits),
            fresh: drawn_bytes(j),
        };
        self.commanded(i, cmd)
    }

    /// The messages of a server are given to those that they are for.
    fn pumped(&self, j: u32, i: u32) -> Result<Event, NoMemory>
        requires { i < 4 }
        ensures { IfOk result (λ event. event ≡ script.pumped j i) }
    {
        let host = self.host(i)?;
        let fresh = drawn_bytes(j);
        Ok(Event::Pump { host, fresh })
    }

    /// A received share is taken.
    #[tactic(auto, unfolding(crate::specs::Script::accepted))]
    fn accepted(&self, drawing: &mut Drawing, i: u32) -> Result<Event, NoMemory>
        requires { i < 4 }
        ensures event { IfOk result (λ event. event ≡ (script.accepted i drawing.old).0) }
        ensures state { drawing.new ≡ (script.accepted i drawing.old).1 }
    {
        let number = drawing.pick(NUMBERS) + 1;
        self.commanded(i, Cmd::Accept { number })
    }

    /// The owner of a received share is asked to share it with the user of another server.
    #[tactic(auto, unfolding(crate::specs::Script::reshared))]
    fn reshared(&self, drawing: &mut Drawing, i: u32) -> Result<Event, NoMemory>
        requires { i < 4 }
        ensures event { IfOk result (λ event. event ≡ (script.reshared i drawing.old).0) }
        ensures state { drawing.new ≡ (script.reshared i drawing.old).1 }
    {
        let number = drawing.pick(NUMBERS) + 1;
        let which = drawing.pick(SERVERS - 1);
        let with = self.other(i, which).copy()?;
        let cmd = Cmd::Reshare {
            number,
            with,
            perms: None,
        };
        self.commanded(i, cmd)
    }

    /// A share is closed.
    #[tactic(auto, unfolding(crate::specs::Script::unshared))]
    fn unshared(&self, drawing: &mut Drawing, i: u32) -> Result<Event, NoMemory>
        requires { i < 4 }
        ensures event { IfOk result (λ event. event ≡ (script.unshared i drawing.old).0) }
        ensures state { drawing.new ≡ (script.unshared i drawing.old).1 }
    {
        let id = drawing.pick(NUMBERS) + 1;
        self.commanded(i, Cmd::Unshare { id })
    }

    /// The file in a share is got by the secret that one of the events made, or would have made.
    #[tactic(auto, unfolding(crate::specs::Script::got))]
    fn got(
        &self,
        alloc: Global,
        drawing: &mut Drawing,
        events: u32,
        i: u32,
    ) -> Result<Event, NoMemory>
        requires some { 0 < events }
        requires i { i < 4 }
        ensures event { IfOk result (λ event. event ≡ (script.got events i drawing.old).0) }
        ensures state { drawing.new ≡ (script.got events i drawing.old).1 }
    {
        let maker = drawing.pick(events) + 1;
        let (host, secret) = and(self.host(i)?, secret(alloc, maker))?;
        let ((host, secret), path) = and((host, secret), self.shared_file())?;
        Ok(Event::Dav {
            host,
            secret,
            method: Method::Get,
            path,
        })
    }

    /// A share gets other permissions.
    #[tactic(auto, unfolding(crate::specs::Script::limited))]
    fn limited(&self, drawing: &mut Drawing, i: u32) -> Result<Event, NoMemory>
        requires { i < 4 }
        ensures event { IfOk result (λ event. event ≡ (script.limited i drawing.old).0) }
        ensures state { drawing.new ≡ (script.limited i drawing.old).1 }
    {
        let id = drawing.pick(NUMBERS) + 1;
        let bits = drawing.pick(PERMS) + 1;
        let cmd = Cmd::Limit {
            id,
            perms: perms(bits),
        };
        self.commanded(i, cmd)
    }

    /// A server is dropped, and loaded from all that was written.
    fn crashed(&self, i: u32) -> Result<Event, NoMemory>
        requires { i < 4 }
        ensures { IfOk result (λ event. event ≡ script.crashed i) }
    {
        let host = self.host(i)?;
        Ok(Event::Crash {
            host,
            left: Crash::New,
        })
    }

    /// An event of a kind below 8 at a server.
    #[tactic(auto, unfolding(crate::specs::Script::of_kind))]
    fn of_kind(
        &self,
        alloc: Global,
        drawing: &mut Drawing,
        step: Step,
        i: u32,
        kind: u32,
    ) -> Result<Event, NoMemory>
        requires { i < 4 }
        ensures event { IfOk result (λ event. event ≡ (script.of_kind step.events step.number i kind drawing.old).0) }
        ensures state { drawing.new ≡ (script.of_kind step.events step.number i kind drawing.old).1 }
    {
        match kind {
            0 => self.shared(drawing, step.number, i),
            1 => self.pumped(step.number, i),
            2 => self.accepted(drawing, i),
            3 => self.reshared(drawing, i),
            4 => self.unshared(drawing, i),
            5 => self.got(alloc, drawing, step.events, i),
            6 => self.limited(drawing, i),
            _ => self.crashed(i),
        }
    }

    /// The event of a step.
    #[tactic(auto, unfolding(crate::specs::Script::event_of))]
    pub fn drawn(&self, alloc: Global, drawing: &mut Drawing, step: Step) -> Result<Event, NoMemory>
        ensures event { IfOk result (λ event. event ≡ (script.event_of step.events step.number drawing.old).0) }
        ensures state { drawing.new ≡ (script.event_of step.events step.number drawing.old).1 }
    {
        let kind = drawing.pick(KINDS);
        let i = drawing.pick(SERVERS);
        self.of_kind(alloc, drawing, step, i, kind)
    }
}
