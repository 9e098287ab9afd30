//! The lines that make a server, tell it the time, and stop it.

ghost use Rattle.std.specs.Prelude.{IfOk, IsTrue, option_copied};
ghost use Rattle.ocm_script.specs.Events.{has_short_paths};
ghost use Rattle.ocm_script.specs.Forms as forms;
ghost use Rattle.ocm_script.specs.Gives.{Gives};

use crate::events::Event;
use crate::faults::LineFault;
use crate::last_words::{last_crash, last_name_and_fresh, last_number};
use crate::next_words::{next_host, next_new_host};
use crate::words::ended;
use ocm_base::and;
use ocm_disk::Crash;
use ocm_types::Host;
use std::alloc::Global;

/// `node HOST`: a server, whose host is not named before.
#[tactic(auto, unfolding(crate::specs::Forms::node_line))]
pub fn node_line(alloc: Global, named: &[Host], rest: Option<&[u8]>) -> Result<Event, LineFault>
    ensures exact { Gives (λ x. x) result (forms.node_line named.now (option_copied rest.entry)) }
    ensures short { IfOk result (λ event. IsTrue (has_short_paths event)) }
{
    let (host, rest) = next_new_host(alloc, named, rest)?;
    let (host, ()) = and(host, ended(rest))?;
    Ok(Event::Node { host })
}

/// `user HOST NAME FRESH`: a user, with what its key is drawn from.
#[tactic(auto, unfolding(crate::specs::Forms::user_line, crate::specs::Several::last, crate::specs::Several::last_two))]
pub fn user_line(alloc: Global, named: &[Host], rest: Option<&[u8]>) -> Result<Event, LineFault>
    ensures exact { Gives (λ x. x) result (forms.user_line named.now (option_copied rest.entry)) }
    ensures short { IfOk result (λ event. IsTrue (has_short_paths event)) }
{
    let (host, rest) = next_host(named, rest)?;
    let (host, (name, fresh)) = and(host, last_name_and_fresh(alloc, rest))?;
    Ok(Event::User { host, name, fresh })
}

/// `clock HOST SECONDS`: the time is told to the server.
#[tactic(auto, unfolding(crate::specs::Forms::clock_line, crate::specs::Several::last))]
pub fn clock_line(named: &[Host], rest: Option<&[u8]>) -> Result<Event, LineFault>
    ensures exact { Gives (λ x. x) result (forms.clock_line named.now (option_copied rest.entry)) }
    ensures short { IfOk result (λ event. IsTrue (has_short_paths event)) }
{
    let (host, rest) = next_host(named, rest)?;
    let (host, clock) = and(host, last_number(rest))?;
    Ok(Event::Clock { host, clock })
}

/// `fuse HOST CALLS`: the server's disk fails once it was called so often.
#[tactic(auto, unfolding(crate::specs::Forms::fuse_line, crate::specs::Several::last))]
pub fn fuse_line(named: &[Host], rest: Option<&[u8]>) -> Result<Event, LineFault>
    ensures exact { Gives (λ x. x) result (forms.fuse_line named.now (option_copied rest.entry)) }
    ensures short { IfOk result (λ event. IsTrue (has_short_paths event)) }
{
    let (host, rest) = next_host(named, rest)?;
    let (host, calls) = and(host, last_number(rest))?;
    Ok(Event::Fuse { host, calls })
}

/// `crash HOST LEFT`: the server's disk crashes, and it is loaded again.
#[tactic(auto, unfolding(crate::specs::Forms::crash_line, crate::specs::Several::last))]
pub fn crash_line(named: &[Host], rest: Option<&[u8]>) -> Result<Event, LineFault>
    ensures exact { Gives (λ x. x) result (forms.crash_line named.now (option_copied rest.entry)) }
    ensures short { IfOk result (λ event. IsTrue (has_short_paths event)) }
{
    let (host, rest) = next_host(named, rest)?;
    let (host, left) = and(host, last_crash(rest))?;
    Ok(Event::Crash { host, left })
}

/// `restart HOST`: the same as a crash that leaves all that was written.
#[tactic(auto, unfolding(crate::specs::Forms::restart_line))]
pub fn restart_line(named: &[Host], rest: Option<&[u8]>) -> Result<Event, LineFault>
    ensures exact { Gives (λ x. x) result (forms.restart_line named.now (option_copied rest.entry)) }
    ensures short { IfOk result (λ event. IsTrue (has_short_paths event)) }
{
    let (host, rest) = next_host(named, rest)?;
    let (host, ()) = and(host, ended(rest))?;
    Ok(Event::Crash {
        host,
        left: Crash::New,
    })
}
