//! The lines that files are reached by.

ghost use Rattle.std.specs.Prelude.{IfOk, IsTrue, option_copied};
ghost use Rattle.ocm_script.specs.Events.{has_short_paths};
ghost use Rattle.ocm_script.specs.Forms as forms;
ghost use Rattle.ocm_script.specs.Gives.{Gives};

use crate::bodies::body_behind;
use crate::events::Event;
use crate::faults::LineFault;
use crate::last_words::last_overwrite;
use crate::next_words::{next_holder, next_path, next_paths};
use crate::words::ended;
use ocm_base::and;
use ocm_entry::Method;
use ocm_types::Host;
use std::alloc::Global;

/// `METHOD HOST SECRET PATH`: a request by a method without a body.
#[tactic(auto, unfolding(crate::specs::Forms::dav_line, crate::specs::Several::next_two))]
pub fn dav_line(
    alloc: Global,
    named: &[Host],
    method: Method,
    rest: Option<&[u8]>,
) -> Result<Event, LineFault>
    ensures exact { Gives (λ x. x) result (forms.dav_line method named.now (option_copied rest.entry)) }
    ensures short { IfOk result (λ event. IsTrue (has_short_paths event)) }
{
    let (holder, rest) = next_holder(alloc, named, rest)?;
    let (holder, (path, rest)) = and(holder, next_path(alloc, rest))?;
    let (((host, secret), path), ()) = and((holder, path), ended(rest))?;
    Ok(Event::Dav {
        host,
        secret,
        method,
        path,
    })
}

/// `put HOST SECRET PATH BODY`: a file is put.
#[tactic(auto, unfolding(crate::specs::Forms::put_line, crate::specs::Several::next_two))]
pub fn put_line(alloc: Global, named: &[Host], rest: Option<&[u8]>) -> Result<Event, LineFault>
    ensures exact { Gives (λ x. x) result (forms.put_line named.now (option_copied rest.entry)) }
    ensures short { IfOk result (λ event. IsTrue (has_short_paths event)) }
{
    let (holder, rest) = next_holder(alloc, named, rest)?;
    let (holder, (path, rest)) = and(holder, next_path(alloc, rest))?;
    let (((host, secret), path), body) = and((holder, path), body_behind(alloc, rest))?;
    Ok(Event::Put {
        host,
        secret,
        path,
        body,
    })
}

/// `copy` or `move HOST SECRET PATH PATH HOW`, where `HOW` is `overwrite` or `keep`.
#[tactic(auto, unfolding(crate::specs::Forms::carry_line, crate::specs::Several::next_two, crate::specs::Several::last))]
pub fn carry_line(
    alloc: Global,
    named: &[Host],
    moving: bool,
    rest: Option<&[u8]>,
) -> Result<Event, LineFault>
    ensures exact { Gives (λ x. x) result (forms.carry_line moving named.now (option_copied rest.entry)) }
    ensures short { IfOk result (λ event. IsTrue (has_short_paths event)) }
{
    let (holder, rest) = next_holder(alloc, named, rest)?;
    let (holder, (paths, rest)) = and(holder, next_paths(alloc, rest))?;
    let ((holder, paths), overwrite) = and((holder, paths), last_overwrite(rest))?;
    let (host, secret) = holder;
    let (from, to) = paths;
    Ok(Event::Carry {
        host,
        secret,
        from,
        to,
        moving,
        overwrite,
    })
}
