//! The lines of a user's commands.

ghost use Rattle.std.specs.Prelude.{IfOk, IsTrue, option_copied};
ghost use Rattle.ocm_script.specs.Events.{has_short_paths};
ghost use Rattle.ocm_script.specs.Forms as forms;
ghost use Rattle.ocm_script.specs.Gives.{Gives};

use crate::events::Event;
use crate::faults::LineFault;
use crate::last_words::{
    last_address_and_perms, last_number, last_number_and_perms, last_numbers, last_perms_and_fresh,
};
use crate::next_words::{next_holder, next_number, next_path_and_address};
use crate::words::ended;
use ocm_base::and;
use ocm_entry::Cmd;
use ocm_types::Host;
use std::alloc::Global;

/// `share HOST KEY PATH ADDRESS PERMISSIONS FRESH`: a share, with what its secret is drawn from.
#[tactic(auto, unfolding(crate::specs::Forms::share_line, crate::specs::Several::next_two, crate::specs::Several::last, crate::specs::Several::last_two))]
pub fn share_line(alloc: Global, named: &[Host], rest: Option<&[u8]>) -> Result<Event, LineFault>
    ensures exact { Gives (λ x. x) result (forms.share_line named.now (option_copied rest.entry)) }
    ensures short { IfOk result (λ event. IsTrue (has_short_paths event)) }
{
    let (holder, rest) = next_holder(alloc, named, rest)?;
    let (holder, ((path, with), rest)) = and(holder, next_path_and_address(alloc, rest))?;
    let (read, (perms, fresh)) = and((holder, path, with), last_perms_and_fresh(rest))?;
    let ((host, key), path, with) = read;
    Ok(Event::Local {
        host,
        key,
        cmd: Cmd::Share {
            path,
            with,
            perms,
            fresh,
        },
    })
}

/// `unshare HOST KEY ID`: a share is closed.
#[tactic(auto, unfolding(crate::specs::Forms::unshare_line, crate::specs::Several::next_two, crate::specs::Several::last))]
pub fn unshare_line(alloc: Global, named: &[Host], rest: Option<&[u8]>) -> Result<Event, LineFault>
    ensures exact { Gives (λ x. x) result (forms.unshare_line named.now (option_copied rest.entry)) }
    ensures short { IfOk result (λ event. IsTrue (has_short_paths event)) }
{
    let (holder, rest) = next_holder(alloc, named, rest)?;
    let ((host, key), id) = and(holder, last_number(rest))?;
    Ok(Event::Local {
        host,
        key,
        cmd: Cmd::Unshare { id },
    })
}

/// `limit HOST KEY ID PERMISSIONS`: a share gets other permissions.
#[tactic(auto, unfolding(crate::specs::Forms::limit_line, crate::specs::Several::next_two, crate::specs::Several::last, crate::specs::Several::last_two))]
pub fn limit_line(alloc: Global, named: &[Host], rest: Option<&[u8]>) -> Result<Event, LineFault>
    ensures exact { Gives (λ x. x) result (forms.limit_line named.now (option_copied rest.entry)) }
    ensures short { IfOk result (λ event. IsTrue (has_short_paths event)) }
{
    let (holder, rest) = next_holder(alloc, named, rest)?;
    let ((host, key), (id, perms)) = and(holder, last_number_and_perms(rest))?;
    Ok(Event::Local {
        host,
        key,
        cmd: Cmd::Limit { id, perms },
    })
}

/// `accept HOST KEY NUMBER`: a received share is taken.
#[tactic(auto, unfolding(crate::specs::Forms::accept_line, crate::specs::Several::next_two, crate::specs::Several::last))]
pub fn accept_line(alloc: Global, named: &[Host], rest: Option<&[u8]>) -> Result<Event, LineFault>
    ensures exact { Gives (λ x. x) result (forms.accept_line named.now (option_copied rest.entry)) }
    ensures short { IfOk result (λ event. IsTrue (has_short_paths event)) }
{
    let (holder, rest) = next_holder(alloc, named, rest)?;
    let ((host, key), number) = and(holder, last_number(rest))?;
    Ok(Event::Local {
        host,
        key,
        cmd: Cmd::Accept { number },
    })
}

/// `decline HOST KEY NUMBER`: a received share is given back.
#[tactic(auto, unfolding(crate::specs::Forms::decline_line, crate::specs::Several::next_two, crate::specs::Several::last))]
pub fn decline_line(alloc: Global, named: &[Host], rest: Option<&[u8]>) -> Result<Event, LineFault>
    ensures exact { Gives (λ x. x) result (forms.decline_line named.now (option_copied rest.entry)) }
    ensures short { IfOk result (λ event. IsTrue (has_short_paths event)) }
{
    let (holder, rest) = next_holder(alloc, named, rest)?;
    let ((host, key), number) = and(holder, last_number(rest))?;
    Ok(Event::Local {
        host,
        key,
        cmd: Cmd::Decline { number },
    })
}

/// `reshare HOST KEY NUMBER ADDRESS PERMISSIONS`: a further share is asked for. The permissions may be `-`, for none.
#[tactic(auto, unfolding(crate::specs::Forms::reshare_line, crate::specs::Several::next_two, crate::specs::Several::last, crate::specs::Several::last_two))]
pub fn reshare_line(alloc: Global, named: &[Host], rest: Option<&[u8]>) -> Result<Event, LineFault>
    ensures exact { Gives (λ x. x) result (forms.reshare_line named.now (option_copied rest.entry)) }
    ensures short { IfOk result (λ event. IsTrue (has_short_paths event)) }
{
    let (holder, rest) = next_holder(alloc, named, rest)?;
    let (holder, (number, rest)) = and(holder, next_number(rest))?;
    let ((host, key), (with, perms)) = and(holder, last_address_and_perms(alloc, rest))?;
    Ok(Event::Local {
        host,
        key,
        cmd: Cmd::Reshare {
            number,
            with,
            perms,
        },
    })
}

/// `undo HOST KEY REQUEST`: a further share is taken back.
#[tactic(auto, unfolding(crate::specs::Forms::undo_line, crate::specs::Several::next_two, crate::specs::Several::last))]
pub fn undo_line(alloc: Global, named: &[Host], rest: Option<&[u8]>) -> Result<Event, LineFault>
    ensures exact { Gives (λ x. x) result (forms.undo_line named.now (option_copied rest.entry)) }
    ensures short { IfOk result (λ event. IsTrue (has_short_paths event)) }
{
    let (holder, rest) = next_holder(alloc, named, rest)?;
    let ((host, key), request) = and(holder, last_number(rest))?;
    Ok(Event::Local {
        host,
        key,
        cmd: Cmd::Undo { request },
    })
}

/// `list HOST KEY`: all that the user has.
#[tactic(auto, unfolding(crate::specs::Forms::list_line, crate::specs::Several::next_two))]
pub fn list_line(alloc: Global, named: &[Host], rest: Option<&[u8]>) -> Result<Event, LineFault>
    ensures exact { Gives (λ x. x) result (forms.list_line named.now (option_copied rest.entry)) }
    ensures short { IfOk result (λ event. IsTrue (has_short_paths event)) }
{
    let (holder, rest) = next_holder(alloc, named, rest)?;
    let ((host, key), ()) = and(holder, ended(rest))?;
    Ok(Event::Local {
        host,
        key,
        cmd: Cmd::List,
    })
}

/// `expire HOST KEY ID END`: a share ends at a moment.
#[tactic(auto, unfolding(crate::specs::Forms::expire_line, crate::specs::Several::next_two, crate::specs::Several::last, crate::specs::Several::last_two))]
pub fn expire_line(alloc: Global, named: &[Host], rest: Option<&[u8]>) -> Result<Event, LineFault>
    ensures exact { Gives (λ x. x) result (forms.expire_line named.now (option_copied rest.entry)) }
    ensures short { IfOk result (λ event. IsTrue (has_short_paths event)) }
{
    let (holder, rest) = next_holder(alloc, named, rest)?;
    let ((host, key), (id, until)) = and(holder, last_numbers(rest))?;
    Ok(Event::Local {
        host,
        key,
        cmd: Cmd::Expire {
            id,
            until: until as u64,
        },
    })
}
