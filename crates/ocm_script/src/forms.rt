ghost use Rattle.std.specs.Prelude.{◌++◌, IfOk, IsTrue, option_copied};
ghost use Rattle.ocm_script.specs.Events.{has_short_paths};
ghost use Rattle.ocm_script.specs.Forms as forms;
ghost use Rattle.ocm_script.specs.Script as script;
ghost use Rattle.ocm_script.specs.Gives.{Gives};

use crate::command_lines::{
    accept_line, decline_line, expire_line, limit_line, list_line, reshare_line, share_line,
    undo_line, unshare_line,
};
use crate::events::Event;
use crate::faults::LineFault;
use crate::file_lines::{carry_line, dav_line, put_line};
use crate::letter_lines::{deliver_line, notice_line, offer_line, pump_line, raw_line};
use crate::server_lines::{clock_line, crash_line, fuse_line, node_line, restart_line, user_line};
use crate::words::{cut, is_word};
use ocm_entry::Method;
use ocm_limits::MOST_LINE_BYTES;
use ocm_types::Host;
use std::alloc::Global;

/// The event of a line that makes a server, tells it the time or stops it.
fn server_form(
    alloc: Global,
    named: &[Host],
    first: &[u8],
    rest: Option<&[u8]>,
) -> Result<Event, LineFault>
    ensures exact { Gives (λ x. x) result
        (forms.line_by forms.server_forms named.now (first.now, option_copied rest.entry)) }
    ensures short { IfOk result (λ event. IsTrue (has_short_paths event)) }
{
    if is_word(first, b"node") {
        node_line(alloc, named, rest)
    } else if is_word(first, b"user") {
        user_line(alloc, named, rest)
    } else if is_word(first, b"clock") {
        clock_line(named, rest)
    } else if is_word(first, b"fuse") {
        fuse_line(named, rest)
    } else if is_word(first, b"crash") {
        crash_line(named, rest)
    } else if is_word(first, b"restart") {
        restart_line(named, rest)
    } else {
        Err(LineFault::Bad)
    }
}

/// The event of a line by which servers speak with one another, or of one that is about a server.
fn letter_form(
    alloc: Global,
    named: &[Host],
    first: &[u8],
    rest: Option<&[u8]>,
) -> Result<Event, LineFault>
    ensures exact { Gives (λ x. x) result
        (forms.line_by (forms.letter_forms ++ forms.server_forms) named.now (first.now, option_copied rest.entry)) }
    ensures short { IfOk result (λ event. IsTrue (has_short_paths event)) }
{
    if is_word(first, b"offer") {
        offer_line(alloc, named, rest)
    } else if is_word(first, b"notice") {
        notice_line(alloc, named, rest)
    } else if is_word(first, b"raw") {
        raw_line(alloc, named, rest)
    } else if is_word(first, b"deliver") {
        deliver_line(named, false, rest)
    } else if is_word(first, b"lost") {
        deliver_line(named, true, rest)
    } else if is_word(first, b"pump") {
        pump_line(named, rest)
    } else {
        server_form(alloc, named, first, rest)
    }
}

/// The event of a line that has none of the forms of files.
fn command_form(
    alloc: Global,
    named: &[Host],
    first: &[u8],
    rest: Option<&[u8]>,
) -> Result<Event, LineFault>
    ensures exact { Gives (λ x. x) result
        (forms.line_by (forms.command_forms ++ forms.letter_forms ++ forms.server_forms) named.now (first.now, option_copied rest.entry)) }
    ensures short { IfOk result (λ event. IsTrue (has_short_paths event)) }
{
    if is_word(first, b"share") {
        share_line(alloc, named, rest)
    } else if is_word(first, b"unshare") {
        unshare_line(alloc, named, rest)
    } else if is_word(first, b"limit") {
        limit_line(alloc, named, rest)
    } else if is_word(first, b"accept") {
        accept_line(alloc, named, rest)
    } else if is_word(first, b"decline") {
        decline_line(alloc, named, rest)
    } else if is_word(first, b"reshare") {
        reshare_line(alloc, named, rest)
    } else if is_word(first, b"undo") {
        undo_line(alloc, named, rest)
    } else if is_word(first, b"list") {
        list_line(alloc, named, rest)
    } else if is_word(first, b"expire") {
        expire_line(alloc, named, rest)
    } else {
        letter_form(alloc, named, first, rest)
    }
}

/// The event of a line by its first word.
fn file_form(
    alloc: Global,
    named: &[Host],
    first: &[u8],
    rest: Option<&[u8]>,
) -> Result<Event, LineFault>
    ensures exact { Gives (λ x. x) result
        (forms.line_by (forms.file_forms ++ forms.command_forms ++ forms.letter_forms ++ forms.server_forms) named.now (first.now, option_copied rest.entry)) }
    ensures short { IfOk result (λ event. IsTrue (has_short_paths event)) }
{
    if is_word(first, b"get") {
        dav_line(alloc, named, Method::Get, rest)
    } else if is_word(first, b"head") {
        dav_line(alloc, named, Method::Head, rest)
    } else if is_word(first, b"delete") {
        dav_line(alloc, named, Method::Delete, rest)
    } else if is_word(first, b"mkcol") {
        dav_line(alloc, named, Method::Mkcol, rest)
    } else if is_word(first, b"list0") {
        dav_line(alloc, named, Method::List0, rest)
    } else if is_word(first, b"list1") {
        dav_line(alloc, named, Method::List1, rest)
    } else if is_word(first, b"put") {
        put_line(alloc, named, rest)
    } else if is_word(first, b"copy") {
        carry_line(alloc, named, false, rest)
    } else if is_word(first, b"move") {
        carry_line(alloc, named, true, rest)
    } else {
        command_form(alloc, named, first, rest)
    }
}

/// The event of a line of no more than the most bytes.
#[tactic(auto, unfolding(crate::specs::Script::short_line))]
fn short_line(alloc: Global, named: &[Host], line: &[u8]) -> Result<Event, LineFault>
    ensures exact { Gives (λ x. x) result (script.short_line named.now line.now) }
    ensures short { IfOk result (λ event. IsTrue (has_short_paths event)) }
{
    match line {
        [] => return Ok(Event::Quiet),
        [b'#', ..] => return Ok(Event::Quiet),
        _ => {}
    }
    let (first, rest) = cut(line);
    file_form(alloc, named, first, rest)
}

/// The event of a line, where the lines before it named these hosts.
#[tactic(auto, unfolding(crate::specs::Script::event_of))]
pub fn event_of(alloc: Global, named: &[Host], line: &[u8]) -> Result<Event, LineFault>
    ensures exact { Gives (λ x. x) result (script.event_of named.now line.now) }
    ensures short { IfOk result (λ event. IsTrue (has_short_paths event)) }
{
    if line.len() > MOST_LINE_BYTES {
        return Err(LineFault::Bad);
    }
    short_line(alloc, named, line)
}
