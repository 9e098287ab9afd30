ghost use Rattle.std.specs.Prelude.{◌≡◌, ◌≤◌, [], map, length, IfOk};
ghost use Rattle.ocm_limits.specs.Limits.{most_head_lines};
ghost use Rattle.ocm_http_heads.specs.Heads.{SaysRequest, SaysWithin};
ghost use Rattle.ocm_http_heads.specs.Endings as endings;

use crate::closings::is_closing;
use crate::fields::{Head, all_kept};
use httparse::{EMPTY_HEADER, Header, Request, Status};
use ocm_limits::MOST_HEAD_LINES;
use ocm_texts::{NoMemory, Text};
use std::alloc::Global;

/// For how many fields room is made at first. Nearly every head has fewer.
const USUAL_FIELDS: usize = 16;

/// The head of a request, of at most 66 lines, that `httparse` in its default form reads in this text to exactly
/// its end. None where it reads none.
pub fn read_request(alloc: Global, text: &[u8]) -> Result<Option<Head>, NoMemory>
    requires { endings.lines text.now ≤ most_head_lines }
    ensures { IfOk result (SaysRequest text.now) }
{
    let mut usual = [EMPTY_HEADER; USUAL_FIELDS];
    if let Some(head) = read_within(alloc, text, &mut usual)? {
        return Ok(Some(head));
    }
    read_most(alloc, text)
}

/// As `read_request`, with room for the fields of every head. A function of its own, since a function clears all of its
/// locals when it begins, and few heads need so much room.
fn read_most(alloc: Global, text: &[u8]) -> Result<Option<Head>, NoMemory>
    requires { endings.lines text.now ≤ most_head_lines }
    ensures { IfOk result (SaysRequest text.now) }
{
    let mut most = [EMPTY_HEADER; MOST_HEAD_LINES];
    read_within(alloc, text, &mut most)
}

/// The head of a request, where there is room for its fields.
fn read_within<'t>(
    alloc: Global,
    text: &'t [u8],
    room: &mut [Header<'t>],
) -> Result<Option<Head>, NoMemory>
    ensures { IfOk result (SaysWithin (length room.old) text.now) }
{
    let mut request = Request::new(room);
    let Ok(Status::Complete(len)) = request.parse(text) else {
        return Ok(None);
    };
    if len != text.len() {
        return Ok(None);
    }
    let (Some(method), Some(target), Some(minor)) = (request.method, request.path, request.version)
    else {
        unreachable!()
    };
    let fields = all_kept(alloc, request.headers)?;
    let method = Text::of(alloc, method)?;
    let target = Text::of(alloc, target)?;
    let closing = is_closing(minor, fields.as_slice());
    Ok(Some(Head::Request {
        method,
        target,
        closing,
        fields,
    }))
}
