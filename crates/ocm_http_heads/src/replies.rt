ghost use Rattle.std.specs.Prelude.{◌≡◌, ◌≤◌, [], map, IfOk};
ghost use Rattle.ocm_limits.specs.Limits.{most_head_lines};
ghost use Rattle.ocm_http_heads.specs.Heads.{SaysReply, is_final};
ghost use Rattle.ocm_http_heads.specs.Endings as endings;

use crate::fields::{Head, all_kept};
use httparse::{EMPTY_HEADER, Response, Status};
use ocm_limits::MOST_HEAD_LINES;
use ocm_texts::NoMemory;
use std::alloc::Global;

fn is_final_status(status: u16) -> bool
    ensures { result ≡ is_final status }
{
    !(100 <= status && status <= 199)
}

/// The head of a reply, of at most 66 lines, that `httparse` in its default form reads in this text to exactly its
/// end. None where it reads none, or one whose status is from 100 to 199.
pub fn read_reply(alloc: Global, text: &[u8]) -> Result<Option<Head>, NoMemory>
    requires { endings.lines text.now ≤ most_head_lines }
    ensures { IfOk result (SaysReply text.now) }
{
    let mut headers = [EMPTY_HEADER; MOST_HEAD_LINES];
    let mut reply = Response::new(&mut headers);
    let Ok(Status::Complete(len)) = reply.parse(text) else {
        return Ok(None);
    };
    if len != text.len() {
        return Ok(None);
    }
    let Some(status) = reply.code else {
        unreachable!()
    };
    if !is_final_status(status) {
        return Ok(None);
    }
    let fields = all_kept(alloc, reply.headers)?;
    Ok(Some(Head::Reply { status, fields }))
}
