ghost use Rattle.std.specs.Prelude.{◌≡◌, length, IfOk};
ghost use Rattle.ocm_http_heads.specs.Endings.{found, of_head};
ghost use Rattle.ocm_http_heads.specs.declared.endings.Found.TheVariants as finds;
ghost use Rattle.ocm_http.specs.Fronts.{IsFrontOf, ReadsTo};

use crate::heads::length_of;
use crate::read_heads::ReadHead;
use ocm_base::NoMemory;
use ocm_http_heads::{Found, Look, blanks, read_request};
use ocm_limits::MOST_BODY_BYTES;
use std::alloc::Global;

/// What stands at the front of the bytes of a request, from its start on.
#[derive(Drop)]
pub enum Front {
    /// A whole head.
    Whole(ReadHead),
    /// Bytes that are refused, whatever follows them.
    Refused,
    /// No whole head yet, and no fault. The look for its end goes on behind these bytes.
    Unfinished(Look),
}

/// Reads the head at the front, with the CR and LF before it.
pub fn read_front(alloc: Global, bytes: &[u8]) -> Result<Front, NoMemory>
    ensures { IfOk result (IsFrontOf bytes.now) }
{
    let mut look = Look::of_head();
    match look.look(bytes) {
        Found::Unfinished => Ok(Front::Unfinished(look)),
        Found::TooLong(_) => Ok(Front::Refused),
        Found::Whole(size) => read_whole(alloc, &bytes[..size]),
    }
}

/// Reads a head to the end of these bytes, where it ends.
fn read_whole(alloc: Global, text: &[u8]) -> Result<Front, NoMemory>
    requires { found of_head text.now ≡ finds.Whole (length text.now) }
    ensures { IfOk result (ReadsTo text.now) }
{
    let skipped = blanks(text);
    let Some(head) = read_request(alloc, &text[skipped..])? else {
        return Ok(Front::Refused);
    };
    match length_of(MOST_BODY_BYTES, &head) {
        Ok(body) => Ok(Front::Whole(ReadHead::new(head, body, skipped, text))),
        Err(_) => Ok(Front::Refused),
    }
}
