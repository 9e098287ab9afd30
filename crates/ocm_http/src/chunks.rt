ghost use Rattle.std.specs.Prelude.{◌≡◌, ◌<◌, ◌≤◌, length, IfOk, IfErr};
ghost use Rattle.ocm_http.specs.Messages.{more_of};
ghost use Rattle.ocm_http.specs.Frames.{IsLine, Chunks, Refused};
ghost use Rattle.ocm_http.specs.Stages.{Stands, Feeds, Faults, GoesFrom};

use crate::messages::{FrameFault, Message};
use crate::stages::{Fed, Rules, Stage, past, with_more};
use ocm_base::Bytes;
use ocm_http_heads::{ChunkLine, Found, Look, read_chunk_line};
use std::alloc::Global;

/// How many bytes a chunk line has at most, its CR LF among them.
const LINE: usize = 256;

/// What follows a chunk line of so many bytes that gives this size.
fn after_line(
    rules: Rules,
    message: Message,
    place: u64,
    len: usize,
    size: u64,
) -> Result<Stage, FrameFault>
    requires body { length message.body ≤ rules.max }
    requires len { len ≤ 256 }
    ensures stage { IfOk result (GoesFrom rules place len message size) }
    ensures fault { IfErr result (λ f. (bytes : _) (ended : _) → IsLine bytes len size → Chunks rules.max place message bytes ended (Refused f)) }
    ensures of_bytes { IfErr result (λ f. (f ≡ FrameFault.ReadFault) → ⊥) }
{
    if size > rules.max - message.body.len() as u64 {
        return Err(FrameFault::BodyTooLong(place));
    }
    let place = past(place, len);
    if size == 0 {
        return Ok(Stage::Trailers {
            message,
            place,
            look: Look::of_trailers(),
        });
    }
    Ok(Stage::Data {
        message,
        place,
        wanted: size,
    })
}

/// Reads on in a chunk line.
pub(crate) fn feed_line(
    rules: Rules,
    message: Message,
    place: u64,
    mut line: Bytes,
    piece: &[u8],
) -> Result<Fed, FrameFault>
    requires some { 0 < length piece.now }
    requires stands { Stands rules (Stage.Line message place line) }
    ensures fed { IfOk result (Feeds rules (Stage.Line message place line) piece.now) }
    ensures fault { IfErr result (Faults rules (Stage.Line message place line) piece.now) }
{
    let before = line.len();
    if before == LINE {
        return Err(FrameFault::BadChunk(place));
    }
    let taken = piece.len().min(LINE - before);
    line.add(&piece[..taken])?;
    match read_chunk_line(line.as_slice()) {
        ChunkLine::Refused => Err(FrameFault::BadChunk(place)),
        ChunkLine::Unfinished => Ok(Fed::More(
            Stage::Line {
                message,
                place,
                line,
            },
            taken,
        )),
        ChunkLine::Line(len, size) => {
            match after_line(rules, message, place, len, size) {
                Ok(stage) => Ok(Fed::More(stage, len - before)),
                Err(fault) => Err(fault),
            }
        }
    }
}

/// Reads on in a chunk's data.
pub(crate) fn feed_data(
    rules: Rules,
    message: Message,
    place: u64,
    wanted: u64,
    piece: &[u8],
) -> Result<Fed, FrameFault>
    requires some { 0 < length piece.now }
    requires stands { Stands rules (Stage.Data message place wanted) }
    ensures fed { IfOk result (Feeds rules (Stage.Data message place wanted) piece.now) }
    ensures fault { IfErr result (Faults rules (Stage.Data message place wanted) piece.now) }
{
    let len = piece.len() as u64;
    if len < wanted {
        let message = with_more(message, piece)?;
        return Ok(Fed::More(
            Stage::Data {
                message,
                place: past(place, piece.len()),
                wanted: wanted - len,
            },
            piece.len(),
        ));
    }
    let n = wanted as usize;
    let message = with_more(message, &piece[..n])?;
    Ok(Fed::More(
        Stage::Break {
            message,
            place: past(place, n),
            returned: false,
        },
        n,
    ))
}

/// Reads the CR or the LF after a chunk's data.
pub(crate) fn feed_break(
    alloc: Global,
    rules: Rules,
    message: Message,
    place: u64,
    returned: bool,
    piece: &[u8],
) -> Result<Fed, FrameFault>
    requires some { 0 < length piece.now }
    requires stands { Stands rules (Stage.Break message place returned) }
    ensures fed { IfOk result (Feeds rules (Stage.Break message place returned) piece.now) }
    ensures fault { IfErr result (Faults rules (Stage.Break message place returned) piece.now) }
{
    if returned {
        if piece[0] != b'\n' {
            return Err(FrameFault::BadChunk(place));
        }
        return Ok(Fed::More(
            Stage::Line {
                message,
                place: past(place, 2),
                line: Bytes::new(alloc),
            },
            1,
        ));
    }
    if piece[0] != b'\r' {
        return Err(FrameFault::BadChunk(place));
    }
    Ok(Fed::More(
        Stage::Break {
            message,
            place,
            returned: true,
        },
        1,
    ))
}

/// Reads on in trailers.
pub(crate) fn feed_trailers(
    rules: Rules,
    message: Message,
    place: u64,
    mut look: Look,
    piece: &[u8],
) -> Result<Fed, FrameFault>
    requires some { 0 < length piece.now }
    requires stands { Stands rules (Stage.Trailers message place look) }
    ensures fed { IfOk result (Feeds rules (Stage.Trailers message place look) piece.now) }
    ensures fault { IfErr result (Faults rules (Stage.Trailers message place look) piece.now) }
{
    match look.look(piece) {
        Found::Unfinished => Ok(Fed::More(
            Stage::Trailers {
                message,
                place,
                look,
            },
            piece.len(),
        )),
        Found::TooLong(_) => Err(FrameFault::BadChunk(place)),
        Found::Whole(n) => Ok(Fed::Whole(message, n)),
    }
}
