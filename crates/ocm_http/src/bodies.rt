ghost use Rattle.std.specs.Prelude.{◌≡◌, ◌<◌, length, IfOk, IfErr};
ghost use Rattle.ocm_http.specs.Stages.{Stands, Feeds, Faults};

use crate::messages::{FrameFault, Message};
use crate::stages::{Fed, Rules, Stage, with_more};

/// Reads on in a body of which so many bytes are wanted.
pub(crate) fn feed_sized(
    rules: Rules,
    message: Message,
    wanted: u64,
    piece: &[u8],
) -> Result<Fed, FrameFault>
    requires some { 0 < length piece.now }
    requires stands { Stands rules (Stage.Sized message wanted) }
    ensures fed { IfOk result (Feeds rules (Stage.Sized message wanted) piece.now) }
    ensures fault { IfErr result (Faults rules (Stage.Sized message wanted) piece.now) }
{
    let len = piece.len() as u64;
    if len < wanted {
        let message = with_more(message, piece)?;
        return Ok(Fed::More(
            Stage::Sized {
                message,
                wanted: wanted - len,
            },
            piece.len(),
        ));
    }
    let n = wanted as usize;
    let message = with_more(message, &piece[..n])?;
    Ok(Fed::Whole(message, n))
}

/// Reads on in a body that ends with the input.
pub(crate) fn feed_to_end(
    rules: Rules,
    message: Message,
    first: u64,
    piece: &[u8],
) -> Result<Fed, FrameFault>
    requires some { 0 < length piece.now }
    requires stands { Stands rules (Stage.ToEnd message first) }
    ensures fed { IfOk result (Feeds rules (Stage.ToEnd message first) piece.now) }
    ensures fault { IfErr result (Faults rules (Stage.ToEnd message first) piece.now) }
{
    if piece.len() as u64 > rules.max - message.body.len() as u64 {
        return Err(FrameFault::BodyTooLong(first));
    }
    let message = with_more(message, piece)?;
    Ok(Fed::More(Stage::ToEnd { message, first }, piece.len()))
}
