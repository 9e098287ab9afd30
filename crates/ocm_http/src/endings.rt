ghost use Rattle.std.specs.Prelude.{◌≡◌, [], false, true, IfOk, IfErr, None};
ghost use Rattle.ocm_http.specs.Frames as frames;
ghost use Rattle.ocm_http.specs.Stages.{Stands, Ends, Rest};

use crate::messages::{FrameFault, Message};
use crate::stages::{Rules, Stage};
use ocm_http_heads::blanks;

fn is_bare(bytes: &[u8]) -> bool
    ensures { result ≡ frames.is_bare bytes.now }
{
    blanks(bytes) == bytes.len()
}

/// What the end of input makes of a head that isn't whole.
fn end_of_head(text: &[u8]) -> Result<Option<Message>, FrameFault>
    ensures over { IfOk result (λ o. (o ≡ None) × (frames.is_bare text.now ≡ true)) }
    ensures cut { IfErr result (λ f. (f ≡ FrameFault.Cut) × (frames.is_bare text.now ≡ false)) }
{
    if is_bare(text) {
        Ok(None)
    } else {
        Err(FrameFault::Cut)
    }
}

/// What the end of input makes of a message that is being read: a message that ends with it, or nothing where the
/// message had not begun, or a cut one.
pub(crate) fn end(rules: Rules, stage: Stage) -> Result<Option<Message>, FrameFault>
    requires { Stands rules stage }
    ensures ended { IfOk result (Ends rules stage) }
    ensures cut { IfErr result (λ f. f ≡ FrameFault.Cut) }
    ensures fault { IfErr result (λ f. Rest rules stage [] true (frames.Refused f)) }
{
    match stage {
        Stage::Head { text, look: _ } => end_of_head(text.as_slice()),
        Stage::ToEnd { message, first: _ } => Ok(Some(message)),
        begun => {
            drop(begun);
            Err(FrameFault::Cut)
        }
    }
}
