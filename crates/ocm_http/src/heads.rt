ghost use Rattle.std.specs.Prelude.{◌≡◌, ◌<◌, ◌≤◌, length, if◌then◌else◌, IfOk, IfErr};
ghost use Rattle.ocm_limits.specs.Limits.{most_head_lines};
ghost use Rattle.ocm_http_heads.specs.Endings as ends;
ghost use Rattle.ocm_http.specs.Places as places;
ghost use Rattle.ocm_http.specs.Messages as messages;
ghost use Rattle.ocm_http.specs.Frames.{Bodied, Refused};
ghost use Rattle.ocm_http.specs.Stages.{Stands, Feeds, Faults, Begins, BeginsBody, HeadedBy, IsWithin};

use crate::messages::{FrameFault, Kind, Message};
use crate::stages::{Begun, Fed, Rules, Stage, past};
use ocm_base::{Bytes, NoMemory};
use ocm_http_heads::{
    Found, Head, Length, LengthFault, Look, blanks, length_of_reply, length_of_request, read_reply,
    read_request,
};
use std::alloc::Global;

fn read_head(alloc: Global, kind: Kind, text: &[u8]) -> Result<Option<Head>, NoMemory>
    requires { ends.lines text.now ≤ most_head_lines }
    ensures { IfOk result (messages.SaysHead kind text.now) }
{
    match kind {
        Kind::Requests => read_request(alloc, text),
        Kind::Replies => read_reply(alloc, text),
    }
}

/// The length of the body that a head tells, at most `max` bytes.
pub(crate) fn length_of(max: u64, head: &Head) -> Result<Length, LengthFault>
    ensures length { result ≡ messages.length_of max head.now }
    ensures within { IfOk result (IsWithin max) }
{
    match head {
        Head::Request { fields, .. } => length_of_request(max, fields.as_slice()),
        Head::Reply { status, fields } => length_of_reply(max, *status, fields.as_slice()),
    }
}

fn length_fault(fault: LengthFault, place: u64) -> FrameFault
    ensures fault { result ≡ messages.length_fault fault place }
    ensures read { result ≡ FrameFault.ReadFault → ⊥ }
{
    match fault {
        LengthFault::BothLengths => FrameFault::BothLengths(place),
        LengthFault::BadLength => FrameFault::BadLength(place),
        LengthFault::BodyTooLong => FrameFault::BodyTooLong(place),
    }
}

/// The body that a head tells begins.
pub(crate) fn begin(
    alloc: Global,
    rules: Rules,
    head: Head,
    length: Length,
    first: u64,
    next: u64,
) -> Begun
    requires { IsWithin rules.max length }
    ensures { BeginsBody rules head length first next result }
{
    let message = Message {
        head,
        body: Bytes::new(alloc),
    };
    match length {
        Length::Sized(0) => Begun::All(message),
        Length::Sized(wanted) => Begun::On(Stage::Sized { message, wanted }),
        Length::ToEnd => Begun::On(Stage::ToEnd { message, first }),
        Length::Chunked => Begun::On(Stage::Line {
            message,
            place: next,
            line: Bytes::new(alloc),
        }),
    }
}

/// Reads a whole head, with the CR and LF before it.
fn begin_after(alloc: Global, rules: Rules, text: &[u8]) -> Result<Begun, FrameFault>
    requires { ends.lines text.now ≤ most_head_lines }
    ensures begun { IfOk result (Begins rules text.now) }
    ensures fault { IfErr result (λ f. ((f ≡ FrameFault.NoMemory) → ⊥) → (bytes : _) (ended : _) → HeadedBy rules text.now bytes ended (Refused f)) }
    ensures of_bytes { IfErr result (λ f. (f ≡ FrameFault.ReadFault) → ⊥) }
{
    let skipped = blanks(text);
    let first = past(rules.place, skipped);
    let next = past(rules.place, text.len());
    let Some(head) = read_head(alloc, rules.kind, &text[skipped..])? else {
        return Err(FrameFault::BadHead(first));
    };
    match length_of(rules.max, &head) {
        Ok(length) => Ok(begin(alloc, rules, head, length, first, next)),
        Err(fault) => Err(length_fault(fault, first)),
    }
}

/// The place of a head that is too long: of its first byte that is neither CR nor LF, where there is one.
fn long_place(rules: Rules, text: &[u8], bare: bool) -> u64
    ensures { result ≡ (if bare then places.past rules.place 0 else places.past rules.place (ends.blanks text.now)) }
{
    if bare {
        past(rules.place, 0)
    } else {
        past(rules.place, blanks(text))
    }
}

/// Reads on in a head.
pub(crate) fn feed_head(
    alloc: Global,
    rules: Rules,
    mut text: Bytes,
    mut look: Look,
    piece: &[u8],
) -> Result<Fed, FrameFault>
    requires some { 0 < length piece.now }
    requires stands { Stands rules (Stage.Head text look) }
    ensures fed { IfOk result (Feeds rules (Stage.Head text look) piece.now) }
    ensures fault { IfErr result (Faults rules (Stage.Head text look) piece.now) }
{
    match look.look(piece) {
        Found::Unfinished => {
            text.add(piece)?;
            Ok(Fed::More(Stage::Head { text, look }, piece.len()))
        }
        Found::TooLong(bare) => {
            text.add(piece)?;
            Err(FrameFault::HeadTooLong(long_place(rules, text.as_slice(), bare)))
        }
        Found::Whole(n) => {
            text.add(&piece[..n])?;
            match begin_after(alloc, rules, text.as_slice()) {
                Ok(Begun::On(stage)) => Ok(Fed::More(stage, n)),
                Ok(Begun::All(message)) => Ok(Fed::Whole(message, n)),
                Err(fault) => Err(fault),
            }
        }
    }
}
