ghost use Rattle.std.specs.Prelude.{◌≡◌, ◌≢◌, Ok, Err, IfOk, IfErr};
ghost use Rattle.std.specs.List.{slice_split};
ghost use Rattle.ocm_path.specs.Paths.{is_slash, segment_of, segments_of, without_last_slash};
ghost use Rattle.ocm_path.specs.PathTexts.{if_segment, if_segments};

use crate::escapes::{are_escapes, decoded_text};
use crate::faults::PathFault;
use crate::segments::text_fault;
use ocm_texts::{List, NoMemory, Text};
use std::alloc::Global;
use std::str;

/// The segment that an escaped segment spells.
fn read_segment(alloc: Global, piece: &[u8]) -> Result<Text, PathFault>
    ensures ok { IfOk result (λ text. segment_of piece.now ≡ Ok text) }
    ensures err { IfErr result (λ fault. fault ≢ PathFault.NoMemory → segment_of piece.now ≡ Err fault) }
{
    if !are_escapes(piece) {
        return Err(PathFault::BadEscape);
    }
    let text = decoded_text(alloc, piece)?;
    match text_fault(text.as_str().as_bytes()) {
        Some(fault) => Err(fault),
        None => Ok(text),
    }
}

/// The segments that are between `/`, from the left up to the first fault.
pub fn read_segments(alloc: Global, pieces: &[u8]) -> Result<List<Text>, PathFault>
    ensures ok { IfOk result (λ segments. segments_of (slice_split is_slash pieces.now) ≡ Ok segments) }
    ensures err { IfErr result (λ fault. fault ≢ PathFault.NoMemory → segments_of (slice_split is_slash pieces.now) ≡ Err fault) }
{
    let mut segments = List::new(alloc);
    for piece in pieces.split(|byte| *byte == b'/') {
        segments.push(read_segment(alloc, piece)?)?;
    }
    Ok(segments)
}

/// The segment that the bytes are as they stand, if they are one.
fn own_segment(alloc: Global, piece: &[u8]) -> Result<Option<Text>, NoMemory>
    ensures { IfOk result (λ text. text ≡ if_segment piece.now) }
{
    match str::from_utf8(piece) {
        Ok(text) => match text_fault(piece) {
            Some(_) => Ok(None),
            None => Ok(Some(Text::of(alloc, text)?)),
        },
        Err(_) => Ok(None),
    }
}

/// The pieces between `/` as they stand, if each is a segment.
pub fn own_segments(alloc: Global, pieces: &[u8]) -> Result<Option<List<Text>>, NoMemory>
    ensures { IfOk result (λ segments. segments ≡ if_segments (slice_split is_slash pieces.now)) }
{
    let mut segments = List::new(alloc);
    for piece in pieces.split(|byte| *byte == b'/') {
        match own_segment(alloc, piece)? {
            Some(segment) => segments.push(segment)?,
            None => {
                drop(segments);
                return Ok(None);
            }
        }
    }
    Ok(Some(segments))
}

/// The text without the one `/` at its end, if it has one.
pub fn without_last_slash(text: &[u8]) -> &[u8]
    ensures { result.now ≡ without_last_slash text.now }
{
    match text {
        [front @ .., b'/'] => front,
        _ => text,
    }
}
