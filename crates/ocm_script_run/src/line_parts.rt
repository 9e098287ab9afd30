//! Texts and lines of a transcript that are made of parts.
ghost use Rattle.std.specs.Prelude.{◌≡◌, ◌++◌, IfOk, OnOk};
ghost use Rattle.ocm_transcript.specs.Texts as texts;

use ocm_base::{Bytes, NoMemory, and};
use ocm_transcript::line_text;
use std::alloc::Global;

/// A text, and behind it more bytes.
fn with(front: Bytes, back: &[u8]) -> Result<Bytes, NoMemory>
    ensures { IfOk result (λ text. text ≡ front ++ back.now) }
{
    let mut text = front;
    let added = text.add(back);
    let (text, ()) = and(text, added)?;
    Ok(text)
}

/// A text, and behind it another, which is let go.
pub fn append(front: Bytes, back: Bytes) -> Result<Bytes, NoMemory>
    ensures { IfOk result (λ text. text ≡ front ++ back) }
{
    let text = with(front, back.as_slice());
    drop(back);
    text
}

/// Adds a text, which is let go, behind another.
pub fn add(front: &mut Bytes, back: Bytes) -> Result<(), NoMemory>
    ensures { OnOk result (front.new ≡ front.old ++ back) }
{
    let added = front.add(back.as_slice());
    drop(back);
    added
}

/// A text of two parts.
pub fn joined(alloc: Global, front: &[u8], back: &[u8]) -> Result<Bytes, NoMemory>
    ensures { IfOk result (λ text. text ≡ front.now ++ back.now) }
{
    with(Bytes::of(alloc, front)?, back)
}

/// The line of a text, which is let go.
pub fn line_of(alloc: Global, line: u32, text: Bytes) -> Result<Bytes, NoMemory>
    ensures { IfOk result (λ made. made ≡ texts.line_text line text) }
{
    let made = line_text(alloc, line, text.as_slice());
    drop(text);
    made
}

/// The line of a text of two parts.
pub fn joined_line(alloc: Global, line: u32, front: &[u8], back: &[u8]) -> Result<Bytes, NoMemory>
    ensures { IfOk result (λ made. made ≡ texts.line_text line (front.now ++ back.now)) }
{
    line_of(alloc, line, joined(alloc, front, back)?)
}
