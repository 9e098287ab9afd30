//! A line of a transcript, and the numbers and texts that lines are made of.

ghost use Rattle.std.specs.Prelude.{◌≡◌, [], ◌∷◌, ◌++◌, IfOk, OnOk, string_bytes};
ghost use Rattle.std.specs.Fmt.{decimal};
ghost use Rattle.ocm_path.specs.Escapes.{escape};
ghost use Rattle.ocm_transcript.specs.Texts as texts;

use ocm_base::{Bytes, NoMemory};
use percent_encoding::{AsciiSet, NON_ALPHANUMERIC, ascii_set, percent_encode};
use std::alloc::Global;

/// The bytes that are escaped, as in a segment of a path: all but ASCII letters, digits, `-`, `.`,
/// `_` and `~` (RFC 3986 section 2.3).
const ESCAPED: AsciiSet = ascii_set!(
    NON_ALPHANUMERIC
        .remove(b'-')
        .remove(b'.')
        .remove(b'_')
        .remove(b'~')
);

/// A text with its bytes escaped.
fn escaped(alloc: Global, plain: &str) -> Result<String, NoMemory>
    ensures { IfOk result (λ text. string_bytes text ≡ escape plain.now) }
{
    let mut text = String::new(alloc);
    percent_encode(plain.as_bytes(), ESCAPED).append_to(&mut text)?;
    Ok(text)
}

/// Adds a text with its bytes escaped.
pub fn add_escaped(alloc: Global, text: &mut Bytes, plain: &str) -> Result<(), NoMemory>
    ensures { OnOk result (text.new ≡ text.old ++ escape plain.now) }
{
    let escaped = escaped(alloc, plain)?;
    text.add(escaped.as_bytes())?;
    Ok(())
}

/// Adds a number in decimal digits.
pub fn add_number(alloc: Global, text: &mut Bytes, number: u64) -> Result<(), NoMemory>
    ensures { OnOk result (text.new ≡ text.old ++ decimal number) }
{
    let digits = number.to_string(alloc)?;
    text.add(digits.as_bytes())?;
    Ok(())
}

/// What a line begins with: the number of the script's line, and a space.
pub fn line_start(alloc: Global, number: u32) -> Result<Bytes, NoMemory>
    ensures { IfOk result (λ line. line ≡ decimal number ++ 32 ∷ []) }
{
    let digits = number.to_string(alloc)?;
    let mut line = Bytes::of(alloc, digits.as_bytes())?;
    line.add(b" ")?;
    Ok(line)
}

/// A line of a transcript: the number of the script's line, and a text.
pub fn line_text(alloc: Global, number: u32, text: &[u8]) -> Result<Bytes, NoMemory>
    ensures { IfOk result (λ line. line ≡ texts.line_text number text.now) }
{
    let mut line = line_start(alloc, number)?;
    line.add(text)?;
    line.add(b"\n")?;
    Ok(line)
}
