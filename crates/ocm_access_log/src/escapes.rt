//! Texts as they are escaped in a line, and the texts that escapes spell.
ghost use Rattle.std.specs.Prelude.{◌≡◌, IfOk, string_bytes};
ghost use Rattle.percent_encoding.specs.Percent.{percent_decode};
ghost use Rattle.ocm_path.specs.Escapes.{escape};
ghost use Rattle.ocm_access_log.specs.Lines as lines;
ghost use Rattle.ocm_access_log.specs.Gives.{Gives};

use crate::faults::LineFault;
use ocm_base::{NoMemory, Text};
use percent_encoding::{AsciiSet, NON_ALPHANUMERIC, ascii_set, percent_decode, percent_encode};
use std::alloc::Global;

/// The bytes that are escaped, as in a segment of a path: all but ASCII letters, digits, `-`, `.`, `_` and `~` (RFC 3986
/// section 2.3).
const ESCAPED: AsciiSet = ascii_set!(
    NON_ALPHANUMERIC
        .remove(b'-')
        .remove(b'.')
        .remove(b'_')
        .remove(b'~')
);

/// A text with its bytes escaped.
pub fn escaped(alloc: Global, plain: &str) -> Result<String, NoMemory>
    ensures { IfOk result (λ text. string_bytes text ≡ escape plain.now) }
{
    let mut text = String::new(alloc);
    percent_encode(plain.as_bytes(), ESCAPED).append_to(&mut text)?;
    Ok(text)
}

/// The bytes that a word spells in escapes.
fn decoded_bytes(alloc: Global, word: &[u8]) -> Result<Vec<u8>, NoMemory>
    ensures { IfOk result (λ bytes. bytes.items ≡ percent_decode word.now) }
{
    let mut bytes = Vec::new(alloc);
    percent_decode(word).append_to(&mut bytes)?;
    Ok(bytes)
}

/// The text that a word spells in escapes.
pub fn decoded(alloc: Global, word: &[u8]) -> Result<Text, LineFault>
    ensures { Gives (λ text. text) result (lines.text_of (percent_decode word.now)) }
{
    let bytes = decoded_bytes(alloc, word)?;
    match String::from_utf8(bytes) {
        Ok(text) => Ok(Text::from_string(text)),
        Err(_) => Err(LineFault::Bad),
    }
}
