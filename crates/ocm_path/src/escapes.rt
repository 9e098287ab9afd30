ghost use Rattle.std.specs.Prelude.{◌≡◌, ◌≢◌, ◌++◌, IfOk, IfErr, OnOk, OnErr, string_bytes, true, false};
ghost use Rattle.std.specs.Str.{is_utf8};
ghost use Rattle.percent_encoding.specs.Percent.{percent_decode};
ghost use Rattle.ocm_path.specs.Escapes.{escape, begins_with_digits, are_escapes};

use crate::faults::PathFault;
use ocm_texts::{NoMemory, Text};
use percent_encoding::{AsciiSet, NON_ALPHANUMERIC, ascii_set, percent_decode, percent_encode};
use std::alloc::Global;

/// The bytes that are escaped in a segment: all but ASCII letters, digits, `-`, `.`, `_` and `~`
/// (RFC 3986 section 2.3).
pub const ESCAPED: AsciiSet = ascii_set!(
    NON_ALPHANUMERIC
        .remove(b'-')
        .remove(b'.')
        .remove(b'_')
        .remove(b'~')
);

/// Adds a segment to a text, percent-encoded (RFC 3986 section 2.1): all but ASCII letters, digits, `-`, `.`, `_` and `~`
/// (section 2.3), in upper-case digits.
pub fn add_escaped(text: &mut String, segment: &str) -> Result<(), NoMemory>
    ensures ok { OnOk result (string_bytes text.new ≡ string_bytes text.old ++ escape segment.now) }
    ensures err { OnErr result (string_bytes text.new ≡ string_bytes text.old) }
{
    percent_encode(segment.as_bytes(), ESCAPED).append_to(text)?;
    Ok(())
}

fn begins_with_digits(rest: &[u8]) -> bool
    ensures { result ≡ begins_with_digits rest.now }
{
    match rest {
        [high, low, ..] => high.is_ascii_hexdigit() && low.is_ascii_hexdigit(),
        _ => false,
    }
}

/// Whether two hexadecimal digits come after each `%`.
pub fn are_escapes(piece: &[u8]) -> bool
    ensures { result ≡ are_escapes piece.now }
{
    for (place, byte) in piece.iter().enumerate() {
        if *byte == b'%' && !begins_with_digits(&piece[place + 1..]) {
            return false;
        }
    }
    true
}

/// The text that an escaped segment spells.
pub fn decoded_text(alloc: Global, piece: &[u8]) -> Result<Text, PathFault>
    ensures ok { IfOk result (λ text. text ≡ percent_decode piece.now) }
    ensures utf8 { OnOk result (is_utf8 (percent_decode piece.now) ≡ true) }
    ensures fault { IfErr result (λ fault. fault ≢ PathFault.NoMemory → fault ≡ PathFault.NotText) }
    ensures not_utf8 { IfErr result (λ fault. fault ≢ PathFault.NoMemory → is_utf8 (percent_decode piece.now) ≡ false) }
{
    let mut bytes = Vec::new(alloc);
    percent_decode(piece).append_to(&mut bytes)?;
    match String::from_utf8(bytes) {
        Ok(text) => Ok(Text::from_string(text)),
        Err(_) => Err(PathFault::NotText),
    }
}
