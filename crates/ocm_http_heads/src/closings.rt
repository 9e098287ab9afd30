ghost use Rattle.std.specs.Prelude.{◌≡◌, map, codes};
ghost use Rattle.std.specs.List.{list_any, list_all, slice_split};
ghost use Rattle.std.specs.Char.{to_ascii_lowercase};
ghost use Rattle.httparse.specs.Grammar as grammar;
ghost use Rattle.ocm_http_heads.specs.Heads as heads;

use crate::fields::Field;

fn is_ows(byte: u8) -> bool
    ensures { result ≡ grammar.is_ows byte }
{
    byte == b' ' || byte == b'\t'
}

/// Whether all bytes are blanks of a field (RFC 9110 section 5.6.3).
pub fn are_ows(bytes: &[u8]) -> bool
    ensures { result ≡ list_all grammar.is_ows bytes.now }
{
    bytes.iter().all(|byte| is_ows(*byte))
}

/// The bytes from the first on that is no blank of a field.
pub fn skip_ows(bytes: &[u8]) -> &[u8]
    ensures { result.now ≡ grammar.skip_ows bytes.now }
{
    let mut rest = bytes;
    while let [first, behind @ ..] = rest {
        if !is_ows(*first) {
            return rest;
        }
        rest = behind;
    }
    rest
}

fn is_close(part: &[u8]) -> bool
    ensures { result ≡ heads.is_close part.now }
{
    let word = skip_ows(part);
    let end = word.len().min(5);
    is_word(&word[..end], "close") && are_ows(&word[end..])
}

/// Whether a text is this word, in any case.
pub(crate) fn is_word(text: &[u8], word: &str) -> bool
    ensures { result ≡ heads.is_same (map to_ascii_lowercase text.now) (map to_ascii_lowercase word.now) }
{
    text.eq_ignore_ascii_case(word.as_bytes())
}

fn has_close(list: &[u8]) -> bool
    ensures { result ≡ list_any heads.is_close (slice_split heads.is_comma list.now) }
{
    list.split(|byte| *byte == b',').any(is_close)
}

fn closes(field: &Field) -> bool
    ensures { result ≡ heads.closes field.now }
{
    field.name.as_str() == "connection" && has_close(field.value.as_slice())
}

fn any_closes(fields: &[Field]) -> bool
    ensures { result ≡ list_any heads.closes fields.now }
{
    fields.iter().any(closes)
}

/// Whether a request of HTTP/1.`minor` with these fields closes its connection (RFC 9112 section 9.6).
pub(crate) fn is_closing(minor: u8, fields: &[Field]) -> bool
    ensures { result ≡ heads.is_closing minor fields.now }
{
    minor == 0 || any_closes(fields)
}
