ghost use Rattle.std.specs.Prelude.{◌≡◌, ◌↔◌, IfOk, IsErrOf, IsTrue, false};
ghost use Rattle.std.specs.List.{list_all};
ghost use Rattle.ocm_types.specs.Texts as texts;

use ocm_texts::Text;
use std::alloc::Global;

/// Why a text is no value of its type.
#[derive(Clone, Copy, Debug, PartialEq, Eq)]
pub enum TextFault {
    /// It has too few or too many bytes.
    Length,
    /// It has the right number of bytes, and one that its type forbids.
    Char,
    /// There was no memory for the value.
    NoMemory,
}

/// Whether a text may have this byte: no control character, and not the excluded byte.
fn is_allowed(excluded: Option<u8>, b: u8) -> bool
    ensures { result ≡ texts.is_allowed excluded b }
{
    match excluded {
        Some(x) => !b.is_ascii_control() && b != x,
        None => !b.is_ascii_control(),
    }
}

fn are_allowed(excluded: Option<u8>, s: &[u8]) -> bool
    ensures { result ≡ list_all (texts.is_allowed excluded) s.now }
{
    s.iter().all(|b| is_allowed(excluded, *b))
}

/// Whether there are at least `low` bytes and at most `high`.
pub fn has_length(low: usize, high: usize, s: &[u8]) -> bool
    ensures { result ≡ texts.has_length low high s.now }
{
    low <= s.len() && s.len() <= high
}

/// The text, where it has 1 to `high` bytes, none a control character and none the excluded byte.
pub fn checked_text(
    alloc: Global,
    s: &str,
    high: usize,
    excluded: Option<u8>,
) -> Result<Text, TextFault>
    ensures ok { IfOk result (λ text. text ≡ s.now) }
    ensures is { IfOk result (λ text. IsTrue (texts.is_text high excluded text)) }
    ensures length { IsErrOf result TextFault.Length ↔ (texts.has_length 1 high s.now ≡ false) }
    ensures char { IsErrOf result TextFault.Char
        ↔ (IsTrue (texts.has_length 1 high s.now) × (texts.is_text high excluded s.now ≡ false)) }
{
    if !has_length(1, high, s.as_bytes()) {
        return Err(TextFault::Length);
    }
    if !are_allowed(excluded, s.as_bytes()) {
        return Err(TextFault::Char);
    }
    Text::of(alloc, s).map_err(|_no_memory| TextFault::NoMemory)
}
