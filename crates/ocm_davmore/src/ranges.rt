//! The byte range of a GET.

ghost use Rattle.std.specs.Prelude.{◌≡◌, ◌≤◌, ◌<◌, ◌↔◌, ℕ, Some, IsTrue, IsNone, IfSome, option_copied, codes};
ghost use Rattle.ocm_types.specs.Hosts.{after_front, cut_at_first};
ghost use Rattle.ocm_davmore.specs.declared.ranges.Span as spans;
ghost use Rattle.ocm_davmore.specs.Ranges as ranges;
ghost use Rattle.ocm_davmore.specs.Ranges.{Selects, IsWritten};

use crate::numbers::number;

/// Which bytes of a file a range names. Places are counted from 0.
#[derive(Clone, Copy, Debug)]
pub enum Span {
    /// From the first place to the last, both with them.
    First(u64, u64),
    /// From a place to the end.
    From(u64),
    /// So many bytes at the end.
    Last(u64),
}

impl Span {
    /// The first and the last place that the span names in a file of this many bytes, cut at the
    /// file's end (RFC 9110 section 14.1.2). None where it begins behind the file, which is the
    /// status 416.
    pub fn within(&self, size: u64) -> Option<(u64, u64)>
        requires span { IsTrue (ranges.is_span self.now) }
        requires some { IsTrue (ranges.is_suffix self.now) → 0 < size }
        ensures value { result ≡ ranges.places_of self.now size }
        ensures none { IsNone result ↔ IsTrue (ranges.begins_behind self.now size) }
        ensures inside { IfSome result (λ places. (places.0 ≤ places.1) × (places.1 < size)) }
        ensures selected { IfSome result (λ places. (place : ℕ) → place < size
            → (((places.0 ≤ place) × (place ≤ places.1)) ↔ Selects self.now size place)) }
        ensures unsatisfiable { IsNone result
            ↔ ((place : ℕ) → place < size → ¬ Selects self.now size place) }
    {
        match *self {
            Span::First(first, last) if first < size => Some((first, last.min(size - 1))),
            Span::From(first) if first < size => Some((first, size - 1)),
            Span::Last(length) => Some((size.saturating_sub(length), size - 1)),
            _ => None,
        }
    }
}

/// Reads the value of a `Range` (RFC 9110 section 14.2): `bytes=` and then `a-b` with a at most b,
/// `a-`, or `-n` with n at least 1, each number of 1 to 19 digits. None for any other value, also
/// one of several ranges.
pub fn read_range(value: &[u8]) -> Option<Span>
    ensures value { result ≡ ranges.span_of value.now }
    ensures written { (span : spans.Span) → (result ≡ Some span) ↔ IsWritten span value.now }
    ensures none { IsNone result ↔ ((span : spans.Span) → ¬ IsWritten span value.now) }
    ensures sound { IfSome result (λ span. IsTrue (ranges.is_span span)) }
{
    let set = after_unit(value)?;
    let (first, last) = ends(set);
    span_around(first, last?)
}

/// What follows the unit.
fn after_unit(value: &[u8]) -> Option<&[u8]>
    ensures { option_copied result ≡ after_front (codes "bytes=") value.now }
{
    value.strip_prefix(b"bytes=")
}

/// What stands before the first `-`, and after it where there is one.
fn ends(set: &[u8]) -> (&[u8], Option<&[u8]>)
    ensures first { result.0.now ≡ (cut_at_first 45 set.now).0 }
    ensures last { option_copied result.1 ≡ (cut_at_first 45 set.now).1 }
{
    match set.iter().position(|byte| *byte == b'-') {
        Some(place) => (&set[..place], Some(&set[place + 1..])),
        None => (set, None),
    }
}

fn suffix(length: u64) -> Option<Span>
    ensures { result ≡ ranges.suffix_of length }
{
    if length == 0 {
        None
    } else {
        Some(Span::Last(length))
    }
}

fn between(first: u64, last: u64) -> Option<Span>
    ensures { result ≡ ranges.between first last }
{
    if first <= last {
        Some(Span::First(first, last))
    } else {
        None
    }
}

/// The span of what stands before the `-` and after it.
fn span_around(first: &[u8], last: &[u8]) -> Option<Span>
    ensures { result ≡ ranges.span_around first.now last.now }
{
    match (first, last) {
        ([], length) => suffix(number(length)?),
        (first, []) => Some(Span::From(number(first)?)),
        (first, last) => between(number(first)?, number(last)?),
    }
}
