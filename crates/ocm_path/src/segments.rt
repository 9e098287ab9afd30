ghost use Rattle.std.specs.Prelude.{◌≡◌, ◌++◌, ◌-◌, ◌^◌, min, length, drop, IfOk, OnOk, OnErr, string_bytes};
ghost use Rattle.std.specs.List.{list_any};
ghost use Rattle.std.specs.Cmp.Lexicographic.{pointwise};
ghost use Rattle.std.specs.Prelude.{nat_eq};
ghost use Rattle.ocm_path.specs.Paths.{is_barred, is_dots, text_fault, joined, joined_escaped};

use crate::escapes::add_escaped;
use crate::faults::PathFault;
use ocm_texts::{List, NoMemory, Text};
use std::alloc::Global;

fn is_barred(byte: u8) -> bool
    ensures { result ≡ is_barred byte }
{
    byte < 32 || byte == 127 || byte == b'/'
}

fn has_barred(segment: &[u8]) -> bool
    ensures { result ≡ list_any is_barred segment.now }
{
    segment.iter().any(|byte| is_barred(*byte))
}

fn is_same(segment: &[u8], word: &[u8]) -> bool
    ensures { result ≡ pointwise nat_eq segment.now word.now }
{
    segment == word
}

fn is_dots(segment: &[u8]) -> bool
    ensures { result ≡ is_dots segment.now }
{
    is_same(segment, b".") || is_same(segment, b"..")
}

/// The first fault of a segment that is a text.
pub fn text_fault(segment: &[u8]) -> Option<PathFault>
    ensures { result ≡ text_fault segment.now }
{
    if segment.is_empty() {
        Some(PathFault::EmptySegment)
    } else if is_dots(segment) {
        Some(PathFault::Dots)
    } else if has_barred(segment) {
        Some(PathFault::BadChar)
    } else if segment.len() > 255 {
        Some(PathFault::TooLong)
    } else {
        None
    }
}

/// Each segment after a `/`.
pub fn joined(alloc: Global, segments: &[Text]) -> Result<String, NoMemory>
    ensures { IfOk result (λ text. string_bytes text ≡ joined segments.now) }
{
    let mut text = String::new(alloc);
    for segment in segments {
        text.push('/')?;
        text.push_str(segment.as_str())?;
    }
    Ok(text)
}

/// Each segment, escaped, after a `/`.
pub fn joined_escaped(alloc: Global, segments: &[Text]) -> Result<String, NoMemory>
    ensures { IfOk result (λ text. string_bytes text ≡ joined_escaped segments.now) }
{
    let mut text = String::new(alloc);
    for segment in segments {
        text.push('/')?;
        add_escaped(&mut text, segment.as_str())?;
    }
    Ok(text)
}

/// How many bytes the segments have, each after a `/`, or the largest number where that is more.
pub fn joined_len(segments: &[Text]) -> usize
    ensures { result ≡ min (length (joined segments.now)) (2 ^ 64 - 1) }
{
    let mut len: usize = 0;
    for segment in segments {
        len = len.saturating_add(1).saturating_add(segment.as_str().len());
    }
    len
}

/// The segments behind the first so many.
pub fn behind(segments: &[Text], count: usize) -> &[Text]
    ensures { result.now ≡ drop count segments.now }
{
    &segments[count.min(segments.len())..]
}

/// Adds copies of segments to a list.
pub fn add_copies(segments: &mut List<Text>, more: &[Text]) -> Result<(), NoMemory>
    ensures { OnOk result (segments.new ≡ segments.old ++ more.now) }
{
    for segment in more {
        segments.push(segment.copy()?)?;
    }
    Ok(())
}
