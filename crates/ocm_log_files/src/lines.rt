//! What a file holds that has lines of a log.
ghost use Rattle.std.specs.Prelude.{◌≡◌, ◌++◌, ◌∷◌, Decides, MatchOption};
ghost use Rattle.ocm_log_files.specs.Fronts.{Follows, IsBegun, IsLogged, IsMethod, IsNumber, IsRead, Lacks};

use crate::descriptors::Descriptor;
use ocm_base::decimal_read;
use std::io;

/// How many bytes are read at once.
const PIECE: usize = 4096;

/// How many bytes the first three words of a line have at most, with the space behind each: two numbers below 2^64, and the
/// word of a read.
const FRONT: usize = 48;

/// Whether the first so many bytes of a file begin as a line of a log does. They may end in its first words: a line that was
/// cut is all that there is then.
pub(crate) fn begins_as_log(file: &Descriptor, len: u64) -> io::Result<bool> {
    let mut front = [0u8; FRONT];
    let count = len.min(FRONT as u64) as usize;
    file.read_at(&mut front[..count], 0)?;
    Ok(is_front_of_line(&front[..count]))
}

/// Whether bytes are a front of a place, a moment and the word of a read, each with a space behind it, and anything.
fn is_front_of_line(bytes: &[u8]) -> bool
    ensures { Decides result (IsBegun IsLogged bytes.now) }
{
    match next_word(bytes) {
        Some((place, rest)) => is_number(place) && is_front_of_moment(rest),
        None => is_front_of_number(bytes),
    }
}

/// Whether bytes are a front of what stands behind a place.
fn is_front_of_moment(bytes: &[u8]) -> bool
    ensures { Decides result (IsBegun (Follows IsNumber IsRead) bytes.now) }
{
    match next_word(bytes) {
        Some((moment, rest)) => is_number(moment) && is_front_of_read(rest),
        None => is_front_of_number(bytes),
    }
}

/// Whether bytes are a front of what stands behind a moment.
fn is_front_of_read(bytes: &[u8]) -> bool
    ensures { Decides result (IsBegun IsRead bytes.now) }
{
    match next_word(bytes) {
        Some((method, _)) => is_method(method),
        None => is_front_of_method(bytes),
    }
}

/// What stands before the first space, and what follows it. None where there is no space.
fn next_word(bytes: &[u8]) -> Option<(&[u8], &[u8])>
    ensures { MatchOption result
        (Lacks 32 bytes.now)
        (λ parts. Lacks 32 parts.0.now × (bytes.now ≡ parts.0.now ++ 32 ∷ parts.1.now)) }
{
    match bytes.iter().position(|byte| *byte == b' ') {
        Some(place) => Some((&bytes[..place], &bytes[place + 1..])),
        None => None,
    }
}

/// Whether a word is a number below 2^64 in decimals.
fn is_number(word: &[u8]) -> bool
    ensures { Decides result (IsNumber word.now) }
{
    match str::from_utf8(word) {
        Ok(text) => decimal_read(text).is_some(),
        Err(_) => false,
    }
}

/// Whether bytes are a front of a number.
fn is_front_of_number(bytes: &[u8]) -> bool
    ensures { Decides result (IsBegun IsNumber bytes.now) }
{
    bytes.is_empty() || is_number(bytes)
}

/// Whether a word is that of a read.
fn is_method(word: &[u8]) -> bool
    ensures { Decides result (IsMethod word.now) }
{
    is_word(word, b"get")
        || is_word(word, b"head")
        || is_word(word, b"list0")
        || is_word(word, b"list1")
}

/// Whether two words are the same.
fn is_word(word: &[u8], other: &[u8]) -> bool
    ensures { Decides result (word.now ≡ other.now) }
{
    word == other
}

/// Whether bytes are a front of the word of a read.
fn is_front_of_method(bytes: &[u8]) -> bool
    ensures { Decides result (IsBegun IsMethod bytes.now) }
{
    is_front(bytes, b"get")
        || is_front(bytes, b"head")
        || is_front(bytes, b"list0")
        || is_front(bytes, b"list1")
}

/// Whether bytes are a front of a word.
fn is_front(bytes: &[u8], word: &[u8]) -> bool
    ensures { Decides result (IsBegun (λ w. w ≡ word.now) bytes.now) }
{
    word.starts_with(bytes)
}

/// Whether two files have as many bytes, and the same 4,096 at their ends.
pub(crate) fn end_alike(file: &Descriptor, other: &Descriptor) -> io::Result<bool> {
    let len = file.len()?;
    if other.len()? != len {
        return Ok(false);
    }
    let count = len.min(PIECE as u64);
    let mut end = [0u8; PIECE];
    let mut other_end = [0u8; PIECE];
    file.read_at(&mut end[..count as usize], len - count)?;
    other.read_at(&mut other_end[..count as usize], len - count)?;
    Ok(end == other_end)
}

/// Cuts a file of so many bytes behind its last line end.
pub(crate) fn cut_to_lines(file: &Descriptor, len: u64) -> io::Result<()> {
    let end = lines_end(file, len)?;
    if end < len {
        file.cut(end)?;
    }
    Ok(())
}

/// The place behind the last line end of the first so many bytes of a file, or its front where there is none.
fn lines_end(file: &Descriptor, len: u64) -> io::Result<u64> {
    let mut piece = [0u8; PIECE];
    let mut end = len;
    while 0 < end {
        let count = end.min(PIECE as u64);
        let place = end - count;
        file.read_at(&mut piece[..count as usize], place)?;
        if let Some(at) = piece[..count as usize]
            .iter()
            .rposition(|byte| *byte == b'\n')
        {
            return Ok(place + at as u64 + 1);
        }
        end = place;
    }
    Ok(0)
}
