//! The depth of a request (RFC 4918 section 10.2), and whether it may overwrite (section 10.6).

ghost use Rattle.std.specs.Prelude.{◌≡◌, option_copied};
ghost use Rattle.ocm_dav.specs.Depths as depths;

use crate::fields::{are_bytes, is_word};

/// How far below its target a request reaches.
#[derive(Clone, Copy)]
pub(crate) enum Depth {
    /// To the target alone.
    Zero,
    /// To what lies in the target.
    One,
    /// To all that lies below the target.
    Infinity,
}

/// The depth that the value of a `depth` field tells: `infinity` where there is none. None for a
/// value that tells no depth.
pub(crate) fn depth_of(value: Option<&[u8]>) -> Option<Depth>
    ensures { result ≡ depths.depth_of (option_copied value.entry) }
{
    match value {
        None => Some(Depth::Infinity),
        Some(word) => told_depth(word),
    }
}

fn told_depth(word: &[u8]) -> Option<Depth>
    ensures { result ≡ depths.told_depth word.now }
{
    if are_bytes(word, b"0") {
        Some(Depth::Zero)
    } else if are_bytes(word, b"1") {
        Some(Depth::One)
    } else if is_word(word, "infinity") {
        Some(Depth::Infinity)
    } else {
        None
    }
}

/// Whether what stands at the destination may be overwritten, by the value of an `overwrite` field:
/// it may where there is none. None for a value that is neither `T` nor `F`.
pub(crate) fn overwrite_of(value: Option<&[u8]>) -> Option<bool>
    ensures { result ≡ depths.overwrite_of (option_copied value.entry) }
{
    match value {
        None => Some(true),
        Some(word) => told_overwrite(word),
    }
}

fn told_overwrite(word: &[u8]) -> Option<bool>
    ensures { result ≡ depths.told_overwrite word.now }
{
    if are_bytes(word, b"T") {
        Some(true)
    } else if are_bytes(word, b"F") {
        Some(false)
    } else {
        None
    }
}
