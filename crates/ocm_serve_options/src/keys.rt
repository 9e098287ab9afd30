//! The administrator's key, as a file holds it.

ghost use Rattle.std.specs.Prelude.{◌≡◌, Err, IfSome};
ghost use Rattle.ocm_base.specs.Outside.{Rose};
ghost use Rattle.ocm_types.specs.Texts.{secret_of};
ghost use Rattle.ocm_serve_options.specs.Keys as keys;
ghost use Rattle.ocm_serve_options.specs.Keys.{Gives, key_in, key_of};

use ocm_base::{ReadEnd, Source, read_whole};
use ocm_types::{Secret, TextFault};
use std::alloc::Global;

/// The most bytes of a file that holds a key.
const MOST_KEY_BYTES: u64 = 4_096;

/// Why a file gives no key.
#[derive(Clone, Copy, Debug, PartialEq, Eq)]
pub enum KeyFault {
    /// The file cannot be read.
    ReadFault,
    /// What it holds is no key, or it has more than 4,096 bytes.
    NoKey,
    /// There was no memory.
    NoMemory,
}

/// Reads the administrator's key from a file: all its bytes, less one line end (LF or CR LF) at their end.
pub fn read_key<S: Source>(alloc: Global, source: &mut S) -> Result<Secret, KeyFault>
    ensures key { IfSome (S.left source.old) (λ bytes. Gives result (key_in bytes)) }
    ensures read_fault { result ≡ Err KeyFault.ReadFault → Rose (S.faults source.old) (S.faults source.new) }
{
    match read_whole(alloc, source, MOST_KEY_BYTES) {
        Ok(bytes) => key_at(alloc, without_line_end(bytes.as_slice())),
        Err(ReadEnd::ReadFault) => Err(KeyFault::ReadFault),
        Err(ReadEnd::TooLong) => Err(KeyFault::NoKey),
        Err(ReadEnd::NoMemory) => Err(KeyFault::NoMemory),
    }
}

/// The bytes without one line end at their end.
fn without_line_end(bytes: &[u8]) -> &[u8]
    ensures { result.now ≡ keys.without_line_end bytes.now }
{
    match bytes {
        [line @ .., b'\n'] => without_return(line),
        _ => bytes,
    }
}

/// A line without a CR at its end.
fn without_return(line: &[u8]) -> &[u8]
    ensures { result.now ≡ keys.without_return line.now }
{
    match line {
        [text @ .., b'\r'] => text,
        _ => line,
    }
}

/// The key that these bytes are.
fn key_at(alloc: Global, text: &[u8]) -> Result<Secret, KeyFault>
    ensures key { Gives result (key_of text.now) }
    ensures no_read { result ≡ Err KeyFault.ReadFault → ⊥ }
{
    match str::from_utf8(text) {
        Ok(text) => secret_at(alloc, text),
        Err(_) => Err(KeyFault::NoKey),
    }
}

/// The key that a text is.
fn secret_at(alloc: Global, text: &str) -> Result<Secret, KeyFault>
    ensures key { Gives result (secret_of text.now) }
    ensures no_read { result ≡ Err KeyFault.ReadFault → ⊥ }
{
    match Secret::read(alloc, text) {
        Ok(key) => Ok(key),
        Err(TextFault::NoMemory) => Err(KeyFault::NoMemory),
        Err(_) => Err(KeyFault::NoKey),
    }
}
