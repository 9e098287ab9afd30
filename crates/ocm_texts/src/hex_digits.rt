ghost use Rattle.std.specs.Prelude.{◌≡◌, ℕ, ◌<◌, ◌*◌, ◌%◌, ◌+◌, ◌↔◌, ◌++◌, Some, IfOk, IsSome, MatchResult, length, true};
ghost use Rattle.ocm_texts.specs.Hex.{hex, unhex, hex_digit, hex_value, is_hex_byte, hex_text_of, first_not_hex, AreBytes};
ghost use Rattle.std.specs.List.{list_all};

use crate::byte_lists::Bytes;
use crate::failures::NoMemory;
use crate::text_lists::Text;
use std::alloc::Global;

/// Why a text is not the bytes of lower-case hexadecimal digits, in the order in which it is tried.
#[derive(Clone, Copy, Debug, PartialEq, Eq)]
pub enum HexFault {
    /// It has an odd number of bytes.
    Odd,
    /// The byte at this place, counted from 0, is the first that is no digit `0` to `9` or `a` to `f`.
    Digit(usize),
    /// There was no memory for the bytes.
    NoMemory,
}

fn hex_digit_of(n: u8) -> char
    requires { n < 16 }
    ensures digit { result ≡ hex_digit n }
    ensures ascii { result < 128 }
{
    if n < 10 {
        (b'0' + n) as char
    } else {
        (b'a' + (n - 10)) as char
    }
}

/// Two lower-case digits for each byte.
pub fn hex_of(alloc: Global, s: &[u8]) -> Result<Text, NoMemory>
    ensures text { IfOk result (λ t. t ≡ hex s.now) }
    ensures digits { IfOk result (λ t. list_all is_hex_byte t ≡ true) }
    ensures two_each { IfOk result (λ t. length t ≡ 2 * length s.now) }
    ensures reads_back { IfOk result (λ t. hex_text_of t ≡ Some s.now) }
{
    let mut held = String::with_capacity(alloc, s.len().saturating_mul(2))?;
    for b in s {
        held.push(hex_digit_of(b / 16))?;
        held.push(hex_digit_of(b % 16))?;
    }
    Ok(Text::from_string(held))
}

fn is_hex_digit(b: u8) -> bool
    ensures { result ≡ is_hex_byte b }
{
    b.is_ascii_digit() || (b'a' <= b && b <= b'f')
}

fn hex_value_of(b: u8) -> u8
    ensures value { result ≡ hex_value b }
    ensures small { result < 16 }
{
    if b <= b'9' {
        b.saturating_sub(b'0') % 16
    } else {
        b.saturating_sub(b'a' - 10) % 16
    }
}

fn first_other(digits: &[u8]) -> Option<usize>
    ensures { result ≡ first_not_hex digits.now }
{
    digits.iter().position(|b| !is_hex_digit(*b))
}

/// The bytes that the digits spell, two for each.
fn spelled(alloc: Global, digits: &[u8]) -> Result<Bytes, NoMemory>
    requires { length digits.now % 2 ≡ 0 }
    ensures { IfOk result (λ bytes. bytes ≡ unhex digits.now) }
{
    let mut held = Vec::with_capacity(alloc, digits.len() / 2)?;
    for i in 0..digits.len() / 2 {
        held.push(hex_value_of(digits[2 * i]) * 16 + hex_value_of(digits[2 * i + 1]))?;
    }
    Bytes::from_vec(held).shared()
}

/// The bytes that a text of lower-case hexadecimal digits spells, two digits for each.
pub fn hex_read(alloc: Global, s: &str) -> Result<Bytes, HexFault>
    ensures ok { IfOk result (λ bytes. hex_text_of s.now ≡ Some bytes) }
    ensures text { IfOk result (λ bytes. s.now ≡ hex bytes) }
    ensures odd { (result ≡ Err HexFault.Odd) ↔ (length s.now % 2 ≡ 1) }
    ensures digit { (place : ℕ) → (result ≡ Err (HexFault.Digit place)) ↔ ((length s.now % 2 ≡ 0) × (first_not_hex s.now ≡ Some place)) }
    ensures memory { result ≡ Err HexFault.NoMemory → IsSome (hex_text_of s.now) }
    ensures of_bytes { (bytes : _) → AreBytes bytes → s.now ≡ hex bytes → MatchResult result (λ b. b ≡ bytes) (λ e. e ≡ HexFault.NoMemory) }
{
    let digits = s.as_bytes();
    if digits.len() % 2 == 1 {
        return Err(HexFault::Odd);
    }
    if let Some(place) = first_other(digits) {
        return Err(HexFault::Digit(place));
    }
    match spelled(alloc, digits) {
        Ok(bytes) => Ok(bytes),
        Err(NoMemory) => Err(HexFault::NoMemory),
    }
}
