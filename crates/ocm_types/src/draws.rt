ghost use Rattle.std.specs.Prelude.{◌≡◌, ◌<◌, ◌+◌, ◌*◌, ◌%◌, ◌^◌, IfOk, IsTrue, length};
ghost use Rattle.ocm_texts.specs.Hex as hexadecimal;
ghost use Rattle.std.specs.List.{list_all};
ghost use Rattle.ocm_types.specs.Draws.{fresh_of, fresh_plus, number_of};

use crate::secrets::Secret;
use crate::texts::has_length;
use ocm_texts::{NoMemory, hex_of};
use std::alloc::Global;
use std::marker::Model;

/// 16 bytes that were drawn at random. Contracts see the bytes.
#[derive(Clone, Copy, Debug, PartialEq, Eq)]
pub struct Fresh {
    bytes: [u8; 16],
}

impl Model for Fresh {
    ghost use Rattle.std.specs.Prelude.{List, ℕ};

    ghost Value = { List ℕ };

    ghost view = { λ fresh. fresh.bytes };

    ghost inverse = { λ bytes. record { bytes = bytes } };
}

impl Fresh {
    /// The drawn bytes.
    pub fn new(bytes: [u8; 16]) -> Fresh
        ensures { result ≡ bytes }
    {
        Fresh { bytes }
    }

    /// Reads exactly 32 lower-case hexadecimal digits, two for each byte. Any other text gives None.
    pub fn read(s: &str) -> Option<Fresh>
        ensures { result ≡ fresh_of s.now }
    {
        let digits = s.as_bytes();
        if !has_length(32, 32, digits) || !are_hex_bytes(digits) {
            return None;
        }
        Some(Fresh {
            bytes: bytes_of(digits),
        })
    }

    /// The 16 bytes.
    pub fn bytes(&self) -> [u8; 16]
        ensures { result ≡ self.now }
    {
        self.bytes
    }

    /// The secret that the bytes spell: 32 lower-case hexadecimal digits.
    pub fn secret(&self, alloc: Global) -> Result<Secret, NoMemory>
        ensures text { IfOk result (λ secret. secret ≡ hexadecimal.hex self.now) }
        ensures read_back { IfOk result (λ secret. fresh_of secret ≡ Some self.now) }
    {
        spelled(alloc, &self.bytes)
    }

    /// The bytes of their big-endian number plus `k`, modulo 2^128.
    pub fn plus(&self, k: u64) -> Fresh
        ensures value { result ≡ fresh_plus self.now k }
        ensures number { number_of result ≡ (number_of self.now + k) % 2 ^ 128 }
    {
        let number = u128::from_be_bytes(self.bytes);
        Fresh {
            bytes: number.wrapping_add(k as u128).to_be_bytes(),
        }
    }
}

/// The secret of the digits of 16 bytes.
fn spelled(alloc: Global, bytes: &[u8]) -> Result<Secret, NoMemory>
    requires { length bytes.now ≡ 16 }
    ensures text { IfOk result (λ secret. secret ≡ hexadecimal.hex bytes.now) }
    ensures read_back { IfOk result (λ secret. fresh_of secret ≡ Some bytes.now) }
{
    let digits = hex_of(alloc, bytes)?;
    Ok(Secret::of_text(digits))
}

fn is_hex_byte(b: u8) -> bool
    ensures { result ≡ hexadecimal.is_hex_byte b }
{
    b.is_ascii_digit() || (b'a' <= b && b <= b'f')
}

fn are_hex_bytes(s: &[u8]) -> bool
    ensures { result ≡ list_all hexadecimal.is_hex_byte s.now }
{
    s.iter().all(|b| is_hex_byte(*b))
}

/// What a digit stands for.
fn hex_value(b: u8) -> u8
    ensures value { result ≡ hexadecimal.hex_value b }
    ensures digit { result < 16 }
{
    let value = if b < 58 {
        b.saturating_sub(48)
    } else {
        b.saturating_sub(87)
    };
    value % 16
}

/// The bytes that 32 digits spell.
fn bytes_of(digits: &[u8]) -> [u8; 16]
    requires { length digits.now ≡ 32 }
    ensures { result ≡ hexadecimal.unhex digits.now }
{
    let mut bytes = [0u8; 16];
    for i in 0..16 {
        bytes[i] = hex_value(digits[2 * i]) * 16 + hex_value(digits[2 * i + 1]);
    }
    bytes
}
