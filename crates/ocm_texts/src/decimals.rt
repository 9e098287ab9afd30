ghost use Rattle.std.specs.Prelude.{◌≡◌, ℕ, ◌<◌, ◌^◌, ◌↔◌, Some};
ghost use Rattle.std.specs.Fmt.{decimal};
ghost use Rattle.std.specs.List.{list_all};
ghost use Rattle.ocm_texts.specs.Decimal.{decimal_of, is_digit_byte, is_decimal_text};

fn are_digits(bytes: &[u8]) -> bool
    ensures { result ≡ list_all is_digit_byte bytes.now }
{
    bytes.iter().all(|b| b.is_ascii_digit())
}

fn is_decimal(bytes: &[u8]) -> bool
    ensures { result ≡ is_decimal_text bytes.now }
{
    are_digits(bytes)
        && !bytes.is_empty()
        && bytes.len() <= 20
        && (bytes.len() < 2 || bytes[0] != b'0')
}

/// The number that a text of 1 to 20 decimal digits writes, with no leading zero but in `0` itself. None where the
/// text is anything else, or its number is 2^64 or more.
pub fn decimal_read(s: &str) -> Option<u64>
    ensures value { result ≡ decimal_of s.now }
    ensures printed { (n : ℕ) → (result ≡ Some n) ↔ ((n < 2 ^ 64) × (s.now ≡ decimal n)) }
{
    if !is_decimal(s.as_bytes()) {
        return None;
    }
    s.parse::<u64>().ok()
}
