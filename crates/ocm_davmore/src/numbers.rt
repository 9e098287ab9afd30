//! The numbers that a range writes.

ghost use Rattle.std.specs.Prelude.{◌≡◌};
ghost use Rattle.std.specs.List.{list_all};
ghost use Rattle.std.specs.Char.{is_ascii_digit};
ghost use Rattle.ocm_davmore.specs.Ranges.{is_number, number_of};

fn are_digits(bytes: &[u8]) -> bool
    ensures { result ≡ list_all is_ascii_digit bytes.now }
{
    bytes.iter().all(|byte| byte.is_ascii_digit())
}

fn is_number(bytes: &[u8]) -> bool
    ensures { result ≡ is_number bytes.now }
{
    are_digits(bytes) && 1 <= bytes.len() && bytes.len() <= 19
}

/// The number that 1 to 19 decimal digits write. None where the bytes are anything else.
pub fn number(bytes: &[u8]) -> Option<u64>
    ensures { result ≡ number_of bytes.now }
{
    if !is_number(bytes) {
        return None;
    }
    match str::from_utf8(bytes) {
        Ok(digits) => digits.parse::<u64>().ok(),
        Err(_) => None,
    }
}
