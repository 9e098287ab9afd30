ghost use Rattle.std.specs.Prelude.{◌≡◌, ◌≤◌, length, option_map, true};
ghost use Rattle.std.specs.Char.{is_ascii_digit};
ghost use Rattle.std.specs.List.{list_all};
ghost use Rattle.ocm_texts.specs.Decimal.{number_after};
ghost use Rattle.ocm_http_heads.specs.Lengths as lengths;

use crate::closings::is_word;
use crate::fields::Field;

/// How a body's end is known (RFC 9112 section 6.3).
#[derive(Clone, Copy)]
pub enum Length {
    /// It has so many bytes.
    Sized(u64),
    /// It comes in chunks.
    Chunked,
    /// It ends with the input.
    ToEnd,
}

/// Why a head's length is refused.
#[derive(Clone, Copy, Debug, PartialEq, Eq)]
pub enum LengthFault {
    /// It has both `transfer-encoding` and `content-length`.
    BothLengths,
    /// The coding isn't `chunked` alone, or a length isn't 1 to 19 digits, or two lengths differ.
    BadLength,
    /// The length is above the limit.
    BodyTooLong,
}

/// The value of the first field with a name, and the fields after it.
fn first_named<'a>(fields: &'a [Field], name: &str) -> Option<(&'a [u8], &'a [Field])>
    ensures { lengths.values name.now fields.now ≡ lengths.from_first name.now (option_map (λ r. (r.0.now, r.1.now)) result) }
{
    let mut rest = fields;
    while let [field, others @ ..] = rest {
        if field.name.as_str() == name {
            return Some((field.value.as_slice(), others));
        }
        rest = others;
    }
    None
}

/// Whether each field with a name has this value.
fn all_named_are(fields: &[Field], name: &str, value: &[u8]) -> bool
    ensures { result ≡ list_all (λ f. lengths.is_unless name.now value.now f) fields.now }
{
    fields.iter().all(|field| field.name.as_str() != name || value == field.value.as_slice())
}

fn are_digits(value: &[u8]) -> bool
    ensures { result ≡ list_all is_ascii_digit value.now }
{
    value.iter().all(|byte| byte.is_ascii_digit())
}

fn is_length(value: &[u8]) -> bool
    ensures { result ≡ lengths.is_length value.now }
{
    !value.is_empty() && value.len() <= 19 && are_digits(value)
}

/// The number that at most 19 digits write.
fn number_of(digits: &[u8]) -> u64
    requires digits { list_all is_ascii_digit digits.now ≡ true }
    requires few { length digits.now ≤ 19 }
    ensures { result ≡ number_after 0 digits.now }
{
    let mut number = 0;
    for digit in digits {
        number = number * 10 + u64::from(*digit - b'0');
    }
    number
}

fn counted(max: u64, value: &[u8], same: bool) -> Result<Length, LengthFault>
    ensures { result ≡ lengths.counted_if max value.now same }
{
    if !(is_length(value) && same) {
        return Err(LengthFault::BadLength);
    }
    let number = number_of(value);
    if max < number {
        return Err(LengthFault::BodyTooLong);
    }
    Ok(Length::Sized(number))
}

fn coded(value: &[u8], alone: bool) -> Result<Length, LengthFault>
    ensures { result ≡ lengths.coded_if value.now alone }
{
    if alone && is_word(value, "chunked") {
        Ok(Length::Chunked)
    } else {
        Err(LengthFault::BadLength)
    }
}

#[tactic(auto, using(crate::proofs::Values::all_values))]
fn told_by(max: u64, fields: &[Field]) -> Option<Result<Length, LengthFault>>
    ensures { result ≡ lengths.told_by max fields.now }
{
    let coding = first_named(fields, "transfer-encoding");
    let length = first_named(fields, "content-length");
    match (coding, length) {
        (None, None) => None,
        (None, Some((value, others))) => Some(counted(
            max,
            value,
            all_named_are(others, "content-length", value),
        )),
        (Some((value, others)), None) => {
            Some(coded(value, first_named(others, "transfer-encoding").is_none()))
        }
        (Some(_), Some(_)) => Some(Err(LengthFault::BothLengths)),
    }
}

/// The length of the body of a request with these fields, at most `max` bytes (RFC 9112 section 6.3). Without a
/// field that tells it, there is no body.
pub fn length_of_request(max: u64, fields: &[Field]) -> Result<Length, LengthFault>
    ensures { result ≡ lengths.request_length max fields.now }
{
    match told_by(max, fields) {
        Some(read) => read,
        None => Ok(Length::Sized(0)),
    }
}

/// The length of the body of a reply with this status and these fields, at most `max` bytes (RFC 9112 section 6.3).
/// A reply of 204 or 304 has no body. Another, without a field that tells its length, has all to the end of input.
pub fn length_of_reply(max: u64, status: u16, fields: &[Field]) -> Result<Length, LengthFault>
    ensures { result ≡ lengths.reply_length max status fields.now }
{
    let read = told_by(max, fields);
    if status == 204 || status == 304 {
        return match read {
            Some(Err(fault)) => Err(fault),
            _ => Ok(Length::Sized(0)),
        };
    }
    match read {
        Some(read) => read,
        None => Ok(Length::ToEnd),
    }
}
