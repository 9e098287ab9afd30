//! What a line writes for the bytes of a file.

ghost use Rattle.std.specs.Prelude.{◌<◌, Some, IfOk, option_and_then, option_copied};
ghost use Rattle.ocm_script.specs.Bodies as bodies;
ghost use Rattle.ocm_script.specs.Gives.{Gives};

use crate::events::Body;
use crate::faults::LineFault;
use crate::words::{after, digits_word, number_word, remaining};
use ocm_base::Bytes;
use std::alloc::Global;

/// The most bytes that a line fills a file with.
const MOST_FILL: u32 = 2_000_000;

/// A body of a copy of these bytes.
fn given(alloc: Global, bytes: &[u8]) -> Result<Body, LineFault>
    ensures { Gives (λ x. x) result (Some (Body.Given bytes.now)) }
{
    let bytes = Bytes::of(alloc, bytes)?;
    Ok(Body::Given(bytes))
}

/// What follows `hex:`: two lower-case digits for each byte.
#[tactic(auto, unfolding(crate::specs::Bodies::hex_body))]
fn hex_body(alloc: Global, digits: &[u8]) -> Result<Body, LineFault>
    ensures { Gives (λ x. x) result (bodies.hex_body digits.now) }
{
    let bytes = digits_word(alloc, digits)?;
    Ok(Body::Given(bytes))
}

/// The value of a lower-case hexadecimal digit.
fn digit_value(digit: u8) -> Result<u8, LineFault>
    ensures value { Gives (λ x. x) result (bodies.digit_value digit) }
    ensures small { IfOk result (λ x. x < 16) }
{
    match digit {
        b'0'..=b'9' => Ok(digit - b'0'),
        b'a'..=b'f' => Ok(digit - b'a' + 10),
        _ => Err(LineFault::Bad),
    }
}

/// What follows `fill:`: the byte in two lower-case digits, a `:` and the count.
#[tactic(auto, unfolding(crate::specs::Bodies::fill_body))]
fn fill_body(filled: &[u8]) -> Result<Body, LineFault>
    ensures { Gives (λ x. x) result (bodies.fill_body filled.now) }
{
    let [high, low, rest @ ..] = filled else {
        return Err(LineFault::Bad);
    };
    let high = digit_value(*high)?;
    let low = digit_value(*low)?;
    let Some(digits) = after(rest, b":") else {
        return Err(LineFault::Bad);
    };
    let count = number_word(MOST_FILL, digits)?;
    Ok(Body::Fill {
        byte: high * 16 + low,
        count,
    })
}

/// The body that the rest of a line writes.
#[tactic(auto, unfolding(crate::specs::Bodies::body_of))]
fn body_of(alloc: Global, rest: &[u8]) -> Result<Body, LineFault>
    ensures { Gives (λ x. x) result (bodies.body_of rest.now) }
{
    if let Some(text) = after(rest, b"text:") {
        given(alloc, text)
    } else if let Some(digits) = after(rest, b"hex:") {
        hex_body(alloc, digits)
    } else if let Some(filled) = after(rest, b"fill:") {
        fill_body(filled)
    } else {
        Err(LineFault::Bad)
    }
}

/// The body that what follows a space writes.
pub fn body_behind(alloc: Global, rest: Option<&[u8]>) -> Result<Body, LineFault>
    ensures { Gives (λ x. x) result (option_and_then bodies.body_of (option_copied rest.entry)) }
{
    let bytes = remaining(rest)?;
    body_of(alloc, bytes)
}
