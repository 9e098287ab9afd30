//! The secret that a request gives.

ghost use Rattle.std.specs.Prelude.{◌≡◌, option_copied, IfOk};
ghost use Rattle.base64.specs.GeneralPurpose.{decode_of};
ghost use Rattle.base64.specs.Engines.{standard};
ghost use Rattle.ocm_types.specs.Hosts.{cut_at_first};
ghost use Rattle.ocm_types.specs.Texts.{secret_of};
ghost use Rattle.ocm_dav.specs.Credentials as credentials;
ghost use Rattle.ocm_dav.specs.Credentials.{credentials_of};

use crate::fields::{first_value, is_word};
use base64::DecodeAllocError;
use base64::engine::general_purpose::STANDARD;
use ocm_base::{List, NoMemory};
use ocm_http::Field;
use ocm_types::{Secret, TextFault};
use std::alloc::Global;

/// The secret that the fields of a request give, by the first `authorization` field (RFC 9110
/// section 11.6.2): the user of the scheme `Basic`, whatever the password (RFC 7617 section 2), or
/// the token of `Bearer` (RFC 6750 section 2.1). The scheme may be in any case. None where there is
/// no such field, and where what it gives is no secret.
pub fn credentials(alloc: Global, fields: &List<Field>) -> Result<Option<Secret>, NoMemory>
    ensures { IfOk result (λ secret. secret ≡ credentials_of fields.now) }
{
    match first_value(fields.as_slice(), "authorization") {
        Some(value) => value_secret(alloc, value),
        None => Ok(None),
    }
}

/// What stands before the first separator, and behind it where there is one.
fn cut(separator: u8, bytes: &[u8]) -> (&[u8], Option<&[u8]>)
    ensures front { result.0.now ≡ (cut_at_first separator bytes.now).0 }
    ensures behind { option_copied result.1 ≡ (cut_at_first separator bytes.now).1 }
{
    match bytes.iter().position(|byte| *byte == separator) {
        Some(place) => (&bytes[..place], Some(&bytes[place + 1..])),
        None => (bytes, None),
    }
}

fn value_secret(alloc: Global, value: &[u8]) -> Result<Option<Secret>, NoMemory>
    ensures { IfOk result (λ secret. secret ≡ credentials.value_secret value.now) }
{
    let (scheme, token) = cut(b' ', value);
    match token {
        Some(token) => scheme_secret(alloc, scheme, token),
        None => Ok(None),
    }
}

fn scheme_secret(alloc: Global, scheme: &[u8], token: &[u8]) -> Result<Option<Secret>, NoMemory>
    ensures { IfOk result (λ secret. secret ≡ credentials.scheme_secret scheme.now token.now) }
{
    if is_word(scheme, "basic") {
        user_secret(alloc, token)
    } else if is_word(scheme, "bearer") {
        bytes_secret(alloc, token)
    } else {
        Ok(None)
    }
}

/// The secret of the user that is spelled in base64.
fn user_secret(alloc: Global, token: &[u8]) -> Result<Option<Secret>, NoMemory>
    ensures { IfOk result (λ secret. secret ≡ credentials.user_secret (decode_of standard token.now)) }
{
    match STANDARD.decode(alloc, token) {
        Ok(plain) => bytes_secret(alloc, user(plain.as_slice())),
        Err(DecodeAllocError::OutOfMemory) => Err(NoMemory),
        Err(DecodeAllocError::DecodeError(_)) => Ok(None),
    }
}

/// The user of a user and a password.
fn user(plain: &[u8]) -> &[u8]
    ensures { result.now ≡ credentials.user_of plain.now }
{
    let (user, _password) = cut(b':', plain);
    user
}

/// The secret that bytes are.
fn bytes_secret(alloc: Global, bytes: &[u8]) -> Result<Option<Secret>, NoMemory>
    ensures { IfOk result (λ secret. secret ≡ credentials.bytes_secret bytes.now) }
{
    match str::from_utf8(bytes) {
        Ok(text) => text_secret(alloc, text),
        Err(_) => Ok(None),
    }
}

fn text_secret(alloc: Global, text: &str) -> Result<Option<Secret>, NoMemory>
    ensures { IfOk result (λ secret. secret ≡ secret_of text.now) }
{
    match Secret::read(alloc, text) {
        Ok(secret) => Ok(Some(secret)),
        Err(TextFault::NoMemory) => Err(NoMemory),
        Err(TextFault::Length | TextFault::Char) => Ok(None),
    }
}
