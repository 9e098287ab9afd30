//! Fields of a request's head.

ghost use Rattle.std.specs.Prelude.{◌≡◌, bytes_eq, option_copied};
ghost use Rattle.ocm_dav.specs.Fields as fields;

use ocm_http::Field;

/// The value of the first field with this name, which is in lower case.
pub(crate) fn first_value<'a>(list: &'a [Field], name: &str) -> Option<&'a [u8]>
    ensures { option_copied result ≡ fields.first_value name.now list.now }
{
    let field = list.iter().find(|field| field.name.as_str() == name)?;
    Some(field.value.as_slice())
}

/// Whether bytes are this word, in any case.
pub(crate) fn is_word(bytes: &[u8], word: &str) -> bool
    ensures { result ≡ fields.is_word word.now bytes.now }
{
    bytes.eq_ignore_ascii_case(word.as_bytes())
}

/// Whether bytes are exactly these.
pub(crate) fn are_bytes(bytes: &[u8], others: &[u8]) -> bool
    ensures { result ≡ bytes_eq bytes.now others.now }
{
    bytes == others
}
