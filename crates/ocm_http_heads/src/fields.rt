ghost use Rattle.std.specs.Prelude.{◌≡◌, map, take, IfOk};
ghost use Rattle.httparse.specs.Borrowed.{header_parts};
ghost use Rattle.ocm_http_heads.specs.Heads.{kept_field};

use httparse::Header;
use ocm_texts::{Bytes, List, NoMemory, Text};
use std::alloc::Global;

/// A field of a head (RFC 9110 section 5). The name is in lower case, and the value has no blanks around it.
#[derive(Drop)]
pub struct Field {
    pub name: Text,
    pub value: Bytes,
}

impl Field {
    /// Another value that is the same.
    pub fn copy(&self) -> Result<Field, NoMemory>
        ensures { IfOk result (λ f. f ≡ self.now) }
    {
        let name = self.name.copy()?;
        let value = self.value.copy()?;
        Ok(Field { name, value })
    }
}

/// What stands before a message's body (RFC 9112 section 2.1).
#[derive(Drop)]
pub enum Head {
    /// What a client sends. `closing` says that the connection ends with the reply: the request is of HTTP/1.0, or
    /// a `connection` field has the token `close` (RFC 9112 section 9.6).
    Request {
        method: Text,
        target: Text,
        closing: bool,
        fields: List<Field>,
    },
    /// What a server sends. The status has three digits.
    Reply {
        status: u16,
        fields: List<Field>,
    },
}

fn kept(alloc: Global, header: &Header<'_>) -> Result<Field, NoMemory>
    ensures { IfOk result (λ f. f ≡ kept_field (header_parts header.now)) }
{
    let mut name = String::from_str(alloc, header.name)?;
    name.make_ascii_lowercase();
    let value = Bytes::of(alloc, header.value)?;
    Ok(Field {
        name: Text::from_string(name),
        value,
    })
}

/// The fields that were read, names in lower case.
pub(crate) fn all_kept(alloc: Global, headers: &[Header<'_>]) -> Result<List<Field>, NoMemory>
    ensures { IfOk result (λ fields. fields ≡ map (λ h. kept_field (header_parts h)) headers.now) }
{
    let mut fields = List::new(alloc);
    for header in headers {
        fields.push(kept(alloc, header)?)?;
    }
    Ok(fields)
}
