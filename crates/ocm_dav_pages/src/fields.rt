//! The fields of a page's head.

ghost use Rattle.std.specs.Prelude.{◌≡◌, [], ◌∷◌, ◌++◌, IfOk, OnOk};
ghost use Rattle.std.specs.Fmt.{decimal};
ghost use Rattle.ocm_dav_pages.specs.Fields as heads;

use crate::shapes::Allow;
use ocm_base::{Bytes, List, NoMemory, Text};
use ocm_http::Field;
use std::alloc::Global;

/// Adds a number in decimal digits.
pub fn add_number(alloc: Global, text: &mut Bytes, number: u64) -> Result<(), NoMemory>
    ensures { OnOk result (text.new ≡ text.old ++ decimal number) }
{
    let digits = number.to_string(alloc)?;
    text.add(digits.as_bytes())?;
    Ok(())
}

fn field(alloc: Global, name: &str, value: &[u8]) -> Result<Field, NoMemory>
    ensures { IfOk result (λ f. f ≡ heads.field name.now value.now) }
{
    let name = Text::of(alloc, name)?;
    let value = Bytes::of(alloc, value)?;
    Ok(Field { name, value })
}

/// The field of a body of this type.
pub fn type_fields(alloc: Global, kind: &str) -> Result<List<Field>, NoMemory>
    ensures { IfOk result (λ made. made ≡ heads.content_type kind.now ∷ []) }
{
    let mut made = List::new(alloc);
    made.push(field(alloc, "Content-Type", kind.as_bytes())?)?;
    Ok(made)
}

fn content_range(alloc: Global, first: u64, last: u64, size: u64) -> Result<Field, NoMemory>
    ensures { IfOk result (λ f. f ≡ heads.content_range first last size) }
{
    let mut value = Bytes::of(alloc, b"bytes ")?;
    add_number(alloc, &mut value, first)?;
    value.add(b"-")?;
    add_number(alloc, &mut value, last)?;
    value.add(b"/")?;
    add_number(alloc, &mut value, size)?;
    let name = Text::of(alloc, "Content-Range")?;
    Ok(Field { name, value })
}

/// The fields of the bytes from a first to a last place of a file of so many bytes.
pub fn part_fields(
    alloc: Global,
    kind: &str,
    first: u64,
    last: u64,
    size: u64,
) -> Result<List<Field>, NoMemory>
    ensures { IfOk result (λ made. made
        ≡ heads.content_type kind.now ∷ heads.content_range first last size ∷ []) }
{
    let mut made = type_fields(alloc, kind)?;
    made.push(content_range(alloc, first, last, size)?)?;
    Ok(made)
}

/// The field that tells how many bytes a file has, where it has none of those that are asked for.
pub fn no_part_fields(alloc: Global, size: u64) -> Result<List<Field>, NoMemory>
    ensures { IfOk result (λ made. made ≡ heads.no_range size ∷ []) }
{
    let mut value = Bytes::of(alloc, b"bytes */")?;
    add_number(alloc, &mut value, size)?;
    let name = Text::of(alloc, "Content-Range")?;
    let mut made = List::new(alloc);
    made.push(Field { name, value })?;
    Ok(made)
}

fn methods(allow: Allow) -> &'static str
    ensures { result.now ≡ heads.methods allow }
{
    match allow {
        Allow::Discovery => "GET, HEAD",
        Allow::Post => "POST",
        Allow::Dav => "GET, HEAD, PUT, DELETE, MKCOL, PROPFIND, COPY, MOVE",
    }
}

/// How a client is to say who it is.
#[tactic(auto, unfolding(crate::specs::Fields::challenge))]
fn challenge(alloc: Global) -> Result<Field, NoMemory>
    ensures { IfOk result (λ f. f ≡ heads.challenge) }
{
    field(alloc, "WWW-Authenticate", b"Basic realm=\"ocm\"")
}

/// The methods that are allowed in place of the one that was asked for.
#[tactic(auto, unfolding(crate::specs::Fields::allowed))]
fn allowed(alloc: Global, allow: Allow) -> Result<Field, NoMemory>
    ensures { IfOk result (λ f. f ≡ heads.allowed allow) }
{
    field(alloc, "Allow", methods(allow).as_bytes())
}

/// Adds the fields that a status asks for.
pub fn add_status_fields(
    alloc: Global,
    made: &mut List<Field>,
    status: u16,
    allow: Allow,
) -> Result<(), NoMemory>
    ensures { OnOk result (made.new ≡ made.old ++ heads.status_fields status allow) }
{
    if status == 401 {
        made.push(challenge(alloc)?)?;
        return Ok(());
    }
    if status == 405 {
        made.push(allowed(alloc, allow)?)?;
        return Ok(());
    }
    Ok(())
}
