//! What a request's head announces of its body.
ghost use Rattle.std.specs.Prelude.{◌≡◌, Some, IfOk, map};
ghost use Rattle.std.specs.Char.{to_ascii_lowercase};
ghost use Rattle.std.specs.List.{list_any, slice_split};
ghost use Rattle.ocm_http_heads.specs.Heads.{is_comma, is_same};
ghost use Rattle.ocm_http.specs.Fronts.{IsFrontOf};
ghost use Rattle.ocm_http.specs.declared.fronts.Front.TheVariants as fronts;
ghost use Rattle.ocm_net_lines.specs.Bodies as bodies;

use ocm_base::NoMemory;
use ocm_http::{Field, Front, Head, ReadHead, read_front};
use ocm_http_heads::{Length, Look, are_ows, skip_ows};
use std::alloc::Global;

/// What a head announces of the body behind it.
#[derive(Clone, Copy)]
pub struct Announced {
    /// How its end is known.
    pub length: Length,
    /// Nothing of it came yet, and the client waits to be told to send it (RFC 9110 section 10.1.1).
    pub is_awaited: bool,
}

/// Whether there is a body.
fn has_body(length: Length) -> bool
    ensures { result ≡ bodies.has_body length }
{
    match length {
        Length::Sized(size) => size != 0,
        Length::Chunked => true,
        Length::ToEnd => true,
    }
}

/// Whether the first line's last byte is 1, line end aside: that of HTTP/1.1 is.
fn ends_with_one(text: &[u8]) -> bool
    ensures { result ≡ bodies.ends_with_one 0 text.now }
{
    let mut last = 0;
    for byte in text {
        if *byte == b'\n' {
            return last == b'1';
        }
        if *byte != b'\r' {
            last = *byte;
        }
    }
    false
}

/// Whether a text is this word, in any case.
fn is_word(text: &[u8], word: &str) -> bool
    ensures { result ≡ is_same (map to_ascii_lowercase text.now) (map to_ascii_lowercase word.now) }
{
    text.eq_ignore_ascii_case(word.as_bytes())
}

/// Whether a member of a list says `100-continue`, in any case, with blanks around.
fn is_continue(member: &[u8]) -> bool
    ensures { result ≡ bodies.is_continue member.now }
{
    let word = skip_ows(member);
    let end = word.len().min(12);
    is_word(&word[..end], "100-continue") && are_ows(&word[end..])
}

/// Whether a list has the member `100-continue`.
fn has_continue(list: &[u8]) -> bool
    ensures { result ≡ list_any bodies.is_continue (slice_split is_comma list.now) }
{
    list.split(|byte| *byte == b',').any(is_continue)
}

fn is_expecting(field: &Field) -> bool
    ensures { result ≡ bodies.is_expecting field.now }
{
    field.name.as_str() == "expect" && has_continue(field.value.as_slice())
}

fn any_expecting(fields: &[Field]) -> bool
    ensures { result ≡ list_any bodies.is_expecting fields.now }
{
    fields.iter().any(is_expecting)
}

/// Whether the client waits to be told to send a body of this length, by a head of this text with these fields that is all
/// that came or isn't.
fn is_awaited(text: &[u8], fields: &[Field], is_all: bool, length: Length) -> bool
    ensures { result ≡ bodies.is_awaited text.now fields.now is_all length }
{
    is_all && has_body(length) && any_expecting(fields) && ends_with_one(text)
}

/// What a whole head announces that stands at the front of these bytes.
fn announced_by(head: &ReadHead, bytes: &[u8]) -> Announced
    requires { IsFrontOf bytes.now (fronts.Whole head.now) }
    ensures { bodies.Announces bytes.now (Some result) }
{
    let Head::Request { fields, .. } = head.head() else {
        unreachable!()
    };
    let whole = &bytes[..head.size()];
    let text = &whole[head.skipped()..];
    let length = head.body();
    let is_all = whole.len() == bytes.len();
    let is_awaited = is_awaited(text, fields.as_slice(), is_all, length);
    Announced { length, is_awaited }
}

/// What a request begins with.
#[derive(Drop)]
pub enum Beginning {
    /// A whole head, and what it announces.
    Whole(ReadHead, Announced),
    /// What is refused, whatever follows it.
    Refused,
    /// No whole head yet, and no fault. The look for its end goes on behind these bytes.
    Unfinished(Look),
}

/// Reads the head at the front, with the CR and LF before it, and tells what it announces. That is nothing where no whole
/// head is there, or a request with it is refused, whatever its body is.
pub fn body_announced(alloc: Global, bytes: &[u8]) -> Result<Beginning, NoMemory>
    ensures announces { IfOk result (λ b. bodies.Announces bytes.now (bodies.announced_in b)) }
    ensures front { IfOk result (λ b. IsFrontOf bytes.now (bodies.front_in b)) }
{
    match read_front(alloc, bytes)? {
        Front::Whole(head) => {
            let announced = announced_by(&head, bytes);
            Ok(Beginning::Whole(head, announced))
        }
        Front::Refused => Ok(Beginning::Refused),
        Front::Unfinished(look) => Ok(Beginning::Unfinished(look)),
    }
}
