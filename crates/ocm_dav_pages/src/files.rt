//! The bytes of a file: all of them, or those that a range names (RFC 9110 section 14).

ghost use Rattle.std.specs.Prelude.{◌≡◌, ◌<◌, ◌≤◌, length, IfOk, IfSome, IsTrue};
ghost use Rattle.ocm_davmore.specs.Ranges.{is_span, is_suffix};
ghost use Rattle.ocm_dav_pages.specs.Pages as pages;

use crate::fields::{no_part_fields, part_fields};
use crate::shapes::{Page, Shape};
use crate::writing::{typed_page, written_page};
use ocm_base::{Bytes, NoMemory};
use ocm_davmore::Span;
use std::alloc::Global;

const OCTETS: &str = "application/octet-stream";

/// The span that counts for a file of so many bytes: one from the end is passed over where there is none.
fn wanted(range: Option<Span>, size: u64) -> Option<Span>
    requires { IfSome range (λ span. IsTrue (is_span span)) }
    ensures value { result ≡ pages.wanted range size }
    ensures sound { IfSome result (λ span. IsTrue (is_span span)) }
    ensures some { IfSome result (λ span. IsTrue (is_suffix span) → 0 < size) }
{
    match range {
        Some(Span::Last(_)) if size == 0 => None,
        Some(span) => Some(span),
        None => None,
    }
}

/// The page of the bytes from a first to a last place: 206.
fn part_page(
    alloc: Global,
    body: &Bytes,
    first: u64,
    last: u64,
    shape: &Shape,
) -> Result<Page, NoMemory>
    requires order { first ≤ last }
    requires within { last < length body.now }
    ensures { IfOk result (λ page. page ≡ pages.part_page body.now first last shape.now) }
{
    let fields = part_fields(alloc, OCTETS, first, last, body.len() as u64)?;
    let part = Bytes::of(alloc, &body.as_slice()[first as usize..last as usize + 1])?;
    written_page(alloc, 206, fields, &part, shape)
}

/// The page of a file that has none of the bytes that are asked for: 416.
fn no_part_page(alloc: Global, size: u64, shape: &Shape) -> Result<Page, NoMemory>
    ensures { IfOk result (λ page. page ≡ pages.no_part_page size shape.now) }
{
    let fields = no_part_fields(alloc, size)?;
    let body = Bytes::new(alloc);
    written_page(alloc, 416, fields, &body, shape)
}

fn span_page(alloc: Global, body: &Bytes, span: Span, shape: &Shape) -> Result<Page, NoMemory>
    requires span { IsTrue (is_span span) }
    requires some { IsTrue (is_suffix span) → 0 < length body.now }
    ensures { IfOk result (λ page. page ≡ pages.span_page body.now span shape.now) }
{
    let size = body.len() as u64;
    match span.within(size) {
        Some((first, last)) => part_page(alloc, body, first, last, shape),
        None => no_part_page(alloc, size, shape),
    }
}

/// The page of a file's bytes: 200 with all of them, 206 with those of the range, or 416 where the range begins behind
/// them.
pub fn file_page(alloc: Global, body: &Bytes, shape: &Shape) -> Result<Page, NoMemory>
    requires { IfSome shape.now.range (λ span. IsTrue (is_span span)) }
    ensures { IfOk result (λ page. page ≡ pages.file_page body.now shape.now) }
{
    match wanted(shape.range, body.len() as u64) {
        Some(span) => span_page(alloc, body, span, shape),
        None => typed_page(alloc, 200, OCTETS, body, shape),
    }
}
