//! Pages by their status, their fields and their body.

ghost use Rattle.std.specs.Prelude.{◌≡◌, ◌<◌, ◌≤◌, IfOk, IsSome};
ghost use Rattle.http.specs.StatusCode.{reason_phrase};
ghost use Rattle.ocm_dav_pages.specs.Pages as pages;

use crate::fields::{add_status_fields, type_fields};
use crate::shapes::{Page, Shape};
use ocm_base::{Bytes, List, NoMemory};
use ocm_http::{Field, write_reply};
use std::alloc::Global;

/// The page with these fields, and behind them those that its status asks for.
#[tactic(auto, unfolding(crate::specs::Pages::page))]
pub fn written_page(
    alloc: Global,
    status: u16,
    fields: List<Field>,
    body: &Bytes,
    shape: &Shape,
) -> Result<Page, NoMemory>
    requires code { (100 ≤ status) × (status < 1000) }
    requires phrase { IsSome (reason_phrase status) }
    ensures { IfOk result (λ page. page ≡ pages.page status fields body.now shape.now) }
{
    let mut fields = fields;
    add_status_fields(alloc, &mut fields, status, shape.allow)?;
    let bytes = write_reply(alloc, status, &fields, body, shape.bodyless, shape.closing)?;
    Ok(Page { status, bytes })
}

/// The page without a body.
pub fn bare_page(alloc: Global, status: u16, shape: &Shape) -> Result<Page, NoMemory>
    requires code { (100 ≤ status) × (status < 1000) }
    requires phrase { IsSome (reason_phrase status) }
    ensures { IfOk result (λ page. page ≡ pages.bare_page status shape.now) }
{
    let body = Bytes::new(alloc);
    let page = written_page(alloc, status, List::new(alloc), &body, shape)?;
    Ok(page)
}

/// The page with a body of this type.
pub fn typed_page(
    alloc: Global,
    status: u16,
    kind: &str,
    body: &Bytes,
    shape: &Shape,
) -> Result<Page, NoMemory>
    requires code { (100 ≤ status) × (status < 1000) }
    requires phrase { IsSome (reason_phrase status) }
    ensures { IfOk result (λ page. page ≡ pages.typed_page status kind.now body.now shape.now) }
{
    let fields = type_fields(alloc, kind)?;
    let page = written_page(alloc, status, fields, body, shape)?;
    Ok(page)
}

/// The page with JSON.
pub fn json_page(alloc: Global, status: u16, text: &Bytes, shape: &Shape) -> Result<Page, NoMemory>
    requires code { (100 ≤ status) × (status < 1000) }
    requires phrase { IsSome (reason_phrase status) }
    ensures { IfOk result (λ page. page ≡ pages.typed_page status pages.json text.now shape.now) }
{
    typed_page(alloc, status, "application/json", text, shape)
}
