//! The page of each reply.

ghost use Rattle.std.specs.Prelude.{◌≡◌, IfOk, IfSome, IsTrue};
ghost use Rattle.ocm_davmore.specs.Ranges.{is_span};
ghost use Rattle.ocm_dav_pages.specs.Pages as pages;
ghost use Rattle.ocm_dav_pages.specs.Pages.{HasPage};

use crate::errors::{count_page, message_page, refusal_page};
use crate::files::file_page;
use crate::listings::listing_text;
use crate::multistatus::items_page;
use crate::shapes::{Page, Shape};
use crate::values::{one_number, one_text};
use crate::writing::{bare_page, json_page};
use ocm_base::{Bytes, List, NoMemory};
use ocm_entry::{Line, Reply};
use ocm_http::write_reply;
use std::alloc::Global;

/// The page of something new that a text names: 201.
fn text_page(alloc: Global, key: &str, text: &str, shape: &Shape) -> Result<Page, NoMemory>
    ensures { IfOk result (λ page. page ≡ pages.text_page key.now text.now shape.now) }
{
    let body = one_text(alloc, key, text)?;
    json_page(alloc, 201, &body, shape)
}

/// The page of something new that has a number: 201.
fn number_page(alloc: Global, number: u32, shape: &Shape) -> Result<Page, NoMemory>
    ensures { IfOk result (λ page. page ≡ pages.number_page number shape.now) }
{
    let body = one_number(alloc, "number", number)?;
    json_page(alloc, 201, &body, shape)
}

/// The page of a further share: 201.
fn child_page(alloc: Global, id: u32, shape: &Shape) -> Result<Page, NoMemory>
    ensures { IfOk result (λ page. page ≡ pages.child_page id shape.now) }
{
    let digits = id.to_string(alloc)?;
    text_page(alloc, "providerId", digits.as_str(), shape)
}

/// The page of a notification that was taken: 201.
fn noticed_page(alloc: Global, shape: &Shape) -> Result<Page, NoMemory>
    ensures { IfOk result (λ page. page ≡ pages.noticed_page shape.now) }
{
    let body = Bytes::of(alloc, b"{}")?;
    json_page(alloc, 201, &body, shape)
}

/// The page of what a user has: 200.
fn listing_page(alloc: Global, lines: &[Line], shape: &Shape) -> Result<Page, NoMemory>
    ensures { IfOk result (λ page. page ≡ pages.listing_page lines.now shape.now) }
{
    let body = listing_text(alloc, lines)?;
    json_page(alloc, 200, &body, shape)
}

/// The fixed reply where there was no memory: 500.
fn no_memory_page(alloc: Global) -> Result<Page, NoMemory>
    ensures { IfOk result (λ page. page ≡ pages.no_memory_page) }
{
    let fields = List::new(alloc);
    let body = Bytes::new(alloc);
    let bytes = write_reply(alloc, 500, &fields, &body, false, true)?;
    Ok(Page { status: 500, bytes })
}

/// The page of a reply. One that has none is the caller's to keep away: a status that settles nothing, and the messages
/// that are due.
#[tactic(auto, unfolding(crate::specs::Pages::page_of))]
pub fn page_of(alloc: Global, reply: &Reply, shape: &Shape) -> Result<Page, NoMemory>
    requires reply { HasPage reply.now }
    requires range { IfSome shape.now.range (λ span. IsTrue (is_span span)) }
    ensures { IfOk result (λ page. page ≡ pages.page_of reply.now shape.now) }
{
    match reply {
        Reply::Key { key } => text_page(alloc, "key", key.as_str(), shape),
        Reply::Number { number } => number_page(alloc, *number, shape),
        Reply::Recipient { user } => text_page(alloc, "recipientDisplayName", user.as_str(), shape),
        Reply::Noticed => noticed_page(alloc, shape),
        Reply::Child { id } => child_page(alloc, *id, shape),
        Reply::Listing { lines } => listing_page(alloc, lines.as_slice(), shape),
        Reply::File { body } => file_page(alloc, body, shape),
        Reply::Items { items } => items_page(alloc, items, shape),
        Reply::Created => bare_page(alloc, 201, shape),
        Reply::Done | Reply::Replaced | Reply::Removed => bare_page(alloc, 204, shape),
        Reply::Refused { why } => refusal_page(alloc, *why, shape),
        Reply::JournalFull => message_page(alloc, 507, "journal full", shape),
        Reply::NoMemory => no_memory_page(alloc),
        Reply::DiskFault { count } => count_page(alloc, "disk fault ", *count, shape),
        Reply::Stopped { count } => count_page(alloc, "stopped ", *count, shape),
        Reply::Left | Reply::Due { messages: _ } => unreachable!(),
    }
}
