//! Pages, byte for byte.
ghost use Rattle.std.specs.Prelude.{◌≡◌, ◌≢◌, IfSome, IsTrue, None};
ghost use Rattle.ocm_davmore.specs.Ranges.{is_span};
ghost use Rattle.ocm_dav_pages.specs.Pages.{HasPage};
ghost use Rattle.ocm_records.specs.declared.faults.RecordFault.TheVariants as faults;

use crate::replies::reply_of;
use ocm_base::{Bytes, NoMemory};
use ocm_cases_rows::escaped;
use ocm_dav_pages::{
    Allow, Page, Shape, discovery_page, fault_page, finite_depth_page, message_page, page_of,
};
use ocm_davmore::read_range;
use ocm_entry::{Reply, Why};
use ocm_records::{Field, RecordFault};
use ocm_types::Host;
use std::alloc::Global;

/// The page's status and bytes.
pub fn page_told(alloc: Global, page: Page) -> Option<String> {
    let status = page.status;
    let bytes = page.bytes.whole(alloc);
    drop(page);
    bytes_told(alloc, status, bytes)
}

fn bytes_told(alloc: Global, status: u16, bytes: Result<Bytes, NoMemory>) -> Option<String> {
    match bytes {
        Ok(bytes) => text_told(alloc, status, escaped(alloc, bytes.as_slice())),
        Err(_) => None,
    }
}

fn text_told(alloc: Global, status: u16, text: Option<String>) -> Option<String> {
    match text {
        Some(text) => format!(in alloc; "{status} {}", text.as_str()).ok(),
        None => None,
    }
}

fn made_told(alloc: Global, made: Result<Page, NoMemory>) -> Option<String> {
    match made {
        Ok(page) => page_told(alloc, page),
        Err(_) => None,
    }
}

/// What a request of a file or a collection says that asks for nothing more.
fn plain() -> Shape
    ensures { result.range ≡ None }
{
    Shape {
        bodyless: false,
        closing: false,
        allow: Allow::Dav,
        range: None,
    }
}

/// The page of a reply.
pub fn reply_told(alloc: Global, row: &str) -> Option<String> {
    match reply_of(alloc, row) {
        Some(reply) => made_of(alloc, reply, plain()),
        None => None,
    }
}

fn made_of(alloc: Global, reply: Reply, shape: Shape) -> Option<String>
    requires reply { HasPage reply }
    requires range { IfSome shape.range (λ span. IsTrue (is_span span)) }
{
    let made = page_of(alloc, &reply, &shape);
    drop(reply);
    made_told(alloc, made)
}

/// The page of a file with these bytes, where a range of it is asked for: `RANGE|BYTES`.
pub fn file_told(alloc: Global, row: &str) -> Option<String> {
    let (range, file) = row.split_once('|')?;
    let shape = Shape {
        bodyless: false,
        closing: false,
        allow: Allow::Dav,
        range: read_range(range.as_bytes()),
    };
    match Bytes::of(alloc, file.as_bytes()) {
        Ok(body) => made_of(alloc, Reply::File { body }, shape),
        Err(_) => None,
    }
}

/// The page of a method that is not allowed: whether its body is left away, whether its connection ends, and what takes
/// the request.
pub fn shape_told(alloc: Global, row: &str) -> Option<String> {
    let (bodyless, closing, allow) = match row {
        "head open discovery" => (true, false, Allow::Discovery),
        "whole closing post" => (false, true, Allow::Post),
        "head closing dav" => (true, true, Allow::Dav),
        _ => return None,
    };
    let shape = Shape {
        bodyless,
        closing,
        allow,
        range: None,
    };
    let why = Why::NotAllowed;
    made_of(alloc, Reply::Refused { why }, shape)
}

/// The page of a record's fault.
pub fn fault_told(alloc: Global, row: &str) -> Option<String> {
    match fault_of(row) {
        Some(fault) => made_told(alloc, fault_page(alloc, fault, &plain())),
        None => None,
    }
}

fn fault_of(words: &str) -> Option<RecordFault>
    ensures { IfSome result (λ fault. fault ≢ faults.NoMemory) }
{
    match words {
        "not-json" => Some(RecordFault::NotJson),
        "not-object" => Some(RecordFault::NotObject),
        "missing-provider-id" => Some(RecordFault::Missing(Field::ProviderId)),
        "kind-share-with" => Some(RecordFault::Kind(Field::ShareWith)),
        "value-serial" => Some(RecordFault::Value(Field::Serial)),
        "unsupported-share-type" => Some(RecordFault::Unsupported(Field::ShareType)),
        _ => None,
    }
}

/// The other pages of requests.
pub fn one_page_told(alloc: Global, row: &str) -> Option<String> {
    match row {
        "bad-depth" => made_told(alloc, message_page(alloc, 400, "bad depth", &plain())),
        "finite-depth" => made_told(alloc, finite_depth_page(alloc, &plain())),
        "discovery" => discovery_told(alloc),
        _ => None,
    }
}

fn discovery_told(alloc: Global) -> Option<String> {
    match Host::read(alloc, "a.example") {
        Ok(host) => {
            let made = discovery_page(alloc, &host, &plain());
            drop(host);
            made_told(alloc, made)
        }
        Err(_) => None,
    }
}
