//! What other servers post (Open Cloud Mesh API 1.1).

ghost use Rattle.std.specs.Prelude.{◌≡◌, None, IfOk};
ghost use Rattle.ocm_records.specs.Notices.{notice};
ghost use Rattle.ocm_records.specs.Offers.{offer};
ghost use Rattle.ocm_records.specs.Rows.{record_of};
ghost use Rattle.ocm_dav.specs.Posts as posts;

use crate::refusals::{bad_record, refusal};
use crate::wants::Wanted;
use ocm_base::{Bytes, NoMemory};
use ocm_dav_pages::{Page, Shape, message_page};
use ocm_entry::{Ask, Why};
use ocm_limits::MOST_JSON_BYTES;
use ocm_records::{read_notice, read_offer};
use ocm_types::Fresh;
use std::alloc::Global;

/// The refusal of a request at a route of POST that is no POST, or has too long a body.
pub(crate) fn post_refusal(
    alloc: Global,
    method: &str,
    body: &Bytes,
    shape: &Shape,
) -> Result<Option<Page>, NoMemory>
    requires { shape.now.range ≡ None }
    ensures { IfOk result (λ page. page ≡ posts.post_refusal method.now body.now shape.now) }
{
    if method != "POST" {
        let page = refusal(alloc, Why::NotAllowed, shape)?;
        return Ok(Some(page));
    }
    if body.len() > MOST_JSON_BYTES {
        let page = message_page(alloc, 400, "body too long", shape)?;
        return Ok(Some(page));
    }
    Ok(None)
}

/// What a request at the route of shares wants.
pub(crate) fn shares_wanted(
    alloc: Global,
    method: &str,
    body: &Bytes,
    shape: Shape,
) -> Result<Wanted, NoMemory>
    requires { shape.range ≡ None }
    ensures { IfOk result (λ wanted. wanted ≡ posts.shares_wanted method.now body.now shape) }
{
    match post_refusal(alloc, method, body, &shape) {
        Ok(Some(page)) => Ok(Wanted::Page(page)),
        Ok(None) => offer_wanted(alloc, body.as_slice(), shape),
        Err(NoMemory) => Err(NoMemory),
    }
}

fn offer_wanted(alloc: Global, body: &[u8], shape: Shape) -> Result<Wanted, NoMemory>
    ensures { IfOk result (λ wanted. wanted ≡ posts.offer_wanted shape (record_of offer body.now)) }
{
    match read_offer(alloc, body) {
        Ok(offer) => Ok(Wanted::Ask(Ask::Offer { offer }, shape)),
        Err(fault) => bad_record(alloc, fault, &shape),
    }
}

/// What a request at the route of notifications wants, with these drawn bytes.
pub(crate) fn notifications_wanted(
    alloc: Global,
    method: &str,
    body: &Bytes,
    fresh: Fresh,
    shape: Shape,
) -> Result<Wanted, NoMemory>
    requires { shape.range ≡ None }
    ensures { IfOk result (λ wanted. wanted
        ≡ posts.notifications_wanted method.now body.now fresh shape) }
{
    match post_refusal(alloc, method, body, &shape) {
        Ok(Some(page)) => Ok(Wanted::Page(page)),
        Ok(None) => notice_wanted(alloc, body.as_slice(), fresh, shape),
        Err(NoMemory) => Err(NoMemory),
    }
}

fn notice_wanted(alloc: Global, body: &[u8], fresh: Fresh, shape: Shape) -> Result<Wanted, NoMemory>
    ensures { IfOk result (λ wanted. wanted
        ≡ posts.notice_wanted fresh shape (record_of notice body.now)) }
{
    match read_notice(alloc, body) {
        Ok(notice) => Ok(Wanted::Ask(Ask::Notice { notice, fresh }, shape)),
        Err(fault) => bad_record(alloc, fault, &shape),
    }
}
