//! The pages of requests that ask nothing.

ghost use Rattle.std.specs.Prelude.{◌≡◌, ◌≤◌, length, IfOk, IsErr, None};
ghost use Rattle.ocm_entry.specs.declared.replies.Reply.TheVariants as replies;
ghost use Rattle.ocm_dav_pages.specs.Pages as pages;
ghost use Rattle.ocm_dav.specs.Refusals as refusals;

use crate::paths::path_message;
use crate::wants::Wanted;
use ocm_base::NoMemory;
use ocm_dav_pages::{Page, Shape, fault_page, finite_depth_page, message_page, page_of};
use ocm_entry::{Reply, Why};
use ocm_path::PathFault;
use ocm_records::RecordFault;
use std::alloc::Global;

/// The page of a reply that refuses.
pub(crate) fn refusal(alloc: Global, why: Why, shape: &Shape) -> Result<Page, NoMemory>
    requires { shape.now.range ≡ None }
    ensures { IfOk result (λ page. page ≡ pages.page_of (replies.Refused why) shape.now) }
{
    let reply = Reply::Refused { why };
    let page = page_of(alloc, &reply, shape);
    drop(reply);
    page
}

/// The refusal of a reply.
pub(crate) fn refused(alloc: Global, why: Why, shape: &Shape) -> Result<Wanted, NoMemory>
    requires { shape.now.range ≡ None }
    ensures { IfOk result (λ wanted. wanted ≡ refusals.refused why shape.now) }
{
    let page = refusal(alloc, why, shape)?;
    Ok(Wanted::Page(page))
}

/// A refusal with the status 400 that these words tell.
pub(crate) fn bad_request(alloc: Global, message: &str, shape: &Shape) -> Result<Wanted, NoMemory>
    requires { length message.now ≤ 1024 }
    ensures { IfOk result (λ wanted. wanted ≡ refusals.told 400 message.now shape.now) }
{
    let page = message_page(alloc, 400, message, shape)?;
    Ok(Wanted::Page(page))
}

/// The refusal of a destination at another server: 502 (RFC 4918 section 9.8.5).
pub(crate) fn other_server(alloc: Global, shape: &Shape) -> Result<Wanted, NoMemory>
    ensures { IfOk result (λ wanted. wanted ≡ refusals.other_server shape.now) }
{
    let page = message_page(alloc, 502, "other server", shape)?;
    Ok(Wanted::Page(page))
}

/// The refusal of a command that a page of another site posts: 403 (RFC 9110 section 15.5.4).
pub(crate) fn cross_site(alloc: Global, shape: &Shape) -> Result<Wanted, NoMemory>
    ensures { IfOk result (λ wanted. wanted ≡ refusals.cross_site shape.now) }
{
    let page = message_page(alloc, 403, "cross site", shape)?;
    Ok(Wanted::Page(page))
}

/// The refusal of a path.
pub(crate) fn bad_path(alloc: Global, fault: PathFault, shape: &Shape) -> Result<Wanted, NoMemory>
    ensures { IfOk result (λ wanted. wanted ≡ refusals.bad_path fault shape.now) }
{
    bad_request(alloc, path_message(fault), shape)
}

/// The refusal of a record, unless there was no memory for it.
pub(crate) fn bad_record(
    alloc: Global,
    fault: RecordFault,
    shape: &Shape,
) -> Result<Wanted, NoMemory>
    ensures wanted { IfOk result (λ wanted. wanted ≡ refusals.bad_record fault shape.now) }
    ensures memory { fault ≡ RecordFault.NoMemory → IsErr result }
{
    if fault == RecordFault::NoMemory {
        return Err(NoMemory);
    }
    let page = fault_page(alloc, fault, shape)?;
    Ok(Wanted::Page(page))
}

/// The refusal of a PROPFIND whose depth is not finite: 403 (RFC 4918 section 9.1).
pub(crate) fn not_finite(alloc: Global, shape: &Shape) -> Result<Wanted, NoMemory>
    ensures { IfOk result (λ wanted. wanted ≡ refusals.not_finite shape.now) }
{
    let page = finite_depth_page(alloc, shape)?;
    Ok(Wanted::Page(page))
}
