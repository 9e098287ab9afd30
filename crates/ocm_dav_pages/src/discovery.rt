//! What the server says of itself.

ghost use Rattle.std.specs.Prelude.{◌≡◌, IfOk};
ghost use Rattle.ocm_dav_pages.specs.Pages as pages;

use crate::shapes::{Page, Shape};
use crate::writing::json_page;
use ocm_base::{NoMemory, Text};
use ocm_records::{Discovery, write_discovery};
use ocm_types::Host;
use std::alloc::Global;

fn document(alloc: Global, host: &Host) -> Result<Discovery, NoMemory>
    ensures { IfOk result (λ document. document ≡ pages.document_of host.now) }
{
    let mut end_point = String::from_str(alloc, "http://")?;
    end_point.push_str(host.as_str())?;
    end_point.push_str("/ocm")?;
    let version = Text::of(alloc, "1.1.0")?;
    let webdav = Text::of(alloc, "/dav/")?;
    Ok(Discovery {
        enabled: true,
        version,
        end_point: Text::from_string(end_point),
        webdav: Some(webdav),
    })
}

/// The page of the discovery document of this host (Open Cloud Mesh API 1.1): 200.
#[tactic(auto, using(crate::proofs::DocumentLaws::document_is_discovery), unfolding(crate::specs::Pages::discovery_page))]
pub fn discovery_page(alloc: Global, host: &Host, shape: &Shape) -> Result<Page, NoMemory>
    ensures { IfOk result (λ page. page ≡ pages.discovery_page host.now shape.now) }
{
    let _canonical = host.text();
    let document = document(alloc, host)?;
    let text = write_discovery(alloc, &document)?;
    json_page(alloc, 200, &text, shape)
}
