//! The site that a request comes from, as a browser tells it.

ghost use Rattle.std.specs.Prelude.{◌≡◌, IfOk, codes, false};
ghost use Rattle.std.specs.Option.{option_map_or};
ghost use Rattle.ocm_dav.specs.Fields as values;
ghost use Rattle.ocm_dav.specs.Sites as sites;

use crate::fields::{are_bytes, first_value};
use ocm_base::NoMemory;
use ocm_davmore::is_own_origin;
use ocm_http::Field;
use ocm_types::Host;
use std::alloc::Global;

/// Whether the first `sec-fetch-site` field (Fetch Metadata Request Headers section 2.3) or the first
/// `origin` field (RFC 6454 section 7) tells that a request to this host comes from another site.
pub(crate) fn is_cross_site(alloc: Global, host: &Host, fields: &[Field]) -> Result<bool, NoMemory>
    ensures { IfOk result (λ crosses. crosses ≡ sites.is_cross_site host.now fields.now) }
{
    if tells_other_site(fields) {
        return Ok(true);
    }
    tells_other_origin(alloc, host, fields)
}

fn is_other_site(site: &[u8]) -> bool
    ensures { result ≡ sites.is_other_site site.now }
{
    !(are_bytes(site, b"same-origin") || are_bytes(site, b"none"))
}

fn tells_other_site(fields: &[Field]) -> bool
    ensures { result ≡ option_map_or sites.is_other_site
        (values.first_value (codes "sec-fetch-site") fields.now) false }
{
    match first_value(fields, "sec-fetch-site") {
        Some(site) => is_other_site(site),
        None => false,
    }
}

fn tells_other_origin(alloc: Global, host: &Host, fields: &[Field]) -> Result<bool, NoMemory>
    ensures { IfOk result (λ other. other ≡ option_map_or (sites.is_other_origin host.now)
        (values.first_value (codes "origin") fields.now) false) }
{
    match first_value(fields, "origin") {
        Some(origin) => {
            let own = is_own_origin(alloc, origin, host)?;
            Ok(!own)
        }
        None => Ok(false),
    }
}
