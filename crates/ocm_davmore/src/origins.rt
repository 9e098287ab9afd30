//! The origin of a page that a browser names in a request.

ghost use Rattle.std.specs.Prelude.{◌≡◌, None, IfOk};
ghost use Rattle.url.specs.Parser.{parse_url};
ghost use Rattle.ocm_davmore.specs.Destinations as destinations;

use crate::addresses::is_ours;
use ocm_base::NoMemory;
use ocm_types::Host;
use std::alloc::Global;
use url::{ParseError, Url};

/// Whether the value of an `Origin` (RFC 6454 section 7) is an address of `http` or `https` whose host
/// and port are this server's. `null` and what is not UTF-8 are none.
pub fn is_own_origin(alloc: Global, value: &[u8], host: &Host) -> Result<bool, NoMemory>
    ensures { IfOk result (λ own. own ≡ destinations.is_own_origin host.now value.now) }
{
    match str::from_utf8(value) {
        Ok(text) => is_own_address(alloc, text, host),
        Err(_) => Ok(false),
    }
}

fn is_own_address(alloc: Global, text: &str, host: &Host) -> Result<bool, NoMemory>
    ensures { IfOk result (λ own. own
        ≡ destinations.is_own_read host.now (parse_url None text.now)) }
{
    match Url::parse(alloc, text) {
        Ok(url) => is_ours(alloc, &url, host),
        Err(ParseError::OutOfMemory) => Err(NoMemory),
        Err(ParseError::Overflow) => Err(NoMemory),
        Err(_) => Ok(false),
    }
}
