//! Whether an address is one of this server.

ghost use Rattle.std.specs.Prelude.{◌≡◌, ◌||◌, IfOk, bytes_eq, codes, string_bytes};
ghost use Rattle.ocm_davmore.specs.Destinations as destinations;

use ocm_base::NoMemory;
use ocm_types::{AddressFault, Host};
use std::alloc::Global;
use url::Url;

/// The host and, where an address has one, the port.
fn authority(alloc: Global, name: &str, port: Option<u16>) -> Result<String, NoMemory>
    ensures { IfOk result (λ text. string_bytes text ≡ destinations.authority name.now port) }
{
    let mut text = String::from_str(alloc, name)?;
    if let Some(port) = port {
        text.push_str(":")?;
        text.push_str(port.to_string(alloc)?.as_str())?;
    }
    Ok(text)
}

/// Whether a host and a port are ours, as a host is read.
fn names_host(alloc: Global, name: &str, port: Option<u16>, ours: &Host) -> Result<bool, NoMemory>
    ensures { IfOk result (λ same. same ≡ destinations.names_host ours.now name.now port) }
{
    let text = authority(alloc, name, port)?;
    match Host::read(alloc, text.as_str()) {
        Ok(host) => Ok(host.as_str() == ours.as_str()),
        Err(AddressFault::NoMemory) => Err(NoMemory),
        Err(_) => Ok(false),
    }
}

fn is_web(scheme: &str) -> bool
    ensures { result ≡ destinations.is_web scheme.now }
{
    scheme == "http" || scheme == "https"
}

/// Whether an address is one of `http` or `https` with our host.
pub fn is_ours(alloc: Global, url: &Url, ours: &Host) -> Result<bool, NoMemory>
    ensures { IfOk result (λ same. same ≡ destinations.is_ours ours.now url.now) }
{
    if !is_web(url.scheme()) {
        return Ok(false);
    }
    match url.host_str() {
        Some(name) => names_host(alloc, name, url.port(), ours),
        None => Ok(false),
    }
}
