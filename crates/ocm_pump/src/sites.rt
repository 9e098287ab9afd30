ghost use Rattle.std.specs.Prelude.{◌≡◌, None, IfOk, string_bytes, option_copied};
ghost use Rattle.url.specs.Parser.{parse_url};
ghost use Rattle.ocm_pump.specs.Sites as sites;

use ocm_base::{NoMemory, Text};
use ocm_records::{Discovery, RecordFault, read_discovery};
use ocm_types::{AddressFault, Host};
use std::alloc::Global;
use url::{ParseError, Url};

/// Where a server takes letters and gives files, by its discovery document (Open Cloud Mesh API 1.1).
#[derive(Drop)]
pub struct Site {
    /// The host of its `endPoint`.
    pub host: Host,
    /// The path of its `endPoint`, without a `/` at the end.
    pub path: Text,
    /// The path of its WebDAV interface, without a `/` at the end.
    pub webdav: Text,
}

fn is_path_byte(b: u8) -> bool
    ensures { result ≡ sites.is_path_byte b }
{
    b.is_ascii_alphanumeric() || matches!(b, b'-' | b'.' | b'_' | b'~' | b'%' | b'/')
}

fn is_plain(path: &str) -> bool
    ensures { result ≡ sites.is_plain path.now }
{
    path.as_bytes().iter().all(|b| is_path_byte(*b))
}

/// A path without one `/` at its end.
fn without_slash(path: &str) -> &str
    ensures { result.now ≡ sites.without_slash path.now }
{
    path.strip_suffix("/").unwrap_or(path)
}

/// A host's name and, where an address has one, the port.
fn authority(alloc: Global, name: &str, port: Option<u16>) -> Result<String, NoMemory>
    ensures { IfOk result (λ text. string_bytes text ≡ sites.authority name.now port) }
{
    let mut text = String::from_str(alloc, name)?;
    if let Some(port) = port {
        text.push_str(":")?;
        text.push_str(port.to_string(alloc)?.as_str())?;
    }
    Ok(text)
}

/// The host that an address names, where it is one that a server may have.
fn host_in(alloc: Global, address: &Url) -> Result<Option<Host>, NoMemory>
    ensures { IfOk result (λ host. host ≡ sites.host_in address.now) }
{
    let Some(name) = address.host_str() else {
        return Ok(None);
    };
    let text = authority(alloc, name, address.port())?;
    match Host::read(alloc, text.as_str()) {
        Ok(host) => Ok(Some(host)),
        Err(AddressFault::NoMemory) => Err(NoMemory),
        Err(_) => Ok(None),
    }
}

/// Whether an address is one of `http` with a plain path.
fn is_taken(address: &Url) -> bool
    ensures { result ≡ sites.is_taken address.now }
{
    address.scheme() == "http" && is_plain(address.path())
}

/// The site at an address.
fn site_on(alloc: Global, address: &Url, webdav: &str) -> Result<Option<Site>, NoMemory>
    ensures { IfOk result (λ site. site ≡ sites.site_on webdav.now address.now) }
{
    if !is_taken(address) {
        return Ok(None);
    }
    let Some(host) = host_in(alloc, address)? else {
        return Ok(None);
    };
    let path = Text::of(alloc, without_slash(address.path()))?;
    let webdav = Text::of(alloc, without_slash(webdav))?;
    Ok(Some(Site { host, path, webdav }))
}

/// The site at an end point.
fn site_at(alloc: Global, end_point: &str, webdav: &str) -> Result<Option<Site>, NoMemory>
    ensures { IfOk result (λ site. site ≡ sites.site_at webdav.now (parse_url None end_point.now)) }
{
    match Url::parse(alloc, end_point) {
        Ok(address) => site_on(alloc, &address, webdav),
        Err(ParseError::OutOfMemory | ParseError::Overflow) => Err(NoMemory),
        Err(_) => Ok(None),
    }
}

/// The site of a usable document.
fn site_of(alloc: Global, document: &Discovery) -> Result<Option<Site>, NoMemory>
    ensures { IfOk result (λ site. site ≡ sites.site_of document.now) }
{
    if !document.enabled {
        return Ok(None);
    }
    let Some(webdav) = &document.webdav else {
        return Ok(None);
    };
    if !is_plain(webdav.as_str()) {
        return Ok(None);
    }
    site_at(alloc, document.end_point.as_str(), webdav.as_str())
}

/// The site of the usable document that bytes are.
pub fn site_read(alloc: Global, bytes: &[u8]) -> Result<Option<Site>, NoMemory>
    ensures { IfOk result (λ site. site ≡ sites.site_read bytes.now) }
{
    match read_discovery(alloc, bytes) {
        Ok(document) => site_of(alloc, &document),
        Err(RecordFault::NoMemory) => Err(NoMemory),
        Err(_) => Ok(None),
    }
}
