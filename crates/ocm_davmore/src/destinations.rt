//! The destination of a COPY or a MOVE.

ghost use Rattle.std.specs.Prelude.{◌≡◌, ◌≢◌, ◌≤◌, length, None, Ok, Err, IfOk, IfErr, option_copied};
ghost use Rattle.url.specs.Parser.{parse_url};
ghost use Rattle.ocm_limits.specs.Limits.{most_asked_path_bytes};
ghost use Rattle.ocm_path.specs.Paths.{path_text};
ghost use Rattle.ocm_davmore.specs.Destinations as destinations;
ghost use Rattle.ocm_davmore.specs.Destinations.{Gives, destination_of};

use crate::addresses::is_ours;
use crate::faults::DestinationFault;
use ocm_path::{Path, PathFault};
use ocm_types::Host;
use std::alloc::Global;
use url::{ParseError, Url};

/// Reads the value of a `Destination` (RFC 4918 section 10.3) at the server with this host: the path
/// below its `/dav`.
///
/// What begins with `/` is a path, up to its first `?`. A value that is not UTF-8 has a path that is no text where it
/// begins with `/dav/`, and names another server else. Anything else is an address of `http` or
/// `https`, as the URL Standard reads it, whose host and port have to be this server's; a user name
/// and a password are passed over. The path has to be `/dav` or to begin with `/dav/`.
pub fn read_destination(alloc: Global, value: &[u8], host: &Host) -> Result<Path, DestinationFault>
    ensures ok { IfOk result (λ path. destination_of host.now value.now ≡ Ok path) }
    ensures err { IfErr result (λ fault. fault ≢ DestinationFault.NoMemory
        → destination_of host.now value.now ≡ Err fault) }
    ensures memory_apart { IfErr result (λ fault.
        fault ≢ DestinationFault.BadPath PathFault.NoMemory) }
    ensures within { IfOk result (λ path. length (path_text path) ≤ most_asked_path_bytes) }
{
    match str::from_utf8(value) {
        Ok(text) => read_text(alloc, text, host),
        Err(_) => Err(fault_without_text(value)),
    }
}

/// Why a value that is not UTF-8 names no path: its path is no text where it begins with `/dav/`, and else it is
/// another server's.
fn fault_without_text(value: &[u8]) -> DestinationFault
    ensures { result ≡ destinations.fault_without_text value.now }
{
    match value.strip_prefix(b"/dav/") {
        Some(_) => DestinationFault::BadPath(PathFault::NotText),
        None => DestinationFault::OtherServer,
    }
}

fn read_text(alloc: Global, text: &str, host: &Host) -> Result<Path, DestinationFault>
    ensures { Gives result (destinations.text_destination host.now text.now) }
{
    if begins_with_slash(text) {
        read_below(alloc, before_query(text))
    } else {
        read_address(alloc, text, host)
    }
}

/// Whether a request's target, or the value of a `Destination`, begins with `/`.
pub fn begins_with_slash(text: &str) -> bool
    ensures { result ≡ destinations.begins_with_slash text.now }
{
    match text.as_bytes() {
        [] => false,
        [first, ..] => *first == b'/',
    }
}

/// What stands before the first `?`; all, where there is none.
pub fn before_query(text: &str) -> &str
    ensures { result.now ≡ destinations.before_query text.now }
{
    match text.split_once('?') {
        Some((path, _)) => path,
        None => text,
    }
}

fn read_address(alloc: Global, text: &str, host: &Host) -> Result<Path, DestinationFault>
    ensures { Gives result (destinations.address_destination host.now (parse_url None text.now)) }
{
    let url = match Url::parse(alloc, text) {
        Ok(url) => url,
        Err(ParseError::OutOfMemory) => return Err(DestinationFault::NoMemory),
        Err(ParseError::Overflow) => return Err(DestinationFault::NoMemory),
        Err(_) => return Err(DestinationFault::OtherServer),
    };
    if !is_ours(alloc, &url, host)? {
        return Err(DestinationFault::OtherServer);
    }
    read_below(alloc, url.path())
}

/// What follows `/dav`, where the path is `/dav` or begins with `/dav/`.
pub fn below_dav(path: &str) -> Option<&str>
    ensures { option_copied result ≡ destinations.below_dav path.now }
{
    let rest = path.strip_prefix("/dav")?;
    if is_rest(rest) { Some(rest) } else { None }
}

fn is_rest(rest: &str) -> bool
    ensures { result ≡ destinations.is_rest rest.now }
{
    match rest.as_bytes() {
        [] => true,
        [first, ..] => *first == b'/',
    }
}

/// Reads a path of this server.
fn read_below(alloc: Global, path: &str) -> Result<Path, DestinationFault>
    ensures { Gives result (destinations.path_destination path.now) }
{
    let Some(rest) = below_dav(path) else {
        return Err(DestinationFault::OtherServer);
    };
    match Path::read(alloc, rest) {
        Ok(path) => Ok(path),
        Err(PathFault::NoMemory) => Err(DestinationFault::NoMemory),
        Err(fault) => Err(DestinationFault::BadPath(fault)),
    }
}
