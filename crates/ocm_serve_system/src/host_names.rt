//! What other programs make of a server's host.

use ocm_types::Host;
use std::alloc::Global;
use std::io::Eprint;
use url::{ParseError, Url};

/// How other programs read the name of a host, by the URL Standard.
#[derive(Drop)]
enum Reading {
    /// As it stands.
    AsItStands,
    /// As another name: one that ends in a number is an IPv4 address.
    As(String),
    /// Not at all.
    NotAtAll,
}

/// The name of a host, without its port.
fn name_of(host: &str) -> &str {
    match host.split_once(':') {
        Some((name, _)) => name,
        None => host,
    }
}

/// How other programs read a name. None where there is no memory to find out.
fn read_elsewhere(alloc: Global, name: &str) -> Option<Reading> {
    let address = format!(in alloc; "http://{name}/").ok()?;
    match Url::parse(alloc, address.as_str()) {
        Ok(url) => match url.host_str() {
            Some(other) if other == name => Some(Reading::AsItStands),
            Some(other) => Some(Reading::As(String::from_str(alloc, other).ok()?)),
            None => Some(Reading::NotAtAll),
        },
        Err(ParseError::OutOfMemory | ParseError::Overflow) => None,
        Err(_) => Some(Reading::NotAtAll),
    }
}

/// Tells an administrator where other programs read the name of the host as another, or not at all: messages to it
/// would go elsewhere.
pub fn tell_host<R: Eprint>(rt: &R, alloc: Global, host: &Host) {
    let name = name_of(host.as_str());
    match read_elsewhere(alloc, name) {
        Some(Reading::As(other)) => {
            let _ = eprintln!(rt;
                "ocmd: other programs read the host {name} as {}: use that name",
                other.as_str()
            );
        }
        Some(Reading::NotAtAll) => {
            let _ = eprintln!(rt;
                "ocmd: other programs cannot read the host {name}, so no message reaches it"
            );
        }
        Some(Reading::AsItStands) | None => {}
    }
}
