//! Which addresses a server's peers may have.
ghost use Rattle.std.specs.Prelude.{◌≡◌, true, length};
ghost use Rattle.ocm_net_flights.specs.Peers as peers;
ghost use Rattle.ocm_net_flights.specs.Peers.{IsLocalName};

use libc::net::{AF_INET, AF_INET6};
use os::RawAddr;
use std::net::Ipv4Addr;

/// How an address of IPv4 begins as one of IPv6 (RFC 4291 section 2.5.5.2).
const MAPPED: [u8; 12] = [0, 0, 0, 0, 0, 0, 0, 0, 0, 0, 255, 255];

/// How an address of IPv4 begins behind a translator (RFC 6052 section 2.1).
const TRANSLATED: [u8; 12] = [0, 100, 255, 155, 0, 0, 0, 0, 0, 0, 0, 0];

/// Which peers are asked, by their addresses.
#[derive(Clone, Copy, Debug, PartialEq, Eq)]
pub enum Peers {
    /// Any.
    Any,
    /// Those with an address that may be anybody's: neither unspecified nor loopback, private, link-local or unique local.
    Public,
}

/// Whether an address of IPv4 with these first two octets is of its own machine or network alone: unspecified, loopback (RFC
/// 1122 section 3.2.1.3), private (RFC 1918 section 3) or link-local (RFC 3927 section 2.1).
fn is_local_v4(a: u8, b: u8) -> bool
    ensures { result ≡ peers.is_local_v4 a b }
{
    a == 0
        || a == 127
        || a == 10
        || (a == 172 && (16 <= b && b <= 31))
        || (a == 192 && b == 168)
        || (a == 169 && b == 254)
}

/// Whether the octets of an address of IPv6 are of its own machine or network alone: unspecified or loopback (RFC 4291 sections
/// 2.5.2 and 2.5.3), link-local (section 2.5.6), unique local (RFC 4193 section 3.1), or those of such an address of IPv4.
fn is_local_v6(octets: &[u8]) -> bool
    requires { length octets.now ≡ 16 }
    ensures { result ≡ peers.is_local_v6 octets.now }
{
    octets[0] == 0xfc
        || octets[0] == 0xfd
        || (octets[0] == 0xfe && (0x80 <= octets[1] && octets[1] <= 0xbf))
        || octets.starts_with(&[0; 12])
        || ((octets.starts_with(&MAPPED) || octets.starts_with(&TRANSLATED))
            && is_local_v4(octets[12], octets[13]))
}

/// Whether an address may be anybody's.
fn is_public(address: &RawAddr) -> bool
    ensures { result ≡ peers.is_public address.now.bytes }
{
    let bytes = &address.bytes;
    let family = i32::from(u16::from_ne_bytes([bytes[0], bytes[1]]));
    if family == AF_INET {
        !is_local_v4(bytes[4], bytes[5])
    } else if family == AF_INET6 {
        !is_local_v6(&bytes[8..24])
    } else {
        false
    }
}

impl Peers {
    /// Whether a peer may have this address.
    pub fn allows(self, address: &RawAddr) -> bool
        ensures { result ≡ peers.allows self address.now.bytes }
    {
        match self {
            Peers::Any => true,
            Peers::Public => is_public(address),
        }
    }
}

/// Whether a name is `localhost` or below it (RFC 6761 section 6.3).
fn is_localhost(name: &str) -> bool
    ensures { result ≡ peers.is_localhost name.now }
{
    name == "localhost" || name.as_bytes().ends_with(b".localhost")
}

/// Whether a name is of its own machine or network alone: `localhost`, a name below it, or such an address of IPv4. A name
/// that has to be looked up is none of them.
fn is_local_name(name: &str) -> bool
    ensures { result ≡ true → IsLocalName name.now }
{
    match name.parse::<Ipv4Addr>() {
        Ok(address) => {
            let octets = address.octets();
            is_local_v4(octets[0], octets[1])
        }
        Err(_) => is_localhost(name),
    }
}

/// Whether the name of a host, its port aside, is of its own machine or network alone.
pub fn is_local_host(host: &str) -> bool {
    match host.split_once(':') {
        Some((name, _)) => is_local_name(name),
        None => is_local_name(host),
    }
}
