//! Hosts by name and port, and their addresses.
ghost use Rattle.std.specs.Prelude.{◌≡◌, true, IfSome};
ghost use Rattle.ocm_net_flights.specs.Peers.{allows};

use crate::peers::Peers;
use libc::net::{AF_INET, AF_INET6, SOCK_CLOEXEC, SOCK_NONBLOCK, SOCK_STREAM, connect, socket};
use ocm_net_waits::owned;
use os::RawAddr;
use std::net::TcpStream;
use std::os::fd::AsRawFd;

/// The port of a host that names none.
const PORT: u16 = 80;

/// How many addresses of a host are tried at most.
pub const MOST_ADDRESSES: usize = 4;

/// No address.
const NOWHERE: RawAddr = RawAddr {
    bytes: [0; 128],
    len: 0,
};

/// The addresses of a host, each with its port.
#[derive(Clone, Copy)]
pub struct Addresses {
    found: [RawAddr; MOST_ADDRESSES],
    count: usize,
}

impl Addresses {
    /// No address.
    pub fn none() -> Addresses {
        Addresses {
            found: [NOWHERE; MOST_ADDRESSES],
            count: 0,
        }
    }

    /// The address of a place, counted from 0.
    pub fn at(&self, place: usize) -> Option<&RawAddr> {
        if place < self.count {
            self.found.get(place)
        } else {
            None
        }
    }

    /// The first addresses of a name, by the system's resolver, each with this port. None where there are none. It waits
    /// for the network, unless the name is an address.
    pub fn look_up(name: &str, port: u16) -> Addresses {
        let mut found = [NOWHERE; MOST_ADDRESSES];
        let count = os::lookup_host(name.as_bytes(), &mut found);
        let [high, low] = port.to_be_bytes();
        for address in found.iter_mut() {
            address.bytes[2] = high;
            address.bytes[3] = low;
        }
        Addresses {
            found,
            count: usize::try_from(count).unwrap_or(0),
        }
    }
}

/// A host's name and port. None where the port is no number.
pub fn name_and_port(host: &str) -> Option<(&str, u16)> {
    match host.split_once(':') {
        Some((name, port)) => Some((name, port.parse().ok()?)),
        None => Some((host, PORT)),
    }
}

/// A socket for an address, which waits for nothing.
fn socket_for(address: &RawAddr) -> Option<TcpStream> {
    let kind = SOCK_STREAM | SOCK_NONBLOCK | SOCK_CLOEXEC;
    let family = i32::from(u16::from_ne_bytes([address.bytes[0], address.bytes[1]]));
    let fd = if family == AF_INET {
        unsafe { socket(AF_INET, kind, 0) }
    } else {
        unsafe { socket(AF_INET6, kind, 0) }
    };
    owned(fd).ok().map(TcpStream::from)
}

/// Begins to connect to an address. None where that fails at once, and where these peers may not have it.
pub fn begin_connect(address: &RawAddr, peers: Peers) -> Option<TcpStream>
    ensures { IfSome result (λ _. allows peers address.now.bytes ≡ true) }
{
    if address.len > 128 || !peers.allows(address) {
        return None;
    }
    let stream = socket_for(address)?;
    let begun = unsafe { connect(stream.as_raw_fd(), &address.bytes, address.len) };
    if begun < 0 && os::errno() != libc::EINPROGRESS {
        return None;
    }
    let _ = stream.set_nodelay(true);
    Some(stream)
}
