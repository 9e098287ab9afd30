//! Exchanges over real sockets.

use crate::peers::{answer_all, knock};
use ocm_base::Bytes;
use ocm_cases_rows::escaped;
use ocm_net_adapters::ClientDial;
use ocm_pump::{Dial, DialEnd};
use ocm_types::Host;
use std::alloc::Global;
use std::io::Eprint;
use std::net::{Net, SocketAddr, TcpListener, TcpStream};
use std::sync::Wait;
use std::thread::{Threads, join};
use std::time;

/// What is sent.
const REQUEST: &[u8] = b"GET / HTTP/1.1\r\nHost: a.example\r\n\r\n";

/// What a client's exchanges come to with a peer that answers, and with its port behind its end.
pub fn exchanges_told<
    R: Threads
        + Wait
        + Sync
        + time::Clock
        + Eprint
        + Net<Listener = TcpListener, Stream = TcpStream>,
>(rt: &R, alloc: Global) -> Option<String> {
    let listener = TcpListener::bind(rt, "127.0.0.1:0").ok()?;
    let address = listener.local_addr().ok()?;
    let host = host_at(alloc, address)?;
    let ((), answered) = join(
        rt,
        || answer_all(&listener),
        || {
            let told = exchange_told(rt, alloc, &host);
            let _ = knock(rt, address);
            told
        },
    );
    drop(listener);
    let unheard = exchange_told(rt, alloc, &host);
    let (answered, unheard) = answered.zip(unheard)?;
    format!(in alloc; "{}; {}", answered.as_str(), unheard.as_str()).ok()
}

/// The host that an address names.
pub fn host_at(alloc: Global, address: SocketAddr) -> Option<Host> {
    let text = format!(in alloc; "{address}").ok()?;
    let host = Host::read(alloc, text.as_str());
    drop(text);
    host.ok()
}

/// What an exchange comes to, by a dial of its own.
fn exchange_told<R: Threads + Wait + time::Clock + Eprint + Net>(
    rt: &R,
    alloc: Global,
    host: &Host,
) -> Option<String> {
    let request = Bytes::of(alloc, REQUEST).ok()?;
    match ClientDial::new(rt).exchange(alloc, host, &request) {
        Ok(reply) => escaped(alloc, reply.as_slice()),
        Err(DialEnd::Failed) => String::from_str(alloc, "failed").ok(),
        Err(DialEnd::NoMemory) => None,
    }
}
