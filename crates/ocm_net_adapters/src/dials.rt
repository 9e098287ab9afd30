ghost use Rattle.std.specs.Prelude.{◌≡◌, ◌≤◌, Some, true, false, Err, IfOk, length};
ghost use Rattle.ocm_base.specs.Outside.{Rose};
ghost use Rattle.ocm_limits.specs.Limits.{most_exchange_bytes};
ghost use Rattle.ocm_net_adapters.specs.Dials.{nothing_told};

use crate::dial_books::DialBook;
use ocm_base::Bytes;
use ocm_limits::MOST_EXCHANGE_BYTES;
use ocm_net_flights::{Addresses, ExchangeFault, Limits, Peers, exchange_alone, name_and_port};
use ocm_pump::{Dial, DialEnd};
use ocm_types::Host;
use std::alloc::Global;
use std::net::Net;
use std::sync::Wait;
use std::sync::atomic::AtomicU64;
use std::time;

/// How far a client's exchange may go, with any peer: 33,619,968 bytes, in 5.5 s and a millisecond for each four bytes that
/// moved.
const LIMITS: Limits = Limits {
    most: MOST_EXCHANGE_BYTES,
    whole: 5_500,
    is_by_rate: true,
    peers: Peers::Any,
};

/// Makes an exchange with a host, and waits for its end. A host that names no port has port 80.
fn exchange(alloc: Global, host: &str, request: &Bytes) -> Result<Bytes, ExchangeFault>
    ensures { IfOk result (λ reply. length reply ≤ most_exchange_bytes) }
{
    let Some((name, port)) = name_and_port(host) else {
        return Err(ExchangeFault::Failed);
    };
    let addresses = Addresses::look_up(name, port);
    exchange_alone(alloc, &addresses, request, LIMITS, &AtomicU64::new(0))
}

/// A client's exchanges over TCP, each on a connection of its own and awaited to its end, with limits of time. It asks any
/// host, wherever that is, and tells its exchanges.
pub struct ClientDial<'a, R: Wait + time::Clock + Net> {
    rt: &'a R,
    book: DialBook,
}

impl<R: Wait + time::Clock + Net> Drop for ClientDial<'_, R> {
    fn drop(self) {
        let ClientDial { rt: _, book: _ } = self;
    }
}

impl<'a, R: Wait + time::Clock + Net> ClientDial<'a, R> {
    /// A dial with no fault so far.
    pub fn new(rt: &'a R) -> ClientDial<'a, R>
        ensures { result.book ≡ nothing_told }
    {
        ClientDial {
            rt,
            book: DialBook::new(),
        }
    }
}

impl<'a, R: Wait + time::Clock + Net> Dial for ClientDial<'a, R> {
    ghost exchanges = { λ d. Some d.book.exchanges };

    ghost faults = { λ d. d.book.faults };

    ghost delivers = { λ _. true };

    ghost told = { λ d. Some d.book.told };

    fn delivers(&self) -> bool {
        true
    }

    #[tactic(auto, using(crate::proofs::Exchanging::adds_one))]
    fn exchange(&mut self, alloc: Global, host: &Host, request: &Bytes) -> Result<Bytes, DialEnd> {
        let came = exchange(alloc, host.as_str(), request);
        self.book.end(host, request, came)
    }

    fn came(&mut self, host: &Host, settles: bool) {
        self.book.hear(host, settles);
    }
}
