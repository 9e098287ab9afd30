//! Exchanges, each in a thread of its own.
ghost use Rattle.std.specs.Prelude.{◌≤◌, IfOk, length};
ghost use Rattle.ocm_limits.specs.Limits.{most_exchange_bytes};

use crate::policy::{LONGEST_TIME, MOST_REPLY, time_of};
use ocm_base::{Bytes, NoMemory};
use ocm_net_flights::{Addresses, ExchangeFault, Limits, Peers, exchange_alone, name_and_port};
use ocm_net_waits::Bell;
use ocm_pump::DialEnd;
use std::alloc::Global;
use std::net::Net;
use std::sync::atomic::{AtomicU64, Ordering};
use std::sync::{Arc, OnceLock};
use std::thread::{Builder, Threads};

/// How often it is looked whether another waits for a seat whose time is up, in milliseconds.
pub const LOOK: u64 = 100;

/// How much a thread's stack has, in bytes. The system's resolver takes most of it.
const STACK: usize = 1_048_576;

/// What all seats share: the bell that is rung at each end, how many threads there are, and which peers are asked.
#[derive(Drop)]
pub struct Hall {
    bell: Arc<Bell, Global>,
    threads: Arc<AtomicU64, Global>,
    peers: Peers,
}

impl Hall {
    /// A hall with no thread.
    pub fn new(bell: Arc<Bell, Global>, threads: Arc<AtomicU64, Global>, peers: Peers) -> Hall {
        Hall {
            bell,
            threads,
            peers,
        }
    }

    /// How far an exchange may go by itself.
    fn limits(&self) -> Limits {
        Limits {
            most: MOST_REPLY,
            whole: LONGEST_TIME,
            is_by_rate: false,
            peers: self.peers,
        }
    }

    /// Whether there are fewer threads than so many, those among them that outlived their seats.
    pub fn has_room(&self, most: u64) -> bool {
        self.threads.load(Ordering::SeqCst) < most
    }
}

/// What a thread shares with the worker. Each holds it, so that a late thread is in nobody's way.
#[derive(Drop)]
struct Flown {
    bell: Arc<Bell, Global>,
    /// No longer 0 once nobody waits for the end.
    cut: AtomicU64,
    end: OnceLock<Result<Bytes, ExchangeFault>>,
}

/// Whose turn it is: a host of the schedule, in its lane, for a message.
#[derive(Clone, Copy)]
pub struct Seated {
    pub host: usize,
    pub lane: usize,
    pub message: u32,
    /// When the turn began, in milliseconds.
    pub begun: u64,
}

/// A turn that is under way, by an exchange in a thread.
#[derive(Drop)]
pub struct Seat {
    pub seated: Seated,
    flown: Arc<Flown, Global>,
}

/// Makes an exchange, and tells its end.
fn fly(
    alloc: Global,
    flown: &Flown,
    threads: &AtomicU64,
    host: &str,
    request: &Bytes,
    limits: Limits,
) {
    let addresses = match name_and_port(host) {
        Some((name, port)) => Addresses::look_up(name, port),
        None => Addresses::none(),
    };
    let reply = exchange_alone(alloc, &addresses, request, limits, &flown.cut);
    let _ = flown.end.try_set(reply);
    threads.fetch_sub(1, Ordering::SeqCst);
    flown.bell.ring();
}

impl Seat {
    /// Begins an exchange of a turn. Err where there is no memory, or the system has no room for a thread.
    pub fn begin<R: Threads + Net>(
        rt: &R,
        alloc: Global,
        hall: &Hall,
        seated: Seated,
        host: &str,
        request: Bytes,
    ) -> Result<Seat, NoMemory> {
        let flown = Flown {
            bell: Arc::try_clone(&hall.bell)?,
            cut: AtomicU64::new(0),
            end: OnceLock::new(),
        };
        let flown = Arc::new(alloc, flown)?;
        let theirs = Arc::try_clone(&flown)?;
        let threads = Arc::try_clone(&hall.threads)?;
        let host = String::from_str(alloc, host)?;
        let limits = hall.limits();
        hall.threads.fetch_add(1, Ordering::SeqCst);
        let stack = Builder::new().stack_size(STACK);
        let begun = stack.spawn(rt, move || {
            fly(alloc, &theirs, &threads, host.as_str(), &request, limits)
        });
        if begun.is_err() {
            hall.threads.fetch_sub(1, Ordering::SeqCst);
            return Err(NoMemory);
        }
        Ok(Seat { seated, flown })
    }

    /// Whether its exchange ended.
    pub fn has_landed(&self) -> bool {
        self.flown.end.get().is_some()
    }

    /// Whether no address of the host may be asked.
    pub fn is_refused(&self) -> bool {
        match self.flown.end.get() {
            Some(reply) => matches!(reply, Err(ExchangeFault::Refused)),
            None => false,
        }
    }

    /// What came back. Where its exchange did not end, it is cut, and failed.
    pub fn land(self) -> Result<Bytes, DialEnd> {
        let Seat { seated: _, flown } = self;
        flown.cut.store(1, Ordering::SeqCst);
        match flown.end.get() {
            Some(reply) => reply_of(reply),
            None => Err(DialEnd::Failed),
        }
    }

    /// When it is to be looked at again, though nothing comes, in milliseconds: once its time is up, and then now and again.
    pub fn due(&self, now: u64) -> u64 {
        let end = self.seated.begun.saturating_add(time_of(self.seated.lane));
        end.max(now.saturating_add(LOOK))
    }
}

/// What came back, once more.
fn reply_of(reply: &Result<Bytes, ExchangeFault>) -> Result<Bytes, DialEnd> {
    match reply {
        Ok(bytes) => bytes.copy().map_err(|_| DialEnd::NoMemory),
        Err(ExchangeFault::NoMemory) => Err(DialEnd::NoMemory),
        Err(_) => Err(DialEnd::Failed),
    }
}
