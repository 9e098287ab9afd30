//! The listening socket, and how what it accepts is shared among workers.
use crate::seats::{Accepted, Seat};
use libc::net::EPOLLIN;
use libc::{EMFILE, ENOMEM};
use ocm_net_waits::{Bell, Set};
use std::alloc::Global;
use std::collections::hash_map::DefaultHasher;
use std::hash::Hasher;
use std::io;
use std::io::ErrorKind;
use std::net::{IpAddr, Net, SocketAddr, TcpListener, TcpStream};
use std::os::fd::{AsRawFd, OwnedFd};
use std::sync::atomic::{AtomicU64, Ordering};
use std::sync::{Arc, Mutex, Wait};
use std::time::Duration;

/// How long a read or a write that lingers waits, in milliseconds.
const LINGER: u64 = 2;

/// How many connections the system keeps at most until they are accepted. The standard library asks for 128, which a burst
/// overruns.
const QUEUE: i32 = 4_096;

/// How many bytes all connections hold beyond which each worker has to keep to its part of as many, of messages that are
/// not whole and of pages that are not sent. So all hold twice as many at most.
const MOST_HELD: u64 = 67_108_864;

/// That one set of those that have the descriptor is told, and not each.
const EPOLLEXCLUSIVE: u32 = 1 << 28;

/// The system's table of open files is full.
const ENFILE: i32 = 23;

/// The system has no room for buffers.
const ENOBUFS: i32 = 105;

/// How many connections are served, and how long they may rest.
#[derive(Clone, Copy)]
pub struct Limits {
    /// How many workers there are, at least one.
    pub workers: u32,
    /// How many connections each worker serves, 0 for no end.
    pub connections: u64,
    /// How many are open at a time. Beyond them the address with the most of a worker's that wait loses its oldest.
    pub open: u64,
    /// How long one rests between two messages, in milliseconds.
    pub rest: u64,
    /// Nobody outside knows it: addresses are told apart by their hash with it.
    pub key: u64,
}

/// What came of accepting a connection.
pub enum Arrival {
    /// One that this worker is to serve. It was counted.
    Own(Accepted),
    /// One that can't be had, or that another worker was given.
    Passed,
    /// None waits, or none is accepted any more.
    Nothing,
    /// One waits, and there is no descriptor or memory for it.
    Full,
}

/// The listening socket of all workers, and what they know of one another.
pub struct Entrance {
    listener: Mutex<Option<TcpListener>>,
    seats: Vec<Seat>,
    /// Is rung behind the page of each post, and ends once no connection will be served any more.
    posts: Arc<Bell>,
    held: AtomicU64,
    ended: AtomicU64,
    limits: Limits,
    address: SocketAddr,
}

impl Drop for Entrance {
    fn drop(self) {
        let Entrance {
            listener: _,
            seats: _,
            posts: _,
            held: _,
            ended: _,
            limits: _,
            address: _,
        } = self;
    }
}

/// A listener that doesn't wait, and whose accepted streams have these options from it.
fn with_options(listener: TcpListener) -> io::Result<TcpListener> {
    let _ = libc::net::listen(listener.as_raw_fd(), QUEUE);
    let stream = TcpStream::from(OwnedFd::from(listener));
    stream.set_nodelay(true)?;
    stream.set_read_timeout(Some(Duration::from_millis(LINGER)))?;
    stream.set_write_timeout(Some(Duration::from_millis(LINGER)))?;
    stream.set_nonblocking(true)?;
    Ok(TcpListener::from(OwnedFd::from(stream)))
}

/// The workers, without connections.
fn seats_for(net: &impl Net, alloc: Global, limits: &Limits) -> io::Result<Vec<Seat>> {
    let left = match limits.connections {
        0 => u64::MAX,
        count => count,
    };
    let mut seats = Vec::new(alloc);
    for _ in 0..limits.workers {
        seats.push(Seat::new(net, alloc, left)?)?;
    }
    Ok(seats)
}

impl Entrance {
    /// Listens at an address, as `127.0.0.1:8080`; the system gives the port where it is 0. The bell is rung behind the
    /// page of each post, and told the end where all workers served their connections.
    pub fn new<R: Net<Listener = TcpListener, Stream = TcpStream>>(
        rt: &R,
        alloc: Global,
        listen: &str,
        limits: Limits,
        posts: Arc<Bell>,
    ) -> io::Result<Entrance> {
        let listener = with_options(TcpListener::bind(rt, listen)?)?;
        let address = listener.local_addr()?;
        let seats = seats_for(rt, alloc, &limits)?;
        Ok(Entrance {
            listener: Mutex::new(Some(listener)),
            seats,
            posts,
            held: AtomicU64::new(0),
            ended: AtomicU64::new(0),
            limits,
            address,
        })
    }

    /// The address at which it listens.
    pub fn address(&self) -> SocketAddr {
        self.address
    }

    /// Has a set tell of connections that wait, by this token: one of the sets, and not each (epoll_ctl(2)). Answers
    /// whether it does, or nothing listens any more.
    pub(crate) fn watch(&self, rt: &impl Wait, set: &Set, token: u64) -> bool {
        match &*self.listener.lock(rt) {
            Some(listener) => set.add(listener.as_raw_fd(), EPOLLIN | EPOLLEXCLUSIVE, token),
            None => true,
        }
    }

    /// Has a set not tell of connections that wait.
    pub(crate) fn leave(&self, rt: &impl Wait, set: &Set) {
        if let Some(listener) = &*self.listener.lock(rt) {
            let _ = set.remove(listener.as_raw_fd());
        }
    }

    /// The worker of a number, as others see it.
    pub(crate) fn seat(&self, number: usize) -> Option<&Seat> {
        self.seats.get(number)
    }

    /// Is rung behind the page of each post.
    pub(crate) fn posts(&self) -> &Arc<Bell> {
        &self.posts
    }

    /// How long a connection rests, in milliseconds.
    pub(crate) fn rest(&self) -> u64 {
        self.limits.rest
    }

    /// How many connections one worker has at most, before it closes one for each that comes.
    pub(crate) fn share(&self) -> u64 {
        (self.limits.open / u64::from(self.limits.workers.max(1))).max(1)
    }

    /// A number for an address, the same for each port. Of IPv6 its first half counts, which is one customer's.
    pub(crate) fn number_of(&self, address: &SocketAddr) -> u64 {
        let mut hasher = DefaultHasher::new();
        hasher.write_u64(self.limits.key);
        match address.ip() {
            IpAddr::V4(ip) => hasher.write_u64(u64::from(ip.to_bits())),
            IpAddr::V6(ip) => hasher.write_u64((ip.to_bits() >> 64) as u64),
        }
        hasher.finish()
    }

    /// Whether a worker whose connections hold so many bytes has room for more.
    pub(crate) fn has_room(&self, own: u64) -> bool {
        self.held.load(Ordering::SeqCst) < MOST_HELD
            || own < MOST_HELD / u64::from(self.limits.workers.max(1))
    }

    /// Tells that a connection which held `before` bytes holds `after`.
    pub(crate) fn hold(&self, before: u64, after: u64) {
        if before != after {
            self.held.fetch_add(after, Ordering::SeqCst);
            self.held.fetch_sub(before, Ordering::SeqCst);
        }
    }

    /// Notes that a worker served all its connections. The last one tells the end.
    pub(crate) fn end_one(&self) {
        let ended = self.ended.fetch_add(1, Ordering::SeqCst);
        if ended.saturating_add(1) >= u64::from(self.limits.workers) {
            self.posts.end();
        }
    }

    /// Accepts one connection, for this worker or for the one that has the fewest. After the last one nothing listens.
    pub(crate) fn accept(&self, rt: &impl Wait, number: usize) -> Arrival {
        let mut guard = self.listener.lock(rt);
        let arrival = match &*guard {
            Some(listener) => self.accept_at(rt, listener, number),
            None => Arrival::Nothing,
        };
        if !self.seats.iter().any(Seat::is_open) {
            *guard = None;
        }
        arrival
    }

    /// Accepts one connection.
    fn accept_at(&self, rt: &impl Wait, listener: &TcpListener, number: usize) -> Arrival {
        let accepted = match listener.accept() {
            Ok(accepted) => accepted,
            Err(error) => return arrival_of(&error),
        };
        let chosen = self.choose(number);
        let Some(seat) = self.seats.get(chosen) else {
            drop(accepted);
            return Arrival::Passed;
        };
        seat.count_accepted();
        if chosen == number {
            return Arrival::Own(accepted);
        }
        seat.give(rt, accepted);
        Arrival::Passed
    }

    /// The worker that is to have the next connection: the one with the fewest, this one where there are several. Where
    /// all have their share it is this one, which closes another for it.
    fn choose(&self, number: usize) -> usize {
        let mut chosen = number;
        let mut fewest = self.open_at(number);
        for (i, seat) in self.seats.iter().enumerate() {
            if seat.is_open() && seat.open() < fewest {
                fewest = seat.open();
                chosen = i;
            }
        }
        if fewest >= self.share() && self.open_at(number) < u64::MAX {
            number
        } else {
            chosen
        }
    }

    /// How many connections a worker has, and the greatest number where it is to have no more.
    fn open_at(&self, number: usize) -> u64 {
        match self.seats.get(number) {
            Some(seat) if seat.is_open() => seat.open(),
            _ => u64::MAX,
        }
    }
}

/// What an error of accept says. Of most nothing is to be done but to go on: they are of one connection, as one that was
/// given up again, or end by themselves.
fn arrival_of(error: &io::Error) -> Arrival {
    if error.kind() == ErrorKind::WouldBlock {
        return Arrival::Nothing;
    }
    match error.raw_os_error() {
        Some(code) if wants_descriptor(code) => Arrival::Full,
        _ => Arrival::Passed,
    }
}

/// Whether an error of accept is want of a descriptor or of memory.
fn wants_descriptor(code: i32) -> bool {
    code == EMFILE || code == ENFILE || code == ENOBUFS || code == ENOMEM
}
