//! An exchange with one of the addresses of a host.
ghost use Rattle.std.specs.Prelude.{◌≤◌, IfOk, length};
ghost use Rattle.ocm_limits.specs.Limits.{most_exchange_bytes};

use crate::addresses::{Addresses, MOST_ADDRESSES};
use crate::courses::{Course, Step, fault_of};
use crate::faults::ExchangeFault;
use crate::peers::Peers;
use ocm_base::Bytes;
use std::alloc::Global;
use std::os::fd::RawFd;

/// How long a connect to one address waits, in milliseconds.
const CONNECT: u64 = 3_000;

/// How far an exchange may go.
#[derive(Clone, Copy)]
pub struct Limits {
    /// The most bytes of its reply.
    pub most: usize,
    /// How long it may take, in milliseconds.
    pub whole: u64,
    /// Whether it has a millisecond more for each four bytes that moved.
    pub is_by_rate: bool,
    /// Which peers are asked.
    pub peers: Peers,
}

/// An exchange that is under way.
pub struct Flight<'a> {
    addresses: &'a Addresses,
    request: &'a [u8],
    limits: Limits,
    /// When it began, in milliseconds.
    start: u64,
    /// When the connect to this address began, in milliseconds.
    connect_start: u64,
    /// The place of the next address.
    next: usize,
    /// Whether an address was passed over that a peer may not have.
    is_refused: bool,
    course: Option<Course>,
}

impl Drop for Flight<'_> {
    fn drop(self) {
        let Flight {
            addresses: _,
            request: _,
            limits: _,
            start: _,
            connect_start: _,
            next: _,
            is_refused: _,
            course: _,
        } = self;
    }
}

impl<'a> Flight<'a> {
    /// An exchange with a host of these addresses, which begins now.
    pub fn new(
        addresses: &'a Addresses,
        request: &'a [u8],
        limits: Limits,
        now: u64,
    ) -> Flight<'a> {
        Flight {
            addresses,
            request,
            limits,
            start: now,
            connect_start: now,
            next: 0,
            is_refused: false,
            course: None,
        }
    }

    /// Begins to connect to the next address.
    pub fn connect(&mut self, alloc: Global, now: u64) -> Step {
        self.course = None;
        self.connect_start = now;
        for _ in 0..=MOST_ADDRESSES {
            let Some(address) = self.addresses.at(self.next) else {
                return Step::Failed;
            };
            self.next = self.next.saturating_add(1);
            self.is_refused = self.is_refused || !self.limits.peers.allows(address);
            self.course = Course::begin(alloc, address, self.limits.peers);
            if self.course.is_some() {
                return Step::Waits;
            }
        }
        Step::Failed
    }

    /// The connection's descriptor, and whether the exchange waits until it can be written, beside that it can be read.
    pub fn waits_at(&self) -> Option<(RawFd, bool)> {
        match &self.course {
            Some(course) => Some((course.fd(), course.sends(self.request))),
            None => None,
        }
    }

    /// Goes on as far as it can now.
    pub fn step(&mut self, alloc: Global, now: u64, piece: &mut [u8]) -> Step {
        let Some(course) = &mut self.course else {
            return Step::Waits;
        };
        let step = course.go_on(alloc, self.request, piece, self.limits.most);
        if step == Step::Failed && !course.is_connected() {
            return self.connect(alloc, now);
        }
        step
    }

    /// Until when it may go on, in milliseconds.
    fn end(&self) -> u64 {
        let end = self.start.saturating_add(self.limits.whole);
        match &self.course {
            Some(course) if self.limits.is_by_rate => end.saturating_add(course.moved() / 4),
            _ => end,
        }
    }

    /// Until when the peer of this address is to be reached, in milliseconds.
    fn connect_end(&self) -> u64 {
        match &self.course {
            Some(course) if !course.is_connected() => self.connect_start.saturating_add(CONNECT),
            _ => u64::MAX,
        }
    }

    /// When it is to be looked at again, though nothing comes, in milliseconds.
    pub fn due(&self) -> u64 {
        self.end().min(self.connect_end())
    }

    /// Ends it, or goes on with the next address, where its time is up.
    pub fn expire(&mut self, alloc: Global, now: u64) -> Step {
        if now >= self.end() {
            Step::Failed
        } else if now >= self.connect_end() {
            self.connect(alloc, now)
        } else {
            Step::Waits
        }
    }

    /// The connection that it came to, and what a failure is told as.
    fn into_course(self) -> (Option<Course>, ExchangeFault) {
        let fault = if self.is_refused {
            ExchangeFault::Refused
        } else {
            ExchangeFault::Failed
        };
        let Flight {
            addresses: _,
            request: _,
            limits: _,
            start: _,
            connect_start: _,
            next: _,
            is_refused: _,
            course,
        } = self;
        (course, fault)
    }

    /// The reply of an exchange that ended, where it is whole.
    pub fn into_reply(self, step: Step) -> Result<Bytes, ExchangeFault>
        ensures { IfOk result (λ reply. length reply ≤ most_exchange_bytes) }
    {
        let (course, fault) = self.into_course();
        reply_in(course, step, fault)
    }
}

/// The reply of an exchange that ended, where it is whole. Else this fault, or that there was no memory.
fn reply_in(
    course: Option<Course>,
    step: Step,
    fault: ExchangeFault,
) -> Result<Bytes, ExchangeFault>
    ensures { IfOk result (λ reply. length reply ≤ most_exchange_bytes) }
{
    match course {
        Some(course) => course.into_reply(step, fault),
        None => Err(fault_of(step, fault)),
    }
}
