//! One request on a connection of its own, which waits for nothing.
ghost use Rattle.std.specs.Prelude.{◌≡◌, ◌≤◌, true, IfOk, IfSome, length};
ghost use Rattle.ocm_limits.specs.Limits.{most_exchange_bytes};
ghost use Rattle.ocm_net_flights.specs.Interims.{IsBehind};
ghost use Rattle.ocm_net_flights.specs.Peers.{allows};

use crate::addresses::begin_connect;
use crate::faults::ExchangeFault;
use crate::interims::interim_front;
use crate::peers::Peers;
use crate::replies::ReplyLook;
use ocm_base::{Bytes, NoMemory};
use ocm_limits::MOST_EXCHANGE_BYTES;
use ocm_net_waits::{read_now, write_now};
use os::RawAddr;
use std::alloc::Global;
use std::net::TcpStream;
use std::os::fd::{AsRawFd, RawFd};

/// What a step of an exchange came to.
#[derive(Clone, Copy, PartialEq, Eq)]
pub enum Step {
    /// It goes on, and waits for the peer.
    Waits,
    /// The reply is whole, or the peer closed behind it.
    Whole,
    /// It failed.
    Failed,
    /// There was no memory for what came.
    NoMemory,
}

/// A request on a connection, and what came back so far.
pub struct Course {
    stream: TcpStream,
    /// Whether bytes moved, so that the peer was reached.
    is_connected: bool,
    /// How many bytes of the request were sent.
    sent: usize,
    reply: Vec<u8>,
    look: ReplyLook,
}

impl Drop for Course {
    fn drop(self) {
        let Course {
            stream: _,
            is_connected: _,
            sent: _,
            reply: _,
            look: _,
        } = self;
    }
}

impl Course {
    /// Begins to connect to an address. None where that fails at once, and where these peers may not have it.
    pub fn begin(alloc: Global, address: &RawAddr, peers: Peers) -> Option<Course>
        ensures { IfSome result (λ _. allows peers address.now.bytes ≡ true) }
    {
        let stream = begin_connect(address, peers)?;
        Some(Course {
            stream,
            is_connected: false,
            sent: 0,
            reply: Vec::new(alloc),
            look: ReplyLook::new(),
        })
    }

    /// The connection's descriptor.
    pub fn fd(&self) -> RawFd {
        self.stream.as_raw_fd()
    }

    /// Whether the peer was reached.
    pub fn is_connected(&self) -> bool {
        self.is_connected
    }

    /// How many bytes moved.
    pub fn moved(&self) -> u64 {
        (self.sent as u64).saturating_add(self.reply.len() as u64)
    }

    /// Whether some of the request is still to be sent.
    pub fn sends(&self, request: &[u8]) -> bool {
        self.sent < request.len()
    }

    /// What came back, interim replies among it.
    fn into_came(self) -> Vec<u8>
        ensures { result ≡ self.reply }
    {
        let Course {
            stream: _,
            is_connected: _,
            sent: _,
            reply,
            look: _,
        } = self;
        reply
    }

    /// The reply of an exchange that ended, where it is whole: what came behind interim replies (RFC 9110 section 15.2). Else
    /// this fault, or that there was no memory.
    pub fn into_reply(self, step: Step, fault: ExchangeFault) -> Result<Bytes, ExchangeFault>
        ensures within { IfOk result (λ reply. length reply ≤ most_exchange_bytes) }
        ensures behind { IfOk result (λ reply. IsBehind self.reply.items reply) }
    {
        let came = self.into_came();
        if step == Step::Whole && came.len() <= MOST_EXCHANGE_BYTES {
            let reply = behind_interims(came)?;
            Ok(reply)
        } else {
            drop(came);
            Err(fault_of(step, fault))
        }
    }

    /// Moves what can be moved now. A reply of more than `most` bytes fails.
    pub fn go_on(&mut self, alloc: Global, request: &[u8], piece: &mut [u8], most: usize) -> Step {
        if !self.send(request) {
            return Step::Failed;
        }
        if !self.is_connected {
            return Step::Waits;
        }
        self.receive(alloc, piece, most)
    }

    /// Sends what the peer takes now. Answers whether that went well.
    fn send(&mut self, request: &[u8]) -> bool {
        for _ in 0..=request.len() {
            let rest = request.get(self.sent..).unwrap_or_default();
            match write_now(&self.stream, rest, &[]) {
                Some(0) => return true,
                Some(n) => self.sent = self.sent.saturating_add(n),
                None => return false,
            }
            self.is_connected = true;
        }
        true
    }

    /// Takes what is there now.
    fn receive(&mut self, alloc: Global, piece: &mut [u8], most: usize) -> Step {
        for _ in 0..=most {
            match read_now(&self.stream, piece) {
                Ok(Some(0)) => return Step::Whole,
                Ok(Some(n)) => match self.take(alloc, &piece[..n], most) {
                    Step::Waits => {}
                    ended => return ended,
                },
                Ok(None) => return Step::Waits,
                Err(_) => return Step::Failed,
            }
        }
        Step::Failed
    }

    /// Puts what came behind the reply.
    fn take(&mut self, alloc: Global, came: &[u8], most: usize) -> Step {
        if came.len() > most.saturating_sub(self.reply.len()) {
            return Step::Failed;
        }
        if self.reply.extend_from_slice(came).is_err() {
            return Step::NoMemory;
        }
        if self.look.is_whole(alloc, self.reply.as_slice()) {
            Step::Whole
        } else {
            Step::Waits
        }
    }
}

/// What stands behind interim replies in the bytes that came back.
fn behind_interims(came: Vec<u8>) -> Result<Bytes, NoMemory>
    ensures within { IfOk result (λ reply. length reply ≤ length came.items) }
    ensures behind { IfOk result (λ reply. IsBehind came.items reply) }
{
    let front = interim_front(came.as_slice());
    if front == 0 {
        return Ok(Bytes::from_vec(came));
    }
    let reply = Bytes::of(*came.allocator(), &came[front..]);
    drop(came);
    reply
}

/// Why an exchange gave no reply that ended so: this fault, or that there was no memory.
pub fn fault_of(step: Step, fault: ExchangeFault) -> ExchangeFault {
    if step == Step::NoMemory {
        ExchangeFault::NoMemory
    } else {
        fault
    }
}
