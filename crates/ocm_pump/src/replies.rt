ghost use Rattle.std.specs.Prelude.{◌≡◌, ◌≤◌, true, Err};
ghost use Rattle.ocm_base.specs.Outside.{Rose};
ghost use Rattle.ocm_pump.specs.Exchanges.{AddsSome};
ghost use Rattle.ocm_pump.specs.Replies as replies;
ghost use Rattle.ocm_pump.specs.Replies.{Reads, Sends};

use crate::dials::Dial;
use crate::exchanges::DialEnd;
use crate::faults::PumpFault;
use ocm_base::{Bytes, PureSource};
use ocm_http::{FrameFault, Message, Reader};
use ocm_limits::MOST_REPLY_BYTES;
use ocm_types::Host;
use std::alloc::Global;

/// The most bytes that are read at once.
const PIECE: usize = 4096;

/// A fault of the bytes. A reply that is cut counts as faulty at its front.
fn fault_of(fault: FrameFault) -> PumpFault
    ensures { result ≡ replies.fault_of fault }
{
    match fault {
        FrameFault::BadHead(place)
        | FrameFault::HeadTooLong(place)
        | FrameFault::BadLength(place)
        | FrameFault::BothLengths(place)
        | FrameFault::BadChunk(place)
        | FrameFault::BodyTooLong(place) => PumpFault::BadReply(place),
        FrameFault::Cut | FrameFault::ReadFault => PumpFault::BadReply(0),
        FrameFault::NoMemory => PumpFault::NoMemory,
    }
}

/// The reply that the bytes begin with.
pub(crate) fn read_reply(alloc: Global, bytes: Bytes) -> Result<Message, PumpFault>
    ensures { Reads bytes result }
{
    let mut reader = Reader::replies(alloc, MOST_REPLY_BYTES)?;
    let mut source = PureSource::new(bytes, PIECE);
    match reader.next(&mut source) {
        Ok(Some(message)) => Ok(message),
        Ok(None) => Err(PumpFault::BadReply(0)),
        Err(fault) => Err(fault_of(fault)),
    }
}

/// Sends a request to a host, and reads the reply out of the bytes that come back. NoDiscovery is no answer of it.
pub fn send<N: Dial>(
    alloc: Global,
    dial: &mut N,
    host: &Host,
    request: &Bytes,
) -> Result<Message, PumpFault>
    requires delivers { N.delivers dial.old ≡ true }
    ensures exact { AddsSome (N.exchanges dial.old) (N.exchanges dial.new) (λ added. Sends host.now request.now added result) }
    ensures dial_fault { result ≡ Err PumpFault.DialFault → Rose (N.faults dial.old) (N.faults dial.new) }
    ensures never_falls { N.faults dial.old ≤ N.faults dial.new }
    ensures kind { N.delivers dial.new ≡ N.delivers dial.old }
    ensures untold { N.told dial.new ≡ N.told dial.old }
{
    match dial.exchange(alloc, host, request) {
        Ok(bytes) => read_reply(alloc, bytes),
        Err(DialEnd::Failed) => Err(PumpFault::DialFault),
        Err(DialEnd::NoMemory) => Err(PumpFault::NoMemory),
    }
}
