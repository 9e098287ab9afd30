//! One exchange that is driven to its end.
ghost use Rattle.std.specs.Prelude.{◌≤◌, IfOk, length};
ghost use Rattle.ocm_limits.specs.Limits.{most_exchange_bytes};

use crate::addresses::Addresses;
use crate::courses::Step;
use crate::faults::ExchangeFault;
use crate::flights::{Flight, Limits};
use crate::waits::{clock, wait};
use ocm_base::Bytes;
use std::alloc::Global;
use std::sync::atomic::{AtomicU64, Ordering};

/// How many bytes one read takes.
const PIECE: usize = 16_384;

/// How long an exchange looks at nothing but its connection, in milliseconds.
const LONGEST_WAIT: u64 = 250;

/// How many steps an exchange makes at most: more than there are pieces of the longest reply.
const MOST_STEPS: u32 = 1_000_000;

/// Sends a request to one of these addresses on a connection of its own, and waits for the reply: until it is whole by its
/// length or its chunks, the peer closes, its time is up, or `cut` is no longer 0. It needs no runtime.
pub fn exchange_alone(
    alloc: Global,
    addresses: &Addresses,
    request: &Bytes,
    limits: Limits,
    cut: &AtomicU64,
) -> Result<Bytes, ExchangeFault>
    ensures { IfOk result (λ reply. length reply ≤ most_exchange_bytes) }
{
    let mut piece = Vec::from_elem(alloc, 0u8, PIECE)?;
    let now = clock();
    let mut flight = Flight::new(addresses, request.as_slice(), limits, now);
    let begun = flight.connect(alloc, now);
    let ended = drive(alloc, &mut flight, begun, cut, &mut piece);
    drop(piece);
    flight.into_reply(ended)
}

/// Drives an exchange to its end.
fn drive(
    alloc: Global,
    flight: &mut Flight<'_>,
    begun: Step,
    cut: &AtomicU64,
    piece: &mut [u8],
) -> Step {
    let mut step = begun;
    for _ in 0..MOST_STEPS {
        if step != Step::Waits {
            return step;
        }
        if cut.load(Ordering::SeqCst) != 0 {
            return Step::Failed;
        }
        step = turn(alloc, flight, piece);
    }
    Step::Failed
}

/// Waits for the peer, and goes on.
fn turn(alloc: Global, flight: &mut Flight<'_>, piece: &mut [u8]) -> Step {
    let left = flight.due().saturating_sub(clock()).min(LONGEST_WAIT);
    if let Some((fd, writes)) = flight.waits_at() {
        wait(fd, writes, left.max(1));
    }
    let now = clock();
    match flight.step(alloc, now, piece) {
        Step::Waits => flight.expire(alloc, now),
        ended => ended,
    }
}
