//! Connections in memory that wait for one another, by gates between their threads.

ghost use Rattle.std.specs.Prelude.{◌≡◌, ◌<◌, ◌≤◌, Some, None, length};

use crate::pairs::{MemConn, Pair};
use ocm_base::{Failed, Gate, MemSink, MemSource, Sink, Source};
use std::alloc::Global;
use std::sync::Arc;

/// How often a source looks at its gate before it fails.
const MAX_LOOKS: u64 = 100_000_000;

/// What sets the gate of a connection.
#[derive(Clone, Copy)]
pub enum GateEvent {
    /// Its first byte was given.
    FirstGiven,
    /// Its first byte was written.
    FirstWritten,
}

/// A source in memory that gives no byte from a place on until a gate is set.
pub struct GateSource {
    source: MemSource,
    given: usize,
    hold: usize,
    wait: Arc<Gate, Global>,
    set: Option<Arc<Gate, Global>>,
    faults: u64,
}

impl Drop for GateSource {
    fn drop(self) {
        let GateSource {
            source: _,
            given: _,
            hold: _,
            wait: _,
            set: _,
            faults: _,
        } = self;
    }
}

/// A sink in memory that sets a gate with its first byte.
pub struct GateSink {
    sink: MemSink,
    set: Option<Arc<Gate, Global>>,
}

impl Drop for GateSink {
    fn drop(self) {
        let GateSink { sink: _, set: _ } = self;
    }
}

/// A connection in memory that waits for a gate at one place of what it gives, and sets another.
pub type GateConn = Pair<GateSource, GateSink>;

impl GateSink {
    /// The bytes that it took.
    pub fn bytes(&self) -> &[u8]
        ensures { Some result.now ≡ ⟦<GateSink as Sink>⟧.taken self.now }
    {
        self.sink.bytes().as_slice()
    }
}

/// Waits for the gate, and answers whether it was set.
fn waited(gate: &Gate) -> bool {
    for _ in 0..MAX_LOOKS {
        if gate.is_set() {
            return true;
        }
    }
    false
}

fn set(gate: &Option<Arc<Gate, Global>>) {
    if let Some(gate) = gate {
        gate.set();
    }
}

/// How much of a buffer is filled before the place at which a source waits.
fn before_hold(buffer: usize, given: usize, hold: usize) -> usize
    requires { 0 < buffer }
    ensures some { 0 < result }
    ensures within { result ≤ buffer }
{
    if given < hold {
        buffer.min(hold - given)
    } else {
        buffer
    }
}

impl Source for GateSource {
    ghost left = { λ s. Some s.source.left };

    ghost received = { λ _. None };

    ghost faults = { λ s. s.faults };

    fn read(&mut self, buf: &mut [u8]) -> Result<usize, Failed> {
        if self.given >= self.hold && !waited(&self.wait) {
            self.faults = self.faults.saturating_add(1);
            return Err(Failed);
        }
        let most = before_hold(buf.len(), self.given, self.hold);
        match self.source.read(&mut buf[..most]) {
            Ok(n) => {
                self.given = self.given.saturating_add(n);
                if n > 0 {
                    set(&self.set);
                }
                Ok(n)
            }
            Err(Failed) => {
                self.faults = self.faults.saturating_add(1);
                Err(Failed)
            }
        }
    }
}

impl Sink for GateSink {
    ghost taken = { λ s. Some s.sink.taken };

    ghost faults = { λ s. s.sink.faults };

    fn write(&mut self, piece: &[u8]) -> Result<usize, Failed> {
        let n = self.sink.write(piece)?;
        set(&self.set);
        Ok(n)
    }
}

/// The connection with two additions: its source waits before the byte `hold` until `wait` is set, and fails after
/// 100,000,000 looks; and `set` is set when its first byte was given or written, as `event` says. The faults of its
/// source are counted from 0.
pub fn gate_conn(
    conn: MemConn,
    hold: usize,
    wait: Arc<Gate, Global>,
    event: GateEvent,
    set: Arc<Gate, Global>,
) -> GateConn
    ensures left { ⟦<GateSource as Source>⟧.left result.source ≡ ⟦<MemSource as Source>⟧.left conn.source }
    ensures taken { ⟦<GateSink as Sink>⟧.taken result.sink ≡ ⟦<MemSink as Sink>⟧.taken conn.sink }
    ensures read_faults { ⟦<GateSource as Source>⟧.faults result.source ≡ 0 }
    ensures write_faults { ⟦<GateSink as Sink>⟧.faults result.sink ≡ ⟦<MemSink as Sink>⟧.faults conn.sink }
{
    let (given, written) = match event {
        GateEvent::FirstGiven => (Some(set), None),
        GateEvent::FirstWritten => (None, Some(set)),
    };
    let Pair { source, sink } = conn;
    Pair::new(
        GateSource {
            source,
            given: 0,
            hold,
            wait,
            set: given,
            faults: 0,
        },
        GateSink { sink, set: written },
    )
}
