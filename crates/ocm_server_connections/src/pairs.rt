//! Connections of a source and a sink.

ghost use Rattle.std.specs.Prelude.{◌≡◌, Some, None, [], ◌++◌};
ghost use Rattle.ocm_base.specs.Outside.{flow};
ghost use Rattle.ocm_server_connections.specs.Sides.{Sides};

use crate::conns::Conn;
use ocm_base::{Failed, Joined, MemSink, MemSource, PureSink, PureSource, Sink, Source};
use ocm_http::{Fixed, FrameFault, Message, Reader, write_fixed};
use ocm_turn::{Dated, Pass};

/// A connection of a source and a sink that share nothing.
#[derive(Drop)]
pub struct Pair<S: Source, K: Sink> {
    pub source: S,
    pub sink: K,
}

/// A connection in memory: it gives the bytes of its source, and keeps those that it took.
pub type MemConn = Pair<MemSource, MemSink>;

/// A connection in memory that never fails, and passes over what it takes.
pub type PureConn = Pair<PureSource, PureSink>;

impl<S: Source, K: Sink> Pair<S, K> {
    /// Joins both.
    pub fn new(source: S, sink: K) -> Pair<S, K>
        ensures { result ≡ record { source = source; sink = sink } }
    {
        Pair { source, sink }
    }
}

impl Pair<MemSource, MemSink> {
    /// The bytes that it took.
    pub fn bytes(&self) -> &[u8]
        ensures { Some result.now ≡ ⟦<MemSink as Sink>⟧.taken self.now.sink }
    {
        self.sink.bytes().as_slice()
    }
}

impl<S: Source, K: Sink> Conn for Pair<S, K> {
    ghost sides = { λ p. record {
      flow = flow (S.left p.source) (S.received p.source);
      taken = K.taken p.sink;
      noted = None;
      read_faults = S.faults p.source;
      write_faults = K.faults p.sink;
    } };

    fn next(&mut self, reader: &mut Reader) -> Result<Option<Message>, FrameFault> {
        reader.next(&mut self.source)
    }

    /// Never: a source cannot be asked.
    fn rests(&mut self, _reader: &Reader) -> bool {
        false
    }

    fn send<T: Dated>(&mut self, piece: &Joined, _pass: &Pass<T>) -> Result<(), Failed> {
        piece.write_to(&mut self.sink)
    }

    fn send_fixed(&mut self, which: Fixed) -> Result<(), Failed> {
        write_fixed(&mut self.sink, which)
    }
}
