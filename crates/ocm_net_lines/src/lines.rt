//! A connection of the system's, with what came ahead of a read and what is not sent yet.
ghost use Rattle.std.specs.Prelude.{◌≤◌, ◌++◌, IfErr, IfSome, length};

use crate::incoming::{Incoming, Peer};
use crate::outgoing::Outgoing;
use crate::states::{State, Step, Told};
use crate::times::Times;
use ocm_http::ReadHead;
use ocm_net_waits::{Bell, millis, read_now, wait_for_bytes, write_now};
use std::alloc::Global;
use std::net::{Shutdown, TcpStream};
use std::sync::Arc;
use std::{mem, time};

/// How long one read waits in the middle of a message before the limits are looked at, in milliseconds.
const TICK: i32 = 500;

/// How many messages follow one another at most before others have a turn.
const MOST_TURNS: u32 = 64;

/// What a client that waits for it is told.
const CONTINUE: &[u8] = b"HTTP/1.1 100 Continue\r\n\r\n";

/// What a client is told of whose message too much came. It is the page of each message with a fault.
const REFUSED: &[u8] =
    b"HTTP/1.1 400 Bad Request\r\nContent-Length: 0\r\nConnection: close\r\n\r\n";

/// A stream, and where it belongs.
pub struct Origin {
    pub stream: TcpStream,
    /// A number for its peer's address.
    pub address: u64,
    /// Its place among those of its worker.
    pub place: usize,
}

impl Drop for Origin {
    fn drop(self) {
        let Origin {
            stream: _,
            address: _,
            place: _,
        } = self;
    }
}

/// A stream, with the bytes that came ahead of a read, and those that were taken and are not sent yet.
pub struct ClientLine<'a, R: time::Clock> {
    rt: &'a R,
    alloc: Global,
    /// Is rung behind the page of each post.
    posts: Arc<Bell>,
    origin: Origin,
    incoming: Incoming,
    outgoing: Outgoing,
    times: Times,
    state: State,
    told: Told,
    /// What it lingers with, which its worker lends it while it has no other connection; else empty.
    piece: Vec<u8>,
    /// Reads and writes wait for a moment where they find nothing and no room.
    is_lingering: bool,
    /// How many of its bytes are counted.
    held: u64,
    /// How many messages it went on with in a row without being handed back.
    turns: u32,
}

impl<R: time::Clock> Drop for ClientLine<'_, R> {
    fn drop(self) {
        let ClientLine {
            rt: _,
            alloc: _,
            posts: _,
            origin: _,
            incoming: _,
            outgoing: _,
            times: _,
            state: _,
            told: _,
            piece: _,
            is_lingering: _,
            held: _,
            turns: _,
        } = self;
    }
}

impl<'a, R: time::Clock> ClientLine<'a, R> {
    /// A line over a stream that doesn't wait.
    pub fn new(rt: &'a R, alloc: Global, posts: Arc<Bell>, origin: Origin) -> ClientLine<'a, R> {
        ClientLine {
            rt,
            alloc,
            posts,
            origin,
            incoming: Incoming::new(alloc),
            outgoing: Outgoing::new(alloc),
            times: Times::new(millis(rt)),
            state: State::Resting,
            told: Told::nothing(),
            piece: Vec::new(alloc),
            is_lingering: false,
            held: 0,
            turns: 0,
        }
    }

    /// Its place among those of its worker.
    pub fn place(&self) -> usize {
        self.origin.place
    }

    /// A number for its peer's address.
    pub fn address(&self) -> u64 {
        self.origin.address
    }

    /// What it waits for.
    pub fn state(&self) -> State {
        self.state
    }

    /// Whether it was asked last whether it rests, and does.
    pub fn is_resting(&self) -> bool {
        self.state != State::Served && self.state != State::Closing
    }

    /// Whether nothing more can be read.
    pub fn has_ended(&self) -> bool {
        self.incoming.has_ended()
    }

    /// Whether some bytes that were taken are not sent yet.
    pub fn has_unsent(&self) -> bool {
        !self.outgoing.is_empty()
    }

    /// Since when it waits, in milliseconds.
    pub fn since(&self) -> u64 {
        self.times.since()
    }

    /// The time from which on it is dropped where it waits, by how long a connection may rest between two messages.
    pub fn limit(&self, rest: u64) -> u64 {
        if self.has_unsent() {
            return self.times.late_page();
        }
        match self.state {
            State::Closing => self.times.late_close(),
            _ if self.incoming.has_begun() => self.times.late_message(),
            _ => self.times.late_rest(rest),
        }
    }

    /// Begins to count the time anew.
    fn begin(&mut self) {
        self.times.begin(millis(self.rt));
    }

    /// Counts what it holds, and answers how many of its bytes were counted before, and how many are.
    pub fn count(&mut self) -> (u64, u64) {
        let before = self.held;
        self.held = (self.incoming.len() as u64).saturating_add(self.outgoing.len() as u64);
        (before, self.held)
    }

    /// How many of its bytes are counted.
    pub fn held(&self) -> u64 {
        self.held
    }

    /// Notes what the system told of it. Answers whether there is something to do.
    pub fn tell(&mut self, events: u32) -> bool {
        self.told.tell(events);
        self.has_work()
    }

    /// Whether there is something to do now: what is unsent may be sent, or there may be a message.
    pub fn has_work(&self) -> bool {
        if self.has_unsent() {
            self.told.may_write()
        } else {
            self.told.may_read() || self.incoming.is_at_hand() || self.has_ended()
        }
    }

    /// What it waits for, from what it has.
    fn waits_for(&self) -> State {
        if self.state == State::Closing {
            State::Closing
        } else if self.has_unsent() {
            State::Sending
        } else if self.has_work() {
            State::Ready
        } else if self.incoming.has_begun() {
            State::Coming
        } else {
            State::Resting
        }
    }

    /// Begins to be served. Where a worker has no other connection it lends it a piece to linger with.
    pub fn begin_service(&mut self, piece: Vec<u8>) {
        self.state = State::Served;
        self.piece = piece;
    }

    /// Takes the piece back that it was lent.
    pub fn take_piece(&mut self) -> Vec<u8> {
        mem::replace(&mut self.piece, Vec::new(self.alloc))
    }

    /// Begins to rest.
    pub fn begin_rest(&mut self) {
        self.begin();
        self.turns = 0;
        self.incoming.give_up_room();
    }

    /// Ends the sending side once all is sent, and passes over what still comes: bytes that nobody reads would turn the
    /// close into a reset, which may take the last page with it.
    pub fn begin_close(&mut self) {
        self.begin();
        self.state = State::Closing;
        self.incoming.clear();
        self.end_sending();
    }

    /// Ends the sending side of a line that closes, where all is sent.
    fn end_sending(&mut self) {
        if self.state == State::Closing && !self.has_unsent() {
            let _ = self.origin.stream.shutdown(Shutdown::Write);
        }
    }

    /// Has reads and writes wait for nothing. Answers whether they do.
    pub fn stop_lingering(&mut self) -> bool {
        if self.is_lingering && self.origin.stream.set_nonblocking(true).is_ok() {
            self.is_lingering = false;
        }
        !self.is_lingering
    }

    /// Has reads and writes wait for a moment. Answers whether they do.
    fn begin_lingering(&mut self) -> bool {
        if !self.is_lingering && self.origin.stream.set_nonblocking(false).is_ok() {
            self.is_lingering = true;
        }
        self.is_lingering
    }

    /// Does what can be done at once: sends what is unsent, and then reads, unless a message is here already.
    pub fn advance(&mut self, piece: &mut [u8]) -> Step {
        let step = self.try_advance(piece);
        if self.state != State::Closing {
            self.state = self.waits_for();
        }
        step
    }

    /// Does what can be done at once.
    fn try_advance(&mut self, piece: &mut [u8]) -> Step {
        if self.has_unsent() {
            if !self.send_now() {
                return Step::Close;
            }
            if self.has_unsent() {
                return Step::Wait;
            }
        }
        if self.has_message() {
            return Step::Serve;
        }
        if self.told.may_read() && !self.has_ended() {
            self.fill(piece);
        }
        if self.has_message() || (self.has_ended() && self.incoming.take_part()) {
            Step::Serve
        } else if self.has_ended() {
            Step::Close
        } else if self.incoming.is_too_long() {
            self.refuse()
        } else {
            Step::Wait
        }
    }

    /// Refuses a message of which too much came.
    fn refuse(&mut self) -> Step {
        if self.write(REFUSED, &[]).is_ok() {
            Step::Finish
        } else {
            Step::Close
        }
    }

    /// Reads what is there. A line that closes passes it over.
    fn fill(&mut self, piece: &mut [u8]) {
        match read_now(&self.origin.stream, piece) {
            Ok(Some(0)) => self.incoming.end(Peer::Ended),
            Ok(Some(n)) => {
                self.told.note_read(n, piece.len());
                if self.state != State::Closing && !self.gather(&piece[..n]) {
                    self.incoming.end(Peer::Broken);
                }
            }
            Ok(None) => self.told.note_empty(),
            Err(_) => self.incoming.end(Peer::Broken),
        }
    }

    /// Puts bytes behind those that are ahead. Answers whether there was memory for them.
    fn gather(&mut self, piece: &[u8]) -> bool {
        if self.incoming.begins_with(piece) {
            self.begin();
        }
        self.times.count_read(piece.len());
        self.incoming.gather(piece)
    }

    /// Whether a message is ahead that is to be served now: it is whole, or has a fault in what came of it.
    fn has_message(&mut self) -> bool {
        let is_here = self.incoming.find_message();
        if self.incoming.take_awaited() {
            self.send_continue();
        }
        is_here
    }

    /// Tells the peer to send the body that it announced (RFC 9110 section 15.2.1).
    fn send_continue(&mut self) {
        if self.send(CONTINUE, &[]).is_err() {
            self.incoming.end(Peer::Broken);
        }
    }

    /// Whether the line is to be handed back until the set tells of it, or until others had their turn: no whole message
    /// is here to read, or the page before is not sent, or many messages followed one another. Where its worker has no
    /// other connection, it lingers for a message first.
    pub fn rests(&mut self) -> bool {
        if self.incoming.is_at_hand() || self.has_ended() {
            return false;
        }
        self.incoming.drop_used();
        if !self.has_unsent() && self.finds_message() && self.turns < MOST_TURNS {
            self.turns += 1;
            return false;
        }
        self.state = self.waits_for();
        true
    }

    /// Whether the next message is here, or comes at once, or the end.
    fn finds_message(&mut self) -> bool {
        self.has_message() || (self.fills_lingering() && (self.has_ended() || self.has_message()))
    }

    /// Reads what comes while the line lingers. Answers whether it may.
    fn fills_lingering(&mut self) -> bool {
        if self.piece.is_empty() || self.turns >= MOST_TURNS || !self.begin_lingering() {
            return false;
        }
        let mut piece = self.take_piece();
        self.fill(&mut piece);
        self.piece = piece;
        true
    }

    /// Takes the head of the message that is here, where it was read ahead, and begins to serve it. What is read next stands
    /// behind that head.
    pub fn take_head(&mut self) -> Option<ReadHead> {
        self.state = State::Served;
        self.incoming.take_head()
    }

    /// What came ahead, or else what comes. None where the line failed or was too slow.
    pub fn read(&mut self, buf: &mut [u8]) -> Option<usize>
        ensures { IfSome result (λ n. n ≤ length buf.old) }
    {
        self.state = State::Served;
        if let Some(n) = self.incoming.read(buf) {
            return Some(n);
        }
        match self.incoming.peer() {
            Peer::Open => self.read_waiting(buf),
            Peer::Ended => Some(0),
            Peer::Broken => None,
        }
    }

    /// Reads by waiting, for as long as the message is in time.
    fn read_waiting(&mut self, buf: &mut [u8]) -> Option<usize>
        ensures { IfSome result (λ n. n ≤ length buf.old) }
    {
        for _ in 0..u64::MAX {
            if let Some(n) = read_now(&self.origin.stream, buf).ok()? {
                if n == 0 {
                    self.incoming.end(Peer::Ended);
                }
                self.told.note_read(n, n);
                self.times.count_read(n);
                return Some(n);
            }
            self.told.note_empty();
            if millis(self.rt) > self.times.late_message() {
                return None;
            }
            wait_for_bytes(&self.origin.stream, TICK);
        }
        None
    }

    /// Takes all of both pieces of a page, one behind the other. What comes next is another message. Where the line fails,
    /// the error says how many of their bytes were sent, from the front on.
    pub fn write(&mut self, first: &[u8], second: &[u8]) -> Result<(), usize>
        ensures { IfErr result (λ n. n ≤ length (first.now ++ second.now)) }
    {
        self.state = State::Served;
        self.begin();
        let taken = self.send(first, second);
        if self.incoming.is_post() {
            self.posts.ring();
        }
        taken
    }

    /// Takes all of both pieces, one behind the other and behind what is unsent: sends what goes at once, in one call of
    /// the system, and keeps the rest to be sent when the system tells that the peer takes more. Where the stream fails, or
    /// there is no room for the rest, the error says how many bytes were sent.
    fn send(&mut self, first: &[u8], second: &[u8]) -> Result<(), usize>
        ensures { IfErr result (λ n. n ≤ length (first.now ++ second.now)) }
    {
        let mut sent = 0;
        if !self.has_unsent() {
            self.times.begin_page();
            let Some(n) = write_now(&self.origin.stream, first, second) else {
                return Err(0);
            };
            self.times.count_sent(n);
            self.told.note_write();
            sent = n;
        }
        if self.outgoing.keep(first, second, sent) {
            Ok(())
        } else {
            Err(sent)
        }
    }

    /// Sends what is unsent, as much as goes now. Answers whether the stream still works.
    fn send_now(&mut self) -> bool {
        let Some(n) = write_now(&self.origin.stream, self.outgoing.front(), &[]) else {
            return false;
        };
        self.outgoing.count_sent(n);
        self.times.count_sent(n);
        self.told.note_write();
        if !self.has_unsent() {
            self.begin();
            self.end_sending();
        }
        true
    }
}
