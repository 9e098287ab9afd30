//! The connections of one worker, from the moment in which they come to their close.

use crate::entrances::{Arrival, Entrance};
use crate::places::Places;
use crate::seats::{Accepted, Seat};
use libc::net::{EPOLLET, EPOLLIN, EPOLLOUT, EPOLLRDHUP};
use ocm_net_lines::{ClientLine, Origin, Step};
use ocm_net_waits::{Set, last_error, millis};
use os::EpollEvent;
use std::alloc::Global;
use std::net::Net;
use std::os::fd::AsRawFd;
use std::sync::{Arc, Wait};
use std::{io, mem, time};

/// The listener's token. Those of connections are their places.
const FRONT: u64 = u64::MAX;

/// The token of the bell that is rung where others accepted connections.
const BELL: u64 = u64::MAX - 1;

/// What is asked of a connection, once: each change of what it is ready for.
const CHANGES: u32 = EPOLLIN | EPOLLOUT | EPOLLRDHUP | EPOLLET;

/// How many descriptors one wait tells of at most.
const EVENTS: usize = 64;

/// How many connections are accepted at a time.
const ACCEPTED: u32 = 64;

/// How many bytes one read takes ahead.
const PIECE: usize = 65_536;

/// How long it is between two sweeps, in milliseconds.
const SWEEP: u64 = 500;

/// How long one wait lasts at most, in milliseconds.
const WAIT: i32 = 500;

/// The connections of one worker, in a set of their own. It gives each one whose message is whole, or has a fault in what
/// came of it.
pub struct Serving<'a, R: Wait + time::Clock> {
    rt: &'a R,
    alloc: Global,
    entrance: Arc<Entrance>,
    /// Which of the entrance's workers it is.
    number: usize,
    set: Set,
    places: Places<'a, R>,
    /// What reads take bytes into, empty while it is lent.
    piece: Vec<u8>,
    /// How many bytes its connections hold.
    held: u64,
    /// When it was swept last, in milliseconds.
    swept: u64,
    /// The set has the listener.
    is_listening: bool,
    /// It gave its last connection, and told so.
    has_ended: bool,
}

impl<R: Wait + time::Clock> Drop for Serving<'_, R> {
    fn drop(self) {
        let Serving {
            rt: _,
            alloc: _,
            entrance: _,
            number: _,
            set: _,
            places: _,
            piece: _,
            held: _,
            swept: _,
            is_listening: _,
            has_ended: _,
        } = self;
    }
}

impl<'a, R: Wait + time::Clock + Net> Serving<'a, R> {
    /// The worker of a number at an entrance, which counts them from 0.
    pub fn new(
        rt: &'a R,
        alloc: Global,
        entrance: Arc<Entrance>,
        number: usize,
    ) -> io::Result<Serving<'a, R>> {
        let set = Set::new(rt)?;
        let piece = Vec::from_elem(alloc, 0, PIECE)?;
        let mut serving = Serving {
            rt,
            alloc,
            entrance,
            number,
            set,
            places: Places::new(alloc),
            piece,
            held: 0,
            swept: millis(rt),
            is_listening: false,
            has_ended: false,
        };
        if serving.listen() && serving.watch_bell() {
            Ok(serving)
        } else {
            Err(last_error())
        }
    }
}

impl<'a, R: Wait + time::Clock> Serving<'a, R> {
    /// This worker as others see it.
    fn seat(&self) -> Option<&Seat> {
        self.entrance.seat(self.number)
    }

    /// Has the set tell of the listener. Answers whether it does.
    fn listen(&mut self) -> bool {
        if !self.is_listening {
            self.is_listening = self.entrance.watch(self.rt, &self.set, FRONT);
        }
        self.is_listening
    }

    /// Has the set tell of each ring of the bell. Answers whether it does.
    fn watch_bell(&self) -> bool {
        match self.seat() {
            Some(seat) => self.set.add(seat.bell().fd(), EPOLLIN | EPOLLET, BELL),
            None => false,
        }
    }

    /// The next connection whose message is whole or has a fault in what came of it, or None at the end.
    pub fn give(&mut self) -> Option<Box<ClientLine<'a, R>>> {
        for _ in self.rt.forever() {
            if let Some(place) = self.places.turn() {
                if let Some(line) = self.advance(place) {
                    return Some(line);
                }
            } else if self.is_over() {
                self.end();
                return None;
            } else {
                self.wait();
            }
        }
        unreachable!()
    }

    /// Whether it has no connection, and will have none.
    fn is_over(&self) -> bool {
        match self.seat() {
            Some(seat) => seat.is_over(),
            None => true,
        }
    }

    /// Tells the entrance once that it is over.
    fn end(&mut self) {
        if !self.has_ended {
            self.has_ended = true;
            self.entrance.end_one();
        }
    }

    /// Waits for what the set tells, and begins a round of turns.
    fn wait(&mut self) {
        self.sweep();
        let limit = if self.places.has_next() { 0 } else { WAIT };
        let mut events = [EpollEvent { events: 0, data: 0 }; EVENTS];
        let count = self.set.wait(&mut events, limit);
        for event in &events[..count] {
            self.note(*event);
        }
        self.places.begin_round();
    }

    /// Does what one descriptor asks for that is ready.
    fn note(&mut self, event: EpollEvent) {
        match event.data {
            FRONT => self.accept(),
            BELL => self.adopt_given(),
            place => self.places.tell(place as usize, event.events),
        }
    }

    /// Accepts what waits.
    fn accept(&mut self) {
        for _ in 0..ACCEPTED {
            match self.entrance.accept(self.rt, self.number) {
                Arrival::Own(accepted) => self.adopt(accepted),
                Arrival::Passed => {}
                Arrival::Nothing => return,
                Arrival::Full if self.close_crowding() => {}
                Arrival::Full => return self.stop_listening(),
            }
        }
    }

    /// Leaves the listener alone until the next sweep.
    fn stop_listening(&mut self) {
        self.entrance.leave(self.rt, &self.set);
        self.is_listening = false;
    }

    /// Takes the connections that others accepted for it.
    fn adopt_given(&mut self) {
        for _ in 0..u64::MAX {
            let given = match self.seat() {
                Some(seat) => seat.take(self.rt),
                None => None,
            };
            let Some(accepted) = given else {
                return;
            };
            self.adopt(accepted);
        }
    }

    /// Takes a new connection, which was counted. Where that makes too many, one that waits is closed for it.
    fn adopt(&mut self, accepted: Accepted) {
        let is_one_too_many = self
            .seat()
            .is_some_and(|seat| seat.open() > self.entrance.share());
        let has_room = !is_one_too_many || self.close_crowding();
        if !has_room {
            drop(accepted);
            self.count_closed();
        } else if !self.enter(accepted) {
            self.count_closed();
        }
    }

    /// Takes a new connection into a place and into the set. Answers whether the system and memory allowed it.
    fn enter(&mut self, accepted: Accepted) -> bool {
        let (stream, from) = accepted;
        let fd = stream.as_raw_fd();
        let Some(place) = self.places.reserve() else {
            drop(stream);
            return false;
        };
        let was_taken = stream.set_nonblocking(true).is_ok()
            && self.set.add(fd, CHANGES, place as u64);
        let origin = Origin {
            stream,
            address: self.entrance.number_of(&from),
            place,
        };
        match self.line_over(origin) {
            Some(line) if was_taken => {
                self.places.put(line, self.entrance.rest());
                true
            }
            _ => {
                self.places.release(place);
                false
            }
        }
    }

    /// A line over a new stream. None where there is no memory.
    fn line_over(&self, origin: Origin) -> Option<Box<ClientLine<'a, R>>> {
        let posts = Arc::try_clone(self.entrance.posts()).ok()?;
        Box::new(
            self.alloc,
            ClientLine::new(self.rt, self.alloc, posts, origin),
        )
        .ok()
    }

    /// Does what can be done at once for the connection of a place, and gives it where its message is to be served.
    fn advance(&mut self, place: usize) -> Option<Box<ClientLine<'a, R>>> {
        let mut line = self.places.take(place)?;
        if !self.is_alone() && !line.stop_lingering() {
            self.close(line);
            return None;
        }
        match line.advance(&mut self.piece) {
            Step::Serve => return Some(self.lend(line)),
            Step::Wait => self.park(line),
            Step::Finish => self.finish(line),
            Step::Close => self.close(line),
        }
        None
    }

    /// Whether it has one connection at most.
    fn is_alone(&self) -> bool {
        self.seat().is_some_and(|seat| seat.open() <= 1)
    }

    /// A connection that is to be served. One that has no other beside it is lent the piece, so that it may linger.
    fn lend(&mut self, mut line: Box<ClientLine<'a, R>>) -> Box<ClientLine<'a, R>> {
        let piece = if self.is_alone() {
            mem::replace(&mut self.piece, Vec::new(self.alloc))
        } else {
            Vec::new(self.alloc)
        };
        line.begin_service(piece);
        line
    }

    /// Takes the piece back that a connection was lent.
    fn take_piece(&mut self, line: &mut ClientLine<'a, R>) {
        let piece = line.take_piece();
        if !piece.is_empty() {
            self.piece = piece;
        }
    }

    /// Takes a connection back that has no whole message: it waits for one.
    pub fn rest(&mut self, mut line: Box<ClientLine<'a, R>>) {
        self.take_piece(&mut line);
        line.begin_rest();
        self.park(line);
    }

    /// Takes a connection back after its last message.
    pub fn finish(&mut self, mut line: Box<ClientLine<'a, R>>) {
        self.take_piece(&mut line);
        if line.has_ended() && !line.has_unsent() {
            self.close(line);
        } else {
            line.begin_close();
            self.park(line);
        }
    }

    /// Closes a connection.
    pub fn close(&mut self, mut line: Box<ClientLine<'a, R>>) {
        self.take_piece(&mut line);
        let held = line.held();
        let place = line.place();
        drop(line);
        self.hold(held, 0);
        self.places.release(place);
        self.count_closed();
    }

    /// Counts a connection less.
    fn count_closed(&self) {
        if let Some(seat) = self.seat() {
            seat.count_closed();
        }
    }

    /// Tells that a connection which held `before` bytes holds `after`.
    fn hold(&mut self, before: u64, after: u64) {
        self.held = self.held.saturating_add(after).saturating_sub(before);
        self.entrance.hold(before, after);
    }

    /// Puts a connection into its place. Where it and others hold too much, those that hold much and wait for longest are
    /// closed.
    fn park(&mut self, mut line: Box<ClientLine<'a, R>>) {
        let (before, after) = line.count();
        self.hold(before, after);
        self.places.put(line, self.entrance.rest());
        for _ in 0..self.places.len() {
            if self.entrance.has_room(self.held) || !self.close_holding() {
                return;
            }
        }
    }

    /// Closes the one that waits for longest of those that hold much. Answers whether there was one.
    fn close_holding(&mut self) -> bool {
        let found = self.places.take_holding();
        self.close_found(found)
    }

    /// Closes the one that waits for longest of the address with the most. Answers whether there was one.
    fn close_crowding(&mut self) -> bool {
        let found = self.places.take_crowding();
        self.close_found(found)
    }

    /// Closes a connection where there is one. Answers whether there was.
    fn close_found(&mut self, found: Option<Box<ClientLine<'a, R>>>) -> bool {
        match found {
            Some(line) => {
                self.close(line);
                true
            }
            None => false,
        }
    }

    /// Every half second closes what waits for too long, and looks at the listener again.
    fn sweep(&mut self) {
        let now = millis(self.rt);
        if now < self.swept.saturating_add(SWEEP) {
            return;
        }
        self.swept = now;
        let _ = self.listen();
        for place in 0..self.places.len() {
            let found = self.places.take_late(place, now);
            self.close_found(found);
        }
    }
}
