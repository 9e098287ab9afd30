//! The connections of one worker, those that wait and those that are ready.

use ocm_net_lines::{ClientLine, State};
use std::alloc::{AllocError, Global};
use std::{mem, time};

/// How many bytes one connection holds in any case, also where all together hold too many. As many connections as are
/// open at most can't hold too many with no more than these.
const HELD_IN_ANY_CASE: u64 = 8_192;

/// In how many heaps addresses are counted.
const HEAPS: usize = 256;

/// What is looked at of a connection that waits.
#[derive(Clone, Copy)]
struct Mark {
    state: State,
    /// Since when it waits, in milliseconds.
    since: u64,
    /// From when on it is dropped.
    until: u64,
    /// A number for its peer's address.
    address: u64,
    /// How many bytes it holds.
    held: u64,
}

/// Which connections are looked for.
#[derive(Clone, Copy)]
enum Kind {
    /// Those that hold much.
    Holding,
    /// Those whose addresses are counted in this heap.
    Heap(usize),
    /// Of these the ones that have no turn yet.
    IdleHeap(usize),
}

impl Kind {
    /// Whether a connection is of the kind.
    fn has(self, mark: Mark) -> bool {
        match self {
            Kind::Holding => mark.held > HELD_IN_ANY_CASE,
            Kind::Heap(heap) => heap_of(mark.address) == heap,
            Kind::IdleHeap(heap) => heap_of(mark.address) == heap && mark.state != State::Ready,
        }
    }
}

/// A place for a connection. The one that is served is in none, and keeps its own.
struct Place<'a, R: time::Clock> {
    line: Option<Box<ClientLine<'a, R>>>,
    mark: Mark,
    /// It is among those that are ready.
    is_queued: bool,
}

impl<R: time::Clock> Drop for Place<'_, R> {
    fn drop(self) {
        let Place {
            line: _,
            mark: _,
            is_queued: _,
        } = self;
    }
}

impl<'a, R: time::Clock> Place<'a, R> {
    /// A place without a connection.
    fn new() -> Place<'a, R> {
        Place {
            line: None,
            mark: Mark {
                state: State::Resting,
                since: 0,
                until: 0,
                address: 0,
                held: 0,
            },
            is_queued: false,
        }
    }

    /// Notes what the system told of the connection. Answers whether there is something to do.
    fn tell(&mut self, events: u32) -> bool {
        let has_work = match &mut self.line {
            Some(line) => line.tell(events),
            None => false,
        };
        if has_work {
            self.mark.state = State::Ready;
        }
        has_work
    }

    /// What waits there.
    fn waiting(&self) -> Option<Mark> {
        match &self.line {
            Some(_) => Some(self.mark),
            None => None,
        }
    }
}

/// The connections of one worker that wait, by their places, and the places of those that are ready, in turn.
pub struct Places<'a, R: time::Clock> {
    alloc: Global,
    places: Vec<Place<'a, R>>,
    free: Vec<usize>,
    /// The places whose turn comes in this round, and how many of them had it.
    round: Vec<usize>,
    done: usize,
    /// Those whose turn comes in the next one.
    next: Vec<usize>,
}

impl<R: time::Clock> Drop for Places<'_, R> {
    fn drop(self) {
        let Places {
            alloc: _,
            places: _,
            free: _,
            round: _,
            done: _,
            next: _,
        } = self;
    }
}

impl<'a, R: time::Clock> Places<'a, R> {
    /// No connections.
    pub fn new(alloc: Global) -> Places<'a, R> {
        Places {
            alloc,
            places: Vec::new(alloc),
            free: Vec::new(alloc),
            round: Vec::new(alloc),
            done: 0,
            next: Vec::new(alloc),
        }
    }

    /// How many places there are, with those that are free.
    pub fn len(&self) -> usize {
        self.places.len()
    }

    /// A place for a new connection. None where there is no memory for one.
    pub fn reserve(&mut self) -> Option<usize> {
        match self.free.pop() {
            Some(place) => Some(place),
            None => self.add().ok(),
        }
    }

    /// Adds a place, with room for it in each list of places.
    fn add(&mut self) -> Result<usize, AllocError> {
        let place = self.places.len();
        self.free.reserve(place.saturating_add(1))?;
        self.round.reserve(place.saturating_add(1))?;
        self.next.reserve(place.saturating_add(1))?;
        self.places.push(Place::new())?;
        Ok(place)
    }

    /// Gives a place up whose connection was closed.
    pub fn release(&mut self, place: usize) {
        let _ = self.free.push(place);
    }

    /// Puts a connection into its place, where it waits: it rests for so many milliseconds at most. One that has something
    /// to do gets a turn.
    pub fn put(&mut self, line: Box<ClientLine<'a, R>>, rest: u64) {
        let place = line.place();
        let has_work = line.has_work();
        let mark = Mark {
            state: line.state(),
            since: line.since(),
            until: line.limit(rest),
            address: line.address(),
            held: line.held(),
        };
        if let Some(it) = self.places.get_mut(place) {
            it.mark = mark;
            it.line = Some(line);
        }
        if has_work {
            self.queue(place);
        }
    }

    /// Gives the connection of a place a turn, unless it has one.
    fn queue(&mut self, place: usize) {
        if let Some(it) = self.places.get_mut(place) {
            if !it.is_queued {
                it.is_queued = self.next.push(place).is_ok();
            }
        }
    }

    /// Notes what the system told of the connection of a place, and gives it a turn where there is something to do.
    pub fn tell(&mut self, place: usize, events: u32) {
        let has_work = match self.places.get_mut(place) {
            Some(it) => it.tell(events),
            None => false,
        };
        if has_work {
            self.queue(place);
        }
    }

    /// Whether there are turns in the next round.
    pub fn has_next(&self) -> bool {
        !self.next.is_empty()
    }

    /// Begins the next round.
    pub fn begin_round(&mut self) {
        self.round.clear();
        self.done = 0;
        mem::swap(&mut self.round, &mut self.next);
    }

    /// The place whose turn it is in this round. None where each had its own.
    pub fn turn(&mut self) -> Option<usize> {
        let place = *self.round.get(self.done)?;
        self.done = self.done.saturating_add(1);
        if let Some(it) = self.places.get_mut(place) {
            it.is_queued = false;
        }
        Some(place)
    }

    /// Takes the connection of a place.
    pub fn take(&mut self, place: usize) -> Option<Box<ClientLine<'a, R>>> {
        match self.places.get_mut(place) {
            Some(it) => it.line.take(),
            None => None,
        }
    }

    /// Takes the connection of a place where it waits for too long.
    pub fn take_late(&mut self, place: usize, now: u64) -> Option<Box<ClientLine<'a, R>>> {
        let it = self.places.get_mut(place)?;
        if it.mark.until < now {
            it.line.take()
        } else {
            None
        }
    }

    /// Takes the one that waits for longest of those that hold much.
    pub fn take_holding(&mut self) -> Option<Box<ClientLine<'a, R>>> {
        self.take_oldest(Kind::Holding)
    }

    /// Takes, of the address with the most connections that wait, the one that waits for longest, and before others one
    /// that has no turn yet.
    pub fn take_crowding(&mut self) -> Option<Box<ClientLine<'a, R>>> {
        let heap = self.fullest_heap();
        match self.take_oldest(Kind::IdleHeap(heap)) {
            Some(line) => Some(line),
            None => self.take_oldest(Kind::Heap(heap)),
        }
    }

    /// The heap with the most connections that wait.
    fn fullest_heap(&self) -> usize {
        let mut counts = [0u32; HEAPS];
        for it in &self.places {
            if let Some(mark) = it.waiting() {
                count_one(&mut counts, heap_of(mark.address));
            }
        }
        let mut fullest = 0;
        let mut most = 0;
        for (i, count) in counts.iter().enumerate() {
            if *count > most {
                most = *count;
                fullest = i;
            }
        }
        fullest
    }

    /// Takes the one that waits for longest of those that are of a kind.
    fn take_oldest(&mut self, kind: Kind) -> Option<Box<ClientLine<'a, R>>> {
        let mut oldest = u64::MAX;
        let mut place = self.places.len();
        for (i, it) in self.places.iter().enumerate() {
            if let Some(mark) = it.waiting() {
                if mark.since < oldest && kind.has(mark) {
                    oldest = mark.since;
                    place = i;
                }
            }
        }
        self.take(place)
    }
}

/// Counts one more in a heap.
fn count_one(counts: &mut [u32], heap: usize) {
    if let Some(count) = counts.get_mut(heap) {
        *count = count.saturating_add(1);
    }
}

/// In which heap an address is counted.
fn heap_of(address: u64) -> usize {
    (address % HEAPS as u64) as usize
}
