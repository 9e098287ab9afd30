//! Hosts that wait for seats of their own.

ghost use Rattle.std.specs.Prelude.{◌≡◌, ◌+◌, ◌<◌, ◌≤◌, ◌^◌, length, true, [], OnOk, OnErr, Some};
ghost use Rattle.ocm_schedule.specs.Circles.{some};
ghost use Rattle.ocm_schedule.specs.Lanes as lane;

use crate::circles::Circle;
use crate::places::{Place, first};
use std::alloc::{AllocError, Global};
use std::collections::LinkedList;
use std::marker::Model;

/// Hosts that wait for one of so many seats. Each rests for a pause before it may go, and then waits among those of its owner; the owners take
/// turns.
pub struct Lane {
    resting: LinkedList<Place>,
    circle: Circle,
    latest: u64,
    busy: usize,
    seats: usize,
    pause: u32,
}

impl Model for Lane {
    ghost use Rattle.std.specs.Prelude.{◌≤◌, length};
    ghost use Rattle.ocm_schedule.specs.Circles.{OwnedWithin};
    ghost use Rattle.ocm_schedule.specs.Lanes.{Queue, IsLane};

    ghost Value = { Queue };

    ghost view = { λ a. record { resting = a.resting; circle = a.circle.lines; latest = a.latest; busy = a.busy; seats = a.seats; pause = a.pause } };

    ghost invariant = { λ a.
        IsLane (record { resting = a.resting; circle = a.circle.lines; latest = a.latest; busy = a.busy; seats = a.seats; pause = a.pause })
        × OwnedWithin a.circle.owners a.resting × (length a.resting ≤ a.circle.room) };
}

impl Drop for Lane {
    fn drop(self) {
        let Lane {
            resting: _,
            circle: _,
            latest: _,
            busy: _,
            seats: _,
            pause: _,
        } = self;
    }
}

impl Lane {
    /// So many seats for which nobody waits, and the pause in milliseconds.
    pub fn new(alloc: Global, seats: usize, pause: u32) -> Lane
        ensures { result ≡ record { resting = []; circle = []; latest = 0; busy = 0; seats = seats; pause = pause } }
    {
        Lane {
            resting: LinkedList::new(alloc),
            circle: Circle::new(alloc),
            latest: 0,
            busy: 0,
            seats,
            pause,
        }
    }

    /// A host joins: it rests first. An `Err` changes nothing.
    pub fn join(&mut self, owner: usize, host: usize, now: u64) -> Result<(), AllocError>
        requires { now < 2 ^ 63 }
        ensures ok { OnOk result (self.new ≡ lane.joined self.old owner host now) }
        ensures err { OnErr result (self.new ≡ self.old) }
    {
        let from = (now + self.pause as u64).max(self.latest);
        self.circle.reserve(owner, self.resting.len() + 1)?;
        self.resting.push_back(Place { from, owner, host })?;
        self.latest = from;
        Ok(())
    }

    /// Whether the first host that rests has rested.
    fn has_rested(&self, now: u64) -> bool
        ensures { result ≡ lane.has_rested now self.now.resting }
    {
        match first(&self.resting) {
            Some(place) => place.from <= now,
            None => false,
        }
    }

    /// Whether a host waits for a seat that has rested.
    pub fn is_awaited(&self, now: u64) -> bool
        ensures { result ≡ lane.is_awaited now self.now }
    {
        !self.circle.is_empty() || self.has_rested(now)
    }

    /// Whether an exchange may begin.
    pub fn may_begin(&self, now: u64) -> bool
        ensures { result ≡ lane.may_begin now self.now }
    {
        self.busy < self.seats && self.is_awaited(now)
    }

    /// The first that rests joins the circle.
    fn rouse_first(&mut self)
        requires some { some self.old.resting ≡ true }
        requires few { length (lane.places_of self.old) < 2 ^ 63 }
        ensures { self.new ≡ lane.first_roused self.old }
    {
        self.circle.join(&mut self.resting);
    }

    /// Those that have rested join the circle.
    fn rouse(&mut self, now: u64)
        requires { length (lane.places_of self.old) < 2 ^ 63 }
        ensures { self.new ≡ lane.roused now self.old }
    {
        while self.has_rested(now) {
            self.rouse_first();
        }
    }

    /// Those that have rested join the circle, and the host whose turn it is takes a seat. It takes no memory.
    pub fn begin(&mut self, now: u64) -> usize
        requires may { lane.may_begin now self.old ≡ true }
        requires few { length (lane.places_of self.old) < 2 ^ 63 }
        ensures host { lane.first_host now self.old ≡ Some result }
        ensures begun { self.new ≡ lane.begun now self.old }
    {
        self.rouse(now);
        let Some(place) = self.circle.next() else {
            unreachable!()
        };
        self.busy += 1;
        place.host
    }

    /// A seat is given back.
    pub fn end(&mut self)
        requires { 0 < self.old.busy }
        ensures { self.new ≡ lane.ended self.old }
    {
        self.busy -= 1;
    }

    /// From when on an exchange may begin, where none ends before: 0 where one may at any time.
    pub fn wakes_at(&self) -> Option<u64>
        ensures { result ≡ lane.wakes_at self.now }
    {
        if self.busy < self.seats {
            if self.circle.is_empty() {
                first(&self.resting).map(|place| place.from)
            } else {
                Some(0)
            }
        } else {
            None
        }
    }
}
