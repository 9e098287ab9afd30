//! What the delivering worker knows: the deliveries that are under way, whose turn it is, and the exchanges.
ghost use Rattle.std.specs.Prelude.{◌<◌, ◌^◌, IfSome};
ghost use Rattle.ocm_pump.specs.Delivery.{Delivers};

use crate::hosts::Hosts;
use crate::noted::Given;
use crate::notes::Note;
use crate::owners::Owners;
use crate::policy::{
    LONGEST_PAUSE, LONGEST_TIME, MOST_SEATS, MOST_THREADS, PLANS, SHORT_TIME, is_late, threads_of,
    time_of,
};
use crate::rounds::Rounds;
use crate::seats::{Hall, LOOK, Seat, Seated};
use crate::works::{Next, Outcome, State, Work};
use ocm_base::{Bytes, NoMemory};
use ocm_pump::DialEnd;
use ocm_schedule::{Ending, Schedule};
use ocm_types::Numbered;
use std::alloc::{AllocError, Global};
use std::collections::HashMap;
use std::net::Net;
use std::thread::Threads;

/// How many turns begin at a time at most.
const MOST_TURNS: u32 = 1_024;

/// For how long it is not looked at what came while a round goes on, in milliseconds: each settlement takes about as long.
const UNSEEN: u64 = 2;

/// The table.
#[derive(Drop)]
pub struct Table {
    alloc: Global,
    schedule: Schedule,
    hosts: Hosts,
    owners: Owners,
    works: HashMap<u32, Work>,
    hall: Hall,
    seats: Vec<Seat>,
    /// The hosts whose turns ended, and how, where there was no memory to note that in the schedule. There is room for all.
    unfreed: Vec<(usize, Ending)>,
    notes: Vec<Note>,
    /// Until when nothing is posted, since an answer could not be settled, in milliseconds.
    halted: u64,
    /// When it was looked last what came, in milliseconds.
    driven: u64,
    /// When rounds are due.
    pub rounds: Rounds,
}

impl Table {
    /// A table of nothing.
    pub fn new(alloc: Global, hall: Hall) -> Result<Table, AllocError> {
        Ok(Table {
            alloc,
            schedule: Schedule::new(alloc, &PLANS)?,
            hosts: Hosts::new(alloc),
            owners: Owners::new(alloc),
            works: HashMap::new(alloc),
            hall,
            seats: Vec::new(alloc),
            unfreed: Vec::with_capacity(alloc, MOST_SEATS)?,
            notes: Vec::new(alloc),
            halted: 0,
            driven: 0,
            rounds: Rounds::new(),
        })
    }

    /// The answer to a message, where its delivery came to one. Else its delivery begins, or goes on.
    pub fn deliver(&mut self, message: &Numbered, now: u64) -> Option<Given>
        ensures { IfSome result (λ given. Delivers message.now given.exchanges given.answer) }
    {
        match self.state_of(message.number) {
            Some(State::Ready) => {
                let work = self.works.remove(&message.number)?;
                work.into_given(message)
            }
            Some(State::Going(to)) => {
                self.start(to, now);
                None
            }
            Some(State::Lost(until)) if now < until => None,
            state => {
                self.begin(message, state.is_none(), now);
                None
            }
        }
    }

    /// How far the delivery of a message is, which is asked for in this round.
    fn state_of(&mut self, number: u32) -> Option<State> {
        let work = self.works.get_mut(&number)?;
        work.asked = self.rounds.number();
        Some(work.state)
    }

    /// Begins the delivery of a message, which may be a new one. Without memory it begins in a later round.
    fn begin(&mut self, message: &Numbered, is_new: bool, now: u64) {
        let name = message.to.as_str();
        let Ok(owner) = self.owners.number(self.alloc, &message.letter) else {
            return;
        };
        let number = self
            .hosts
            .number(self.alloc, &mut self.schedule, name, owner);
        let Ok(to) = number else {
            return;
        };
        if is_new {
            self.hosts.count(name);
        }
        let work = Work::new(message, State::Going(to), owner, self.rounds.number());
        if self.keep(message, work) {
            self.queue(message.number, to);
            self.start(to, now);
        }
    }

    /// Keeps the delivery of a message that is counted. Answers whether there was memory for that.
    fn keep(&mut self, message: &Numbered, work: Result<Work, NoMemory>) -> bool {
        let is_kept = match work {
            Ok(work) => self.works.insert(message.number, work).is_ok(),
            Err(NoMemory) => false,
        };
        if !is_kept {
            let _ = self.works.remove(&message.number);
            self.hosts.uncount(message.to.as_str());
        }
        is_kept
    }

    /// Forgets the delivery of a message: it is due no longer, or there is no memory for it. If it is due, it begins anew in a
    /// later round.
    fn forget(&mut self, number: u32) {
        if let Some(work) = self.works.remove(&number) {
            self.hosts.uncount(work.message().to.as_str());
        }
    }

    /// Whether a message was asked for in the last whole round. One that is due no longer isn't posted.
    fn is_due(&self, number: u32) -> bool {
        match self.works.get(&number) {
            Some(work) => work.asked >= self.rounds.ended(),
            None => false,
        }
    }

    /// Puts a message behind the others to a host.
    fn queue(&mut self, number: u32, to: usize) {
        let is_queued = match self.hosts.at(to) {
            Some(host) => host.queue.push_back(number).is_ok(),
            None => false,
        };
        if !is_queued {
            self.forget(number);
        }
    }

    /// Hands the next message to a host to the schedule, where no delivery to that host is under way.
    fn start(&mut self, to: usize, now: u64) {
        let Some(number) = self.next_to(to) else {
            return;
        };
        if is_handed(&mut self.schedule, to, number, now) {
            if let Some(host) = self.hosts.at(to) {
                let _ = host.queue.pop_front();
                host.is_going = true;
            }
        }
    }

    /// The next message to a host to which none is under way. Those that are due no longer go.
    fn next_to(&mut self, to: usize) -> Option<u32> {
        let waiting = self.hosts.at(to)?.queue.len();
        for _ in 0..waiting {
            let host = self.hosts.at(to)?;
            let number = host.queue.front().copied()?;
            if host.is_going {
                return None;
            }
            if self.is_due(number) {
                return Some(number);
            }
            let _ = self.hosts.at(to)?.queue.pop_front();
            self.forget(number);
        }
        None
    }

    /// Notes whether the answer that was given for a message was settled. Where it was not, nothing is posted for a while, and
    /// that message not before the end of it.
    pub fn settled(&mut self, message: &Numbered, is_settled: bool, now: u64) {
        if is_settled {
            self.halted = 0;
            let note = self.hosts.settle(self.alloc, message.to.as_str());
            self.note(note);
        } else {
            self.halted = now.saturating_add(u64::from(LONGEST_PAUSE));
            let state = State::Lost(self.halted);
            let work = Work::new(message, state, 0, self.rounds.number());
            self.keep(message, work);
        }
    }

    /// Looks what came, and begins what may begin, where that was not done for long.
    pub fn catch_up<R: Threads + Net>(&mut self, rt: &R, now: u64) {
        if now.saturating_sub(self.driven) >= UNSEEN {
            self.drive(rt, now);
        }
    }

    /// Goes on with the exchanges that ended or whose time is up, and begins turns.
    pub fn drive<R: Threads + Net>(&mut self, rt: &R, now: u64) {
        self.driven = now;
        self.free_late(now);
        for place in (0..self.seats.len()).rev() {
            if let Some(seat) = self.ended(place, now) {
                self.land(rt, seat, now);
            }
        }
        for _ in 0..MOST_TURNS {
            if !self.begin_turn(rt, now) {
                return;
            }
        }
    }

    /// The seat at a place, where its exchange ended, or its time is up. It is there no longer.
    fn ended(&mut self, place: usize, now: u64) -> Option<Seat> {
        if self.is_over(self.seats.get(place)?, now) && place < self.seats.len() {
            Some(self.seats.swap_remove(place))
        } else {
            None
        }
    }

    /// Whether an exchange ended, or its time is up: behind the time of its lane where another waits for the seat.
    fn is_over(&self, seat: &Seat, now: u64) -> bool {
        let time = now.saturating_sub(seat.seated.begun);
        let lane = seat.seated.lane;
        seat.has_landed()
            || time >= LONGEST_TIME
            || (time >= time_of(lane)
                && self.schedule.is_awaited(lane, bounded(now))
                && self.hall.has_room(threads_of(lane)))
    }

    /// Begins the next turn. Answers whether there was one.
    fn begin_turn<R: Threads + Net>(&mut self, rt: &R, now: u64) -> bool {
        if now < self.halted || !self.hall.has_room(MOST_THREADS) {
            return false;
        }
        let Some(turn) = self.schedule.next(bounded(now)) else {
            return false;
        };
        let seated = Seated {
            host: turn.host,
            lane: self.schedule.lane_of(turn.host),
            message: u32::try_from(turn.job).unwrap_or(0),
            begun: now,
        };
        self.recall(seated, now);
        self.go_on(rt, seated, now);
        true
    }

    /// Goes on with the delivery whose exchange ended, or is cut.
    fn land<R: Threads + Net>(&mut self, rt: &R, seat: Seat, now: u64) {
        let seated = seat.seated;
        let time = now.saturating_sub(seated.begun);
        if !seat.has_landed() && time < LONGEST_TIME && is_late(seated.lane) {
            drop(seat.land());
            self.free(seated.host, Ending::Late, now);
            self.restart(seated.message, now);
            return;
        }
        if seat.is_refused() {
            let note = self.hosts.refuse(self.alloc, seated.host);
            self.note(note);
        }
        self.came(seated, seat.land(), now);
        self.go_on(rt, seated, now);
    }

    /// Hands what came back to its delivery. The document of a host for which more messages wait is kept.
    fn came(&mut self, seated: Seated, reply: Result<Bytes, DialEnd>, now: u64) {
        let Some(work) = self.works.get_mut(&seated.message) else {
            return;
        };
        if let (true, Ok(document)) = (work.is_fresh, &reply) {
            match self.hosts.at(seated.host) {
                Some(host) if !host.queue.is_empty() => host.keep(document, now),
                _ => {}
            }
        }
        work.came(self.alloc, reply);
    }

    /// Hands the document of a host that is kept to a delivery that asks for it.
    fn recall(&mut self, seated: Seated, now: u64) {
        let (Some(work), Some(host)) = (
            self.works.get_mut(&seated.message),
            self.hosts.at(seated.host),
        ) else {
            return;
        };
        if work.is_fresh {
            if let Some(document) = host.document(now) {
                work.came(self.alloc, Ok(document));
            }
        }
    }

    /// Makes the next exchange of a turn, or ends it.
    fn go_on<R: Threads + Net>(&mut self, rt: &R, seated: Seated, now: u64) {
        let is_due = self.is_due(seated.message);
        let Some(work) = self.works.get_mut(&seated.message) else {
            self.free(seated.host, Ending::Soon, now);
            return;
        };
        let next = work.next(self.alloc, self.hosts.name(seated.host));
        match next {
            Next::Done => self.end(seated, now),
            Next::There(name) => self.go_over(seated, name, now),
            Next::Here(_) if !is_due || now < self.halted => {
                self.free(seated.host, Ending::Soon, now);
                self.restart(seated.message, now);
            }
            Next::Here(_) if self.yields(seated, now) => self.stand_again(seated, now),
            Next::Here(request) => self.fly(rt, seated, request, now),
        }
    }

    /// Whether a turn leaves its seat to another that waits, since its document took half of its time: the post has a turn of its
    /// own then.
    fn yields(&self, seated: Seated, now: u64) -> bool {
        let time = now.saturating_sub(seated.begun);
        is_late(seated.lane)
            && time >= SHORT_TIME / 2
            && self.schedule.is_awaited(seated.lane, bounded(now))
    }

    /// Leaves a seat, and waits for another with the same host.
    fn stand_again(&mut self, seated: Seated, now: u64) {
        self.free(seated.host, Ending::Soon, now);
        if !is_handed(&mut self.schedule, seated.host, seated.message, now) {
            self.restart(seated.message, now);
        }
    }

    /// Makes an exchange of a turn in its seat.
    fn fly<R: Threads + Net>(&mut self, rt: &R, seated: Seated, request: Bytes, now: u64) {
        let host = self.hosts.name(seated.host);
        let seat = Seat::begin(rt, self.alloc, &self.hall, seated, host, request);
        let is_begun = match seat {
            Ok(seat) => self.seats.push(seat).is_ok(),
            Err(NoMemory) => false,
        };
        if !is_begun {
            self.free(seated.host, Ending::Failed, now);
            self.restart(seated.message, now);
        }
    }

    /// Ends the turn of a host whose document names another, where the delivery goes on.
    fn go_over(&mut self, seated: Seated, name: String, now: u64) {
        let is_blamed = match self.hosts.at(seated.host) {
            Some(host) => host.is_blamed,
            None => false,
        };
        let how = if is_blamed {
            Ending::Failed
        } else {
            ending(seated, now)
        };
        self.free(seated.host, how, now);
        if !self.is_handed_on(seated.message, name.as_str(), now) {
            self.restart(seated.message, now);
        }
    }

    /// Hands the delivery of a message on to a host of this name.
    fn is_handed_on(&mut self, message: u32, name: &str, now: u64) -> bool {
        let Some(owner) = self.works.get(&message).map(|work| work.owner) else {
            return false;
        };
        match self
            .hosts
            .number(self.alloc, &mut self.schedule, name, owner)
        {
            Ok(host) => is_handed(&mut self.schedule, host, message, now),
            Err(NoMemory) => false,
        }
    }

    /// Ends the turn of a delivery that is done.
    fn end(&mut self, seated: Seated, now: u64) {
        let Some(work) = self.works.get_mut(&seated.message) else {
            return;
        };
        let Some(to) = work.to() else {
            return;
        };
        let (outcome, owner) = (work.outcome(), work.owner);
        let is_own = to == seated.host;
        let is_vain = outcome != Outcome::Settles;
        if !is_vain {
            work.state = State::Ready;
            self.rounds.call();
        }
        if outcome == Outcome::Failed || (is_vain && is_own) {
            self.free(seated.host, Ending::Failed, now);
        } else {
            self.free(seated.host, ending(seated, now), now);
        }
        self.blame(to, owner, !is_own, is_vain);
        if is_vain {
            let note = self.hosts.fail(self.alloc, to, now);
            self.note(note);
            self.restart(seated.message, now);
        } else {
            self.leave(to, now);
        }
    }

    /// Notes whether a message to a host came to nothing, at another host or at its own. A host that was blamed for others is
    /// asked as a new one again once a message to it was delivered.
    fn blame(&mut self, to: usize, owner: usize, is_elsewhere: bool, is_vain: bool) {
        let Some(host) = self.hosts.at(to) else {
            return;
        };
        if is_elsewhere && host.is_blamed && !is_vain {
            self.schedule.renew(to, owner);
        }
        host.is_blamed = is_elsewhere && is_vain;
        if is_vain || host.queue.is_empty() {
            host.document = None;
        }
    }

    /// Lets the next message to a host begin.
    fn leave(&mut self, to: usize, now: u64) {
        if let Some(host) = self.hosts.at(to) {
            host.is_going = false;
        }
        self.start(to, now);
    }

    /// Puts a message behind the others to its host, to be delivered anew, where it is due still.
    fn restart(&mut self, message: u32, now: u64) {
        let is_due = self.is_due(message);
        let Some(work) = self.works.get_mut(&message) else {
            return;
        };
        let Some(to) = work.to() else {
            return;
        };
        if is_due && work.restart().is_ok() {
            self.queue(message, to);
        } else {
            self.forget(message);
        }
        self.leave(to, now);
    }

    /// Gives the seat of a host back. Without memory for that it is done later.
    fn free(&mut self, host: usize, how: Ending, now: u64) {
        if self.schedule.is_busy(host)
            && self.schedule.ended(host, how, false, bounded(now)).is_err()
        {
            let _ = self.unfreed.push((host, how));
        }
    }

    /// Gives the seats back for which there was no memory before.
    fn free_late(&mut self, now: u64) {
        for _ in 0..self.unfreed.len() {
            if let Some((host, how)) = self.unfreed.pop() {
                self.free(host, how, now);
            }
        }
    }

    /// Puts a note behind those that are to be told.
    fn note(&mut self, note: Option<Note>) {
        if let Some(note) = note {
            let _ = self.notes.push(note);
        }
    }

    /// A note that is to be told.
    pub fn take_note(&mut self) -> Option<Note> {
        self.notes.pop()
    }

    /// When something is to be done, in milliseconds.
    pub fn due(&self, now: u64) -> u64 {
        let mut due = self.rounds.time();
        for seat in self.seats.iter() {
            due = due.min(seat.due(now));
        }
        let begins = self.schedule.wakes_at().unwrap_or(u64::MAX);
        let begins = if self.hall.has_room(MOST_THREADS) {
            begins
        } else {
            begins.max(now.saturating_add(LOOK))
        };
        due.min(begins.max(self.halted))
    }
}

/// How a turn ended whose host answered.
fn ending(seated: Seated, now: u64) -> Ending {
    if now.saturating_sub(seated.begun) < SHORT_TIME {
        Ending::Soon
    } else {
        Ending::Late
    }
}

/// A moment that the schedule takes.
fn bounded(now: u64) -> u64
    ensures { result < 2 ^ 63 }
{
    now.min(i64::MAX as u64)
}

/// Hands a message to a host of the schedule. Answers whether there was memory for that.
fn is_handed(schedule: &mut Schedule, host: usize, message: u32, now: u64) -> bool {
    schedule.knows(host) && schedule.due(host, u64::from(message), bounded(now)).is_ok()
}
