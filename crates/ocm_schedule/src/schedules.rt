//! The order in which hosts are delivered to.

ghost use Rattle.std.specs.Prelude.{◌≡◌, ◌≢◌, ℕ, ◌+◌, ◌<◌, ◌≤◌, ◌^◌, min, not, nat_lt, false, true, [], ◌∷◌, ◌++◌, length, slice_set, slice_index_or, map, IfNone, count_by, sum_by, Some, None, OnOk, OnErr, IfOk, IfSome, IsSome, MatchOption, IsTrue};
ghost use Rattle.ocm_schedule.specs.declared.schedules.Ending.TheVariants.{Failed};
ghost use Rattle.ocm_schedule.specs.Lanes as queue;
ghost use Rattle.ocm_schedule.specs.Lanes.{circle_at};
ghost use Rattle.ocm_schedule.specs.Runs.{StandsAt};
ghost use Rattle.ocm_schedule.specs.Schedules as schedule;
ghost use Rattle.ocm_schedule.specs.Schedules.{IsSchedule, IsSoonest, lane_at, host_at, no_lane, nobody, Begins, NoneMayBegin};

use crate::hosts::Host;
use crate::lanes::Lane;
use std::alloc::{AllocError, Global};
use std::marker::Model;

/// An exchange that is to begin: with a host, for a job.
#[derive(Clone, Copy)]
pub struct Turn {
    pub host: usize,
    pub job: u64,
}

/// How many exchanges a lane may have under way, and how long a host that joins it rests first, in milliseconds.
#[derive(Clone, Copy)]
pub struct Plan {
    pub seats: usize,
    pub pause: u32,
}

/// How an exchange ended: the host answered, soon or late, or it failed.
#[derive(Clone, Copy)]
pub enum Ending {
    Soon,
    Late,
    Failed,
}

/// The order in which hosts are delivered to. A host is a server as one owner writes to it: no two exchanges with it are under way at once,
/// and its jobs begin in the order in which they came. It belongs to a lane by how it answered last, and waits for one of that lane's seats; in
/// a lane the owners take turns. So a host that hangs takes seats from hosts of its own lane alone, and an owner with many hosts delays another
/// by a turn.
pub struct Schedule {
    lanes: Vec<Lane>,
    hosts: Vec<Host>,
}

impl Model for Schedule {
    ghost use Rattle.ocm_schedule.specs.Schedules.{State, IsSchedule};

    ghost Value = { State };

    ghost view = { λ a. record { lanes = a.lanes.items; hosts = a.hosts.items } };

    ghost invariant = { λ a. IsSchedule (record { lanes = a.lanes.items; hosts = a.hosts.items }) };
}

impl Drop for Schedule {
    fn drop(self) {
        let Schedule { lanes: _, hosts: _ } = self;
    }
}

/// A host joins a lane.
fn join(
    lanes: &mut Vec<Lane>,
    lane: usize,
    owner: usize,
    host: usize,
    now: u64,
) -> Result<(), AllocError>
    requires inside { lane < length lanes.old.items }
    requires now { now < 2 ^ 63 }
    ensures ok { OnOk result (lanes.new.items ≡ schedule.join_if true lanes.old.items lane owner host now) }
    ensures err { OnErr result (lanes.new.items ≡ lanes.old.items) }
{
    let lane = &mut lanes[lane];
    lane.join(owner, host, now)
}

/// A host joins a lane, if it is to.
fn join_if(
    joins: bool,
    lanes: &mut Vec<Lane>,
    lane: usize,
    owner: usize,
    host: usize,
    now: u64,
) -> Result<(), AllocError>
    requires inside { lane < length lanes.old.items }
    requires now { now < 2 ^ 63 }
    ensures ok { OnOk result (lanes.new.items ≡ schedule.join_if joins lanes.old.items lane owner host now) }
    ensures err { OnErr result (lanes.new.items ≡ lanes.old.items) }
{
    if joins {
        join(lanes, lane, owner, host, now)
    } else {
        Ok(())
    }
}

/// A job is handed to a host, which joins its lane if it was idle.
fn hand(
    lanes: &mut Vec<Lane>,
    hosts: &mut Vec<Host>,
    host: usize,
    job: u64,
    now: u64,
) -> Result<(), AllocError>
    requires known { host < length hosts.old.items }
    requires inside { (slice_index_or hosts.old.items host nobody).lane < length lanes.old.items }
    requires now { now < 2 ^ 63 }
    ensures lanes { OnOk result (lanes.new.items ≡ schedule.join_if (schedule.is_idle (slice_index_or hosts.old.items host nobody)) lanes.old.items (slice_index_or hosts.old.items host nobody).lane (slice_index_or hosts.old.items host nobody).owner host now) }
    ensures hosts { OnOk result (hosts.new.items ≡ slice_set hosts.old.items host (schedule.with_job (slice_index_or hosts.old.items host nobody) job)) }
    ensures err { OnErr result ((lanes.new.items ≡ lanes.old.items) × (hosts.new.items ≡ hosts.old.items)) }
{
    let peer = &mut hosts[host];
    if peer.is_idle() {
        let (lane, owner) = (peer.lane(), peer.owner());
        peer.push(job)?;
        match join(lanes, lane, owner, host, now) {
            Ok(()) => Ok(()),
            Err(failure) => {
                peer.pop();
                Err(failure)
            }
        }
    } else {
        peer.push(job)
    }
}

/// The first lane in which an exchange may begin.
fn first_free(lanes: &[Lane], now: u64) -> Option<usize>
    ensures { MatchOption result
        ((k : ℕ) → k < length lanes.now → queue.may_begin now (slice_index_or lanes.now k no_lane) ≡ false)
        (λ l. (l < length lanes.now) × (queue.may_begin now (slice_index_or lanes.now l no_lane) ≡ true)) }
{
    for (l, lane) in lanes.iter().enumerate() {
        if lane.may_begin(now) {
            return Some(l);
        }
    }
    None
}

/// The host of a lane whose turn it is takes a seat.
fn seat(lanes: &mut Vec<Lane>, lane: usize, now: u64) -> usize
    requires inside { lane < length lanes.old.items }
    requires may { queue.may_begin now (slice_index_or lanes.old.items lane no_lane) ≡ true }
    requires few { length (queue.places_of (slice_index_or lanes.old.items lane no_lane)) < 2 ^ 63 }
    ensures host { queue.first_host now (slice_index_or lanes.old.items lane no_lane) ≡ Some result }
    ensures begun { lanes.new.items ≡ slice_set lanes.old.items lane (queue.begun now (slice_index_or lanes.old.items lane no_lane)) }
{
    let lane = &mut lanes[lane];
    lane.begin(now)
}

/// A host begins its first job.
fn take_up(hosts: &mut Vec<Host>, host: usize) -> u64
    requires known { host < length hosts.old.items }
    requires jobs { schedule.is_none (slice_index_or hosts.old.items host nobody).jobs ≡ false }
    ensures job { schedule.first_job (slice_index_or hosts.old.items host nobody).jobs ≡ Some result }
    ensures begun { hosts.new.items ≡ slice_set hosts.old.items host (schedule.with_seat (slice_index_or hosts.old.items host nobody)) }
{
    let peer = &mut hosts[host];
    peer.begin()
}

/// A seat of a lane is given back.
fn give_back(lanes: &mut Vec<Lane>, lane: usize)
    requires inside { lane < length lanes.old.items }
    requires busy { 0 < (slice_index_or lanes.old.items lane no_lane).busy }
    ensures { lanes.new.items ≡ schedule.end_at lanes.old.items lane }
{
    let lane = &mut lanes[lane];
    lane.end();
}

/// A host gives its seat back, and belongs to that lane.
fn put_down(hosts: &mut Vec<Host>, host: usize, lane: usize, stays: bool)
    requires known { host < length hosts.old.items }
    ensures { hosts.new.items ≡ slice_set hosts.old.items host (schedule.without_seat (slice_index_or hosts.old.items host nobody) lane stays) }
{
    let peer = &mut hosts[host];
    peer.end(lane, stays);
}

/// The lane of a host that was never asked.
fn first_lane(lanes: usize) -> usize
    requires some { 0 < lanes }
    ensures { result ≡ schedule.first_lane lanes }
{
    (lanes - 1).min(2)
}

/// The lane of a host after an exchange.
fn next_lane(how: Ending, lane: usize, lanes: usize) -> usize
    requires some { 0 < lanes }
    requires inside { lane < lanes }
    ensures { result ≡ schedule.next_lane how lane lanes }
{
    match how {
        Ending::Soon => 0,
        Ending::Late => (lanes - 1).min(1),
        Ending::Failed => (lane.max(2) + 1).min(lanes - 1),
    }
}

/// An exchange with a host ended.
fn finish(
    lanes: &mut Vec<Lane>,
    hosts: &mut Vec<Host>,
    host: usize,
    how: Ending,
    stays: bool,
    now: u64,
) -> Result<(), AllocError>
    requires known { host < length hosts.old.items }
    requires inside { (slice_index_or hosts.old.items host nobody).lane < length lanes.old.items }
    requires busy { 0 < (slice_index_or lanes.old.items (slice_index_or hosts.old.items host nobody).lane no_lane).busy }
    requires now { now < 2 ^ 63 }
    ensures lanes { OnOk result (let p = slice_index_or hosts.old.items host nobody in
        lanes.new.items ≡ schedule.end_at (schedule.join_if (not (schedule.is_none (schedule.left_jobs stays p.jobs))) lanes.old.items (schedule.next_lane how p.lane (length lanes.old.items)) p.owner host now) p.lane) }
    ensures hosts { OnOk result (let p = slice_index_or hosts.old.items host nobody in
        hosts.new.items ≡ slice_set hosts.old.items host (schedule.without_seat p (schedule.next_lane how p.lane (length lanes.old.items)) stays)) }
    ensures err { OnErr result ((lanes.new.items ≡ lanes.old.items) × (hosts.new.items ≡ hosts.old.items)) }
{
    let peer = &hosts[host];
    let (lane, owner) = (peer.lane(), peer.owner());
    let more = peer.has_more(stays);
    let next = next_lane(how, lane, lanes.len());
    join_if(more, lanes, next, owner, host, now)?;
    give_back(lanes, lane);
    put_down(hosts, host, next, stays);
    Ok(())
}

/// A host that is idle is given to an owner and a lane.
fn assign(hosts: &mut Vec<Host>, host: usize, owner: usize, lane: usize)
    requires known { host < length hosts.old.items }
    ensures { hosts.new.items ≡ schedule.given_if (schedule.is_idle (slice_index_or hosts.old.items host nobody)) hosts.old.items host owner lane }
{
    let peer = &mut hosts[host];
    if peer.is_idle() {
        peer.give_to(owner, lane);
    }
}

/// A host that is idle belongs to the lane of one that failed once more.
fn accuse(hosts: &mut Vec<Host>, host: usize, lanes: usize)
    requires known { host < length hosts.old.items }
    requires inside { (slice_index_or hosts.old.items host nobody).lane < lanes }
    ensures { let p = slice_index_or hosts.old.items host nobody in
        hosts.new.items ≡ schedule.given_if (schedule.is_idle p) hosts.old.items host p.owner (schedule.next_lane Failed p.lane lanes) }
{
    let peer = &hosts[host];
    let owner = peer.owner();
    let lane = next_lane(Ending::Failed, peer.lane(), lanes);
    assign(hosts, host, owner, lane);
}

/// A host is added, which was never asked.
fn add(hosts: &mut Vec<Host>, owner: usize, lane: usize) -> Result<(), AllocError>
    ensures ok { OnOk result (hosts.new.items ≡ hosts.old.items ++ schedule.unasked owner lane ∷ []) }
    ensures err { OnErr result (hosts.new.items ≡ hosts.old.items) }
{
    let alloc = *hosts.allocator();
    hosts.push(Host::new(alloc, owner, lane))?;
    Ok(())
}

/// The lanes of a plan.
fn lanes_of(alloc: Global, plans: &[Plan]) -> Result<Vec<Lane>, AllocError>
    ensures { IfOk result (λ lanes. lanes.items ≡ map schedule.planned plans.now) }
{
    let mut lanes = Vec::new(alloc);
    for plan in plans {
        lanes.push(Lane::new(alloc, plan.seats, plan.pause))?;
    }
    Ok(lanes)
}

/// The sooner of two moments, where there is one.
fn sooner(first: Option<u64>, second: Option<u64>) -> Option<u64>
    ensures { result ≡ schedule.sooner first second }
{
    match (first, second) {
        (Some(a), Some(b)) => Some(a.min(b)),
        (Some(a), None) => Some(a),
        (None, b) => b,
    }
}

/// From when on an exchange may begin in one of these lanes, if none ends before.
fn soonest(lanes: &[Lane]) -> Option<u64>
    ensures { IsSoonest lanes.now (length lanes.now) result }
{
    let mut soonest: Option<u64> = None;
    for lane in lanes {
        soonest = sooner(soonest, lane.wakes_at());
    }
    soonest
}

impl Schedule {
    /// A schedule without hosts, with these lanes: the first for hosts that answered soon, the second for those that answered late, the third
    /// for those that were never asked, and the others for those that failed, each time one further.
    pub fn new(alloc: Global, plans: &[Plan]) -> Result<Schedule, AllocError>
        requires { 0 < length plans.now }
        ensures { IfOk result (λ made. made ≡ record { lanes = map schedule.planned plans.now; hosts = [] }) }
    {
        let lanes = lanes_of(alloc, plans)?;
        Ok(Schedule {
            lanes,
            hosts: Vec::new(alloc),
        })
    }

    /// Adds a host as one owner writes to it, and gives its number. It was never asked. Owners are small numbers that the caller gives out: a
    /// lane keeps a list for each up to the largest that waited there. An `Err` changes nothing.
    pub fn add_host(&mut self, owner: usize) -> Result<usize, AllocError>
        ensures number { IfOk result (λ host. host ≡ length self.old.hosts) }
        ensures ok { OnOk result (self.new ≡ schedule.added self.old owner) }
        ensures err { OnErr result (self.new ≡ self.old) }
    {
        let host = self.hosts.len();
        let lane = first_lane(self.lanes.len());
        add(&mut self.hosts, owner, lane)?;
        Ok(host)
    }

    /// What holds of every schedule: among others, of each lane no more exchanges are under way than it has seats, so in all no more
    /// than there are seats.
    pub fn rules(&self)
        ensures each { IsSchedule self.now }
        ensures all { count_by (λ host. host.busy) self.now.hosts ≤ sum_by (λ lane. lane.seats) self.now.lanes }
    {
        let _ = &self.lanes;
    }

    /// The moment from which an exchange may begin, if none ends before: 0 if one may at any time, None if none may.
    pub fn wakes_at(&self) -> Option<u64>
        ensures none { IfNone result ((now : ℕ) → NoneMayBegin now self.now) }
        ensures before { IfSome result (λ wakes. (now : ℕ) → now < wakes → NoneMayBegin now self.now) }
        ensures then { IfSome result (λ wakes. NoneMayBegin wakes self.now → ⊥) }
    {
        soonest(self.lanes.as_slice())
    }

    /// Hands a job to a host, which begins to rest in its lane if it was idle. `now` is a moment in milliseconds. An `Err` says that memory is
    /// missing, and changes nothing.
    pub fn due(&mut self, host: usize, job: u64, now: u64) -> Result<(), AllocError>
        requires known { host < length self.old.hosts }
        requires now { now < 2 ^ 63 }
        ensures ok { OnOk result (self.new ≡ schedule.handed self.old host job now) }
        ensures err { OnErr result (self.new ≡ self.old) }
    {
        hand(&mut self.lanes, &mut self.hosts, host, job, now)
    }

    /// An idle host counts as one that failed once more: what it named was of no use. Its next job waits so long. Another host is left as
    /// it is.
    pub fn blame(&mut self, host: usize)
        requires known { host < length self.old.hosts }
        ensures { self.new ≡ schedule.blamed self.old host }
    {
        let lanes = self.lanes.len();
        accuse(&mut self.hosts, host, lanes);
    }

    /// The number of an idle host becomes that of another host, as this owner writes to it, which was never asked. A host that is not idle is
    /// left as it is, and there may be no host of that number.
    pub fn renew(&mut self, host: usize, owner: usize)
        ensures known { host < length self.old.hosts → self.new ≡ schedule.renewed self.old host owner }
        ensures unknown { length self.old.hosts ≤ host → self.new ≡ self.old }
    {
        if host < self.hosts.len() {
            let lane = first_lane(self.lanes.len());
            assign(&mut self.hosts, host, owner, lane);
        }
    }

    /// Whether there is a host of that number.
    pub fn knows(&self, host: usize) -> bool
        ensures { result ≡ nat_lt host (length self.now.hosts) }
    {
        host < self.hosts.len()
    }

    /// Whether an exchange with a host is under way. None is where there is no such host.
    pub fn is_busy(&self, host: usize) -> bool
        ensures { result ≡ (host_at self.now host).busy }
    {
        match self.hosts.get(host) {
            Some(peer) => peer.is_busy(),
            None => false,
        }
    }

    /// Whether a host has no job, and no exchange with it is under way. None has where there is no such host.
    pub fn is_idle(&self, host: usize) -> bool
        ensures known { host < length self.now.hosts → result ≡ schedule.is_idle (host_at self.now host) }
        ensures unknown { length self.now.hosts ≤ host → result ≡ false }
    {
        match self.hosts.get(host) {
            Some(peer) => peer.is_idle(),
            None => false,
        }
    }

    /// The lane of a host, from 0 on: by that an exchange with it may take longer. 0 where there is no such host.
    pub fn lane_of(&self, host: usize) -> usize
        ensures { result ≡ (host_at self.now host).lane }
    {
        match self.hosts.get(host) {
            Some(peer) => peer.lane(),
            None => 0,
        }
    }

    /// Whether a host that has rested waits for a seat of that lane. None does where there is no such lane.
    pub fn is_awaited(&self, lane: usize, now: u64) -> bool
        ensures { result ≡ queue.is_awaited now (lane_at self.now lane) }
    {
        match self.lanes.get(lane) {
            Some(lane) => lane.is_awaited(now),
            None => false,
        }
    }

    /// The exchange that is to begin now, if one may in any lane. It takes no memory. The lanes are tried in order. Ask until the answer is
    /// None.
    pub fn next(&mut self, now: u64) -> Option<Turn>
        ensures turn { MatchOption result ((self.new ≡ self.old) × NoneMayBegin now self.old) (λ turn. Begins now self.old self.new turn.host turn.job) }
        // With a host no two exchanges are under way.
        ensures alone { IfSome result (λ turn. ((host_at self.old turn.host).busy ≡ false) × ((host_at self.new turn.host).busy ≡ true)) }
        // A host that has rested waits only where each seat of its own lane is taken.
        ensures full { IfNone result ((l k n host : ℕ) → StandsAt (circle_at now (lane_at self.old l)) k n host → (lane_at self.old l).seats ≤ (lane_at self.old l).busy) }
    {
        let lane = first_free(self.lanes.as_slice(), now)?;
        let host = seat(&mut self.lanes, lane, now);
        let job = take_up(&mut self.hosts, host);
        Some(Turn { host, job })
    }

    /// Records that the exchange with a host ended, and how. A job that stays goes to the end of the host's jobs; otherwise it is done. An `Err`
    /// says that memory is missing, and changes nothing.
    pub fn ended(
        &mut self,
        host: usize,
        how: Ending,
        stays: bool,
        now: u64,
    ) -> Result<(), AllocError>
        requires busy { (host_at self.old host).busy ≡ true }
        requires now { now < 2 ^ 63 }
        ensures ok { OnOk result (self.new ≡ schedule.settled self.old host how stays now) }
        ensures err { OnErr result (self.new ≡ self.old) }
    {
        finish(&mut self.lanes, &mut self.hosts, host, how, stays, now)
    }
}
