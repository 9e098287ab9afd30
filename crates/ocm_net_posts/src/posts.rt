//! The post of one delivering worker, which its door and its rounds share.
ghost use Rattle.std.specs.Prelude.{IfSome};
ghost use Rattle.ocm_pump.specs.Delivery.{Delivers};

use crate::noted::Given;
use crate::seats::Hall;
use crate::tables::Table;
use libc::net::EPOLLIN;
use ocm_net_flights::Peers;
use ocm_net_waits::{Bell, Set, millis};
use ocm_types::Numbered;
use os::EpollEvent;
use std::alloc::Global;
use std::io::Eprint;
use std::net::Net;
use std::sync::atomic::AtomicU64;
use std::sync::{Arc, Mutex, Wait};
use std::thread::Threads;
use std::{io, time};

/// The token of the bell that calls a round.
const CALL: u64 = 0;

/// The token of the bell of exchanges that ended.
const LANDED: u64 = 1;

/// How many notes are told behind one another at most.
const MOST_NOTES: u32 = 1_000;

/// The deliveries of one worker. They go on between rounds, each exchange in a thread of its own, and an answer is kept until
/// a round asks for it.
pub struct Posts<'a, R: Wait + time::Clock> {
    rt: &'a R,
    set: Set,
    bell: Arc<Bell, Global>,
    landed: Arc<Bell, Global>,
    table: Mutex<Table>,
}

impl<R: Wait + time::Clock> Drop for Posts<'_, R> {
    fn drop(self) {
        let Posts {
            rt: _,
            set: _,
            bell: _,
            landed: _,
            table: _,
        } = self;
    }
}

impl<'a, R: Wait + time::Clock> Posts<'a, R> {
    /// No delivery, to such peers. A round is due, and another whenever the bell is rung.
    pub fn new(
        rt: &'a R,
        alloc: Global,
        bell: Arc<Bell, Global>,
        peers: Peers,
    ) -> io::Result<Posts<'a, R>>
    where
        R: Net,
    {
        let set = Set::new(rt)?;
        let landed = Arc::new(alloc, Bell::new(rt)?)?;
        let threads = Arc::new(alloc, AtomicU64::new(0))?;
        let hall = Hall::new(Arc::try_clone(&landed)?, threads, peers);
        let table = Table::new(alloc, hall)?;
        set.add(bell.fd(), EPOLLIN, CALL);
        set.add(landed.fd(), EPOLLIN, LANDED);
        Ok(Posts {
            rt,
            set,
            bell,
            landed,
            table: Mutex::new(table),
        })
    }

    /// The answer to a message, where its delivery came to one that settles it. Else its delivery begins, where it is not
    /// under way, and goes on beside the rounds: again and again, until such an answer came.
    pub fn deliver(&self, message: &Numbered) -> Option<Given>
    where
        R: Threads + Net,
        ensures { IfSome result (λ given. Delivers message.now given.exchanges given.answer) }
    {
        let now = millis(self.rt);
        let mut guard = self.table.lock(self.rt);
        let table = &mut *guard;
        table.catch_up(self.rt, now);
        table.deliver(message, now)
    }

    /// Notes whether the answer that was given for a message was settled, and tells on standard error of hosts that are
    /// reached again. Where it was not, nothing is posted until a settlement succeeds or a minute has passed.
    pub fn settled(&self, message: &Numbered, is_settled: bool)
    where
        R: Eprint,
    {
        let now = millis(self.rt);
        let mut guard = self.table.lock(self.rt);
        let table = &mut *guard;
        table.settled(message, is_settled, now);
        tell(self.rt, table);
    }

    /// Ends a round.
    pub(crate) fn end_round(&self) {
        let now = millis(self.rt);
        let mut guard = self.table.lock(self.rt);
        guard.rounds.end(now);
    }

    /// Goes on with what ended, and begins a round where one is due, or the bell's end was noted. Else it waits a while.
    pub(crate) fn begin_round(&self) -> bool
    where
        R: Threads + Net + Eprint,
    {
        let now = millis(self.rt);
        let due = self.drive(now);
        if due <= now {
            return true;
        }
        self.wait(due.saturating_sub(now));
        false
    }

    /// Goes on with what ended, and begins a round where one is due. Answers until when there is nothing to be done, in
    /// milliseconds, or 0 where a round begins.
    fn drive(&self, now: u64) -> u64
    where
        R: Threads + Net + Eprint,
    {
        let mut guard = self.table.lock(self.rt);
        let table = &mut *guard;
        table.drive(self.rt, now);
        tell(self.rt, table);
        if table.rounds.time() <= now || self.bell.is_over() {
            table.rounds.begin(now);
            return 0;
        }
        table.due(now).max(now.saturating_add(1))
    }

    /// Waits until an exchange ended, or the bell is rung, for at most so many milliseconds.
    fn wait(&self, time: u64) {
        let mut events = [EpollEvent { events: 0, data: 0 }; 2];
        let millis_at_most = i32::try_from(time).unwrap_or(i32::MAX);
        let count = self.set.wait(&mut events, millis_at_most);
        for event in events.iter().take(count) {
            if event.data == LANDED {
                self.landed.hush();
            } else {
                self.bell.hush();
                let mut guard = self.table.lock(self.rt);
                guard.rounds.call();
            }
        }
    }

    /// The runtime.
    pub(crate) fn rt(&self) -> &'a R {
        self.rt
    }

    /// Whether the bell's end was noted.
    pub(crate) fn is_over(&self) -> bool {
        self.bell.is_over()
    }
}

/// Tells what an administrator is to be told, on standard error.
fn tell<R: Eprint>(rt: &R, table: &mut Table) {
    for _ in 0..MOST_NOTES {
        let Some(note) = table.take_note() else {
            return;
        };
        let _ = eprintln!(rt; "ocmd: {note}");
    }
}
