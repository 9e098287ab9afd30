//! The hosts that messages are for or go to.

use crate::notes::{News, Note};
use crate::policy::{DOCUMENT_TIME, LONGEST_PAUSE, MOST_DOCUMENT, MOST_KEPT};
use ocm_base::{Bytes, NoMemory};
use ocm_schedule::Schedule;
use std::alloc::Global;
use std::collections::{HashMap, VecDeque};

/// How many hosts are looked at for one that may be forgotten.
const LOOKS: usize = 64;

/// A host as one owner writes to it. Its number is that of the schedule.
#[derive(Drop)]
pub struct Host {
    pub name: String,
    pub owner: usize,
    /// The messages to it that wait for those before them, in order.
    pub queue: VecDeque<u32>,
    /// Whether a delivery to it is under way.
    pub is_going: bool,
    /// Its discovery document as it came last, and until when it is used for further messages, in milliseconds.
    pub document: Option<(Bytes, u64)>,
    /// Whether the last message to it came to nothing at another host, which its document named.
    pub is_blamed: bool,
}

/// What is known of a name.
#[derive(Drop)]
struct Named {
    /// The hosts of this name: whose they are, and their numbers.
    hosts: Vec<(usize, usize)>,
    /// How many messages to it are due.
    due: u32,
    /// Since when nothing could be delivered to it, in milliseconds.
    since: Option<u64>,
    /// Whether that was told.
    is_told: bool,
    /// Whether it was told that it is asked at none of its addresses.
    is_refused: bool,
}

/// The hosts, by name and owner. So many are remembered though nothing is due for them; of more, numbers go to others.
#[derive(Drop)]
pub struct Hosts {
    named: HashMap<String, Named>,
    hosts: Vec<Host>,
    /// The number of the host at which the next search begins for one that may be forgotten.
    hand: usize,
}

impl Host {
    /// Its document, where one is kept that may still be used.
    pub fn document(&self, now: u64) -> Option<Bytes> {
        match &self.document {
            Some((document, until)) if now < *until => document.copy().ok(),
            _ => None,
        }
    }

    /// Keeps its document for a while.
    pub fn keep(&mut self, document: &Bytes, now: u64) {
        if document.len() <= MOST_DOCUMENT {
            if let Ok(document) = document.copy() {
                self.document = Some((document, now.saturating_add(DOCUMENT_TIME)));
            }
        }
    }
}

impl Hosts {
    /// No host.
    pub fn new(alloc: Global) -> Hosts {
        Hosts {
            named: HashMap::new(alloc),
            hosts: Vec::new(alloc),
            hand: 0,
        }
    }

    /// The host of a number.
    pub fn at(&mut self, number: usize) -> Option<&mut Host> {
        self.hosts.get_mut(number)
    }

    /// The name of the host of a number.
    pub fn name(&self, number: usize) -> &str {
        match self.hosts.get(number) {
            Some(host) => host.name.as_str(),
            None => "",
        }
    }

    /// The number of a host as an owner writes to it.
    fn known(&self, name: &str, owner: usize) -> Option<usize> {
        let named = self.named.get(name)?;
        for (whose, number) in named.hosts.iter() {
            if *whose == owner {
                return Some(*number);
            }
        }
        None
    }

    /// The number of a host as an owner writes to it, which may be new. It was never asked then.
    pub fn number(
        &mut self,
        alloc: Global,
        schedule: &mut Schedule,
        name: &str,
        owner: usize,
    ) -> Result<usize, NoMemory> {
        if let Some(number) = self.known(name, owner) {
            return Ok(number);
        }
        self.room_for(alloc, name)?;
        let host = Host {
            name: String::from_str(alloc, name)?,
            owner,
            queue: VecDeque::new(alloc),
            is_going: false,
            document: None,
            is_blamed: false,
        };
        let number = self.place(schedule, host)?;
        if let Some(named) = self.named.get_mut(name) {
            named.hosts.push((owner, number))?;
        }
        Ok(number)
    }

    /// Room for what is known of a name.
    fn room_for(&mut self, alloc: Global, name: &str) -> Result<(), NoMemory> {
        if self.named.get(name).is_some() {
            return Ok(());
        }
        let text = String::from_str(alloc, name)?;
        let named = Named {
            hosts: Vec::new(alloc),
            due: 0,
            since: None,
            is_told: false,
            is_refused: false,
        };
        match self.named.insert(text, named) {
            Ok(_) => Ok(()),
            Err(_) => Err(NoMemory),
        }
    }

    /// Puts a host in the place of one that may be forgotten, or behind all.
    fn place(&mut self, schedule: &mut Schedule, host: Host) -> Result<usize, NoMemory> {
        if self.hosts.len() >= MOST_KEPT {
            if let Some(number) = self.forgettable(schedule) {
                schedule.renew(number, host.owner);
                self.replace(number, host);
                return Ok(number);
            }
        }
        self.hosts.reserve(1)?;
        let number = schedule.add_host(host.owner)?;
        self.hosts.push(host)?;
        Ok(number)
    }

    /// The number of a host for which nothing is due, among the next ones.
    fn forgettable(&mut self, schedule: &Schedule) -> Option<usize> {
        for _ in 0..LOOKS {
            let number = self.hand;
            self.hand = number.saturating_add(1);
            if self.hand >= self.hosts.len() {
                self.hand = 0;
            }
            let host = self.hosts.get(number)?;
            if !host.is_going && host.queue.is_empty() && schedule.is_idle(number) {
                return Some(number);
            }
        }
        None
    }

    /// Puts a host in the place of another, which is forgotten.
    fn replace(&mut self, number: usize, host: Host) {
        let Some(place) = self.hosts.get_mut(number) else {
            return;
        };
        if let Some(named) = self.named.get_mut(place.name.as_str()) {
            named.hosts.retain(|it| it.1 != number);
            if named.hosts.is_empty() {
                let _ = self.named.remove(place.name.as_str());
            }
        }
        *place = host;
    }

    /// Counts a message to a host that is due.
    pub fn count(&mut self, name: &str) {
        if let Some(named) = self.named.get_mut(name) {
            named.due = named.due.saturating_add(1);
        }
    }

    /// Counts a message to a host that is due no longer. What was told of a host is forgotten with the last one.
    pub fn uncount(&mut self, name: &str) {
        if let Some(named) = self.named.get_mut(name) {
            named.due = named.due.saturating_sub(1);
            if named.due == 0 {
                named.since = None;
                named.is_told = false;
                named.is_refused = false;
            }
        }
    }

    /// Notes that a message could not be delivered to a host. Gives what is to be told of it, if anything.
    pub fn fail(&mut self, alloc: Global, number: usize, now: u64) -> Option<Note> {
        let name = self.hosts.get(number)?.name.as_str();
        let named = self.named.get_mut(name)?;
        let since = named.since.unwrap_or(now);
        named.since = Some(since);
        if named.is_told || now.saturating_sub(since) < u64::from(LONGEST_PAUSE) {
            return None;
        }
        named.is_told = true;
        Note::of(alloc, name, named.due, News::Fails)
    }

    /// Notes that a host is asked at none of its addresses. Gives what is to be told of it, if anything.
    pub fn refuse(&mut self, alloc: Global, number: usize) -> Option<Note> {
        let name = self.hosts.get(number)?.name.as_str();
        let named = self.named.get_mut(name)?;
        if named.is_refused {
            return None;
        }
        named.is_refused = true;
        Note::of(alloc, name, named.due, News::IsRefused)
    }

    /// Notes that a message to a host was settled. Gives what is to be told of it, if anything.
    pub fn settle(&mut self, alloc: Global, name: &str) -> Option<Note> {
        let named = self.named.get_mut(name)?;
        named.due = named.due.saturating_sub(1);
        named.since = None;
        named.is_refused = false;
        if !named.is_told {
            return None;
        }
        named.is_told = false;
        Note::of(alloc, name, named.due, News::IsReached)
    }
}
