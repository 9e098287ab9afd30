ghost use Rattle.std.specs.Prelude.{◌≡◌, ◌+◌, ◌<◌, ◌≤◌, [], ◌∷◌, ◌++◌, length, IfOk, IfSome, IsSome, OnOk, option_copied};
ghost use Rattle.ocm_limits.specs.Limits.{most_messages};
ghost use Rattle.ocm_rules.specs.Messages.{change_count};
ghost use Rattle.ocm_rules.specs.Settlements.{settles};
ghost use Rattle.ocm_rules.specs.State.{changed_at, new_sent_row};
ghost use Rattle.ocm_outgoing.specs.Lists.{messages, is_settled, message_at, numbered_at, subject_at, settled_row, due_in};

use crate::fronts::{begin, go_on};
use crate::rows::{Sent, Thread};
use crate::walks::{begins_at, copies, first_waiting, link_last, mark, move_first};
use ocm_base::{List, NoMemory};
use ocm_rules::{Subject, is_change, row_at, settles};
use ocm_types::{Host, Letter, Numbered, ProviderId, Shared};
use std::alloc::Global;
use std::collections::HashMap;
use std::marker::Model;

/// The messages that one server sends to others, each with whether it is settled.
///
/// Contracts see the messages in the order in which they were sent, numbered from 1, and how many
/// more can be added without memory. There are at most 1,048,576 messages.
pub struct Outbox {
    rows: Vec<Sent>,
    // The thread of each thing about which a message waits, and of no other.
    threads: HashMap<Subject, Thread>,
    // The numbers of the first messages of all threads, in order.
    fronts: Vec<u32>,
    changes: u32,
    alloc: Global,
}

impl Drop for Outbox {
    fn drop(self) {
        let Outbox {
            rows: _,
            threads: _,
            fronts: _,
            changes: _,
            alloc: _,
        } = self;
    }
}

impl Model for Outbox {
    ghost use Rattle.std.specs.Prelude.{◌-◌, min, vec_len, vec_capacity};
    ghost use Rattle.std.specs.HashMap as map;
    ghost use Rattle.ocm_outgoing.specs.Lists.{OutboxLists};
    ghost use Rattle.ocm_outgoing.specs.Threads.{IsOutbox, rows_of};

    ghost Value = { OutboxLists };

    ghost view = { λ outbox. record {
      sent = rows_of outbox.rows.items;
      room = min (min (vec_capacity outbox.rows - vec_len outbox.rows) (map.spare outbox.threads)) (vec_capacity outbox.fronts - vec_len outbox.fronts);
    } };

    ghost invariant = { λ outbox. IsOutbox outbox.rows.items outbox.threads outbox.fronts.items outbox.changes };
}

impl Outbox {
    /// No messages.
    pub fn new(alloc: Global) -> Outbox
        ensures { result.sent ≡ [] }
    {
        Outbox {
            rows: Vec::new(alloc),
            threads: HashMap::new(alloc),
            fronts: Vec::new(alloc),
            changes: 0,
            alloc,
        }
    }

    /// The message of this number, as it is sent. None where there is none.
    #[tactic(auto, using(crate::proofs::Found::numbered_found))]
    pub fn message(&self, m: u32) -> Option<&Numbered>
        ensures { option_copied result ≡ numbered_at self.now.sent m }
    {
        match row_at(&self.rows, m) {
            Some(row) => Some(&row.numbered),
            None => None,
        }
    }

    /// What the message of this number is about. None where there is none.
    #[tactic(auto, using(crate::proofs::Found::subject_found))]
    pub fn subject(&self, m: u32) -> Option<Subject>
        ensures { result ≡ subject_at self.now.sent m }
    {
        match row_at(&self.rows, m) {
            Some(row) => Some(row.subject),
            None => None,
        }
    }

    /// Whether the message of this number is settled. False where there is none.
    pub fn settled(&self, m: u32) -> bool
        ensures { result ≡ is_settled self.now.sent m }
    {
        match row_at(&self.rows, m) {
            Some(row) => row.settled,
            None => false,
        }
    }

    /// How many messages tell changed permissions.
    pub fn change_count(&self) -> u32
        ensures { result ≡ change_count (messages self.now.sent) }
    {
        self.changes
    }

    /// Makes room for so many more messages.
    pub fn room(&mut self, k: u32) -> Result<(), NoMemory>
        ensures sent { self.new.sent ≡ self.old.sent }
        ensures ok { OnOk result (k ≤ self.new.room) }
        ensures room { self.old.room ≤ self.new.room }
    {
        self.rows.reserve(k as usize)?;
        self.threads.reserve(k as usize)?;
        self.fronts.reserve(k as usize)?;
        Ok(())
    }

    /// Adds a message, and gives its number. It takes no memory. What is due shares the host and the letter.
    pub fn push(&mut self, subject: Subject, to: Shared<Host>, letter: Shared<Letter>) -> u32
        requires room { 0 < self.old.room }
        requires few { length self.old.sent < most_messages }
        ensures sent { self.new.sent ≡ self.old.sent ++ new_sent_row (record { subject = subject; to = to; letter = letter }) ∷ [] }
        ensures number { result ≡ length self.old.sent + 1 }
        ensures room { self.old.room ≤ self.new.room + 1 }
    {
        let number = self.rows.len() as u32 + 1;
        let older = self.threads.get(&subject).copied();
        let first = link_last(&mut self.rows, older, number);
        begin(&mut self.fronts, older, number);
        self.changes += u32::from(is_change(&letter));
        let thread = Thread {
            first,
            last: number,
        };
        let threaded: Result<_, _> = self.threads.insert(subject, thread);
        let _before = threaded.unwrap();
        let numbered = Numbered { number, to, letter };
        let row = Sent {
            numbered,
            subject,
            settled: false,
            next: 0,
        };
        self.rows.push(row).unwrap();
        number
    }

    /// Whether a status, with or without an id, settles the message of this number.
    pub fn settles(&self, m: u32, status: u16, id: Option<&ProviderId>) -> bool
        requires { IsSome (message_at self.now.sent m) }
        ensures { IfSome (message_at self.now.sent m) (λ message. result ≡ settles message.letter status (option_copied id.entry)) }
    {
        let row = &self.rows[m as usize - 1];
        settles(&row.numbered.letter, status, id)
    }

    /// Settles the message of this number, which stays as it is where it is settled. It takes no memory.
    pub fn settle(&mut self, m: u32)
        requires { IsSome (message_at self.old.sent m) }
        ensures sent { self.new.sent ≡ changed_at m settled_row self.old.sent }
        ensures room { self.old.room ≤ self.new.room }
    {
        let row = &self.rows[m as usize - 1];
        let subject = row.subject;
        let next = row.next;
        if row.settled {
            return;
        }
        mark(&mut self.rows, m);
        if begins_at(self.threads.get(&subject), m) {
            let first = first_waiting(&self.rows, next);
            move_first(&mut self.threads, subject, first);
            go_on(&mut self.fronts, m, first);
        }
    }

    /// The messages that are due, in order: those that are not settled, and wait for no earlier one.
    pub fn due(&self) -> Result<List<Numbered>, NoMemory>
        ensures { IfOk result (λ due. due ≡ due_in self.now.sent) }
    {
        copies(self.alloc, &self.rows, &self.fronts)
    }
}
