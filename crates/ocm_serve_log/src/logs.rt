//! A log: lines that are gathered, and written together.
ghost use Rattle.std.specs.Prelude.{◌≡◌, ◌+◌, ◌<◌, ◌≤◌, ◌∷◌, ◌++◌, ℕ, List, [], length, decimal, true, false, None, IfSome, IsTrue};
ghost use Rattle.ocm_access_log.specs.Written.{IsLoggable, written_ask};
ghost use Rattle.ocm_access_log.specs.declared.lines.LogLine.{LogLine};
ghost use Rattle.ocm_entry.specs.Proper.{is_proper};
ghost use Rattle.ocm_entry.specs.declared.asks.Ask.{Ask};
ghost use Rattle.ocm_serve_log.specs.Logs.{Holds, IsLog, IsMadeOf, IsTextOf, Keeps, Takes, capped, line_at, line_with, reads};

use crate::sinks::LogSink;
use ocm_access_log::{a_read_is_loggable, is_reading, log_line, status_of};
use ocm_base::{Bytes, NoMemory, write_all};
use ocm_entry::{Ask, Reply};
use std::alloc::Global;

/// How many bytes are gathered at least before they are written, where the moment stays the same.
const PIECE: usize = 65_536;

/// How many seconds pass between two times that left out lines are told.
const SILENCE: u64 = 60;

/// The log of a server: the lines of its reads go to a sink, many at a time. Behind the first that can't be written none is.
pub struct Log<K: LogSink> {
    pub(crate) alloc: Global,
    pub(crate) sink: K,
    /// Lines that are not written yet.
    pub(crate) gathered: Vec<u8>,
    /// How many these are.
    pub(crate) waiting: u64,
    /// How many lines were left out: those that were to be written where a write failed, and all since.
    pub(crate) left_out: u64,
    /// Whether one was left out because there was no memory for it.
    pub(crate) out_of_memory: bool,
    /// The moment at which lines were written last.
    pub(crate) moment: u64,
    /// The moment at which it was told last that lines were left out.
    pub(crate) told: u64,
}

impl<K: LogSink> Drop for Log<K> {
    fn drop(self) {
        let Log {
            alloc: _,
            sink: _,
            gathered: _,
            waiting: _,
            left_out: _,
            out_of_memory: _,
            moment: _,
            told: _,
        } = self;
    }
}

impl<K: LogSink> Log<K> {
    /// A log without a line.
    pub fn new(alloc: Global, sink: K) -> Log<K>
        ensures sink { result.sink ≡ sink }
        ensures empty { (result.gathered.items ≡ []) × (result.waiting ≡ 0) × (result.left_out ≡ 0) × (result.out_of_memory ≡ false) }
    {
        Log {
            alloc,
            sink,
            gathered: Vec::new(alloc),
            waiting: 0,
            left_out: 0,
            out_of_memory: false,
            moment: 0,
            told: 0,
        }
    }

    /// Writes the lines that are gathered. Where that fails they are left out.
    fn write(&mut self)
        ensures holds { Keeps K.taken K.faults self.old self.new }
        ensures written { (self.new.gathered.items ≡ []) × (self.new.waiting ≡ 0) }
        ensures empty { self.old.gathered.items ≡ [] → (self.new.sink ≡ self.old.sink) × (self.new.left_out ≡ self.old.left_out) }
        ensures memory { self.new.out_of_memory ≡ self.old.out_of_memory }
    {
        match write_all(&mut self.sink, self.gathered.as_slice()) {
            Ok(()) => self.clear(),
            Err(_) => self.lose(),
        }
    }

    /// Lets the lines go that are gathered.
    fn clear(&mut self)
        ensures sink { self.new.sink ≡ self.old.sink }
        ensures gathered { (self.new.gathered.items ≡ []) × (self.new.waiting ≡ 0) }
        ensures left_out { self.new.left_out ≡ self.old.left_out }
        ensures memory { self.new.out_of_memory ≡ self.old.out_of_memory }
    {
        self.gathered.clear();
        self.waiting = 0;
    }

    /// Leaves the lines out that are gathered.
    fn lose(&mut self)
        ensures sink { self.new.sink ≡ self.old.sink }
        ensures gathered { (self.new.gathered.items ≡ []) × (self.new.waiting ≡ 0) }
        ensures left_out { self.new.left_out ≡ capped (self.old.left_out + self.old.waiting) }
        ensures memory { self.new.out_of_memory ≡ self.old.out_of_memory }
    {
        self.left_out = self.left_out.saturating_add(self.waiting);
        self.clear();
    }

    /// Leaves a line out, since one was left out before it.
    fn leave_out(&mut self)
        requires { 0 < self.old.left_out }
        ensures { (line : LogLine) → Takes K.taken K.faults self.old self.new (line ∷ []) }
    {
        self.left_out = self.left_out.saturating_add(1);
    }

    /// Leaves a line out, since there was no memory for it.
    fn run_out(&mut self)
        ensures { (line : LogLine) → Takes K.taken K.faults self.old self.new (line ∷ []) }
    {
        self.out_of_memory = true;
        self.left_out = self.left_out.saturating_add(1);
    }

    /// Gathers the line of a read with this status, by what is written of it with the status 200, or leaves it out where there
    /// is no memory.
    fn gather(&mut self, text: &Bytes, status: u16)
        requires none { self.old.left_out ≡ 0 }
        requires digits { (100 ≤ status) × (status ≤ 999) }
        ensures { (line : LogLine) → line.status ≡ status → reads line.ask ≡ true → text.now ≡ written_ask line.place line.moment 200 line.ask → Takes K.taken K.faults self.old self.new (line ∷ []) }
    {
        match self.gathered.extend_from_slice(text.as_slice()) {
            Ok(()) => {
                set_status(&mut self.gathered, status);
                self.waiting = self.waiting.saturating_add(1);
            }
            Err(_) => self.run_out(),
        }
    }

    /// What is written of an ask that reads files where its status is 200, and None of any other. Its line at a place and a
    /// moment can be written and is read back. Behind a line that was left out no text is made, as where there is no memory.
    pub(crate) fn text_of_read(
        &self,
        ask: &Ask,
        place: u64,
        moment: u64,
    ) -> Option<Result<Bytes, NoMemory>>
        requires { IsTrue (is_proper ask.now) }
        ensures loggable { reads ask.now ≡ true → (status : ℕ) → (100 ≤ status) × (status ≤ 999) → IsLoggable (record { place = place; moment = moment; ask = ask.now; status = status }) }
        ensures other { result ≡ None → reads ask.now ≡ false }
        ensures text { IfSome result (λ made. IsMadeOf place moment ask.now made) }
    {
        match ask {
            Ask::Dav {
                secret,
                method,
                path,
                body: _,
            } if is_reading(*method) => {
                a_read_is_loggable(place, moment, *method, secret, path, 200);
                if 0 < self.left_out {
                    return Some(Err(NoMemory));
                }
                Some(log_line(self.alloc, place, moment, *method, secret, path, 200))
            }
            _ => None,
        }
    }

    /// Puts the line of a read behind the others, where it was answered by a reply of the rules, or leaves it out where there
    /// is no memory. It is known by what is written of it where its status is 200.
    pub(crate) fn note(&mut self, read: Option<Result<Bytes, NoMemory>>, reply: &Reply)
        ensures { (place moment : ℕ) (ask : Ask) → IsTextOf place moment ask read → Takes K.taken K.faults self.old self.new (line_at place moment ask reply.now) }
    {
        match read {
            Some(text) => self.note_read(text, status_of(reply)),
            None => {}
        }
    }

    /// Puts the line of a read behind the others, where it was answered with a status.
    fn note_read(&mut self, text: Result<Bytes, NoMemory>, status: Option<u16>)
        requires digits { IfSome status (λ status. (100 ≤ status) × (status ≤ 999)) }
        ensures { (place moment : ℕ) (ask : Ask) → IsMadeOf place moment ask text → Takes K.taken K.faults self.old self.new (line_with place moment ask status) }
    {
        match status {
            Some(status) => self.put(text, status),
            None => {}
        }
    }

    /// Puts the line of a read with this status behind the others, or leaves it out where one was left out before it or there
    /// is no memory.
    fn put(&mut self, text: Result<Bytes, NoMemory>, status: u16)
        requires digits { (100 ≤ status) × (status ≤ 999) }
        ensures { (line : LogLine) → line.status ≡ status → IsMadeOf line.place line.moment line.ask text → Takes K.taken K.faults self.old self.new (line ∷ []) }
    {
        if self.left_out == 0 {
            self.add(text, status);
        } else {
            drop(text);
            self.leave_out();
        }
    }

    /// Puts the line of a read with this status behind the others, or leaves it out where there is no memory.
    fn add(&mut self, text: Result<Bytes, NoMemory>, status: u16)
        requires none { self.old.left_out ≡ 0 }
        requires digits { (100 ≤ status) × (status ≤ 999) }
        ensures { (line : LogLine) → line.status ≡ status → IsMadeOf line.place line.moment line.ask text → Takes K.taken K.faults self.old self.new (line ∷ []) }
    {
        match text {
            Ok(text) => self.gather(&text, status),
            Err(_) => self.run_out(),
        }
    }

    /// Writes what is gathered where that is much, another moment came or it is asked for, and tells where lines were left out.
    pub(crate) fn pass(&mut self, moment: u64, asked: bool)
        ensures holds { Keeps K.taken K.faults self.old self.new }
        ensures few { length self.new.gathered.items < 65536 }
    {
        if asked || moment != self.moment {
            self.turn(moment);
        } else if PIECE <= self.gathered.len() {
            self.write();
        }
    }

    /// Goes on to another moment: writes what is gathered, and tells where lines were left out.
    fn turn(&mut self, moment: u64)
        ensures holds { Keeps K.taken K.faults self.old self.new }
        ensures none { self.new.gathered.items ≡ [] }
    {
        self.moment = moment;
        self.sink.turn();
        self.write();
        self.tell();
    }

    /// Tells that lines were left out, where that was not told for a minute.
    fn tell(&mut self)
        ensures holds { Keeps K.taken K.faults self.old self.new }
        ensures gathered { self.new.gathered.items ≡ self.old.gathered.items }
    {
        if self.left_out == 0
            || (0 < self.told && self.moment < self.told.saturating_add(SILENCE))
        {
            return;
        }
        self.sink.left_out(self.left_out, self.moment);
        self.told = self.moment.max(1);
    }

    /// Writes what is gathered, and gives the sink back, with the number of lines that were left out and whether there was no
    /// memory for one of them.
    pub(crate) fn finish(mut self) -> (K, u64, bool)
        ensures log { (lines : List LogLine) → Holds K.taken K.faults self lines → IsLog (K.taken result.0) (K.faults result.0) result.1 result.2 lines }
        ensures empty { self.gathered.items ≡ [] → (result.0 ≡ self.sink) × (result.1 ≡ self.left_out) }
        ensures memory { result.2 ≡ self.out_of_memory }
    {
        self.write();
        let Log {
            alloc: _,
            sink,
            gathered: _,
            waiting: _,
            left_out,
            out_of_memory,
            moment: _,
            told: _,
        } = self;
        (sink, left_out, out_of_memory)
    }
}

/// Writes this status in place of the status 200: behind lines that end in `200` and a line feed.
fn set_status(lines: &mut Vec<u8>, status: u16)
    requires digits { (100 ≤ status) × (status ≤ 999) }
    ensures { (front : List ℕ) → lines.old.items ≡ front ++ 50 ∷ 48 ∷ 48 ∷ 10 ∷ [] → lines.new.items ≡ front ++ decimal status ++ 10 ∷ [] }
{
    if let Some(at) = lines.len().checked_sub(4) {
        lines[at..at + 3].copy_from_slice(&digits(status));
    }
}

/// The digits of a status.
fn digits(status: u16) -> [u8; 3]
    requires { (100 ≤ status) × (status ≤ 999) }
    ensures { result ≡ decimal status }
{
    [
        digit(status / 100),
        digit(status / 10 % 10),
        digit(status % 10),
    ]
}

/// The digit of a number below 10.
fn digit(number: u16) -> u8
    requires { number < 10 }
    ensures { result ≡ 48 + number }
{
    b'0' + number as u8
}
