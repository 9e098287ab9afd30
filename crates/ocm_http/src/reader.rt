ghost use Rattle.std.specs.Prelude.{◌≡◌, ◌≤◌, ℕ, List, [], false, true, length, is_err, IfOk, IfErr, IfSome, IsFalse, None};
ghost use Rattle.ocm_base.specs.Outside.{Rose, Came, flow};
ghost use Rattle.ocm_http.specs.Frames.{Given, Refused, Over};
ghost use Rattle.ocm_limits.specs.Limits.{most_body_bytes};
ghost use Rattle.ocm_http.specs.ReadHeads.{IsHeadIn};
ghost use Rattle.ocm_http.specs.Readers.{Keeps, NextOf, Reads, ReadsMessage, holding, settled, Settles, taken_at_most, with_held};

use crate::messages::{FrameFault, Kind, Message, sharing};
use crate::read_heads::ReadHead;
use crate::reading::{read_behind, read_message};
use crate::stages::{Rules, past};
use crate::windows::Window;
use ocm_base::{NoMemory, Source};
use std::alloc::Global;
use std::marker::Model;

/// Reads the messages of a stream, one after another, from a source that may cut it anywhere.
pub struct Reader {
    window: Window,
    kind: Kind,
    max: u64,
    place: u64,
    failed: bool,
    gone: u64,
}

impl Drop for Reader {
    fn drop(self) {
        let Reader {
            window: _,
            kind: _,
            max: _,
            place: _,
            failed: _,
            gone: _,
        } = self;
    }
}

impl Model for Reader {
    ghost use Rattle.std.specs.Prelude.{◌≤◌, length};
    ghost use Rattle.ocm_http.specs.Readers.{ReaderState};

    ghost Value = { ReaderState };

    ghost view = { λ r. record { kind = r.kind; max = r.max; place = r.place; held = r.window; failed = r.failed; gone = r.gone } };
}

impl Reader {
    fn new(alloc: Global, kind: Kind, max: u64) -> Result<Reader, NoMemory>
        ensures { IfOk result (λ r. r ≡ record { kind = kind; max = max; place = 0; held = []; failed = false; gone = 0 }) }
    {
        let window = Window::new(alloc)?;
        Ok(Reader {
            window,
            kind,
            max,
            place: 0,
            failed: false,
            gone: 0,
        })
    }

    /// A reader of requests whose bodies have at most `max_body` bytes.
    pub fn requests(alloc: Global, max_body: u64) -> Result<Reader, NoMemory>
        ensures { IfOk result (λ r. r ≡ record { kind = Kind.Requests; max = max_body; place = 0; held = []; failed = false; gone = 0 }) }
    {
        Reader::new(alloc, Kind::Requests, max_body)
    }

    /// A reader of replies whose bodies have at most `max_body` bytes.
    pub fn replies(alloc: Global, max_body: u64) -> Result<Reader, NoMemory>
        ensures { IfOk result (λ r. r ≡ record { kind = Kind.Replies; max = max_body; place = 0; held = []; failed = false; gone = 0 }) }
    {
        Reader::new(alloc, Kind::Replies, max_body)
    }

    /// Whether a fault was answered. Then nothing more can be read.
    pub fn has_failed(&self) -> bool
        ensures { result ≡ self.now.failed }
    {
        self.failed
    }

    /// How many bytes were taken from the source and are not part of a message that was given. The number ends at
    /// 2^64 - 1.
    pub fn held(&self) -> u64
        ensures { result ≡ holding self.now }
    {
        past(self.gone, self.window.as_slice().len())
    }

    /// The next message; copies of a long body share it. None where the input has ended between messages, line ends
    /// aside. At most 4,096 bytes are taken from the source in one read. CR and LF bytes before a head are part of its
    /// message, also where the input had ended behind them before.
    pub fn next<S: Source>(&mut self, source: &mut S) -> Result<Option<Message>, FrameFault>
        requires { IsFalse self.old.failed }
        ensures message { IfOk result (λ o. IfSome o (λ m. ReadsMessage self.old (flow (S.left source.old) (S.received source.old)) (flow (S.left source.new) (S.received source.new)) (Given m self.new.held) self.new.held self.new.place)) }
        ensures over { IfOk result (λ o. o ≡ None → Reads self.old (flow (S.left source.old) (S.received source.old)) (flow (S.left source.new) (S.received source.new)) true Over) }
        ensures fault { IfErr result (λ f. ((f ≡ FrameFault.ReadFault) → ⊥) → ((f ≡ FrameFault.NoMemory) → ⊥) → (ended : _) × Reads self.old (flow (S.left source.old) (S.received source.old)) (flow (S.left source.new) (S.received source.new)) ended (Refused f)) }
        ensures read_fault { result ≡ Err FrameFault.ReadFault → Rose (S.faults source.old) (S.faults source.new) }
        ensures never_falls { S.faults source.old ≤ S.faults source.new }
        ensures taken { (got : _) × Came (flow (S.left source.old) (S.received source.old)) (flow (S.left source.new) (S.received source.new)) got × (length got ≤ taken_at_most self.old.max) × Keeps self.old self.new got result }
        ensures few_held { length self.new.held ≤ 4096 }
        ensures none_gone { IfOk result (λ o. IfSome o (λ _. self.new.gone ≡ 0)) }
        ensures failed { self.new.failed ≡ is_err result }
        ensures same_kind { self.new.kind ≡ self.old.kind }
        ensures same_max { self.new.max ≡ self.old.max }
    {
        let rules = Rules {
            kind: self.kind,
            max: self.max,
            place: self.place,
        };
        let mut gone = 0;
        let read = read_message(rules, &mut self.window, source, &mut gone);
        self.settle(read, gone)
    }

    /// The message whose head was read ahead. The source gives the bytes behind that head. It is read as `next` reads it
    /// where the reader holds the bytes of the head.
    pub fn next_behind<S: Source>(
        &mut self,
        source: &mut S,
        head: ReadHead,
    ) -> Result<Option<Message>, FrameFault>
        requires open { IsFalse self.old.failed }
        requires kind { self.old.kind ≡ Kind.Requests }
        requires max { self.old.max ≡ most_body_bytes }
        requires none_held { self.old.held ≡ [] }
        ensures is_head { IsHeadIn head.text head }
        ensures read { NextOf (with_held self.old head.text) self.new (flow (S.left source.old) (S.received source.old)) (flow (S.left source.new) (S.received source.new)) result }
        ensures read_fault { result ≡ Err FrameFault.ReadFault → Rose (S.faults source.old) (S.faults source.new) }
        ensures never_falls { S.faults source.old ≤ S.faults source.new }
        ensures few_held { length self.new.held ≤ 4096 }
        ensures none_gone { IfOk result (λ o. IfSome o (λ _. self.new.gone ≡ 0)) }
        ensures failed { self.new.failed ≡ is_err result }
        ensures same_kind { self.new.kind ≡ self.old.kind }
        ensures same_max { self.new.max ≡ self.old.max }
    {
        let mut gone = 0;
        let read = read_behind(self.place, &mut self.window, source, &mut gone, head);
        self.settle(read, gone)
    }

    /// Answers what was read, of which so many bytes are gone; copies of a long body share it.
    fn settle(
        &mut self,
        read: Result<Option<Message>, FrameFault>,
        gone: u64,
    ) -> Result<Option<Message>, FrameFault>
        ensures settles { Settles read result }
        ensures new { self.new ≡ settled self.old gone result }
    {
        match read {
            Ok(Some(message)) => match sharing(message) {
                Ok(message) => {
                    self.place = self.place.saturating_add(gone);
                    self.gone = 0;
                    Ok(Some(message))
                }
                Err(NoMemory) => {
                    self.failed = true;
                    self.gone = self.gone.saturating_add(gone);
                    Err(FrameFault::NoMemory)
                }
            },
            Ok(None) => {
                self.place = self.place.saturating_add(gone);
                self.gone = self.gone.saturating_add(gone);
                Ok(None)
            }
            Err(fault) => {
                self.failed = true;
                self.gone = self.gone.saturating_add(gone);
                Err(fault)
            }
        }
    }
}
