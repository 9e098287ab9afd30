ghost use Rattle.std.specs.Prelude.{◌≡◌, ◌<◌, ◌≤◌, ◌++◌, [], None, Some, IfErr, IfNone, IfOk, IfSome, OnOk, OnErr, length, take};
ghost use Rattle.ocm_base.specs.Outside.{Rose};
ghost use Rattle.ocm_net_adapters.specs.Conns.{sides_of};

use ocm_base::{Failed, GhostBytes, Joined, Source};
use ocm_http::{Fixed, FrameFault, Message, ReadHead, Reader, fixed_text};
use ocm_net_lines::ClientLine;
use ocm_server_connections::{Conn, PageNotes};
use ocm_turn::{Dated, Pass};
use std::time;

/// What comes on a line of the system's, or nothing, where there is none. It cannot tell what will come, and tells what came:
/// what `ClientLine::read` and `ClientLine::take_head` handed on.
#[derive(Drop)]
pub struct Heard<'a, R: time::Clock> {
    line: Option<Box<ClientLine<'a, R>>>,
    received: GhostBytes,
    faults: u64,
}

impl<'a, R: time::Clock> Heard<'a, R> {
    /// Nothing came so far, and there was no fault.
    fn new(line: Option<Box<ClientLine<'a, R>>>) -> Heard<'a, R>
        ensures received { result.received.bytes ≡ [] }
        ensures faults { result.faults ≡ 0 }
    {
        Heard {
            line,
            received: GhostBytes::new(),
            faults: 0,
        }
    }

    /// What comes, at most as much as there is room for. None where the line failed.
    fn read_line(&mut self, buf: &mut [u8]) -> Option<usize>
        ensures within { IfSome result (λ n. n ≤ length buf.old) }
        ensures faults { self.new.faults ≡ self.old.faults }
        ensures received { self.new.received ≡ self.old.received }
    {
        match &mut self.line {
            Some(line) => line.read(buf),
            None => Some(0),
        }
    }

    /// The head that the line read ahead, where it has one.
    fn line_head(&mut self) -> Option<ReadHead>
        ensures faults { self.new.faults ≡ self.old.faults }
        ensures received { self.new.received ≡ self.old.received }
    {
        match &mut self.line {
            Some(line) => line.take_head(),
            None => None,
        }
    }

    /// The head of the next message, where the line read it ahead and the reader holds no bytes. Its bytes come with it.
    fn take_head(&mut self, reader: &Reader) -> Option<ReadHead>
        ensures none_held { IfSome result (λ _. reader.now.held ≡ []) }
        ensures faults { self.new.faults ≡ self.old.faults }
        ensures nothing { IfNone result (self.new.received ≡ self.old.received) }
        ensures came { IfSome result (λ head. self.new.received.bytes ≡ self.old.received.bytes ++ head.text) }
    {
        if reader.held() > 0 {
            return None;
        }
        let head = self.line_head()?;
        self.received = self.received.followed_by(head.text());
        Some(head)
    }

    /// Takes both pieces. Where the line fails, or there is none, the error says how many of their bytes it sent.
    fn write_line(&mut self, first: &[u8], second: &[u8]) -> Result<(), usize>
        ensures within { IfErr result (λ n. n ≤ length (first.now ++ second.now)) }
        ensures faults { self.new.faults ≡ self.old.faults }
        ensures received { self.new.received ≡ self.old.received }
    {
        match &mut self.line {
            Some(line) => line.write(first, second),
            None => Err(0),
        }
    }

    /// Whether nothing is here to read now.
    fn line_rests(&mut self) -> bool
        ensures faults { self.new.faults ≡ self.old.faults }
        ensures received { self.new.received ≡ self.old.received }
    {
        match &mut self.line {
            Some(line) => line.rests(),
            None => true,
        }
    }
}

impl<'a, R: time::Clock> Source for Heard<'a, R> {
    ghost left = { λ _. None };

    ghost received = { λ h. Some h.received.bytes };

    ghost faults = { λ h. h.faults };

    fn read(&mut self, buf: &mut [u8]) -> Result<usize, Failed> {
        match self.read_line(buf) {
            Some(n) => {
                self.received = self.received.and(buf, n);
                Ok(n)
            }
            None => {
                self.faults = self.faults.saturating_add(1);
                Err(Failed)
            }
        }
    }
}

/// A connection as a worker has it: one of the system's, or one on which nothing comes and nothing can be sent. It tells
/// what came and what was sent since the worker has it, and notes its pages: the bytes that `ClientLine::read` and
/// `take_head` handed on, and those that `write` took. What stands between these and the system's calls is read, not proved:
/// bytes that were taken may still be unsent where the stream fails later. The line's own interim replies (100 Continue) and
/// its page for a message that is too long are none of the bytes that were sent here.
#[derive(Drop)]
pub struct StreamConn<'a, R: time::Clock> {
    heard: Heard<'a, R>,
    sent: GhostBytes,
    notes: PageNotes,
    faults: u64,
}

impl<'a, R: time::Clock> StreamConn<'a, R> {
    /// A connection over this line, with no fault so far.
    pub fn new(line: Box<ClientLine<'a, R>>) -> StreamConn<'a, R>
        ensures fresh { (result.heard.received.bytes ≡ []) × (result.sent.bytes ≡ []) × (result.notes.pages ≡ []) }
    {
        StreamConn {
            heard: Heard::new(Some(line)),
            sent: GhostBytes::new(),
            notes: PageNotes::new(),
            faults: 0,
        }
    }

    /// A connection on which nothing comes, with no fault so far.
    pub fn empty() -> StreamConn<'a, R>
        ensures fresh { (result.heard.received.bytes ≡ []) × (result.sent.bytes ≡ []) × (result.notes.pages ≡ []) }
    {
        StreamConn {
            heard: Heard::new(None),
            sent: GhostBytes::new(),
            notes: PageNotes::new(),
            faults: 0,
        }
    }

    /// Whether it had no fault.
    pub fn is_sound(&self) -> bool {
        self.heard.faults == 0 && self.faults == 0
    }

    /// The line, where there is one.
    pub fn into_line(self) -> Option<Box<ClientLine<'a, R>>> {
        self.heard.line
    }

    /// Sends both pieces, one behind the other. Where the line fails, the error says how many of their bytes it sent.
    #[tactic(auto, using(crate::proofs::Sending::two_fronts))]
    fn write(&mut self, first: &[u8], second: &[u8]) -> Result<(), usize>
        ensures ok { OnOk result (self.new.sent.bytes ≡ self.old.sent.bytes ++ (first.now ++ second.now)) }
        ensures err { IfErr result (λ n. self.new.sent.bytes ≡ self.old.sent.bytes ++ take n (first.now ++ second.now)) }
        ensures rose { OnErr result (Rose self.old.faults self.new.faults) }
        ensures never_falls { self.old.faults ≤ self.new.faults }
        ensures received { self.new.heard.received ≡ self.old.heard.received }
        ensures read_faults { self.new.heard.faults ≡ self.old.heard.faults }
        ensures notes { self.new.notes ≡ self.old.notes }
    {
        match self.heard.write_line(first, second) {
            Ok(()) => {
                self.sent = self.sent.and(first, first.len());
                self.sent = self.sent.and(second, second.len());
                Ok(())
            }
            Err(n) => {
                self.sent = self.sent.and(first, n);
                self.sent = self.sent.and(second, n.saturating_sub(first.len()));
                self.faults = self.faults.saturating_add(1);
                Err(n)
            }
        }
    }
}

impl<'a, R: time::Clock> Conn for StreamConn<'a, R> {
    ghost sides = { λ c. sides_of c.heard.received.bytes c.sent.bytes c.notes.pages c.heard.faults c.faults };

    fn next(&mut self, reader: &mut Reader) -> Result<Option<Message>, FrameFault> {
        match self.heard.take_head(reader) {
            Some(head) => reader.next_behind(&mut self.heard, head),
            None => reader.next(&mut self.heard),
        }
    }

    fn rests(&mut self, _reader: &Reader) -> bool {
        self.heard.line_rests()
    }

    fn send<T: Dated>(&mut self, piece: &Joined, pass: &Pass<T>) -> Result<(), Failed> {
        let (front, back) = piece.parts();
        match self.write(front, back) {
            Ok(()) => {
                self.notes = self.notes.and(piece, piece.len(), pass);
                Ok(())
            }
            Err(n) => {
                self.notes = self.notes.and(piece, n, pass);
                Err(Failed)
            }
        }
    }

    fn send_fixed(&mut self, which: Fixed) -> Result<(), Failed> {
        match self.write(fixed_text(which), &[]) {
            Ok(()) => Ok(()),
            Err(_) => Err(Failed),
        }
    }
}
