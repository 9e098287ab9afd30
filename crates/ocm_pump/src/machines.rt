//! One delivery as a machine, whose exchanges others make.

ghost use Rattle.std.specs.Prelude.{◌≡◌, List, IfErr, IfOk, OnErr, false, option_map};
ghost use Rattle.ocm_pump.specs.Delivery.{Delivers};
ghost use Rattle.ocm_pump.specs.Machines as machine;
ghost use Rattle.ocm_pump.specs.Machines.{Goes, IsUnderWay};
ghost use Rattle.ocm_pump.specs.declared.exchanges.Exchange.{Exchange};

use crate::deliveries::{Answered, is_settled, post_request};
use crate::exchanges::DialEnd;
use crate::faults::PumpFault;
use crate::searches::document_request;
use crate::stages::{Stage, heard, went};
use ocm_base::{Bytes, NoMemory};
use ocm_types::{Host, Numbered};
use std::alloc::Global;
use std::marker::Model;
use std::mem;

/// The next exchange of a delivery: this request is sent to this host.
pub struct Question<'a> {
    pub host: &'a Host,
    pub request: Bytes,
}

impl Drop for Question<'_> {
    fn drop(self) {
        let Question {
            host: _,
            request: _,
        } = self;
    }
}

/// A question of that host with that request.
fn asked(host: &Host, request: Bytes) -> Option<Question<'_>>
    ensures { option_map (λ q. (q.host.now, q.request)) result ≡ machine.asked host.now request }
{
    Some(Question { host, request })
}

/// The delivery of a message, one exchange after another. Whoever has it makes the exchanges: it says what is asked next, and
/// goes on by what came back. It knows no dial and no time, so many of them go on beside one another.
pub struct Delivery {
    message: Numbered,
    stage: Stage,
}

impl Drop for Delivery {
    fn drop(self) {
        let Delivery {
            message: _,
            stage: _,
        } = self;
    }
}

impl Model for Delivery {
    ghost use Rattle.ocm_pump.specs.Machines.{DeliveryState, IsUnderWay};

    ghost Value = { DeliveryState };

    ghost view = { λ d. record { message = d.message; stage = d.stage } };

    ghost invariant = { λ d. IsUnderWay d.message d.stage };
}

impl Delivery {
    /// A delivery that made no exchange so far.
    pub fn new(message: Numbered) -> Delivery
        ensures { result ≡ record { message = message; stage = Stage.First } }
    {
        Delivery {
            message,
            stage: Stage::First,
        }
    }

    /// The message that it delivers.
    pub fn message(&self) -> &Numbered
        ensures { result.now ≡ self.now.message }
    {
        &self.message
    }

    /// Whether it makes no more exchanges.
    pub fn is_done(&self) -> bool
        ensures { result ≡ machine.is_done self.now.stage }
    {
        matches!(self.stage, Stage::Done(_))
    }

    /// Whether its next exchange asks for a discovery document. The others post the letter.
    pub fn asks_document(&self) -> bool
        ensures { result ≡ machine.asks_document self.now.stage }
    {
        matches!(self.stage, Stage::First | Stage::Last)
    }

    /// Whether it is done, and its answer settles its message.
    pub fn settles(&self) -> bool
        ensures { result ≡ machine.settles self.now.message.letter self.now.stage }
    {
        match &self.stage {
            Stage::Done(answer) => is_settled(&self.message.letter, answer),
            _ => false,
        }
    }

    /// Whether it is done since no reply came of its last exchange: the host was not reached, or there was no memory.
    pub fn has_failed(&self) -> bool
        ensures { result ≡ machine.has_failed self.now.stage }
    {
        matches!(
            self.stage,
            Stage::Done(Err(PumpFault::DialFault | PumpFault::NoMemory))
        )
    }

    /// Its next exchange. None exactly where it is done.
    pub fn asks(&self, alloc: Global) -> Result<Option<Question<'_>>, NoMemory>
        ensures { IfOk result (λ asked. option_map (λ q. (q.host.now, q.request)) asked ≡ machine.asks_by self.now.message self.now.stage) }
    {
        match &self.stage {
            Stage::First => {
                let request = document_request(alloc, &self.message.to, "/.well-known/ocm")?;
                Ok(asked(&self.message.to, request))
            }
            Stage::Last => {
                let request = document_request(alloc, &self.message.to, "/ocm-provider/")?;
                Ok(asked(&self.message.to, request))
            }
            Stage::Found(site) => {
                let request = post_request(alloc, site, &self.message.letter)?;
                Ok(asked(&site.host, request))
            }
            Stage::Done(_) => Ok(None),
        }
    }

    /// Goes on by what came back of the exchange that it asked for. Where there was no memory for the request, or for what
    /// came back, that is NoMemory, which ends it.
    pub fn came(&mut self, alloc: Global, reply: Result<Bytes, DialEnd>)
        ensures same { self.new.message ≡ self.old.message }
        ensures goes { Goes self.old.message.letter self.old.stage reply self.new.stage }
    {
        let sent = heard(alloc, reply);
        let stage = mem::replace(&mut self.stage, Stage::Done(Err(PumpFault::NoMemory)));
        self.stage = went(alloc, &self.message.letter, stage, sent);
    }

    fn into_parts(self) -> (Numbered, Stage)
        ensures parts { result ≡ (self.message, self.stage) }
        ensures under_way { IsUnderWay self.message self.stage }
    {
        let Delivery { message, stage } = self;
        (message, stage)
    }

    /// The answer of a delivery that is done: that of a delivery of its message with some exchanges. Err gives back one that
    /// is not done.
    pub fn into_answer(self) -> Result<Result<Answered, PumpFault>, Delivery>
        ensures done { IfOk result (λ answer. self.stage ≡ Stage.Done answer) }
        ensures delivers { IfOk result (λ answer. (added : List Exchange) × Delivers self.message added answer) }
        ensures goes_on { OnErr result (machine.is_done self.stage ≡ false) }
        ensures same { IfErr result (λ delivery. delivery ≡ self) }
    {
        let (message, stage) = self.into_parts();
        match stage {
            Stage::Done(answer) => Ok(answer),
            stage => Err(Delivery { message, stage }),
        }
    }
}
