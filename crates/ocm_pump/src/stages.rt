//! How a delivery goes on by what came back.

ghost use Rattle.std.specs.Prelude.{◌≡◌};
ghost use Rattle.ocm_pump.specs.Machines as machine;
ghost use Rattle.ocm_pump.specs.Machines.{Heard, Went};

use crate::deliveries::{Answered, answer_in};
use crate::exchanges::DialEnd;
use crate::faults::PumpFault;
use crate::replies::read_reply;
use crate::searches::{found_at_last, site_in};
use crate::sites::Site;
use ocm_base::Bytes;
use ocm_http::Message;
use ocm_types::Letter;
use std::alloc::Global;

/// How far a delivery is.
#[derive(Drop)]
pub enum Stage {
    /// It asks for the discovery document at the first place.
    First,
    /// It asks for the discovery document at the second place.
    Last,
    /// It posts its letter to this site.
    Found(Site),
    /// It makes no more exchanges.
    Done(Result<Answered, PumpFault>),
}

/// The message read of what came back of an exchange.
pub(crate) fn heard(alloc: Global, reply: Result<Bytes, DialEnd>) -> Result<Message, PumpFault>
    ensures { Heard reply result }
{
    match reply {
        Ok(bytes) => read_reply(alloc, bytes),
        Err(DialEnd::Failed) => Err(PumpFault::DialFault),
        Err(DialEnd::NoMemory) => Err(PumpFault::NoMemory),
    }
}

/// The stage behind the first place.
fn after_first(found: Result<Option<Site>, PumpFault>) -> Stage
    ensures { result ≡ machine.after_first found }
{
    match found {
        Ok(Some(site)) => Stage::Found(site),
        Ok(None) => Stage::Last,
        Err(fault) => Stage::Done(Err(fault)),
    }
}

/// The stage behind the second place.
fn after_last(found: Result<Site, PumpFault>) -> Stage
    ensures { result ≡ machine.after_last found }
{
    match found {
        Ok(site) => Stage::Found(site),
        Err(fault) => Stage::Done(Err(fault)),
    }
}

/// The stage of a delivery of a letter behind an exchange, by the message that was read.
pub(crate) fn went(
    alloc: Global,
    letter: &Letter,
    stage: Stage,
    sent: Result<Message, PumpFault>,
) -> Stage
    ensures { Went letter.now stage sent result }
{
    match stage {
        Stage::First => after_first(site_in(alloc, sent)),
        Stage::Last => after_last(found_at_last(site_in(alloc, sent))),
        Stage::Found(_) => Stage::Done(answer_in(alloc, letter, sent)),
        Stage::Done(answer) => Stage::Done(answer),
    }
}
