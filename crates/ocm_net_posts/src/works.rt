//! The delivery of one message.
ghost use Rattle.std.specs.Prelude.{IfSome};
ghost use Rattle.ocm_pump.specs.Delivery.{Delivers};

use crate::letters::is_same;
use crate::noted::{Given, Noted};
use ocm_base::{Bytes, NoMemory};
use ocm_pump::{Delivery, DialEnd};
use ocm_types::Numbered;
use std::alloc::Global;

/// How far the delivery of a message is.
#[derive(Clone, Copy, PartialEq, Eq)]
pub enum State {
    /// It waits for its turn, or has it, as a message to the host of this number.
    Going(usize),
    /// Its answer waits for a round.
    Ready,
    /// Its answer could not be settled. It begins again then, in milliseconds.
    Lost(u64),
}

/// The delivery of a message of an owner.
#[derive(Drop)]
pub struct Work {
    noted: Noted,
    /// Whether it made no exchange so far, so that a document is the next.
    pub is_fresh: bool,
    pub state: State,
    pub owner: usize,
    /// The number of the round in which it was asked for last.
    pub asked: u64,
}

/// What a delivery does next, where it was with a host.
#[derive(Drop)]
pub enum Next {
    /// It sends this to that host.
    Here(Bytes),
    /// It goes on at a host of this name.
    There(String),
    /// It is done.
    Done,
}

/// How a delivery that is done came out.
#[derive(Clone, Copy, PartialEq, Eq)]
pub enum Outcome {
    /// Its answer settles its message.
    Settles,
    /// What came back is of no use.
    Useless,
    /// The host that was asked last failed.
    Failed,
}

impl Work {
    /// The delivery of a message, which makes its first exchange next, and is asked for in that round.
    pub fn new(
        message: &Numbered,
        state: State,
        owner: usize,
        asked: u64,
    ) -> Result<Work, NoMemory> {
        Ok(Work {
            noted: Noted::new(message.copy()?),
            is_fresh: true,
            state,
            owner,
            asked,
        })
    }

    /// The number of the host that it is for, where it goes on.
    pub fn to(&self) -> Option<usize> {
        match self.state {
            State::Going(to) => Some(to),
            State::Ready | State::Lost(_) => None,
        }
    }

    /// The message.
    pub fn message(&self) -> &Numbered {
        self.noted.delivery().message()
    }

    /// Goes on by what came back.
    pub fn came(&mut self, alloc: Global, reply: Result<Bytes, DialEnd>) {
        self.is_fresh = false;
        self.noted.came(alloc, reply);
    }

    /// What it does next, where it was with a host of this name. Where there is no memory for that, it is done.
    pub fn next(&mut self, alloc: Global, host: &str) -> Next {
        match next_of(alloc, self.noted.delivery(), host) {
            Ok(next) => next,
            Err(NoMemory) => {
                self.noted.came(alloc, Err(DialEnd::NoMemory));
                Next::Done
            }
        }
    }

    /// How it came out, where it is done.
    pub fn outcome(&self) -> Outcome {
        if self.noted.delivery().settles() {
            Outcome::Settles
        } else if self.noted.delivery().has_failed() {
            Outcome::Failed
        } else {
            Outcome::Useless
        }
    }

    /// Begins again.
    pub fn restart(&mut self) -> Result<(), NoMemory> {
        self.noted = Noted::new(self.message().copy()?);
        self.is_fresh = true;
        Ok(())
    }

    /// Its delivery.
    fn into_noted(self) -> Noted {
        let Work {
            noted,
            is_fresh: _,
            state: _,
            owner: _,
            asked: _,
        } = self;
        noted
    }

    /// The answer to a message, where it is done and for that message.
    pub fn into_given(self, message: &Numbered) -> Option<Given>
        ensures { IfSome result (λ given. Delivers message.now given.exchanges given.answer) }
    {
        given_of(self.into_noted(), message)
    }
}

/// What a delivery does next, where it was with a host of this name.
fn next_of(alloc: Global, delivery: &Delivery, host: &str) -> Result<Next, NoMemory> {
    let Some(question) = delivery.asks(alloc)? else {
        return Ok(Next::Done);
    };
    if question.host.as_str() == host {
        Ok(Next::Here(question.request.copy()?))
    } else {
        Ok(Next::There(String::from_str(alloc, question.host.as_str())?))
    }
}

/// The answer of a delivery that is done, where it is for this message.
fn given_of(noted: Noted, message: &Numbered) -> Option<Given>
    ensures { IfSome result (λ given. Delivers message.now given.exchanges given.answer) }
{
    if is_same(noted.delivery().message(), message) {
        noted.into_given()
    } else {
        drop(noted);
        None
    }
}
