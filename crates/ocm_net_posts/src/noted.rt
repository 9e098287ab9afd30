//! Deliveries whose exchanges are noted, for contracts alone.
ghost use Rattle.std.specs.Prelude.{◌≡◌, [], ◌++◌, IfSome};
ghost use Rattle.ocm_pump.specs.Delivery.{Delivers};
ghost use Rattle.ocm_pump.specs.Machines.{Goes};
ghost use Rattle.ocm_pump.specs.declared.stages.Stage.TheVariants.{First};
ghost use Rattle.ocm_net_posts.specs.Exchanges.{HasMade, made};

use crate::items::Items;
use ocm_base::Bytes;
use ocm_pump::{Answered, Delivery, DialEnd, PumpFault};
use ocm_types::Numbered;
use std::alloc::Global;
use std::marker::Model;
use std::mem;
use std::snapshot::Snapshot;

/// An exchange: the delivery that asked for it, as it was then, and what came back.
#[derive(Drop)]
struct Made {
    by: Snapshot<Delivery>,
    reply: Snapshot<Result<Bytes, DialEnd>>,
}

impl Model for Made {
    ghost use Rattle.std.specs.Prelude.{List};
    ghost use Rattle.ocm_pump.specs.declared.exchanges.Exchange.{Exchange};
    ghost use Rattle.ocm_net_posts.specs.Exchanges.{made};

    ghost Value = { List Exchange };

    ghost view = { λ m. made m.by.value.message m.by.value.stage m.reply.value };
}

/// The exchanges of a delivery, the newest first. Clauses alone read them: it keeps none, so it goes to any thread.
#[derive(Drop)]
pub struct Exchanges {
    notes: Snapshot<Items<Made>>,
}

impl Model for Exchanges {
    ghost use Rattle.std.specs.Prelude.{List};
    ghost use Rattle.ocm_pump.specs.declared.exchanges.Exchange.{Exchange};
    ghost use Rattle.ocm_net_posts.specs.Exchanges.{joined};

    ghost Value = { List Exchange };

    ghost view = { λ e. joined e.notes.value };
}

impl Exchanges {
    /// No exchange was made.
    fn new() -> Exchanges
        ensures { result ≡ [] }
    {
        Exchanges {
            notes: Snapshot::of(&Items::new()),
        }
    }

    /// Notes what came back of the exchange that a delivery asks for.
    fn note(&mut self, by: &Delivery, reply: &Result<Bytes, DialEnd>)
        ensures { self.new ≡ made by.now.message by.now.stage reply.now ++ self.old }
    {
        let made = Made {
            by: Snapshot::of(by),
            reply: Snapshot::of(reply),
        };
        let before = mem::replace(&mut self.notes, Snapshot::of(&Items::new()));
        self.notes = Snapshot::of(&Items::of(&made, before));
    }
}

/// The answer of a delivery, with its exchanges.
#[derive(Drop)]
pub struct Given {
    pub answer: Result<Answered, PumpFault>,
    pub exchanges: Exchanges,
}

/// The delivery of a message, which notes its exchanges.
pub struct Noted {
    delivery: Delivery,
    exchanges: Exchanges,
}

impl Drop for Noted {
    fn drop(self) {
        let Noted {
            delivery: _,
            exchanges: _,
        } = self;
    }
}

impl Model for Noted {
    ghost use Rattle.ocm_net_posts.specs.Exchanges.{HasMade, NotedState};

    ghost Value = { NotedState };

    ghost view = { λ n. record { message = n.delivery.message; stage = n.delivery.stage; exchanges = n.exchanges } };

    ghost invariant = { λ n. HasMade n.delivery.message n.delivery.stage n.exchanges };
}

impl Noted {
    /// A delivery that made no exchange so far.
    pub fn new(message: Numbered) -> Noted
        ensures { result ≡ record { message = message; stage = First; exchanges = [] } }
    {
        Noted {
            delivery: Delivery::new(message),
            exchanges: Exchanges::new(),
        }
    }

    /// The delivery.
    pub fn delivery(&self) -> &Delivery
        ensures { result.now ≡ record { message = self.now.message; stage = self.now.stage } }
    {
        &self.delivery
    }

    /// Goes on by what came back of the exchange that it asks for.
    pub fn came(&mut self, alloc: Global, reply: Result<Bytes, DialEnd>)
        ensures same { self.new.message ≡ self.old.message }
        ensures goes { Goes self.old.message.letter self.old.stage reply self.new.stage }
        ensures noted { self.new.exchanges ≡ made self.old.message self.old.stage reply ++ self.old.exchanges }
    {
        self.exchanges.note(&self.delivery, &reply);
        self.delivery.came(alloc, reply);
    }

    fn into_parts(self) -> (Delivery, Exchanges)
        ensures parts { result ≡ (record { message = self.message; stage = self.stage }, self.exchanges) }
        ensures made { HasMade self.message self.stage self.exchanges }
    {
        let Noted {
            delivery,
            exchanges,
        } = self;
        (delivery, exchanges)
    }

    /// Its answer, where it is done.
    pub fn into_given(self) -> Option<Given>
        ensures { IfSome result (λ given. Delivers self.message given.exchanges given.answer) }
    {
        let (delivery, exchanges) = self.into_parts();
        match delivery.into_answer() {
            Ok(answer) => Some(Given { answer, exchanges }),
            Err(delivery) => {
                drop(delivery);
                drop(exchanges);
                None
            }
        }
    }
}
