ghost use Rattle.std.specs.Prelude.{◌≡◌, ◌≤◌, None, IfNone, IfSome, is_some, true};
ghost use Rattle.ocm_pump.specs.Delivery.{Delivers};
ghost use Rattle.ocm_pump.specs.Exchanges.{AddsSome, Counts};

use crate::deliveries::{Answered, deliver};
use crate::dials::Dial;
use crate::faults::PumpFault;
use crate::posts::Post;
use ocm_types::Numbered;
use std::alloc::Global;

/// A post that makes all exchanges of a delivery over a dial, before it answers.
pub struct DialPost<N: Dial> {
    dial: N,
}

impl<N: Dial> Drop for DialPost<N> {
    fn drop(self) {
        let DialPost { dial: _ } = self;
    }
}

impl<N: Dial> DialPost<N> {
    /// A post over a dial.
    pub fn new(dial: N) -> DialPost<N>
        ensures { result ≡ record { dial = dial } }
    {
        DialPost { dial }
    }

    /// The dial.
    pub fn dial(&self) -> &N
        ensures { result.now ≡ self.now.dial }
    {
        &self.dial
    }
}

impl<N: Dial> Post for DialPost<N> {
    ghost exchanges = { λ p. N.exchanges p.dial };

    ghost faults = { λ p. N.faults p.dial };

    ghost delivers = { λ p. N.delivers p.dial };

    ghost asked = { λ _. None };

    fn delivers(&self) -> bool {
        self.dial.delivers()
    }

    /// Never None.
    fn deliver(&mut self, alloc: Global, message: &Numbered) -> Option<Result<Answered, PumpFault>>
        requires delivers { N.delivers self.old.dial ≡ true }
        ensures at_once { is_some result ≡ true }
        ensures waits { IfNone result (N.exchanges self.new.dial ≡ N.exchanges self.old.dial) }
        ensures came { IfSome result (λ delivered. AddsSome (N.exchanges self.old.dial) (N.exchanges self.new.dial) (λ added. Delivers message.now added delivered)) }
        ensures asked { Counts None None 1 }
        ensures never_falls { N.faults self.old.dial ≤ N.faults self.new.dial }
        ensures kind { N.delivers self.new.dial ≡ N.delivers self.old.dial }
    {
        Some(deliver(alloc, &mut self.dial, message))
    }

    /// Tells the dial of an answer that was not settled: it leaves the host alone for a while, as one that failed.
    fn settled(&mut self, message: &Numbered, is_settled: bool) {
        if !is_settled {
            self.dial.came(&message.to, false);
        }
    }
}
