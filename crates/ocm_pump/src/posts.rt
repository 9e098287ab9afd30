ghost use Rattle.std.specs.Prelude.{◌≡◌, ℕ, ◌≤◌, Bool, true, List, Option, IfNone, IfSome};
ghost use Rattle.ocm_pump.specs.Delivery.{Delivers};
ghost use Rattle.ocm_pump.specs.Exchanges.{AddsSome, Counts};
ghost use Rattle.ocm_pump.specs.declared.exchanges.Exchange.{Exchange};

use crate::deliveries::Answered;
use crate::faults::PumpFault;
use ocm_types::Numbered;
use std::alloc::Global;

/// How a server's messages are delivered. Deliveries go on between its calls, many of them beside one another.
pub trait Post: Drop {
    /// The exchanges of the deliveries whose answers it gave, where it knows them. The newest is the first.
    ghost exchanges: { Self → Option (List Exchange) };

    /// How many faults it has had.
    ghost faults: { Self → ℕ };

    /// Whether it delivers at all.
    ghost delivers: { Self → Bool };

    /// How often it was asked to go on with a delivery, where it counts that.
    ghost asked: { Self → Option ℕ };

    /// Whether it delivers at all. A worker whose post delivers nothing makes no round of delivery.
    fn delivers(&self) -> bool
        ensures { result ≡ delivers self.now };

    /// Goes on with the delivery of a message, which begins where it is not under way. None: no answer came so far. One
    /// that delivers nothing is never called.
    fn deliver(&mut self, alloc: Global, message: &Numbered) -> Option<Result<Answered, PumpFault>>
        requires delivers { delivers self.old ≡ true }
        ensures waits { IfNone result (exchanges self.new ≡ exchanges self.old) }
        ensures came { IfSome result (λ delivered. AddsSome (exchanges self.old) (exchanges self.new) (λ added. Delivers message.now added delivered)) }
        ensures asked { Counts (asked self.old) (asked self.new) 1 }
        ensures never_falls { faults self.old ≤ faults self.new }
        ensures kind { delivers self.new ≡ delivers self.old };

    /// Is told whether the server wrote the settlement of a message by the answer that was given for it.
    fn settled(&mut self, message: &Numbered, is_settled: bool)
        ensures same { (exchanges self.new ≡ exchanges self.old) × (faults self.new ≡ faults self.old) × (delivers self.new ≡ delivers self.old) × (asked self.new ≡ asked self.old) };
}
