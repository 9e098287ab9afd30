ghost use Rattle.std.specs.Prelude.{◌≡◌, ℕ, ◌≤◌, Bool, true, List, length, Option, Err, IfOk};
ghost use Rattle.ocm_base.specs.Outside.{Rose};
ghost use Rattle.ocm_limits.specs.Limits.{most_exchange_bytes};
ghost use Rattle.ocm_pump.specs.Exchanges.{AddsOne, Hears};
ghost use Rattle.ocm_pump.specs.declared.exchanges.Came.{Came};
ghost use Rattle.ocm_pump.specs.declared.exchanges.Exchange.{Exchange};

use crate::exchanges::DialEnd;
use ocm_base::Bytes;
use ocm_types::Host;
use std::alloc::Global;

/// How other servers are reached.
pub trait Dial: Drop {
    /// The exchanges so far, where it knows them. The newest is the first.
    ghost exchanges: { Self → Option (List Exchange) };

    /// How many faults it has had.
    ghost faults: { Self → ℕ };

    /// Whether it makes exchanges at all.
    ghost delivers: { Self → Bool };

    /// What it was told of deliveries, where it knows that. The newest is the first.
    ghost told: { Self → Option (List Came) };

    /// Whether it makes exchanges at all. A worker whose dial makes none makes no round of delivery.
    fn delivers(&self) -> bool
        ensures { result ≡ delivers self.now };

    /// Sends a request to a host, and gives the bytes that came back until the peer closed or they were a whole reply:
    /// at most 33,619,968. A dial that makes no exchanges is never asked.
    fn exchange(&mut self, alloc: Global, host: &Host, request: &Bytes) -> Result<Bytes, DialEnd>
        requires delivers { delivers self.old ≡ true }
        ensures within { IfOk result (λ reply. length reply ≤ most_exchange_bytes) }
        ensures added { AddsOne (exchanges self.old) (exchanges self.new) host.now request.now result }
        ensures rose { result ≡ Err DialEnd.Failed → Rose (faults self.old) (faults self.new) }
        ensures never_falls { faults self.old ≤ faults self.new }
        ensures kind { delivers self.new ≡ delivers self.old }
        ensures untold { told self.new ≡ told self.old };

    /// Is told whether what came back of a delivery to a host settles its message. It is for dials that leave hosts alone
    /// for a while which were of no use.
    fn came(&mut self, host: &Host, settles: bool)
        ensures same { (exchanges self.new ≡ exchanges self.old) × (faults self.new ≡ faults self.old) × (delivers self.new ≡ delivers self.old) }
        ensures told { Hears (told self.old) (told self.new) host.now settles };
}
