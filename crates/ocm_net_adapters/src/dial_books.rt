//! What a dial tells that keeps none of its exchanges.
ghost use Rattle.std.specs.Prelude.{◌≡◌, ◌≤◌, ◌∷◌, ◌++◌, Ok, Err, IfOk};
ghost use Rattle.std.specs.Result.{result_ok};
ghost use Rattle.ocm_base.specs.Outside.{Rose};
ghost use Rattle.ocm_pump.specs.Exchanges.{exchanged};
ghost use Rattle.ocm_net_adapters.specs.Dials.{nothing_told};

use ocm_base::{Bytes, GhostBytes, Trace};
use ocm_net_flights::ExchangeFault;
use ocm_pump::DialEnd;
use ocm_types::Host;
use std::marker::Model;

/// An exchange with a host: its request, and the bytes that came back, where some did.
#[derive(Drop)]
struct Asked {
    host: GhostBytes,
    request: GhostBytes,
    reply: Option<GhostBytes>,
}

impl Model for Asked {
    ghost use Rattle.std.specs.Prelude.{option_map};
    ghost use Rattle.ocm_pump.specs.declared.exchanges.Exchange.{Exchange};

    ghost Value = { Exchange };

    ghost view = { λ a. record { host = a.host.bytes; request = a.request.bytes; reply = option_map (λ r. r.bytes) a.reply } };
}

impl Asked {
    fn of(host: &Host, request: &Bytes, came: &Result<Bytes, ExchangeFault>) -> Asked
        ensures { result ≡ record { host = host.now; request = request.now; reply = result_ok came.now } }
    {
        let reply = match came {
            Ok(bytes) => Some(GhostBytes::of(bytes.as_slice())),
            Err(_) => None,
        };
        Asked {
            host: GhostBytes::of(host.as_str().as_bytes()),
            request: GhostBytes::of(request.as_slice()),
            reply,
        }
    }
}

/// What was told of a delivery to a host: whether what came back settles it.
#[derive(Drop)]
struct Settled {
    host: GhostBytes,
    settles: bool,
}

impl Model for Settled {
    ghost use Rattle.ocm_pump.specs.declared.exchanges.Came.{Came};

    ghost Value = { Came };

    ghost view = { λ s. record { host = s.host.bytes; settles = s.settles } };
}

/// The exchanges of a dial and what it was told of deliveries, which clauses alone read, and its count of faults.
#[derive(Drop)]
pub(crate) struct DialBook {
    exchanges: Trace<Asked>,
    told: Trace<Settled>,
    faults: u64,
}

impl Model for DialBook {
    ghost use Rattle.ocm_net_adapters.specs.Dials.{DialTold};

    ghost Value = { DialTold };

    ghost view = { λ b. record { exchanges = b.exchanges; told = b.told; faults = b.faults } };
}

impl DialBook {
    /// No exchange was made, nothing was told, and there was no fault.
    pub(crate) fn new() -> DialBook
        ensures { result ≡ nothing_told }
    {
        DialBook {
            exchanges: Trace::new(),
            told: Trace::new(),
            faults: 0,
        }
    }

    /// An exchange with a host ended. Answers what came back, or why nothing did. It is told in each case: where there was
    /// no memory its request may have been sent.
    pub(crate) fn end(
        &mut self,
        host: &Host,
        request: &Bytes,
        came: Result<Bytes, ExchangeFault>,
    ) -> Result<Bytes, DialEnd>
        ensures same { IfOk result (λ reply. came ≡ Ok reply) }
        ensures exchanges { self.new.exchanges ≡ exchanged host.now request.now (result_ok result) ++ self.old.exchanges }
        ensures told { self.new.told ≡ self.old.told }
        ensures rose { result ≡ Err DialEnd.Failed → Rose self.old.faults self.new.faults }
        ensures never_falls { self.old.faults ≤ self.new.faults }
    {
        self.exchanges.push(&Asked::of(host, request, &came));
        match came {
            Ok(reply) => Ok(reply),
            Err(ExchangeFault::NoMemory) => Err(DialEnd::NoMemory),
            Err(ExchangeFault::Failed | ExchangeFault::Refused) => {
                self.faults = self.faults.saturating_add(1);
                Err(DialEnd::Failed)
            }
        }
    }

    /// A dial was told whether what came back of a delivery settles it.
    pub(crate) fn hear(&mut self, host: &Host, settles: bool)
        ensures { self.new ≡ record self.old { told = record { host = host.now; settles = settles } ∷ self.old.told } }
    {
        let host = GhostBytes::of(host.as_str().as_bytes());
        self.told.push(&Settled { host, settles });
    }
}
