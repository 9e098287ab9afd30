ghost use Rattle.std.specs.Prelude.{◌≡◌, ◌≤◌, true, Some, Err, IfOk};
ghost use Rattle.ocm_base.specs.Outside.{Rose};
ghost use Rattle.ocm_pump.specs.Exchanges.{AddsSome};
ghost use Rattle.ocm_pump.specs.Replies.{Gives};
ghost use Rattle.ocm_pump.specs.Delivery as delivery;
ghost use Rattle.ocm_pump.specs.Delivery.{Asks, AsksLast, Discovers};

use crate::dials::Dial;
use crate::faults::PumpFault;
use crate::replies::send;
use crate::sites::{Site, site_read};
use ocm_base::{Bytes, NoMemory};
use ocm_http::{Head, Message, write_request};
use ocm_types::Host;
use std::alloc::Global;

/// The site by a reply: that of its body, where the status is 200.
fn site_by(alloc: Global, message: &Message) -> Result<Option<Site>, NoMemory>
    ensures { IfOk result (λ site. site ≡ delivery.site_by message.now.head message.now.body) }
{
    match &message.head {
        Head::Reply { status, fields: _ } => {
            if *status == 200 {
                site_read(alloc, message.body.as_slice())
            } else {
                Ok(None)
            }
        }
        Head::Request { .. } => Ok(None),
    }
}

/// The site by what came back. What is no reply has none.
pub(crate) fn site_in(
    alloc: Global,
    sent: Result<Message, PumpFault>,
) -> Result<Option<Site>, PumpFault>
    ensures { Gives result (delivery.site_in sent) }
{
    match sent {
        Ok(message) => {
            let site = site_by(alloc, &message)?;
            Ok(site)
        }
        Err(PumpFault::BadReply(_)) => Ok(None),
        Err(fault) => Err(fault),
    }
}

/// The request for the document at a place: without credentials.
#[tactic(auto, unfolding(crate::specs::Delivery::document_request))]
pub(crate) fn document_request(alloc: Global, host: &Host, place: &str) -> Result<Bytes, NoMemory>
    ensures { IfOk result (λ request. request ≡ delivery.document_request host.now place.now) }
{
    write_request(alloc, host, "GET", place, None, &Bytes::new(alloc))
}

/// Asks a host for its document at a place.
fn ask<N: Dial>(
    alloc: Global,
    dial: &mut N,
    host: &Host,
    place: &str,
) -> Result<Option<Site>, PumpFault>
    requires delivers { N.delivers dial.old ≡ true }
    ensures exact { AddsSome (N.exchanges dial.old) (N.exchanges dial.new) (λ added. Asks host.now place.now added result) }
    ensures dial_fault { result ≡ Err PumpFault.DialFault → Rose (N.faults dial.old) (N.faults dial.new) }
    ensures never_falls { N.faults dial.old ≤ N.faults dial.new }
    ensures kind { N.delivers dial.new ≡ N.delivers dial.old }
    ensures untold { N.told dial.new ≡ N.told dial.old }
{
    let request = document_request(alloc, host, place)?;
    let sent = send(alloc, dial, host, &request);
    site_in(alloc, sent)
}

/// What the second place gives.
pub(crate) fn found_at_last(found: Result<Option<Site>, PumpFault>) -> Result<Site, PumpFault>
    ensures { result ≡ delivery.found_at_last found }
{
    match found {
        Ok(Some(site)) => Ok(site),
        Ok(None) => Err(PumpFault::NoDiscovery),
        Err(fault) => Err(fault),
    }
}

/// Asks a host for its document at the second place.
fn ask_last<N: Dial>(alloc: Global, dial: &mut N, host: &Host) -> Result<Site, PumpFault>
    requires delivers { N.delivers dial.old ≡ true }
    ensures exact { AddsSome (N.exchanges dial.old) (N.exchanges dial.new) (λ added. AsksLast host.now added result) }
    ensures dial_fault { result ≡ Err PumpFault.DialFault → Rose (N.faults dial.old) (N.faults dial.new) }
    ensures never_falls { N.faults dial.old ≤ N.faults dial.new }
    ensures kind { N.delivers dial.new ≡ N.delivers dial.old }
    ensures untold { N.told dial.new ≡ N.told dial.old }
{
    let found = ask(alloc, dial, host, "/ocm-provider/");
    found_at_last(found)
}

/// Asks a host for its discovery document (Open Cloud Mesh API 1.1): at `/.well-known/ocm`, and where that gives no
/// usable one at `/ocm-provider/`. BadReply is no answer of it.
pub fn discover<N: Dial>(alloc: Global, dial: &mut N, host: &Host) -> Result<Site, PumpFault>
    requires delivers { N.delivers dial.old ≡ true }
    ensures exact { AddsSome (N.exchanges dial.old) (N.exchanges dial.new) (λ added. Discovers host.now added result) }
    ensures dial_fault { result ≡ Err PumpFault.DialFault → Rose (N.faults dial.old) (N.faults dial.new) }
    ensures never_falls { N.faults dial.old ≤ N.faults dial.new }
    ensures kind { N.delivers dial.new ≡ N.delivers dial.old }
    ensures untold { N.told dial.new ≡ N.told dial.old }
{
    let first = ask(alloc, dial, host, "/.well-known/ocm")?;
    match first {
        Some(site) => Ok(site),
        None => ask_last(alloc, dial, host),
    }
}
