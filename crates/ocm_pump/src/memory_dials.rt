ghost use Rattle.std.specs.Prelude.{◌≡◌, ◌+◌, ◌≤◌, min, [], ◌∷◌, ◌++◌, length, take, reverse, true, Some, None, Ok, Err, IfOk, IfSome, option_copied, option_map};
ghost use Rattle.ocm_base.specs.Outside.{Rose};
ghost use Rattle.ocm_limits.specs.Limits.{most_exchange_bytes};
ghost use Rattle.ocm_pump.specs.Exchanges.{AddsOne, Hears};
ghost use Rattle.ocm_pump.specs.Memory as memory;

use crate::dials::Dial;
use crate::exchanges::{Came, DialEnd, Exchange};
use ocm_base::{Bytes, List, NoMemory};
use ocm_limits::MOST_EXCHANGE_BYTES;
use ocm_types::Host;
use std::alloc::Global;
use std::marker::Model;

/// A dial that answers out of memory. It tells its exchanges, and what it was told of deliveries while there was memory
/// for that.
pub struct MemDial {
    replies: List<Option<Bytes>>,
    place: usize,
    exchanges: List<Exchange>,
    faults: u64,
    told: Option<List<Came>>,
}

impl Drop for MemDial {
    fn drop(self) {
        let MemDial {
            replies: _,
            place: _,
            exchanges: _,
            faults: _,
            told: _,
        } = self;
    }
}

impl Model for MemDial {
    ghost use Rattle.std.specs.Prelude.{◌≤◌, drop, length, option_map, reverse};
    ghost use Rattle.ocm_pump.specs.Memory.{DialState};

    ghost Value = { DialState };

    ghost view = { λ d. record {
      replies = drop d.place d.replies;
      exchanges = reverse d.exchanges;
      faults = d.faults;
      told = option_map (λ told. reverse told) d.told;
    } };

    ghost invariant = { λ d. d.place ≤ length d.replies };
}

impl MemDial {
    /// A dial to which these replies come back, one after another, 33,619,968 bytes of each at most. An exchange fails
    /// exactly where its reply is None, and after the last.
    pub fn new(alloc: Global, replies: List<Option<Bytes>>) -> MemDial
        ensures exchanges { ⟦<MemDial as Dial>⟧.exchanges result ≡ Some [] }
        ensures faults { ⟦<MemDial as Dial>⟧.faults result ≡ 0 }
        ensures state { result ≡ record { replies = replies; exchanges = []; faults = 0; told = Some [] } }
    {
        MemDial {
            replies,
            place: 0,
            exchanges: List::new(alloc),
            faults: 0,
            told: Some(List::new(alloc)),
        }
    }

    /// The exchanges so far, in the order in which they were made.
    pub fn exchanges(&self) -> &[Exchange]
        ensures { result.now ≡ reverse self.now.exchanges }
    {
        self.exchanges.as_slice()
    }
}

/// The bytes that come back of a reply.
fn front_of(bytes: &[u8]) -> &[u8]
    ensures front { result.now ≡ take most_exchange_bytes bytes.now }
    ensures within { length result.now ≤ most_exchange_bytes }
{
    if bytes.len() <= MOST_EXCHANGE_BYTES {
        bytes
    } else {
        &bytes[..MOST_EXCHANGE_BYTES]
    }
}

/// What comes back of a reply, where there is one.
fn front_at(alloc: Global, reply: Option<&Option<Bytes>>) -> Result<Option<Bytes>, NoMemory>
    ensures front { IfOk result (λ front. front ≡ memory.front_at (option_copied reply.entry)) }
    ensures within { IfOk result (λ front. IfSome front (λ bytes. length bytes ≤ most_exchange_bytes)) }
{
    match reply {
        Some(Some(bytes)) => {
            let front = Bytes::of(alloc, front_of(bytes.as_slice()))?;
            Ok(Some(front))
        }
        Some(None) | None => Ok(None),
    }
}

/// The next place, or the end where there is none.
fn next_place(place: usize, end: usize) -> usize
    requires { place ≤ end }
    ensures { result ≡ min (place + 1) end }
{
    if place < end { place + 1 } else { place }
}

/// An exchange to be kept.
fn exchange_of(host: &Host, request: &Bytes, reply: &Option<Bytes>) -> Result<Exchange, NoMemory>
    ensures { IfOk result (λ e. e ≡ record { host = host.now; request = request.now; reply = reply.now }) }
{
    let host = host.copy()?;
    let request = request.copy()?;
    let reply = match reply {
        Some(bytes) => {
            let bytes = bytes.copy()?;
            Some(bytes)
        }
        None => None,
    };
    Ok(Exchange {
        host,
        request,
        reply,
    })
}

/// What was told with one more behind it, or None where there is no memory for that.
fn with_came(told: Option<List<Came>>, host: &Host, settles: bool) -> Option<List<Came>>
    ensures { IfSome result (λ now. option_map (λ before. before ++ record { host = host.now; settles = settles } ∷ []) told ≡ Some now) }
{
    let Some(mut told) = told else {
        return None;
    };
    match host.copy() {
        Ok(host) => match told.push(Came { host, settles }) {
            Ok(()) => Some(told),
            Err(_) => None,
        },
        Err(_) => None,
    }
}

impl Dial for MemDial {
    ghost exchanges = { λ d. Some d.exchanges };

    ghost faults = { λ d. d.faults };

    ghost delivers = { λ _. true };

    ghost told = { λ d. d.told };

    fn delivers(&self) -> bool {
        true
    }

    /// Gives the next reply, and fails exactly where that is None or there is none. Where there is no memory nothing is
    /// changed.
    fn exchange(&mut self, alloc: Global, host: &Host, request: &Bytes) -> Result<Bytes, DialEnd>
        ensures within { IfOk result (λ reply. length reply ≤ most_exchange_bytes) }
        ensures added { AddsOne (Some self.old.exchanges) (Some self.new.exchanges) host.now request.now result }
        ensures rose { result ≡ Err DialEnd.Failed → Rose self.old.faults self.new.faults }
        ensures never_falls { self.old.faults ≤ self.new.faults }
        ensures kind { true ≡ true }
        ensures untold { self.new.told ≡ self.old.told }
        ensures came { IfOk result (λ reply. memory.next_of self.old.replies ≡ Some reply) }
        ensures fails { result ≡ Err DialEnd.Failed → memory.next_of self.old.replies ≡ None }
        ensures moved { (result ≡ Err DialEnd.NoMemory → ⊥) → self.new ≡ memory.after_exchange self.old host.now request.now }
        ensures memory { result ≡ Err DialEnd.NoMemory → self.new ≡ self.old }
    {
        let reply = front_at(alloc, self.replies.get(self.place))?;
        let told = exchange_of(host, request, &reply)?;
        self.exchanges.push(told)?;
        self.place = next_place(self.place, self.replies.len());
        match reply {
            Some(bytes) => Ok(bytes),
            None => {
                self.faults = self.faults.saturating_add(1);
                Err(DialEnd::Failed)
            }
        }
    }
    /// Remembers it, and forgets all that it was told where there is no memory.
    fn came(&mut self, host: &Host, settles: bool)
        ensures told { Hears self.old.told self.new.told host.now settles }
        ensures same { self.new ≡ record self.old { told = self.new.told } }
    {
        let told = self.told.take();
        self.told = with_came(told, host, settles);
    }
}
