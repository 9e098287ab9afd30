ghost use Rattle.std.specs.Prelude.{◌≡◌, ◌≢◌, ◌≤◌, ◌<◌, length, None, IfOk};
ghost use Rattle.ocm_journal_records.specs.Stamps.{kind_of, kind_of_ask, moment_behind, moment_in, moment_past, said_in_second, spelled, stamped_of, timed};
ghost use Rattle.ocm_entry.specs.Ticks.{is_tick};

use ocm_base::NoMemory;
use ocm_entry::Ask;
use ocm_entry_bytes::{EntryFault, decode};
use std::alloc::Global;

/// What a record of a journal says.
pub enum Stamped {
    /// In an area of form 1: an ask without a moment.
    Bare(Ask),
    /// In an area of form 2: a moment alone, in whole seconds since the epoch.
    Moment(u64),
    /// In an area of form 2: a moment, and an ask that is no Tick.
    Timed(u64, Ask),
}

impl Drop for Stamped {
    fn drop(self) {
        match self {
            Stamped::Bare(_) => {}
            Stamped::Moment(_) => {}
            Stamped::Timed(_, _) => {}
        }
    }
}

impl Stamped {
    /// The moment so far behind this record, where it may stand at this moment so far. None where it may not: a moment
    /// alone that is not above it, or a moment with an ask that is below it.
    #[tactic(auto, unfolding(crate::specs::Stamps::moment_behind))]
    pub fn moment_behind(&self, moment: u64) -> Option<u64>
        ensures { result ≡ moment_behind moment self.now }
    {
        match self {
            Stamped::Bare(_) => Some(moment),
            Stamped::Moment(next) => (moment < *next).then_some(*next),
            Stamped::Timed(next, _) => (moment <= *next).then_some(*next),
        }
    }

    /// The kind of the record in one word.
    #[tactic(auto, unfolding(crate::specs::Stamps::kind_of))]
    pub fn kind(&self) -> &'static str
        ensures { result.now ≡ kind_of self.now }
    {
        match self {
            Stamped::Bare(ask) | Stamped::Timed(_, ask) => kind_of_ask(ask),
            Stamped::Moment(_) => "tick",
        }
    }
}

#[tactic(auto, unfolding(crate::specs::Stamps::kind_of_ask))]
fn kind_of_ask(ask: &Ask) -> &'static str
    ensures { result.now ≡ kind_of_ask ask.now }
{
    match ask {
        Ask::AddUser { .. } => "user",
        Ask::Local { .. } => "local",
        Ask::Offer { .. } => "offer",
        Ask::Notice { .. } => "notice",
        Ask::Dav { .. } => "dav",
        Ask::Due => "due",
        Ask::Settle { .. } => "settle",
        Ask::Tick { .. } => "tick",
        Ask::Carry { .. } => "carry",
    }
}

/// What a record says in an area of this form. None where it is no record of that form.
#[tactic(auto, unfolding(crate::specs::Stamps::stamped_of))]
pub fn read_stamped(alloc: Global, form: u8, bytes: &[u8]) -> Result<Option<Stamped>, NoMemory>
    ensures { IfOk result (λ said. said ≡ stamped_of form bytes.now) }
{
    if form == 1 {
        match spelled(alloc, bytes)? {
            Some(ask) => Ok(Some(Stamped::Bare(ask))),
            None => Ok(None),
        }
    } else {
        said_in_second(alloc, bytes)
    }
}

/// What a record of form 2 says.
#[tactic(auto, unfolding(crate::specs::Stamps::said_in_second))]
fn said_in_second(alloc: Global, bytes: &[u8]) -> Result<Option<Stamped>, NoMemory>
    ensures { IfOk result (λ said. said ≡ said_in_second bytes.now) }
{
    if bytes.len() < 8 {
        return Ok(None);
    }
    let moment = moment_in(bytes);
    if bytes.len() == 8 {
        return Ok(Some(Stamped::Moment(moment)));
    }
    match spelled(alloc, &bytes[8..])? {
        Some(ask) => Ok(timed(moment, ask)),
        None => Ok(None),
    }
}

/// The moment that a record of form 2 begins with.
#[tactic(auto, unfolding(crate::specs::Stamps::moment_in))]
fn moment_in(bytes: &[u8]) -> u64
    requires { 8 ≤ length bytes.now }
    ensures { result ≡ moment_in bytes.now }
{
    let [a, b, c, d, e, f, g, h] = [
        bytes[0], bytes[1], bytes[2], bytes[3], bytes[4], bytes[5], bytes[6], bytes[7],
    ];
    u64::from_be_bytes([a, b, c, d, e, f, g, h])
}

/// An ask behind a moment. None for a Tick, which a moment alone says.
fn timed(moment: u64, ask: Ask) -> Option<Stamped>
    ensures { result ≡ timed moment ask }
{
    if ask.is_tick() {
        None
    } else {
        Some(Stamped::Timed(moment, ask))
    }
}

/// The ask that the bytes spell. None where they spell none.
fn spelled(alloc: Global, bytes: &[u8]) -> Result<Option<Ask>, NoMemory>
    ensures { IfOk result (λ ask. ask ≡ spelled bytes.now) }
{
    match decode(alloc, bytes) {
        Ok(ask) => Ok(Some(ask)),
        Err(fault) => no_ask(fault),
    }
}

/// No ask, where a fault is one of the bytes.
fn no_ask(fault: EntryFault) -> Result<Option<Ask>, NoMemory>
    ensures { IfOk result (λ ask. (ask ≡ None) × (fault ≢ EntryFault.NoMemory)) }
{
    match fault {
        EntryFault::NoMemory => Err(NoMemory),
        EntryFault::Tag | EntryFault::Length | EntryFault::Value | EntryFault::Rest => Ok(None),
    }
}

/// The moment so far behind a record of an area of this form, where it may stand at this moment so far. None where the
/// bytes are no such record or its moment may not stand there.
#[tactic(auto, unfolding(crate::specs::Stamps::moment_past))]
pub fn moment_past(
    alloc: Global,
    form: u8,
    moment: u64,
    bytes: &[u8],
) -> Result<Option<u64>, NoMemory>
    ensures { IfOk result (λ past. past ≡ moment_past form moment bytes.now) }
{
    match read_stamped(alloc, form, bytes)? {
        Some(said) => {
            let past = said.moment_behind(moment);
            drop(said);
            Ok(past)
        }
        None => Ok(None),
    }
}
