//! The lines by which servers speak with one another.

ghost use Rattle.std.specs.Prelude.{Some, IfOk, IsTrue, option_copied};
ghost use Rattle.ocm_records.specs.Notices.{notice};
ghost use Rattle.ocm_records.specs.Offers.{offer};
ghost use Rattle.ocm_records.specs.Rows.{record_of};
ghost use Rattle.ocm_script.specs.Events.{has_short_paths};
ghost use Rattle.ocm_script.specs.Forms as forms;
ghost use Rattle.ocm_script.specs.Gives.{Gives};

use crate::events::Event;
use crate::faults::LineFault;
use crate::last_words::{last_fresh, last_fresh_and_digits, last_number_and_fresh};
use crate::next_words::next_host;
use crate::words::{fresh_word, remaining, word};
use ocm_base::and;
use ocm_records::{RecordFault, read_notice, read_offer};
use ocm_types::{Host, Notice, Offer};
use std::alloc::Global;

/// The offer that bytes are read as, or its fault.
fn offer_in(alloc: Global, bytes: &[u8]) -> Result<Result<Offer, RecordFault>, LineFault>
    ensures { Gives (λ x. x) result (Some (record_of offer bytes.now)) }
{
    match read_offer(alloc, bytes) {
        Ok(offer) => Ok(Ok(offer)),
        Err(RecordFault::NoMemory) => Err(LineFault::NoMemory),
        Err(fault) => Ok(Err(fault)),
    }
}

/// The notification that bytes are read as, or its fault.
fn notice_in(alloc: Global, bytes: &[u8]) -> Result<Result<Notice, RecordFault>, LineFault>
    ensures { Gives (λ x. x) result (Some (record_of notice bytes.now)) }
{
    match read_notice(alloc, bytes) {
        Ok(notice) => Ok(Ok(notice)),
        Err(RecordFault::NoMemory) => Err(LineFault::NoMemory),
        Err(fault) => Ok(Err(fault)),
    }
}

/// `offer HOST J`: an offer of the bytes that remain of the line.
#[tactic(auto, unfolding(crate::specs::Forms::offer_line))]
pub fn offer_line(alloc: Global, named: &[Host], rest: Option<&[u8]>) -> Result<Event, LineFault>
    ensures exact { Gives (λ x. x) result (forms.offer_line named.now (option_copied rest.entry)) }
    ensures short { IfOk result (λ event. IsTrue (has_short_paths event)) }
{
    let (host, rest) = next_host(named, rest)?;
    let (host, bytes) = and(host, remaining(rest))?;
    let (host, offer) = and(host, offer_in(alloc, bytes))?;
    Ok(Event::Offer { host, offer })
}

/// `notice HOST FRESH J`: a notification of the bytes that remain of the line.
#[tactic(auto, unfolding(crate::specs::Forms::notice_line, crate::specs::Words::next))]
pub fn notice_line(alloc: Global, named: &[Host], rest: Option<&[u8]>) -> Result<Event, LineFault>
    ensures exact { Gives (λ x. x) result (forms.notice_line named.now (option_copied rest.entry)) }
    ensures short { IfOk result (λ event. IsTrue (has_short_paths event)) }
{
    let (host, rest) = next_host(named, rest)?;
    let (host, (fresh, rest)) = and(host, word(rest))?;
    let (host, fresh) = and(host, fresh_word(fresh))?;
    let (host, bytes) = and(host, remaining(rest))?;
    let (host, notice) = and(host, notice_in(alloc, bytes))?;
    Ok(Event::Notice {
        host,
        fresh,
        notice,
    })
}

/// `raw HOST FRESH DIGITS`: a connection that sends the bytes of the digits.
#[tactic(auto, unfolding(crate::specs::Forms::raw_line, crate::specs::Several::last, crate::specs::Several::last_two))]
pub fn raw_line(alloc: Global, named: &[Host], rest: Option<&[u8]>) -> Result<Event, LineFault>
    ensures exact { Gives (λ x. x) result (forms.raw_line named.now (option_copied rest.entry)) }
    ensures short { IfOk result (λ event. IsTrue (has_short_paths event)) }
{
    let (host, rest) = next_host(named, rest)?;
    let (host, (fresh, bytes)) = and(host, last_fresh_and_digits(alloc, rest))?;
    Ok(Event::Raw { host, fresh, bytes })
}

/// `deliver` or `lost HOST NUMBER FRESH`: a message is given to the server that it is for.
#[tactic(auto, unfolding(crate::specs::Forms::deliver_line, crate::specs::Several::last, crate::specs::Several::last_two))]
pub fn deliver_line(named: &[Host], lost: bool, rest: Option<&[u8]>) -> Result<Event, LineFault>
    ensures exact { Gives (λ x. x) result (forms.deliver_line lost named.now (option_copied rest.entry)) }
    ensures short { IfOk result (λ event. IsTrue (has_short_paths event)) }
{
    let (host, rest) = next_host(named, rest)?;
    let (host, (number, fresh)) = and(host, last_number_and_fresh(rest))?;
    Ok(Event::Deliver {
        host,
        number,
        fresh,
        lost,
    })
}

/// `pump HOST FRESH`: all messages that are due are given to the servers that they are for.
#[tactic(auto, unfolding(crate::specs::Forms::pump_line, crate::specs::Several::last))]
pub fn pump_line(named: &[Host], rest: Option<&[u8]>) -> Result<Event, LineFault>
    ensures exact { Gives (λ x. x) result (forms.pump_line named.now (option_copied rest.entry)) }
    ensures short { IfOk result (λ event. IsTrue (has_short_paths event)) }
{
    let (host, rest) = next_host(named, rest)?;
    let (host, fresh) = and(host, last_fresh(rest))?;
    Ok(Event::Pump { host, fresh })
}
