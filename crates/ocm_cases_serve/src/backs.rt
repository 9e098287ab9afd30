//! What is told of a run.
use crate::doors::CaseDoor;
use crate::pages::written_told;
use ocm_cases_rows::{add, cut, named_told};
use ocm_pump::{Exchange, MemDial};
use ocm_server::{Back, Ended, GateConn, Served};
use std::alloc::Global;

/// How a server ended.
pub fn served_told(alloc: Global, served: Served) -> Option<String> {
    match served {
        Served::OtherHost { found } => named_told(alloc, "other host", found),
        Served::Ended { calls, own } => calls_told(alloc, "ended", calls, own),
        Served::DoorFault { calls, own } => calls_told(alloc, "door fault", calls, own),
        Served::DiskFault { count } => number_told(alloc, "disk fault", count),
        Served::NotJournal { place } => number_told(alloc, "not a journal at", place),
        Served::NoMemory => String::from_str(alloc, "no memory").ok(),
    }
}

fn calls_told(alloc: Global, kind: &str, calls: u64, own: u64) -> Option<String> {
    format!(in alloc; "{kind} {calls} {own}").ok()
}

fn number_told(alloc: Global, kind: &str, number: u64) -> Option<String> {
    format!(in alloc; "{kind} {number}").ok()
}

/// Adds what is told of a worker by its door and its dial. The named pages are those of its first connection.
pub fn add_ends(
    alloc: Global,
    text: &mut String,
    door: &CaseDoor<GateConn>,
    dial: &MemDial,
    pages: &str,
) -> Option<()> {
    let told = add(text, number_told(alloc, "; asked", door.asked()));
    let backs = told.and(add_backs(alloc, text, door.back(), pages));
    backs.and(add_exchanges(alloc, text, dial.exchanges()))
}

fn add_backs(
    alloc: Global,
    text: &mut String,
    backs: &[Back<GateConn>],
    pages: &str,
) -> Option<()> {
    let [first, others @ ..] = backs else {
        return Some(());
    };
    add_back(alloc, text, first, pages)?;
    for back in others {
        add_back(alloc, text, back, "")?;
    }
    Some(())
}

/// Adds how a connection ended, and what was written on it.
fn add_back(alloc: Global, text: &mut String, back: &Back<GateConn>, pages: &str) -> Option<()> {
    let parted = text.push_str(" | ").ok();
    let told = ended_told(alloc, back.ended, back.conn.sink.bytes(), pages);
    parted.and(add(text, told))
}

/// An ending, and what was written; where pages are named, ` | ` between two, how many of them it is, and whether a part of
/// one more.
pub fn ended_told(alloc: Global, ended: Ended, written: &[u8], pages: &str) -> Option<String> {
    let written = written_told(alloc, written, pages)?;
    let told = format!(in alloc; "{ended:?} [{}]", written.as_str());
    drop(written);
    told.ok()
}

/// Adds each exchange: the host, the first line of the request, and whether the dial failed.
fn add_exchanges(alloc: Global, text: &mut String, exchanges: &[Exchange]) -> Option<()> {
    for exchange in exchanges {
        add(text, exchange_told(alloc, exchange))?;
    }
    Some(())
}

fn exchange_told(alloc: Global, exchange: &Exchange) -> Option<String> {
    let request = str::from_utf8(exchange.request.as_slice()).ok()?;
    let (line, _) = cut(request, "\r\n");
    let host = exchange.host.as_str();
    let fails = match &exchange.reply {
        Some(_) => "",
        None => " fails",
    };
    format!(in alloc; " | {host} {line}{fails}").ok()
}
