//! Dials with replies, and what was sent through them.
use ocm_base::{Bytes, List};
use ocm_cases_rows::{add, add_reply, escaped};
use ocm_pump::{Exchange, MemDial};
use std::alloc::Global;

/// A dial with these replies, in order, where `-` is a failure and `|` stands between two.
pub fn dial_of(alloc: Global, replies: &str) -> Option<MemDial> {
    let mut given = List::new(alloc);
    match add_replies(alloc, &mut given, replies) {
        Some(()) => Some(MemDial::new(alloc, given)),
        None => {
            drop(given);
            None
        }
    }
}

fn add_replies(alloc: Global, given: &mut List<Option<Bytes>>, replies: &str) -> Option<()> {
    for reply in replies.split('|') {
        add_reply(alloc, given, reply)?;
    }
    Some(())
}

/// The text, and behind it each host with the request that was sent to it, `; ` before it.
pub fn with_sent(alloc: Global, mut text: String, exchanges: &[Exchange]) -> Option<String> {
    match add_each(alloc, &mut text, exchanges) {
        Some(()) => Some(text),
        None => {
            drop(text);
            None
        }
    }
}

fn add_each(alloc: Global, text: &mut String, exchanges: &[Exchange]) -> Option<()> {
    for exchange in exchanges {
        add_sent(alloc, text, exchange)?;
    }
    Some(())
}

fn add_sent(alloc: Global, text: &mut String, exchange: &Exchange) -> Option<()> {
    let request = escaped(alloc, exchange.request.as_slice())?;
    add(
        text,
        format!(in alloc; "; {} {}", exchange.host.as_str(), request.as_str()).ok(),
    )
}
