//! Deliveries of offers and notifications.
use ocm_pump::{Answered, MemDial, deliver};
use ocm_records::{read_notice, read_offer};
use ocm_types::{Host, Letter, Numbered, Shared};
use std::alloc::Global;

/// The status with which the offer of this record was answered at `localhost:8081`, and the id that came with it.
pub fn delivered_told(alloc: Global, dial: &mut MemDial, record: &str) -> Option<String> {
    match read_offer(alloc, record.as_bytes()) {
        Ok(offer) => letter_told(alloc, dial, Letter::Offer(offer)),
        Err(_) => None,
    }
}

/// The same of the notification of this record.
pub fn notified_told(alloc: Global, dial: &mut MemDial, record: &str) -> Option<String> {
    match read_notice(alloc, record.as_bytes()) {
        Ok(notice) => letter_told(alloc, dial, Letter::Notice(notice)),
        Err(_) => None,
    }
}

fn letter_told(alloc: Global, dial: &mut MemDial, letter: Letter) -> Option<String> {
    let letter = Shared::new(alloc, letter).ok();
    match host(alloc).zip(letter) {
        Some((to, letter)) => message_told(alloc, dial, message(to, letter)),
        None => None,
    }
}

fn host(alloc: Global) -> Option<Shared<Host>> {
    match Host::read(alloc, "localhost:8081") {
        Ok(to) => Shared::new(alloc, to).ok(),
        Err(_) => None,
    }
}

fn message(to: Shared<Host>, letter: Shared<Letter>) -> Numbered {
    Numbered {
        number: 1,
        to,
        letter,
    }
}

fn message_told(alloc: Global, dial: &mut MemDial, message: Numbered) -> Option<String> {
    let answered = deliver(alloc, dial, &message);
    drop(message);
    match answered {
        Ok(answered) => answered_told(alloc, answered),
        Err(fault) => format!(in alloc; "{fault:?}").ok(),
    }
}

fn answered_told(alloc: Global, answered: Answered) -> Option<String> {
    let told = status_told(alloc, &answered);
    drop(answered);
    told
}

fn status_told(alloc: Global, answered: &Answered) -> Option<String> {
    let status = answered.status;
    match &answered.id {
        Some(id) => format!(in alloc; "{status} with {}", id.as_str()).ok(),
        None => format!(in alloc; "{status}").ok(),
    }
}
