//! Lists, bytes that are shared, clocks and a gate.
use crate::pieces::{bytes_of, bytes_told};
use ocm_base::{Bytes, Clock, Copied, Gate, List, MemClock, Text};
use ocm_cases_rows::clock_of;
use std::alloc::Global;

/// Whether a copy of the list of these words is the same, its last word, and whether it is less without that.
pub fn list_told(alloc: Global, words: &str) -> Option<String> {
    let mut list = List::new(alloc);
    let told = match add_words(alloc, &mut list, words).and(list.copied().ok()) {
        Some(copy) => copy_told(alloc, &list, copy),
        None => None,
    };
    drop(list);
    told
}

fn add_words(alloc: Global, list: &mut List<Text>, words: &str) -> Option<()> {
    for word in words.split(' ') {
        list.push(Text::of(alloc, word).ok()?).ok()?;
    }
    Some(())
}

fn copy_told(alloc: Global, list: &List<Text>, mut copy: List<Text>) -> Option<String> {
    let is_same = copy == *list;
    let last = copy.pop();
    let is_less = copy < *list;
    drop(copy);
    match last {
        Some(last) => format!(in alloc; "{is_same} {} {is_less}", last.as_str()).ok(),
        None => None,
    }
}

/// The bytes of these pieces, made at once: 256 or more are shared by copies.
fn made_at_once(alloc: Global, pieces: &str) -> Option<Bytes> {
    let pieces = bytes_of(alloc, pieces)?;
    let bytes = Bytes::of(alloc, pieces.as_slice());
    drop(pieces);
    bytes.ok()
}

/// The bytes once a copy of them has grown, how many bytes the copy has, and its last one.
pub fn grown_told(alloc: Global, pieces: &str, more: &str) -> Option<String> {
    let bytes = made_at_once(alloc, pieces)?;
    let told = match grown(alloc, &bytes, more) {
        Some(copy) => parted_told(alloc, &bytes, copy),
        None => None,
    };
    drop(bytes);
    told
}

/// A copy with more bytes behind it.
fn grown(alloc: Global, bytes: &Bytes, more: &str) -> Option<Bytes> {
    let more = bytes_of(alloc, more)?;
    let copy = match bytes.copy() {
        Ok(copy) => with_more(copy, more.as_slice()),
        Err(_) => None,
    };
    drop(more);
    copy
}

fn with_more(mut bytes: Bytes, more: &[u8]) -> Option<Bytes> {
    let added = bytes.add(more).ok();
    added.and(Some(bytes))
}

fn parted_told(alloc: Global, bytes: &Bytes, copy: Bytes) -> Option<String> {
    let count = copy.len();
    let last = copy.as_slice().last().copied();
    drop(copy);
    match bytes_told(alloc, bytes.as_slice()).zip(last) {
        Some((first, last)) => format!(in alloc; "{} {count} {last:02x}", first.as_str()).ok(),
        None => None,
    }
}

/// What bytes give back while a copy shares them, and what the copy gives back behind them.
pub fn owned_told(alloc: Global, pieces: &str) -> Option<String> {
    let bytes = made_at_once(alloc, pieces)?;
    let copy = bytes.copy();
    let first = given_back(alloc, bytes);
    match first.zip(copy.ok()) {
        Some((first, copy)) => then_given_back(alloc, first, copy),
        None => None,
    }
}

fn then_given_back(alloc: Global, first: String, copy: Bytes) -> Option<String> {
    match given_back(alloc, copy) {
        Some(second) => format!(in alloc; "{} {}", first.as_str(), second.as_str()).ok(),
        None => None,
    }
}

fn given_back(alloc: Global, bytes: Bytes) -> Option<String> {
    match bytes.into_vec() {
        Ok(held) => {
            let told = bytes_told(alloc, held.as_slice());
            drop(held);
            told
        }
        Err(_shared) => String::from_str(alloc, "shared").ok(),
    }
}

/// What a clock of these values gives, asked three times; `-` is none.
pub fn clock_told(alloc: Global, words: &str) -> Option<String> {
    let clock = match words {
        "-" => Some(MemClock::new(List::new(alloc))),
        _ => clock_of(alloc, words),
    };
    match clock {
        Some(clock) => given_told(alloc, clock),
        None => None,
    }
}

fn given_told(alloc: Global, mut clock: MemClock) -> Option<String> {
    let first = clock.now();
    let second = clock.now();
    let third = clock.now();
    drop(clock);
    format!(in alloc; "{first} {second} {third}").ok()
}

/// Whether a gate is set, before it was and after.
pub fn gate_told(alloc: Global) -> Option<String> {
    let gate = Gate::new();
    let before = gate.is_set();
    gate.set();
    format!(in alloc; "{before} {}", gate.is_set()).ok()
}
