//! Lists of numbers.
use ocm_base::{List, MemClock};
use std::alloc::Global;

/// A clock that gives these values, with `,` between two.
pub fn clock_of(alloc: Global, words: &str) -> Option<MemClock> {
    let mut values = List::new(alloc);
    add_values(&mut values, words).and(Some(MemClock::new(values)))
}

fn add_values(values: &mut List<u64>, words: &str) -> Option<()> {
    for word in words.split(',') {
        add_value(values, word)?;
    }
    Some(())
}

fn add_value(values: &mut List<u64>, word: &str) -> Option<()> {
    match word.parse() {
        Ok(value) => values.push(value).ok(),
        Err(_) => None,
    }
}

/// The list of this number alone.
pub fn only(alloc: Global, number: u64) -> Option<List<u64>> {
    match vec![in alloc; number] {
        Ok(numbers) => Some(List::from_vec(numbers)),
        Err(_) => None,
    }
}
