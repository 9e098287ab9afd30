//! Records in form 2 for an area.
use crate::faults::CandidateFault;
use crate::records::dated;
use ocm_base::{Bytes, List};
use ocm_entry::Ask;
use ocm_entry_bytes::has_spelling;
use std::alloc::Global;

/// How many bytes of an area a record takes beside its own.
const AROUND: u64 = 5;

/// Records in form 2, and how many bytes may still be taken.
pub struct Texts {
    alloc: Global,
    items: List<Bytes>,
    /// The moment of the last record.
    moment: u64,
    left: u64,
}

impl Drop for Texts {
    fn drop(self) {
        let Texts {
            alloc: _,
            items: _,
            moment: _,
            left: _,
        } = self;
    }
}

impl Texts {
    /// No records, and room for this many bytes.
    pub fn new(alloc: Global, room: u64) -> Texts {
        Texts {
            alloc,
            items: List::new(alloc),
            moment: 0,
            left: room,
        }
    }

    /// The records.
    pub fn into_items(self) -> List<Bytes> {
        let Texts {
            alloc: _,
            items,
            moment: _,
            left: _,
        } = self;
        items
    }

    /// Takes the room of a record of this many bytes.
    fn take_room(&mut self, length: usize) -> Result<(), CandidateFault> {
        match self
            .left
            .checked_sub((length as u64).saturating_add(AROUND))
        {
            Some(left) => {
                self.left = left;
                Ok(())
            }
            None => Err(CandidateFault::NotMade),
        }
    }

    /// Adds a record that begins with its moment.
    pub fn add_record(&mut self, record: &[u8]) -> Result<(), CandidateFault> {
        self.take_room(record.len())?;
        self.moment = moment_of(record);
        let text = Bytes::of(self.alloc, record)?;
        self.items.push(text)?;
        Ok(())
    }

    /// Adds the record of an ask at a moment.
    pub fn add(&mut self, clock: u64, ask: &Ask) -> Result<(), CandidateFault> {
        if !has_spelling(ask) {
            return Err(CandidateFault::NotMade);
        }
        let text = dated(self.alloc, clock, ask)?;
        self.take_room(text.len())?;
        self.moment = clock;
        self.items.push(text)?;
        Ok(())
    }

    /// Adds a tick, where no record shows this moment.
    pub fn add_moment(&mut self, clock: u64) -> Result<(), CandidateFault> {
        if self.moment < clock {
            return self.add_record(&clock.to_be_bytes());
        }
        Ok(())
    }
}

/// The moment that a record of form 2 begins with, and 0 for fewer than eight bytes.
fn moment_of(record: &[u8]) -> u64 {
    match record {
        [a, b, c, d, e, f, g, h, ..] => u64::from_be_bytes([*a, *b, *c, *d, *e, *f, *g, *h]),
        _ => 0,
    }
}
