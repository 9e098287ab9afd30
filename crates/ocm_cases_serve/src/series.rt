//! Runs that came to the same, told together.
use ocm_cases_rows::add;
use std::alloc::Global;

/// The runs so far: what was told of those that are over, the number of the first of those that came to the same as the
/// last, and what that is.
pub struct Series {
    text: String,
    first: u64,
    told: String,
}

impl Drop for Series {
    fn drop(self) {
        let Series {
            text: _,
            first: _,
            told: _,
        } = self;
    }
}

impl Series {
    /// No runs.
    pub fn new(alloc: Global) -> Series {
        Series {
            text: String::new(alloc),
            first: 1,
            told: String::new(alloc),
        }
    }

    /// Adds what is told of a run behind so many others.
    pub fn add(&mut self, alloc: Global, before: u64, told: String) -> Option<()> {
        if told.as_str() == self.told.as_str() {
            drop(told);
            return Some(());
        }
        let closed = self.close(alloc, before);
        self.first = before.saturating_add(1);
        self.told = told;
        closed
    }

    /// Tells the runs that came to the same, of which this is the last number.
    pub fn close(&mut self, alloc: Global, last: u64) -> Option<()> {
        if self.told.is_empty() {
            return Some(());
        }
        let line = format!(in alloc; "{} to {last}: {}\n", self.first, self.told.as_str());
        add(&mut self.text, line.ok())
    }

    /// What was told.
    pub fn into_text(self) -> String {
        let Series {
            text,
            first: _,
            told: _,
        } = self;
        text
    }
}
