ghost use Rattle.std.specs.Prelude.{◌≡◌, ◌<◌, ◌∷◌, ◌++◌, [], List, ℕ, length, slice_index, IfOk, OnOk};
ghost use Rattle.ocm_drill.specs.Summary as summary;
ghost use Rattle.ocm_drill.specs.Summary.{AreCounts};

use crate::statuses::{STATUSES, status_in};
use ocm_base::{Bytes, NoMemory};
use std::alloc::Global;
use std::marker::Model;

/// How often each status came first in what an event printed. Contracts see the counts, each at the place of its
/// status.
pub struct Tally {
    counts: Vec<u32>,
}

impl Drop for Tally {
    fn drop(self) {
        let Tally { counts: _ } = self;
    }
}

impl Model for Tally {
    ghost use Rattle.std.specs.Prelude.{◌≡◌, List, ℕ, length};

    ghost Value = { List ℕ };

    ghost view = { λ tally. tally.counts.items };

    ghost invariant = { λ tally. length tally.counts.items ≡ 1000 };
}

impl Tally {
    /// No texts yet.
    pub fn new(alloc: Global) -> Result<Tally, NoMemory>
        ensures { IfOk result (λ tally. AreCounts tally []) }
    {
        let counts = vec![in alloc; 0u32; STATUSES]?;
        Ok(Tally { counts })
    }

    /// Counts the status that a text shows, if it shows one: what one event printed. Counts are right up to 2^32 - 1
    /// texts.
    pub fn add(&mut self, text: &[u8])
        ensures { (texts : List (List ℕ)) → length texts < 4294967295 → AreCounts self.old texts
            → AreCounts self.new (texts ++ text.now ∷ []) }
    {
        if let Some(status) = status_in(text) {
            let count = self.counts[status as usize];
            self.counts[status as usize] = count.saturating_add(1);
        }
    }

    /// The line of each status that came, ascending: `status`, the status and how often it came.
    #[tactic(auto, using(crate::proofs::Counting::counted_lines))]
    pub fn lines(&self, alloc: Global) -> Result<Bytes, NoMemory>
        ensures { (texts : List (List ℕ)) → AreCounts self.now texts
            → IfOk result (λ lines. lines ≡ summary.status_lines texts) }
    {
        lines_of(alloc, self.counts.as_slice())
    }
}

/// The line of each count that is not 0, in their order.
#[tactic(auto, unfolding(crate::specs::Summary::lines_below))]
fn lines_of(alloc: Global, counts: &[u32]) -> Result<Bytes, NoMemory>
    ensures { IfOk result (λ lines. lines
        ≡ summary.lines_below (length counts.now) (λ status. slice_index counts.now status)) }
{
    let mut lines = Bytes::new(alloc);
    for status in 0..counts.len() {
        add_status(alloc, &mut lines, status, counts[status])?;
    }
    Ok(lines)
}

/// Adds the line of a status, unless it did not come.
fn add_status(alloc: Global, lines: &mut Bytes, status: usize, count: u32) -> Result<(), NoMemory>
    ensures { OnOk result (lines.new ≡ lines.old ++ summary.status_line status count) }
{
    if count > 0 {
        let line = format!(in alloc; "status {status} {count}\n")?;
        lines.add(line.as_bytes())?;
    }
    Ok(())
}
