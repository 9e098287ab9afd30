ghost use Rattle.std.specs.Prelude.{◌≡◌, [], ◌∷◌, ◌++◌, List, ℕ, IfOk, OnOk};
ghost use Rattle.ocm_drill.specs.Summary as summary;
ghost use Rattle.ocm_drill.specs.Summary.{AreCounts};

use crate::tallies::Tally;
use ocm_base::{Bytes, NoMemory};
use ocm_types::Host;
use std::alloc::Global;
use std::marker::Model;

/// The summary of a run, line by line: `events` and how many events there were; then for each status that came, ascending,
/// `status`, the status and how often it came; then for each server `kept`, its host and how many entries it keeps.
/// Contracts see its bytes.
pub struct Summary {
    text: Bytes,
}

impl Drop for Summary {
    fn drop(self) {
        let Summary { text: _ } = self;
    }
}

impl Model for Summary {
    ghost use Rattle.std.specs.Prelude.{List, ℕ};

    ghost Value = { List ℕ };

    ghost view = { λ summary. summary.text };
}

impl Summary {
    /// The summary of so many events that printed the texts of the tally, with the lines of no server yet.
    pub fn new(alloc: Global, events: u32, tally: &Tally) -> Result<Summary, NoMemory>
        ensures { (texts : List (List ℕ)) → AreCounts tally.now texts
            → IfOk result (λ text. text ≡ summary.summary events texts []) }
    {
        let first = format!(in alloc; "events {events}\n")?;
        let mut text = Bytes::of(alloc, first.as_bytes())?;
        let lines = tally.lines(alloc)?;
        text.add(lines.as_slice())?;
        Ok(Summary { text })
    }

    /// Adds the line of a server: its host, and how many entries it keeps.
    pub fn add_kept(&mut self, alloc: Global, host: &Host, count: u64) -> Result<(), NoMemory>
        ensures line { OnOk result (self.new ≡ self.old ++ summary.kept_line (host.now, count)) }
        ensures summary { (events : ℕ) (texts : List (List ℕ)) (kept : List (List ℕ × ℕ)) → self.old ≡ summary.summary events texts kept
            → OnOk result (self.new ≡ summary.summary events texts (kept ++ (host.now, count) ∷ [])) }
    {
        let host = host.as_str();
        let line = format!(in alloc; "kept {host} {count}\n")?;
        self.text.add(line.as_bytes())
    }

    /// The bytes of the summary.
    pub fn into_bytes(self) -> Bytes
        ensures { result ≡ self }
    {
        let Summary { text } = self;
        text
    }
}
