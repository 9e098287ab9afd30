ghost use Rattle.std.specs.Prelude.{◌≡◌, IfOk};

use crate::asks::Ask;
use crate::replies::Reply;
use ocm_texts::{NoMemory, and};

/// An ask with the reply that was given: one entry of a server's history.
pub struct Entry {
    pub ask: Ask,
    pub reply: Reply,
}

impl Drop for Entry {
    fn drop(self) {
        let Entry { ask: _, reply: _ } = self;
    }
}

impl Entry {
    /// The same entry once more.
    pub fn copy(&self) -> Result<Entry, NoMemory>
        ensures { IfOk result (λ e. e ≡ self.now) }
    {
        let (ask, reply) = and(self.ask.copy()?, self.reply.copy())?;
        Ok(Entry { ask, reply })
    }
}
