//! A store whose journal is away from its memory, while the record of a change is written into it.
ghost use Rattle.std.specs.Prelude.{◌≡◌, ◌≤◌, length, None};
ghost use Rattle.ocm_history.specs.Histories.{HasPlace, SameMemory};
ghost use Rattle.ocm_journal.specs.Journals.{HasRoom};
ghost use Rattle.ocm_plan.specs.Plans.{Plans};
ghost use Rattle.ocm_store.specs.Appends.{stopped_by};

use crate::ready::ReadyChange;
use crate::stores::Store;
use ocm_disk::Disk;
use ocm_entry::{Ask, Reply};
use ocm_history::History;
use ocm_journal::{AppendFault, Journal};
use std::snapshot::Snapshot;

/// The store before a change was begun, and the same with all memory taken for it. For contracts alone.
pub struct Mark<D: Disk> {
    pub before: Snapshot<Store<D>>,
    pub ready: Snapshot<Store<D>>,
}

impl<D: Disk + Drop> Drop for Mark<D> {
    fn drop(self) {
        let Mark {
            before: _,
            ready: _,
        } = self;
    }
}

/// The memory of a store whose journal is away. It answers what changes nothing as the store did before the change was begun.
pub struct Front<D: Disk> {
    pub(crate) history: History,
    pub(crate) mark: Mark<D>,
    ghost same: { ∥ SameMemory mark.before.value.history history ∥₁ },
    ghost ready: { ∥ history ≡ mark.ready.value.history ∥₁ },
}

impl<D: Disk + Drop> Drop for Front<D> {
    fn drop(self) {
        let Front {
            history: _,
            mark: _,
        } = self;
    }
}

/// A change that is planned, with the journal that its record goes into. Where it is dropped, the change is there after the
/// next loading of the disk, or it is not.
pub struct Writing<D: Disk> {
    pub(crate) journal: Journal<D>,
    pub(crate) change: ReadyChange,
    /// What became of its record, once it was appended.
    pub(crate) written: Option<Result<(), AppendFault>>,
    /// What the change is planned for. For contracts alone.
    pub(crate) asked: Snapshot<Ask>,
    pub(crate) mark: Snapshot<Mark<D>>,
    ghost plans: { ∥ Plans mark.value.ready.value.history.core.state asked.value change.planned ∥₁ },
    ghost place: { ∥ HasPlace mark.value.ready.value.history change.planned ∥₁ },
    ghost room: { written ≡ None → HasRoom ⟦<D as Disk>⟧ journal (length change.draft.written) },
    ghost sizes: { (1 ≤ length change.draft.written) × (length change.draft.written ≤ 2097152) },
    ghost stopped: { journal.stopped ≡ stopped_by written },
}

impl<D: Disk + Drop> Drop for Writing<D> {
    fn drop(self) {
        let Writing {
            journal: _,
            change: _,
            written: _,
            asked: _,
            mark: _,
        } = self;
    }
}

/// What became of an ask that a store was to answer.
pub enum Begun<D: Disk> {
    /// It is answered.
    Replied(Store<D>, Reply),
    /// It is a change: its record has to be written before it is made.
    Apart(Front<D>, Writing<D>),
}

impl<D: Disk> Front<D> {
    // The memory alone.
    pub(crate) fn into_history(self) -> History
        ensures { result ≡ self.history }
    {
        let Front { history, mark: _ } = self;
        history
    }
}

impl<D: Disk> Writing<D> {
    // The journal, the change, and what became of its record.
    pub(crate) fn into_parts(self) -> (Journal<D>, ReadyChange, Option<Result<(), AppendFault>>)
        ensures journal { result.0 ≡ self.journal }
        ensures change { result.1 ≡ self.change }
        ensures written { result.2 ≡ self.written }
    {
        let Writing {
            journal,
            change,
            written,
            asked: _,
            mark: _,
        } = self;
        (journal, change, written)
    }
}
