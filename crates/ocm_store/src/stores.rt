ghost use Rattle.std.specs.Prelude.{◌≡◌, None, false};

use ocm_disk::Disk;
use ocm_history::History;
use ocm_journal::Journal;

/// One server whose history outlives every crash: the state of a core, and its journal on a disk.
///
/// Callers ask it by [`ocm_entry::Object::act`]. After it told a fault of the disk it is stopped: it
/// answers what changes nothing, and makes no change until the disk is loaded again.
pub struct Store<D: Disk> {
    pub(crate) history: History,
    pub(crate) journal: Journal<D>,
    /// The count of the fault of the disk that this store told.
    pub(crate) fault: Option<u64>,
    ghost goes: { fault ≡ None → journal.stopped ≡ false },
}

impl<D: Disk + Drop> Drop for Store<D> {
    fn drop(self) {
        let Store {
            history: _,
            journal: _,
            fault: _,
        } = self;
    }
}

impl<D: Disk> Store<D> {
    // The journal alone. (The definitions over a store can't be named beside the struct, whose ghost field they rest on.)
    pub(crate) fn into_journal(self) -> Journal<D>
        ensures { result ≡ self.journal }
    {
        let Store {
            history: _,
            journal,
            fault: _,
        } = self;
        journal
    }

    // The memory and the journal.
    pub(crate) fn into_both(self) -> (History, Journal<D>)
        ensures history { result.0 ≡ self.history }
        ensures journal { result.1 ≡ self.journal }
    {
        let Store {
            history,
            journal,
            fault: _,
        } = self;
        (history, journal)
    }
}
