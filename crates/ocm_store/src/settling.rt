//! How a change is made whose record was appended to the journal, or did not fit behind the others.
ghost use Rattle.std.specs.Prelude.{◌≡◌, false, None};
ghost use Rattle.ocm_core.specs.Standing.{IsPlanned};
ghost use Rattle.ocm_entry.specs.declared.asks.Ask.{Ask};
ghost use Rattle.ocm_history.specs.Histories.{HasPlace};
ghost use Rattle.ocm_journal.specs.Faults as faults;
ghost use Rattle.ocm_store.specs.declared.stores.Store.{Store};
ghost use Rattle.ocm_store.specs.Acts.{Acts};
ghost use Rattle.ocm_store.specs.Appends.{IsAppended};
ghost use Rattle.ocm_store.specs.Faults.{count_told, reply_told};
ghost use Rattle.ocm_store.specs.Ready.{IsReady};
ghost use Rattle.ocm_store.specs.Stores.{fault_of};

use crate::ready::ReadyChange;
use crate::write_faults::WriteFault;
use crate::writing::after_append;
use ocm_disk::Disk;
use ocm_entry::Reply;
use ocm_history::{History, let_go};
use ocm_journal::{AppendFault, Journal};

/// Makes a change in the memory of a store once its record was appended to the journal. What did not fit behind the records of
/// the live area is written anew before. Gives the reply and, where the disk failed, the count of its fault.
pub(crate) fn settle<D: Disk>(
    history: &mut History,
    journal: &mut Journal<D>,
    change: ReadyChange,
    appended: Result<(), AppendFault>,
) -> (Reply, Option<u64>)
    requires planned { IsPlanned history.old.core.state change.planned }
    requires place { HasPlace history.old change.planned }
    requires stopped { journal.old.stopped ≡ faults.stops appended }
    ensures goes { result.1 ≡ None → journal.new.stopped ≡ false }
    ensures acts { (before : Store D ⟦<D as Disk>⟧) (ask : Ask) (goes : result.1 ≡ None → journal.new.stopped ≡ false) → before.history ≡ history.old → fault_of before ≡ None
        → IsReady ⟦<D as Disk>⟧ before ask change → IsAppended ⟦<D as Disk>⟧ before.journal journal.old change.draft.written appended
        → Acts ⟦<D as Disk>⟧ before (record { history = history.new; journal = journal.new; fault = result.1; goes = goes }) ask result.0 }
{
    let ReadyChange {
        planned,
        draft,
        size,
    } = change;
    match after_append(journal, history, &planned, &draft, appended) {
        Ok(()) => (history.make(planned, draft.newest, size), None),
        Err(fault) => {
            let_go(planned);
            (told_reply(fault), told_count(fault))
        }
    }
}

/// The count of the fault of the disk that is told. None where the disk did not fail.
fn told_count(fault: WriteFault) -> Option<u64>
    ensures { result ≡ count_told fault }
{
    match fault {
        WriteFault::DiskFault(count) => Some(count),
        WriteFault::Full | WriteFault::NoMemory => None,
    }
}

/// What is told of a change that was not written.
fn told_reply(fault: WriteFault) -> Reply
    ensures { result ≡ reply_told fault }
{
    match fault {
        WriteFault::Full => Reply::JournalFull,
        WriteFault::DiskFault(count) => Reply::DiskFault { count },
        WriteFault::NoMemory => Reply::NoMemory,
    }
}
