//! How a change is written into a journal.
ghost use Rattle.std.specs.Prelude.{◌≡◌, ◌<◌, ◌≤◌, ◌+◌, ◌∷◌, [], ℕ, List, length, not, false, IsErr, IsErrOf, IfErr, OnOk, None};
ghost use Rattle.ocm_disk.specs.Disk.{LeavesOnly};
ghost use Rattle.ocm_entry.specs.declared.asks.Ask.{Ask};
ghost use Rattle.ocm_entry.specs.declared.entries.Entry.{Entry};
ghost use Rattle.ocm_core.specs.Standing.{IsPlanned};
ghost use Rattle.ocm_journal_image.specs.Layout.{blocks_size};
ghost use Rattle.ocm_journal.specs.AfterFaults.{AfterFault};
ghost use Rattle.ocm_journal.specs.Faults as faults;
ghost use Rattle.ocm_journal.specs.declared.journal.Journal.{Journal};
ghost use Rattle.ocm_journal.specs.Journals.{HasRoom, IsImageWith, IsOldOrNew, IsStopped, StandsFor, area_of, disk_of, first_is_live, form_of};
ghost use Rattle.ocm_journal.specs.LiveAreas.{HasLive, LiveArea, written_in};
ghost use Rattle.ocm_law_sessions.specs.Sessions.{heard};
ghost use Rattle.ocm_law_sessions.specs.Written.{records_of};
ghost use Rattle.ocm_rules.specs.Lean.{lean};
ghost use Rattle.ocm_history_records.specs.declared.drafts.Draft.{Draft};
ghost use Rattle.ocm_history.specs.Changes.{FitsInto, IsChange};
ghost use Rattle.ocm_store.specs.Acts.{IsWithOrWithout, Spends, SpendsNone};
ghost use Rattle.ocm_store.specs.Appends.{IsAppended, IsAppendedYet, Writes, stopped_by};
ghost use Rattle.ocm_store.specs.Faults.{HasCount, IsNoDiskFault, stops};
ghost use Rattle.ocm_store.specs.Growing.{OpensLive};
ghost use Rattle.ocm_history.specs.Histories.{home_of};
ghost use Rattle.ocm_store.specs.Stores.{IsWritten};

use crate::write_faults::WriteFault;
use ocm_core::Planned;
use ocm_disk::Disk;
use ocm_history::{Draft, History, KeptRecord, RecordFault};
use ocm_journal::{AppendFault, Journal, RenewFault};
use ocm_journal_area::AreaRecords;

/// Appends the record of a change to its journal, where that was not done yet. Room was taken for it.
pub(crate) fn append_once<D: Disk>(
    journal: &mut Journal<D>,
    draft: &Draft,
    written: Option<Result<(), AppendFault>>,
) -> Result<(), AppendFault>
    requires room { written ≡ None → HasRoom ⟦<D as Disk>⟧ journal.old (length draft.now.written) }
    requires length { (1 ≤ length draft.now.written) × (length draft.now.written ≤ 2097152) }
    requires stopped { journal.old.stopped ≡ stopped_by written }
    ensures appended { (before : Journal D ⟦<D as Disk>⟧) → IsAppendedYet ⟦<D as Disk>⟧ before journal.old draft.now.written written
        → IsAppended ⟦<D as Disk>⟧ before journal.new draft.now.written result }
    ensures stopped { journal.new.stopped ≡ faults.stops result }
{
    match written {
        Some(appended) => appended,
        None => journal.append(&draft.written),
    }
}

/// Goes on once the record of a change was appended to the journal that has the history before it. Where it would pass the end
/// of the live area, all that later replies can depend on is written anew with it.
pub(crate) fn after_append<D: Disk>(
    journal: &mut Journal<D>,
    history: &History,
    planned: &Planned,
    draft: &Draft,
    appended: Result<(), AppendFault>,
) -> Result<(), WriteFault>
    requires stopped { journal.old.stopped ≡ faults.stops appended }
    requires planned { IsPlanned history.now.core.state planned.now }
    requires few { length history.now.records.items < 18446744073709551615 }
    ensures stopped { journal.new.stopped ≡ stops result }
    ensures writes { (before : Journal D ⟦<D as Disk>⟧) → IsAppended ⟦<D as Disk>⟧ before journal.old draft.now.written appended
        → Writes ⟦<D as Disk>⟧ history.now planned.now draft.now before journal.new result }
{
    match appended {
        Ok(()) => Ok(()),
        Err(AppendFault::DiskFault(count)) => Err(WriteFault::DiskFault(count)),
        Err(AppendFault::Full) => write_anew(journal, history, planned, &draft.newest),
    }
}

/// Writes anew all that later replies can depend on, with a change of which this is kept.
fn write_anew<D: Disk>(
    journal: &mut Journal<D>,
    history: &History,
    planned: &Planned,
    newest: &KeptRecord,
) -> Result<(), WriteFault>
    requires goes { journal.old.stopped ≡ false }
    requires planned { IsPlanned history.now.core.state planned.now }
    requires few { length history.now.records.items < 18446744073709551615 }
    ensures written { D.tells → (g : List Entry) (ask : Ask) (form : ℕ) (draft : Draft) → IsChange history.now g ask planned.now form draft → newest.now ≡ draft.newest
        → let host = home_of history.now in IsWritten ⟦<D as Disk>⟧ host g journal.old → OnOk result (IsWritten ⟦<D as Disk>⟧ host (heard host g ask ∷ g) journal.new) }
    ensures unwritten { D.tells → (g : List Entry) → let host = home_of history.now in IsWritten ⟦<D as Disk>⟧ host g journal.old → IfErr result (λ fault. IsNoDiskFault fault → IsWritten ⟦<D as Disk>⟧ host g journal.new) }
    ensures any_moment { D.tells → (g : List Entry) (ask : Ask) (form : ℕ) (draft : Draft) → IsChange history.now g ask planned.now form draft → newest.now ≡ draft.newest
        → let host = home_of history.now in IsWritten ⟦<D as Disk>⟧ host g journal.old → LeavesOnly D.moment D.left_since (disk_of journal.old) (disk_of journal.new) (IsWithOrWithout host (area_of journal.old) g ask) }
    ensures not_full { (g : List Entry) (ask : Ask) (form : ℕ) (draft : Draft) → IsChange history.now g ask planned.now form draft → newest.now ≡ draft.newest
        → FitsInto (area_of journal.old) history.now g ask → ¬ IsErrOf result WriteFault.Full }
    ensures fault { IfErr result (HasCount (D.count (disk_of journal.old)) (D.count (disk_of journal.new))) }
    ensures count { OnOk result (D.count (disk_of journal.new) ≡ D.count (disk_of journal.old)) }
    ensures stopped { journal.new.stopped ≡ stops result }
    ensures area { area_of journal.new ≡ area_of journal.old }
    ensures made { OnOk result (Spends ⟦<D as Disk>⟧ 4 (disk_of journal.old) (disk_of journal.new)) }
    ensures not_made { IfErr result (λ fault. IsNoDiskFault fault → SpendsNone ⟦<D as Disk>⟧ (disk_of journal.old) (disk_of journal.new)) }
    ensures fewer { (left : ℕ) → left < 4 → D.burnt (disk_of journal.old) left → IsErr result }
    ensures passes { (calls : ℕ) → D.passes (disk_of journal.old) (calls + 4) → IfErr result IsNoDiskFault }
    ensures live { D.tells → (g : List Entry) (ask : Ask) (form : ℕ) (draft : Draft) (live : LiveArea) → IsChange history.now g ask planned.now form draft → newest.now ≡ draft.newest
        → let host = home_of history.now in HasLive ⟦<D as Disk>⟧ host live journal.old → OnOk result (HasLive ⟦<D as Disk>⟧ host (written_in false live [] (records_of (lean host (heard host g ask ∷ g)))) journal.new) }
    ensures still { D.tells → (label : List ℕ) (live : LiveArea) → HasLive ⟦<D as Disk>⟧ label live journal.old → IfErr result (λ fault. IsNoDiskFault fault → HasLive ⟦<D as Disk>⟧ label live journal.new) }
    ensures after_fault { D.tells → (g : List Entry) (ask : Ask) (form : ℕ) (draft : Draft) (live : LiveArea) (left : ℕ) → IsChange history.now g ask planned.now form draft → newest.now ≡ draft.newest
        → let host = home_of history.now in IsWritten ⟦<D as Disk>⟧ host g journal.old → HasLive ⟦<D as Disk>⟧ host live journal.old → IsStopped journal.new
        → D.passes (disk_of journal.old) left → D.burnt (disk_of journal.old) left
        → AfterFault ⟦<D as Disk>⟧ left live.first (OpensLive host (area_of journal.old) g live)
        (OpensLive host (area_of journal.old) (heard host g ask ∷ g) (written_in false live [] (records_of (lean host (heard host g ask ∷ g))))) (disk_of journal.new) }
{
    match history.lean_records(planned, newest) {
        Ok(records) => put_in_place(journal, records),
        Err(RecordFault::TooLong) => Err(WriteFault::Full),
        Err(RecordFault::NoMemory) => Err(WriteFault::NoMemory),
    }
}

/// Puts these records in place of all that the journal holds.
fn put_in_place<D: Disk>(journal: &mut Journal<D>, records: AreaRecords) -> Result<(), WriteFault>
    requires goes { journal.old.stopped ≡ false }
    ensures written { D.tells → (label : List ℕ) (before : List (List ℕ)) → StandsFor ⟦<D as Disk>⟧ label before journal.old
        → OnOk result ((form_of journal.new ≡ 2) × StandsFor ⟦<D as Disk>⟧ label records journal.new) }
    ensures unwritten { D.tells → (label : List ℕ) (before : List (List ℕ)) → StandsFor ⟦<D as Disk>⟧ label before journal.old
        → IfErr result (λ fault. IsNoDiskFault fault → (form_of journal.new ≡ form_of journal.old) × StandsFor ⟦<D as Disk>⟧ label before journal.new) }
    ensures any_moment { D.tells → (label : List ℕ) (before : List (List ℕ)) → StandsFor ⟦<D as Disk>⟧ label before journal.old
        → LeavesOnly D.moment D.left_since (disk_of journal.old) (disk_of journal.new) (IsOldOrNew label (area_of journal.old) (form_of journal.old) before records) }
    ensures full { IsErrOf result WriteFault.Full → area_of journal.old < 2 + blocks_size records }
    ensures fault { IfErr result (HasCount (D.count (disk_of journal.old)) (D.count (disk_of journal.new))) }
    ensures count { OnOk result (D.count (disk_of journal.new) ≡ D.count (disk_of journal.old)) }
    ensures stopped { journal.new.stopped ≡ stops result }
    ensures area { area_of journal.new ≡ area_of journal.old }
    ensures made { OnOk result (Spends ⟦<D as Disk>⟧ 4 (disk_of journal.old) (disk_of journal.new)) }
    ensures not_made { IfErr result (λ fault. IsNoDiskFault fault → SpendsNone ⟦<D as Disk>⟧ (disk_of journal.old) (disk_of journal.new)) }
    ensures fewer { (left : ℕ) → left < 4 → D.burnt (disk_of journal.old) left → IsErr result }
    ensures passes { (calls : ℕ) → D.passes (disk_of journal.old) (calls + 4) → IfErr result IsNoDiskFault }
    ensures live { OnOk result (first_is_live journal.new ≡ not (first_is_live journal.old)) }
    ensures still { IfErr result (λ fault. IsNoDiskFault fault → first_is_live journal.new ≡ first_is_live journal.old) }
    ensures after_fault { D.tells → (label : List ℕ) (before : List (List ℕ)) (left : ℕ) → StandsFor ⟦<D as Disk>⟧ label before journal.old → IsStopped journal.new
        → D.passes (disk_of journal.old) left → D.burnt (disk_of journal.old) left
        → AfterFault ⟦<D as Disk>⟧ left (first_is_live journal.old) (IsImageWith (first_is_live journal.old) label (area_of journal.old) (form_of journal.old) before)
        (IsImageWith (not (first_is_live journal.old)) label (area_of journal.old) 2 records) (disk_of journal.new) }
{
    match journal.renew(records) {
        Ok(()) => Ok(()),
        Err(RenewFault::Full) => Err(WriteFault::Full),
        Err(RenewFault::DiskFault(count)) => Err(WriteFault::DiskFault(count)),
        Err(RenewFault::NoMemory) => Err(WriteFault::NoMemory),
    }
}
