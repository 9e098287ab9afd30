//! How a store is loaded, and what it tells.
ghost use Rattle.std.specs.Prelude.{◌≡◌, ◌⊎◌, ◌≤◌, ◌^◌, ◌++◌, [], ℕ, List, Ok, Some, None, IfOk, IfErr, option_copied, option_map, false};
ghost use Rattle.ocm_disk.specs.Disk.{LeavesOnly};
ghost use Rattle.ocm_entry.specs.declared.entries.Entry.{Entry};
ghost use Rattle.ocm_journal_image.specs.Layout.{contents};
ghost use Rattle.ocm_journal.specs.Journals as journals;
ghost use Rattle.ocm_journal.specs.LiveAreas.{BeginsWith, LiveArea};
ghost use Rattle.ocm_journal.specs.Openings.{StaysAsItOpens, new_area};
ghost use Rattle.ocm_rules.specs.History.{kept};
ghost use Rattle.ocm_rules.specs.Lean.{count};
ghost use Rattle.ocm_rules.specs.Messages.{as_sent, out};
ghost use Rattle.ocm_rules.specs.Numbers.{at_number};
ghost use Rattle.ocm_rules.specs.Shares.{moment};
ghost use Rattle.ocm_law_sessions.specs.Readings.{opened, refused_at};
ghost use Rattle.ocm_store.specs.Growing.{HasLiveArea};
ghost use Rattle.ocm_store.specs.Opening.{IsCounted, IsNoDiskFault, IsOfArea, IsRefused, IsSaidBy, OpensTo, loading};
ghost use Rattle.ocm_history.specs.Replays.{IsMemoryOf};
ghost use Rattle.ocm_store.specs.Stores.{IsLegalUnder, Stands, area_of, disk_of, fault_of, host_of, terms_of};

use crate::load_faults::LoadFault;
use crate::stores::Store;
use ocm_disk::{Disk, MemDisk};
use ocm_history::{History, take_records};
use ocm_journal::Journal;
use ocm_journal_area::PlacedRecords;
use ocm_types::{Host, Numbered};
use std::alloc::Global;

impl<D: Disk> Store<D> {
    /// Loads the server of this host from the journal that a disk has, by going once over its records. A disk on which
    /// no journal was made yet becomes an empty one. `limit` is the most bytes that a new journal may take, from 4,096
    /// to 2^39; a journal that is there keeps its size. Begins with a sync, before which nothing is changed. Where it
    /// fails the disk comes back.
    pub fn load(alloc: Global, disk: D, host: Host, limit: u64) -> Result<Store<D>, (D, LoadFault)>
        requires { (4096 ≤ limit) × (limit ≤ 2 ^ 39) }
        ensures host { IfOk result (λ store. host_of store ≡ host) }

        // It stands for some list, and no call so far. Where the disk tells what it holds, it is loaded exactly where its bytes
        // open to a list, which is that one.
        ensures opened { IfOk result (λ store. (k : List Entry) × Stands ⟦<D as Disk>⟧ store k [] × IsLegalUnder (terms_of store) k []
            × (D.tells → D.faithful (disk_of store) → (loading host (new_area limit) (D.seen disk) ≡ Ok k) × OpensTo host (new_area limit) k (D.seen disk))) }

        // The areas of its journal have the size that they have on the disk, or that of a new journal where the disk is blank.
        ensures area { D.tells → IfOk result (λ store. D.faithful (disk_of store) → IsOfArea host (new_area limit) (area_of store) (D.seen disk)) }

        // A fault of the format is what the bytes say, and a fault of the disk comes only where its count rose.
        ensures says { D.tells → IfErr result (λ failed. D.faithful failed.0 → IsSaidBy (loading host (new_area limit) (D.seen disk)) failed.1) }
        ensures cause { IfErr result (λ failed. IsCounted (D.count disk) (D.count failed.0) failed.1) }
        ensures count { IfOk result (λ store. D.count (disk_of store) ≡ D.count disk) }

        // A disk whose calls all pass tells no fault, and its calls pass from then on.
        ensures passes { ((n : ℕ) → D.passes disk n) → IfOk result (λ store. (n : ℕ) → D.passes (disk_of store) n) }
        ensures unfailing { ((n : ℕ) → D.passes disk n) → IfErr result (λ failed. IsNoDiskFault failed.1) }

        // Loaded or not, the disk reads as it did or, where it was blank, opens to no records.
        ensures same_ok { D.tells → IfOk result (λ store. D.faithful (disk_of store) → StaysAsItOpens host (new_area limit) (D.seen disk) (D.seen (disk_of store))) }
        ensures same_err { D.tells → IfErr result (λ failed. D.faithful failed.0 → StaysAsItOpens host (new_area limit) (D.seen disk) (D.seen failed.0)) }

        // A crash at any moment leaves what it might have left before the call or, from the first sync on, the same bytes or,
        // where the disk was blank, what opens to no records. So it opens to the same list.
        ensures moments_ok { D.tells → IfOk result (λ store. D.faithful (disk_of store) → LeavesOnly D.moment D.left_since disk (disk_of store)
            (λ c. D.may_leave disk c ⊎ StaysAsItOpens host (new_area limit) (D.seen disk) c)) }
        ensures moments_err { D.tells → IfErr result (λ failed. D.faithful failed.0 → LeavesOnly D.moment D.left_since disk failed.0
            (λ c. D.may_leave disk c ⊎ StaysAsItOpens host (new_area limit) (D.seen disk) c)) }

        // Wherever the calls of its disk end behind the first one, a crash leaves the second of these alone. So it does at
        // each moment from the success of the first sync on, since no call tells how many are left.
        ensures synced_ok { D.tells → D.passes disk 1 → IfOk result (λ store. D.faithful (disk_of store) → (c : List ℕ) → D.may_leave (disk_of store) c → StaysAsItOpens host (new_area limit) (D.seen disk) c) }
        ensures synced_err { D.tells → D.passes disk 1 → IfErr result (λ failed. D.faithful failed.0 → (c : List ℕ) → D.may_leave failed.0 c → StaysAsItOpens host (new_area limit) (D.seen disk) c) }

        // Of an image its live area stays the live one, and that of a new journal is the first, without records.
        ensures begins { D.tells → IfOk result (λ store. D.faithful (disk_of store) → (live : LiveArea) → BeginsWith host (new_area limit) (D.seen disk) live → HasLiveArea ⟦<D as Disk>⟧ host live store) }
    {
        match Journal::load(alloc, disk, host.text().as_str().as_bytes(), limit) {
            Ok((journal, records)) => Store::replay(alloc, host, journal, records),
            Err((disk, fault)) => Err((disk, LoadFault::from(fault))),
        }
    }

    /// A store over a journal that was opened, with these records.
    fn replay(
        alloc: Global,
        host: Host,
        journal: Journal<D>,
        records: PlacedRecords,
    ) -> Result<Store<D>, (D, LoadFault)>
        requires { journal.stopped ≡ false }
        ensures host { IfOk result (λ store. host_of store ≡ host) }
        ensures journal { IfOk result (λ store. store.journal ≡ journal) }
        ensures memory { IfOk result (λ store. (k : List Entry) × (opened host (journals.form_of journal) (contents records) ≡ Some k) × IsMemoryOf store.history k) }
        ensures goes { IfOk result (λ store. fault_of store ≡ None) }
        ensures disk { IfErr result (λ failed. failed.0 ≡ journals.disk_of journal) }
        ensures refused { IfErr result (λ failed. IsRefused (refused_at host (journals.form_of journal) records) failed.1) }
    {
        let mut history = History::new(alloc, host);
        let taken = take_records(&mut history, journal.form(), &records);
        drop(records);
        match taken {
            Ok(()) => Ok(Store {
                history,
                journal,
                fault: None,
            }),
            Err(fault) => Err((journal.into_disk(), LoadFault::from(fault))),
        }
    }

    /// How many entries are kept that are no tick.
    pub fn kept(&self) -> u64
        ensures { (k h : List Entry) → Stands ⟦<D as Disk>⟧ self.now k h → result ≡ count (host_of self.now) (h ++ k) }
    {
        self.history.records.asks()
    }

    /// The moment of the last tick, in whole seconds since the epoch, and 0 before the first.
    pub fn moment(&self) -> u64
        ensures { (k h : List Entry) → Stands ⟦<D as Disk>⟧ self.now k h → result ≡ moment (kept (host_of self.now) (h ++ k)) }
    {
        self.history.core.moment()
    }

    /// The message of this number, settled or not, as it is sent. None where there is none.
    pub fn message(&self, number: u32) -> Option<&Numbered>
        ensures { (k h : List Entry) → Stands ⟦<D as Disk>⟧ self.now k h
            → option_copied result ≡ option_map (λ message. as_sent (number, message)) (at_number (out (host_of self.now) (kept (host_of self.now) (h ++ k))) number) }
    {
        self.history.core.message(number)
    }

    /// The server's host.
    pub fn host(&self) -> &Host
        ensures { result.now ≡ host_of self.now }
    {
        self.history.core.host()
    }

    /// The disk that it is on.
    pub fn into_disk(self) -> D
        ensures { result ≡ disk_of self }
    {
        self.into_journal().into_disk()
    }
}

impl Store<MemDisk> {
    /// From now on so many device calls of its disk pass. Every later one fails, and changes nothing.
    pub fn fuse(&mut self, calls: u64)
        ensures disk { disk_of self.new ≡ record (disk_of self.old) { fuse = Some calls } }
        ensures terms { terms_of self.new ≡ terms_of self.old }
        ensures fault { fault_of self.new ≡ fault_of self.old }
        ensures stands { (k h : List Entry) → Stands ⟦<MemDisk as Disk>⟧ self.old k h → Stands ⟦<MemDisk as Disk>⟧ self.new k h }
        ensures live { (host : List ℕ) (live : LiveArea) → HasLiveArea ⟦<MemDisk as Disk>⟧ host live self.old → HasLiveArea ⟦<MemDisk as Disk>⟧ host live self.new }
    {
        self.journal.fuse(calls);
    }
}
