//! The memory of a server: the lists of its history, and what is kept of each entry.

ghost use Rattle.std.specs.Prelude.{◌≡◌, ◌≢◌, ◌<◌, ◌≤◌, ◌+◌, ◌^◌, ◌∷◌, [], ℕ, List, length, min, if◌then◌else◌, true, IsTrue, IfOk, Err, OnOk};
ghost use Rattle.ocm_entry.specs.declared.asks.Ask.{Ask};
ghost use Rattle.ocm_entry.specs.declared.entries.Entry.{Entry};
ghost use Rattle.ocm_entry.specs.Proper.{is_proper};
ghost use Rattle.ocm_core.specs.Standing.{IsPlanned};
ghost use Rattle.ocm_journal_image.specs.Layout.{AreRecords};
ghost use Rattle.ocm_history_records.specs.declared.drafts.Draft.{Draft};
ghost use Rattle.ocm_plan.specs.Plans.{Plans};
ghost use Rattle.ocm_rules.specs.Lean.{lean};
ghost use Rattle.ocm_law_sessions.specs.Sessions.{heard, would_change};
ghost use Rattle.ocm_law_sessions.specs.Written.{asks_size, records_of};
ghost use Rattle.ocm_tables.specs.Changes.{is_kept};
ghost use Rattle.ocm_history.specs.Changes.{IsChange, told};
ghost use Rattle.ocm_history.specs.Histories.{HasPlace, IsOf, SameMemory, home_of};
ghost use Rattle.ocm_history_records.specs.Kept.{IsBound, is_tick_record};

use ocm_base::NoMemory;
use ocm_core::{Core, Planned};
use ocm_entry::{Ask, Reply};
use ocm_history_records::{Draft, KeptRecord, KeptRecords, RecordFault, add_asked, add_text};
use ocm_journal_area::AreaRecords;
use ocm_journal_image::GREATEST_RECORD;
use ocm_types::Host;
use std::alloc::Global;

/// For how many bytes room is taken beside the records of the entries that are kept, where a journal is written anew: for one
/// record more, and for what is not filled of the area before, since a record had no room there.
const MOST_BESIDE: u64 = 2 * (GREATEST_RECORD as u64 + 7);

/// The memory of a server.
pub struct History {
    pub core: Core,
    pub records: KeptRecords,
}

impl Drop for History {
    fn drop(self) {
        let History {
            core: _,
            records: _,
        } = self;
    }
}

impl History {
    /// That of a server before its first entry.
    pub fn new(alloc: Global, host: Host) -> History
        ensures home { home_of result ≡ host }
        ensures empty { IsOf result [] }
    {
        History {
            core: Core::new(alloc, host),
            records: KeptRecords::new(alloc),
        }
    }

    /// Takes the memory of what is planned.
    fn room(&mut self, planned: &Planned) -> Result<(), NoMemory>
        requires { IsPlanned self.old.core.state planned.now }
        ensures place { OnOk result (HasPlace self.new planned.now) }
        ensures same { SameMemory self.old self.new }
    {
        match self.core.room(planned) {
            Ok(()) => self.records.room(),
            Err(NoMemory) => Err(NoMemory),
        }
    }

    /// Takes the memory of what is planned for an ask, and drafts it in an area of this form.
    pub fn prepare(&mut self, form: u8, ask: &Ask, planned: &Planned) -> Result<Draft, NoMemory>
        requires proper { IsTrue (is_proper ask.now) }
        requires plans { Plans self.old.core.state ask.now planned.now }
        requires changes { is_kept planned.now.change ≡ true }
        ensures place { OnOk result (HasPlace self.new planned.now) }
        ensures change { IfOk result (λ draft. (g : List Entry) → IsOf self.new g → IsChange self.new g ask.now planned.now form draft) }
        ensures length { IfOk result (λ draft. (1 ≤ length draft.written) × (length draft.written ≤ 2097152)) }
        ensures same { SameMemory self.old self.new }
    {
        self.room(planned)?;
        let draft = Draft::after(self.records.allocator(), form, self.core.moment(), ask)?;
        Ok(draft)
    }

    /// How many bytes of an area the records of asks take at most, in the shortest form of the journal, once a change
    /// is made. Where that is too much for an area of this size, they take exactly so many. The count ends at 2^64 - 1.
    pub fn size_with(&self, area: u64, planned: &Planned, draft: &Draft) -> u64
        requires planned { IsPlanned self.now.core.state planned.now }
        requires few { length self.now.records.items < 18446744073709551615 }
        requires area { area ≤ 2 ^ 38 }
        ensures bound { (g : List Entry) (ask : Ask) (form : ℕ) → IsChange self.now g ask planned.now form draft.now
            → let host = home_of self.now in IsBound result (asks_size (lean host (heard host g ask ∷ g))) }
        ensures exact { (g : List Entry) (ask : Ask) (form : ℕ) → IsChange self.now g ask planned.now form draft.now → area < result + (if is_tick_record draft.now.newest then 15 else 2)
            → let host = home_of self.now in result ≡ min (asks_size (lean host (heard host g ask ∷ g))) 18446744073709551615 }
    {
        let most = draft.most_with(&self.records);
        if most.saturating_add(draft.newest.rest_size()) <= area {
            most
        } else {
            self.lean_size(planned, &draft.newest)
        }
    }

    /// How many bytes of an area the records of asks take in the shortest form of the journal, once a change is made of
    /// which this is kept. The count ends at 2^64 - 1.
    fn lean_size(&self, planned: &Planned, newest: &KeptRecord) -> u64
        requires planned { IsPlanned self.now.core.state planned.now }
        requires few { length self.now.records.items < 18446744073709551615 }
        ensures { (g : List Entry) (ask : Ask) (form : ℕ) (draft : Draft) → IsChange self.now g ask planned.now form draft → newest.now ≡ draft.newest
            → let host = home_of self.now in result ≡ min (asks_size (lean host (heard host g ask ∷ g))) 18446744073709551615 }
    {
        let mut left = self.records.left();
        let mut number: u64 = 0;
        let mut size: u64 = 0;
        while let Some(kept) = left.next() {
            number += 1;
            let standing = self.core.standing(planned, number);
            size = size.saturating_add(kept.asked_size(standing));
        }
        let standing = self.core.standing(planned, number + 1);
        size.saturating_add(newest.view().asked_size(standing))
    }

    /// The records in form 2 of the shortest form of the journal, once a change is made of which this is kept. `TooLong`
    /// says that no journal takes one of them.
    pub fn lean_records(
        &self,
        planned: &Planned,
        newest: &KeptRecord,
    ) -> Result<AreaRecords, RecordFault>
        requires planned { IsPlanned self.now.core.state planned.now }
        requires few { length self.now.records.items < 18446744073709551615 }
        ensures sizes { IfOk result AreRecords }
        ensures lean { IfOk result (λ records. (g : List Entry) (ask : Ask) (form : ℕ) (draft : Draft) → IsChange self.now g ask planned.now form draft → newest.now ≡ draft.newest
            → let host = home_of self.now in records ≡ records_of (lean host (heard host g ask ∷ g))) }
        ensures not_full { (g : List Entry) (ask : Ask) (form : ℕ) (draft : Draft) → IsChange self.now g ask planned.now form draft → newest.now ≡ draft.newest → result ≢ Err RecordFault.TooLong }
    {
        let room = self.records.size().saturating_add(MOST_BESIDE) as usize;
        let mut texts = AreaRecords::new(self.records.allocator(), room)?;
        let mut left = self.records.left();
        let mut number: u64 = 0;
        while let Some(kept) = left.next() {
            number += 1;
            let standing = self.core.standing(planned, number);
            add_asked(&mut texts, &kept, standing)?;
        }
        let standing = self.core.standing(planned, number + 1);
        add_text(&mut texts, &newest.view(), standing)?;
        Ok(texts)
    }

    /// Makes what is planned, of which this is kept, and gives the reply. The records of asks take at most so many bytes
    /// with it, in the shortest form of the journal.
    pub fn make(&mut self, planned: Planned, newest: KeptRecord, size: u64) -> Reply
        requires planned { IsPlanned self.old.core.state planned }
        requires place { HasPlace self.old planned }
        ensures reply { result ≡ planned.reply }
        ensures home { home_of self.new ≡ home_of self.old }
        ensures goes_on { (g : List Entry) (ask : Ask) (form : ℕ) (draft : Draft) → IsChange self.old g ask planned form draft → newest ≡ draft.newest
            → (let host = home_of self.old in IsBound size (asks_size (lean host (heard host g ask ∷ g)))) → IsOf self.new (told ask result ∷ g) }
    {
        self.records.push(newest, size);
        self.core.apply(planned)
    }

    /// Goes on by an ask with its answer. False where it would change nothing, and then all stays.
    pub fn take(&mut self, ask: &Ask) -> Result<bool, NoMemory>
        requires { IsTrue (is_proper ask.now) }
        ensures home { home_of self.new ≡ home_of self.old }
        ensures taken { IfOk result (λ taken. (g : List Entry) → IsOf self.old g → taken ≡ would_change (home_of self.old) g ask.now) }
        ensures goes_on { (g : List Entry) → IsOf self.old g → result ≡ Ok true → IsOf self.new (heard (home_of self.old) g ask.now ∷ g) }
        ensures stays { (g : List Entry) → IsOf self.old g → result ≢ Ok true → IsOf self.new g }
    {
        match self.core.answer(ask) {
            Ok(planned) => self.take_planned(ask, planned),
            Err(NoMemory) => Err(NoMemory),
        }
    }

    /// Goes on by a tick. False where its clock is not above the moment so far, and then all stays.
    pub fn take_tick(&mut self, clock: u64) -> Result<bool, NoMemory>
        ensures home { home_of self.new ≡ home_of self.old }
        ensures taken { IfOk result (λ taken. (g : List Entry) → IsOf self.old g → taken ≡ would_change (home_of self.old) g (Ask.Tick clock)) }
        ensures goes_on { (g : List Entry) → IsOf self.old g → result ≡ Ok true → IsOf self.new (heard (home_of self.old) g (Ask.Tick clock) ∷ g) }
        ensures stays { (g : List Entry) → IsOf self.old g → result ≢ Ok true → IsOf self.new g }
    {
        let tick = Ask::Tick { clock };
        let taken = self.take(&tick);
        drop(tick);
        taken
    }

    /// Goes on by what is planned for an ask. False where it would change nothing.
    fn take_planned(&mut self, ask: &Ask, planned: Planned) -> Result<bool, NoMemory>
        requires proper { IsTrue (is_proper ask.now) }
        requires plans { Plans self.old.core.state ask.now planned }
        ensures home { home_of self.new ≡ home_of self.old }
        ensures taken { IfOk result (λ taken. taken ≡ is_kept planned.change) }
        ensures goes_on { (g : List Entry) → IsOf self.old g → result ≡ Ok true → IsOf self.new (told ask.now planned.reply ∷ g) }
        ensures stays { (g : List Entry) → IsOf self.old g → result ≢ Ok true → IsOf self.new g }
    {
        if !planned.changes() {
            let_go(planned);
            return Ok(false);
        }
        match self.prepare(2, ask, &planned) {
            Ok(draft) => {
                let size = draft.most_with(&self.records);
                drop(self.make(planned, draft.into_newest(), size));
                Ok(true)
            }
            Err(NoMemory) => {
                let_go(planned);
                Err(NoMemory)
            }
        }
    }
}

/// Lets go what was planned and is not made.
pub fn let_go(planned: Planned) {
    drop(planned.into_reply());
}
