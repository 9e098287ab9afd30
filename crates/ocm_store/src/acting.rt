//! How a store answers an ask: it is planned, then written, and then made.
ghost use Rattle.std.specs.Prelude.{◌≡◌, ◌<◌, ◌≤◌, ◌+◌, ◌∷◌, ◌++◌, ℕ, List, None, length, true, false, Some, IsTrue, IfErr, IfOk, OnOk};
ghost use Rattle.ocm_base.specs.Outside.{raised};
ghost use Rattle.ocm_disk.specs.Disk.{LeavesOnly};
ghost use Rattle.ocm_entry.specs.declared.asks.Ask.{Ask};
ghost use Rattle.ocm_entry.specs.declared.entries.Entry.{Entry};
ghost use Rattle.ocm_entry.specs.Proper.{is_proper};
ghost use Rattle.ocm_core.specs.Standing.{IsPlanned};
ghost use Rattle.ocm_journal.specs.Journals as journals;
ghost use Rattle.ocm_plan.specs.Plans.{Plans};
ghost use Rattle.ocm_rules.specs.History.{is_failure};
ghost use Rattle.ocm_law_sessions.specs.Sessions.{count_of, would_change};
ghost use Rattle.ocm_tables.specs.Changes.{is_kept};

use crate::ready::ReadyChange;
use crate::settling::settle;
use crate::stores::Store;
use crate::terms::Terms;
use crate::writing::append_once;
use ocm_base::NoMemory;
use ocm_core::Planned;
use ocm_disk::Disk;
use ocm_entry::{Ask, Object, Reply};
use ocm_history::{Draft, let_go};

impl<D: Disk> Object for Store<D> {
    ghost use Rattle.ocm_store.specs.Acts.{Grows, Spends, SpendsNone, StandsLegally};
    ghost use Rattle.ocm_store.specs.Fitting.{session-fits};
    ghost use Rattle.ocm_store.specs.Stores.{IsLegalUnder, LeavesNext, Stands, disk_of, host_of, terms_of};

    type Terms = Terms;

    ghost terms = { λ store. terms_of store };

    ghost stands = { λ store k h. Stands ⟦<D as Disk>⟧ store k h };

    ghost legal = { λ terms k h. IsLegalUnder terms k h };

    ghost fits = { λ terms k h ask reply legal. session-fits terms.host terms.area k h ask reply legal };

    fn act(&mut self, ask: Ask) -> Reply
        requires proper { IsTrue (is_proper ask) }
        ensures terms { terms_of self.new ≡ terms_of self.old }
        ensures stands { (k h : List Entry) → Stands ⟦<D as Disk>⟧ self.old k h → IsLegalUnder (terms_of self.old) k h → Stands ⟦<D as Disk>⟧ self.new k (record { ask = ask; reply = result } ∷ h) }
        ensures legal { (k h : List Entry) → Stands ⟦<D as Disk>⟧ self.old k h → IsLegalUnder (terms_of self.old) k h → IsLegalUnder (terms_of self.old) k (record { ask = ask; reply = result } ∷ h) }

        // A fault of the disk is told only where the disk's count of faults rose, to the count that is told.
        ensures cause { (count : ℕ) → result ≡ Reply.DiskFault count → (count ≡ D.count (disk_of self.new)) × (D.count (disk_of self.new) ≡ raised (D.count (disk_of self.old))) }
        ensures no_cause { count_of result ≡ None → D.count (disk_of self.new) ≡ D.count (disk_of self.old) }

        // A crash at any moment of the call leaves what opens to a list that may follow, while this ask is in flight.
        ensures any_moment { D.tells → (k h : List Entry) → StandsLegally ⟦<D as Disk>⟧ self.old k h
            → LeavesOnly D.moment D.left_since (disk_of self.old) (disk_of self.new) (LeavesNext (terms_of self.old) k h (Some ask)) }

        // What changes nothing leaves the disk alone. What is made makes four device calls, and what is not makes none, unless
        // the disk failed. Where fewer are left it is not made, and where four pass the disk does not fail.
        ensures idle { (k h : List Entry) → StandsLegally ⟦<D as Disk>⟧ self.old k h → would_change (host_of self.old) (h ++ k) ask ≡ false → disk_of self.new ≡ disk_of self.old }
        ensures made { (k h : List Entry) → StandsLegally ⟦<D as Disk>⟧ self.old k h → would_change (host_of self.old) (h ++ k) ask ≡ true → is_failure result ≡ false → Spends ⟦<D as Disk>⟧ 4 (disk_of self.old) (disk_of self.new) }
        ensures not_made { is_failure result ≡ true → count_of result ≡ None → SpendsNone ⟦<D as Disk>⟧ (disk_of self.old) (disk_of self.new) }
        ensures fewer { (k h : List Entry) (left : ℕ) → StandsLegally ⟦<D as Disk>⟧ self.old k h → would_change (host_of self.old) (h ++ k) ask ≡ true → left < 4
            → D.burnt (disk_of self.old) left → is_failure result ≡ true }
        ensures passes { (left : ℕ) → D.passes (disk_of self.old) (left + 4) → count_of result ≡ None }

        // A change is appended to the live area of the journal where its record has room there, and only where it has none is
        // all that is kept written anew into the other area. Where the disk's calls ended within it, three of the four decide
        // what a crash keeps.
        ensures journal { Grows ⟦<D as Disk>⟧ self.old self.new ask result }
    {
        let reply = self.reply(&ask);
        drop(ask);
        reply
    }
}

impl<D: Disk> Store<D> {
    ghost use Rattle.ocm_store.specs.Acts.{Acts, SpendsNone};
    ghost use Rattle.ocm_history.specs.Changes.{IsChange};
    ghost use Rattle.ocm_history.specs.Histories.{HasPlace, IsOf, SameMemory};
    ghost use Rattle.ocm_store.specs.Ready.{IsDrafted, IsPrepared, IsReady, IsRefused};
    ghost use Rattle.ocm_store.specs.Stores.{disk_of, fault_of};

    /// Answers an ask.
    fn reply(&mut self, ask: &Ask) -> Reply
        requires { IsTrue (is_proper ask.now) }
        ensures { Acts ⟦<D as Disk>⟧ self.old self.new ask.now result }
    {
        match self.history.core.answer(ask) {
            Ok(planned) => self.reply_planned(ask, planned),
            Err(NoMemory) => Reply::NoMemory,
        }
    }

    /// Gives the reply that was planned, where nothing changes or the change is made.
    fn reply_planned(&mut self, ask: &Ask, planned: Planned) -> Reply
        requires proper { IsTrue (is_proper ask.now) }
        requires plans { Plans self.old.history.core.state ask.now planned }
        ensures { Acts ⟦<D as Disk>⟧ self.old self.new ask.now result }
    {
        if !planned.changes() {
            return planned.into_reply();
        }
        match self.answer(ask, planned) {
            Ok(change) => self.write_down(change),
            Err(reply) => reply,
        }
    }

    /// Gets a change ready that an ask makes. Answers what changes nothing, and what can't be made.
    pub(crate) fn ready_for(&mut self, ask: &Ask) -> Result<ReadyChange, Reply>
        requires { IsTrue (is_proper ask.now) }
        ensures replied { IfErr result (λ reply. Acts ⟦<D as Disk>⟧ self.old self.new ask.now reply) }
        ensures refused { IfErr result (λ reply. IsRefused ⟦<D as Disk>⟧ self.old ask.now reply) }
        ensures prepared { OnOk result (IsPrepared ⟦<D as Disk>⟧ self.old self.new ask.now) }
        ensures ready { IfOk result (λ change. IsReady ⟦<D as Disk>⟧ self.new ask.now change) }
    {
        match self.history.core.answer(ask) {
            Ok(planned) => self.answer(ask, planned),
            Err(NoMemory) => Err(Reply::NoMemory),
        }
    }

    /// Gives the reply that was planned, where nothing changes, or the change.
    fn answer(&mut self, ask: &Ask, planned: Planned) -> Result<ReadyChange, Reply>
        requires proper { IsTrue (is_proper ask.now) }
        requires plans { Plans self.old.history.core.state ask.now planned }
        ensures replied { IfErr result (λ reply. Acts ⟦<D as Disk>⟧ self.old self.new ask.now reply) }
        ensures refused { IfErr result (λ reply. IsRefused ⟦<D as Disk>⟧ self.old ask.now reply) }
        ensures prepared { OnOk result (IsPrepared ⟦<D as Disk>⟧ self.old self.new ask.now) }
        ensures ready { IfOk result (λ change. IsReady ⟦<D as Disk>⟧ self.new ask.now change) }
    {
        if !planned.changes() {
            return Err(planned.into_reply());
        }
        match self.fault {
            Some(count) => {
                let_go(planned);
                Err(Reply::Stopped { count })
            }
            None => self.change(ask, planned),
        }
    }

    /// Gets a change ready, where there is memory and room for it.
    fn change(&mut self, ask: &Ask, planned: Planned) -> Result<ReadyChange, Reply>
        requires proper { IsTrue (is_proper ask.now) }
        requires plans { Plans self.old.history.core.state ask.now planned }
        requires changes { is_kept planned.change ≡ true }
        requires goes { fault_of self.old ≡ None }
        ensures replied { IfErr result (λ reply. Acts ⟦<D as Disk>⟧ self.old self.new ask.now reply) }
        ensures refused { IfErr result (λ reply. is_failure reply ≡ true) }
        ensures prepared { OnOk result (IsPrepared ⟦<D as Disk>⟧ self.old self.new ask.now) }
        ensures ready { IfOk result (λ change. IsReady ⟦<D as Disk>⟧ self.new ask.now change) }
    {
        match self.prepare(ask, &planned) {
            Ok(draft) => self.measure(planned, draft),
            Err(NoMemory) => {
                let_go(planned);
                Err(Reply::NoMemory)
            }
        }
    }

    /// Takes all the memory that a change needs but for writing the journal anew, and drafts it.
    fn prepare(&mut self, ask: &Ask, planned: &Planned) -> Result<Draft, NoMemory>
        requires proper { IsTrue (is_proper ask.now) }
        requires plans { Plans self.old.history.core.state ask.now planned.now }
        requires changes { is_kept planned.now.change ≡ true }
        requires goes { fault_of self.old ≡ None }
        ensures place { OnOk result (HasPlace self.new.history planned.now) }
        ensures change { IfOk result (λ draft. (g : List Entry) → IsOf self.new.history g → IsChange self.new.history g ask.now planned.now (journals.form_of self.new.journal) draft) }
        ensures room { IfOk result (λ draft. journals.HasRoom ⟦<D as Disk>⟧ self.new.journal (length draft.written)) }
        ensures length { IfOk result (λ draft. (1 ≤ length draft.written) × (length draft.written ≤ 2097152)) }
        ensures plans { Plans self.new.history.core.state ask.now planned.now }
        ensures same { SameMemory self.old.history self.new.history }
        ensures fault { fault_of self.new ≡ None }
        ensures shape { journals.SameShape self.old.journal self.new.journal }
        ensures journal { D.tells → (label : List ℕ) (records : List (List ℕ)) → journals.StandsFor ⟦<D as Disk>⟧ label records self.old.journal → journals.StandsFor ⟦<D as Disk>⟧ label records self.new.journal }
        ensures any_moment { D.tells → LeavesOnly D.moment D.left_since (disk_of self.old) (disk_of self.new) (D.may_leave (disk_of self.old)) }
        ensures count { D.count (disk_of self.new) ≡ D.count (disk_of self.old) }
        ensures spends { SpendsNone ⟦<D as Disk>⟧ (disk_of self.old) (disk_of self.new) }
    {
        let draft = self.history.prepare(self.journal.form(), ask, planned)?;
        self.journal.room(draft.written.len() as u64)?;
        Ok(draft)
    }

    /// Counts how many bytes of an area are taken with a change that was drafted. Answers it where that is too much.
    fn measure(&self, planned: Planned, draft: Draft) -> Result<ReadyChange, Reply>
        requires planned { IsPlanned self.now.history.core.state planned }
        requires few { length self.now.history.records.items < 18446744073709551615 }
        requires goes { fault_of self.now ≡ None }
        ensures full { IfErr result (λ reply. (ask : Ask) → IsDrafted ⟦<D as Disk>⟧ self.now ask planned draft → Acts ⟦<D as Disk>⟧ self.now self.now ask reply) }
        ensures refused { IfErr result (λ reply. is_failure reply ≡ true) }
        ensures ready { IfOk result (λ change. (ask : Ask) → IsDrafted ⟦<D as Disk>⟧ self.now ask planned draft → IsReady ⟦<D as Disk>⟧ self.now ask change) }
    {
        let area = self.journal.area();
        let size = self.history.size_with(area, &planned, &draft);
        if size.saturating_add(draft.newest.rest_size()) > area {
            let_go(planned);
            return Err(Reply::JournalFull);
        }
        Ok(ReadyChange {
            planned,
            draft,
            size,
        })
    }

    /// Writes a change for which all is ready, and makes it.
    fn write_down(&mut self, change: ReadyChange) -> Reply
        requires planned { IsPlanned self.old.history.core.state change.planned }
        requires place { HasPlace self.old.history change.planned }
        requires room { journals.HasRoom ⟦<D as Disk>⟧ self.old.journal (length change.draft.written) }
        requires length { (1 ≤ length change.draft.written) × (length change.draft.written ≤ 2097152) }
        requires goes { fault_of self.old ≡ None }
        ensures { (ask : Ask) → IsReady ⟦<D as Disk>⟧ self.old ask change → Acts ⟦<D as Disk>⟧ self.old self.new ask result }
    {
        let appended = append_once(&mut self.journal, &change.draft, None);
        let (reply, fault) = settle(&mut self.history, &mut self.journal, change, appended);
        self.fault = fault;
        reply
    }
}
