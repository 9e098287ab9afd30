//! A change in three steps: it is begun, its record is written while the memory of the store can be read, and it is ended.
ghost use Rattle.std.specs.Prelude.{◌≡◌, ◌++◌, List, None, IfSome, IsTrue, true};
ghost use Rattle.ocm_entry.specs.declared.asks.Ask.{Ask};
ghost use Rattle.ocm_entry.specs.declared.entries.Entry.{Entry};
ghost use Rattle.ocm_entry.specs.Proper.{is_proper};
ghost use Rattle.ocm_rules.specs.History.{is_failure, kept};
ghost use Rattle.ocm_rules.specs.Lean.{count};
ghost use Rattle.ocm_rules.specs.Shares.{moment};
ghost use Rattle.ocm_law_sessions.specs.Sessions.{would_change};
ghost use Rattle.ocm_store.specs.Acts.{Acts, StandsLegally};
ghost use Rattle.ocm_store.specs.Parting.{IfApart, IfReplied, IsFor, mark_of, mark_of_front, was_tried};
ghost use Rattle.ocm_store.specs.Ready.{IsPrepared, IsReady};
ghost use Rattle.ocm_store.specs.Stores.{Stands, host_of};

use crate::apart::{Begun, Front, Mark, Writing};
use crate::ready::ReadyChange;
use crate::settling::settle;
use crate::stores::Store;
use crate::writing::append_once;
use ocm_base::NoMemory;
use ocm_disk::Disk;
use ocm_entry::{Ask, Reply};
use ocm_history::let_go;
use std::snapshot::Snapshot;

impl<D: Disk> Store<D> {
    /// Begins to answer an ask. What changes nothing, is refused, or has no memory or room is answered at once. A change is set
    /// apart, so that its record can be written while its memory answers what changes nothing.
    pub fn begin(mut self, ask: &Ask) -> Begun<D>
        requires proper { IsTrue (is_proper ask.now) }
        ensures replied { IfReplied result (λ store reply. Acts ⟦<D as Disk>⟧ self store ask.now reply) }
        ensures apart { IfApart result (λ front writing. (mark_of_front front ≡ mark_of writing) × ((mark_of writing).before.value ≡ self) × IsFor writing ask.now) }

        // What would change something, and is answered at once, was refused for want of memory, room or a working disk.
        ensures refused { IfReplied result (λ store reply. (k h : List Entry) → StandsLegally ⟦<D as Disk>⟧ self k h → would_change (host_of self) (h ++ k) ask.now ≡ true → is_failure reply ≡ true) }
    {
        let before = Snapshot::of(&self);
        match self.ready_for(ask) {
            Ok(change) => {
                let (front, writing) = self.part(before, ask, change);
                Begun::Apart(front, writing)
            }
            Err(reply) => Begun::Replied(self, reply),
        }
    }

    /// Parts the memory from the journal, for a change for which all is ready.
    fn part(
        self,
        before: Snapshot<Store<D>>,
        ask: &Ask,
        change: ReadyChange,
    ) -> (Front<D>, Writing<D>)
        requires prepared { IsPrepared ⟦<D as Disk>⟧ before.value self ask.now }
        requires ready { IsReady ⟦<D as Disk>⟧ self ask.now change }
        ensures same { mark_of_front result.0 ≡ mark_of result.1 }
        ensures before { (mark_of result.1).before.value ≡ before.value }
        ensures is_for { IsFor result.1 ask.now }
    {
        let mark = Mark {
            before,
            ready: Snapshot::of(&self),
        };
        let (history, journal) = self.into_both();
        let writing = Writing {
            journal,
            change,
            written: None,
            asked: Snapshot::of(ask),
            mark: Snapshot::of(&mark),
        };
        (Front { history, mark }, writing)
    }

    /// Ends a change: makes it where its record was written, and writes it here where it was not. A record that does not fit
    /// into the live area is written here with all that later replies can depend on, into the other one. Where the disk failed,
    /// the store is stopped.
    pub fn end(front: Front<D>, writing: Writing<D>) -> (Store<D>, Reply)
        requires { mark_of_front front ≡ mark_of writing }
        ensures acts { (ask : Ask) → IsFor writing ask → Acts ⟦<D as Disk>⟧ (mark_of writing).before.value result.0 ask result.1 }

        // A change that is apart changes something.
        ensures changes { (ask : Ask) → IsFor writing ask → (k h : List Entry) → let before = (mark_of writing).before.value in StandsLegally ⟦<D as Disk>⟧ before k h → would_change (host_of before) (h ++ k) ask ≡ true }
    {
        let mut history = front.into_history();
        let (mut journal, change, written) = writing.into_parts();
        let appended = append_once(&mut journal, &change.draft, written);
        let (reply, fault) = settle(&mut history, &mut journal, change, appended);
        let store = Store {
            history,
            journal,
            fault,
        };
        (store, reply)
    }
}

impl<D: Disk> Front<D> {
    /// Answers an ask that changes nothing. None where it would change something: it has to wait.
    pub fn act(&self, ask: &Ask) -> Option<Reply>
        requires proper { IsTrue (is_proper ask.now) }
        ensures acts { IfSome result (λ reply. let before = (mark_of_front self.now).before.value in Acts ⟦<D as Disk>⟧ before before ask.now reply) }

        // Only what would change something has to wait.
        ensures waits { result ≡ None → (k h : List Entry) → let before = (mark_of_front self.now).before.value in StandsLegally ⟦<D as Disk>⟧ before k h → would_change (host_of before) (h ++ k) ask.now ≡ true }
    {
        match self.history.core.answer(ask) {
            Ok(planned) => {
                if planned.changes() {
                    let_go(planned);
                    return None;
                }
                Some(planned.into_reply())
            }
            Err(NoMemory) => Some(Reply::NoMemory),
        }
    }

    /// How many entries are kept that are no tick, before the change that was begun.
    pub fn kept(&self) -> u64
        ensures { (k h : List Entry) → let before = (mark_of_front self.now).before.value in Stands ⟦<D as Disk>⟧ before k h → result ≡ count (host_of before) (h ++ k) }
    {
        self.history.records.asks()
    }

    /// The moment of the last tick before the change that was begun, in whole seconds since the epoch, and 0 before the first.
    pub fn moment(&self) -> u64
        ensures { (k h : List Entry) → let before = (mark_of_front self.now).before.value in Stands ⟦<D as Disk>⟧ before k h → result ≡ moment (kept (host_of before) (h ++ k)) }
    {
        self.history.core.moment()
    }
}

impl<D: Disk> Writing<D> {
    /// Appends the record to the journal, where that was not done yet. Takes no memory, and makes at most four device calls:
    /// two writes, and a sync behind each. What comes of it, [`Store::end`] tells.
    pub fn write(&mut self)
        ensures mark { mark_of self.new ≡ mark_of self.old }
        ensures is_for { (ask : Ask) → IsFor self.old ask → IsFor self.new ask }
        ensures tried { was_tried self.new ≡ true }
    {
        let appended = append_once(&mut self.journal, &self.change.draft, self.written);
        self.written = Some(appended);
    }
}
