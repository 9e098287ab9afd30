//! How a store with a log answers an ask: as the store does, and the line of a read that was answered follows in its log.
//! Workers ask what is due at least once a minute, and then lines are written, so that none waits for longer.
ghost use Rattle.std.specs.Prelude.{◌≡◌, ◌≢◌, ◌∷◌, ℕ, List, true, Some, None, IsTrue, IfOk, IfErr};
ghost use Rattle.ocm_entry.specs.Proper.{is_proper};
ghost use Rattle.ocm_entry.specs.declared.asks.Ask.{Ask};
ghost use Rattle.ocm_entry.specs.declared.entries.Entry.{Entry};
ghost use Rattle.ocm_serve_log.specs.Standing.{StandsLogged};
ghost use Rattle.ocm_serve_store.specs.Following.{CameSince, HasToWait, IsLegalSince, StandsSince, mark_in, origin_of, store_of};
ghost use Rattle.ocm_store.specs.Parting.{IsFor, mark_of};
ghost use Rattle.ocm_store.specs.Stores.{disk_of};
ghost use Rattle.ocm_turn.specs.Begun.{IfReplied, IfApart, IfBusy, IsNoReply};
ghost use Rattle.ocm_turn.specs.Calls.{entry};

use crate::logged::LoggedStore;
use crate::sinks::LogSink;
use ocm_disk::Disk;
use ocm_entry::{Ask, Object, Reply};
use ocm_serve_store::{Origin, may_change};
use ocm_store::{Mark, Writing};
use ocm_turn::{Begun, Dated};

impl<D: Disk, K: LogSink> LoggedStore<D, K> {
    /// Answers an ask as the store does, and puts the line of a read that was answered into the log.
    fn answer(&mut self, ask: Ask) -> Reply
        requires proper { IsTrue (is_proper ask) }
        ensures terms { origin_of self.new.followed ≡ origin_of self.old.followed }
        ensures stands { (k h : List Entry) → StandsLogged ⟦<D as Disk>⟧ K.taken K.faults self.old.followed self.old.log k h → IsLegalSince ⟦<D as Disk>⟧ (origin_of self.old.followed) k h
            → StandsLogged ⟦<D as Disk>⟧ K.taken K.faults self.new.followed self.new.log k (entry ask result ∷ h) }
        ensures legal { (k h : List Entry) → StandsSince ⟦<D as Disk>⟧ self.old.followed k h → IsLegalSince ⟦<D as Disk>⟧ (origin_of self.old.followed) k h
            → IsLegalSince ⟦<D as Disk>⟧ (origin_of self.old.followed) k (entry ask result ∷ h) }
    {
        let place = self.followed.kept();
        let moment = self.followed.moment();
        let read = self.log.text_of_read(&ask, place, moment);
        let due = matches!(&ask, Ask::Due);
        let reply = self.followed.act(ask);
        self.log.note(read, &reply);
        let now = self.followed.moment();
        self.log.pass(now, due);
        reply
    }

    /// Answers an ask as the store does, and puts the line of a read that was answered into the log. An `Err` gives the ask
    /// back, as the store does.
    fn try_answer(&mut self, ask: Ask) -> Result<Reply, Ask>
        requires proper { IsTrue (is_proper ask) }
        ensures terms { origin_of self.new.followed ≡ origin_of self.old.followed }
        ensures replied { IfOk result (λ reply. (mark_in self.new.followed.held ≡ mark_in self.old.followed.held)
            × ((k h : List Entry) → StandsLogged ⟦<D as Disk>⟧ K.taken K.faults self.old.followed self.old.log k h → IsLegalSince ⟦<D as Disk>⟧ (origin_of self.old.followed) k h
            → StandsLogged ⟦<D as Disk>⟧ K.taken K.faults self.new.followed self.new.log k (entry ask reply ∷ h) × IsLegalSince ⟦<D as Disk>⟧ (origin_of self.old.followed) k (entry ask reply ∷ h)
            × ((moments : List ℕ) → CameSince ⟦<D as Disk>⟧ self.old.followed k h moments → CameSince ⟦<D as Disk>⟧ self.new.followed k (entry ask reply ∷ h) (D.moment (disk_of (store_of self.new.followed)) ∷ moments)))) }
        ensures busy { IfErr result (λ again. HasToWait ⟦<D as Disk>⟧ self.old.followed self.new.followed ask again) }
        ensures stays { IfErr result (λ again. (self.new.log ≡ self.old.log) × (self.new.followed.born ≡ self.old.followed.born)) }
    {
        let place = self.followed.kept();
        let moment = self.followed.moment();
        let read = self.log.text_of_read(&ask, place, moment);
        let due = matches!(&ask, Ask::Due);
        match self.followed.try_answer(ask) {
            Ok(reply) => {
                self.log.note(read, &reply);
                let now = self.followed.moment();
                self.log.pass(now, due);
                Ok(reply)
            }
            Err(again) => {
                drop(read);
                Err(again)
            }
        }
    }

    /// Begins to answer an ask as the store does. The line of a read that was answered goes into the log.
    fn start(&mut self, ask: Ask) -> Begun<Writing<D>>
        requires proper { IsTrue (is_proper ask) }
        ensures terms { origin_of self.new.followed ≡ origin_of self.old.followed }
        ensures replied { IfReplied result (λ reply. (mark_in self.new.followed.held ≡ mark_in self.old.followed.held)
            × ((k h : List Entry) → StandsLogged ⟦<D as Disk>⟧ K.taken K.faults self.old.followed self.old.log k h → IsLegalSince ⟦<D as Disk>⟧ (origin_of self.old.followed) k h
            → StandsLogged ⟦<D as Disk>⟧ K.taken K.faults self.new.followed self.new.log k (entry ask reply ∷ h) × IsLegalSince ⟦<D as Disk>⟧ (origin_of self.old.followed) k (entry ask reply ∷ h)
            × ((moments : List ℕ) → CameSince ⟦<D as Disk>⟧ self.old.followed k h moments → CameSince ⟦<D as Disk>⟧ self.new.followed k (entry ask reply ∷ h) (D.moment (disk_of (store_of self.new.followed)) ∷ moments)))) }
        ensures apart { IfApart result (λ work. (mark_in self.old.followed.held ≡ None) × (mark_in self.new.followed.held ≡ Some (mark_of work)) × IsFor work ask) }
        ensures busy { IfBusy result (λ again. (again ≡ ask) × (mark_in self.new.followed.held ≡ mark_in self.old.followed.held) × (mark_in self.old.followed.held ≢ None)) }
        ensures stays { IsNoReply result → (self.new.log ≡ self.old.log) × (store_of self.new.followed ≡ store_of self.old.followed) × (self.new.followed.born ≡ self.old.followed.born) }
    {
        let place = self.followed.kept();
        let moment = self.followed.moment();
        let read = self.log.text_of_read(&ask, place, moment);
        let due = matches!(&ask, Ask::Due);
        match self.followed.start(ask) {
            Begun::Replied(reply) => {
                self.log.note(read, &reply);
                let now = self.followed.moment();
                self.log.pass(now, due);
                Begun::Replied(reply)
            }
            Begun::Apart(work) => {
                drop(read);
                Begun::Apart(work)
            }
            Begun::Busy(again) => {
                drop(read);
                Begun::Busy(again)
            }
        }
    }

    /// Ends a change whose record was written. It is no read, and has no line.
    fn finish(&mut self, work: Writing<D>) -> Reply
        requires { mark_in self.old.followed.held ≡ Some (mark_of work) }
        ensures terms { (ask : Ask) → IsFor work ask → origin_of self.new.followed ≡ origin_of self.old.followed }
        ensures home { mark_in self.new.followed.held ≡ None }
        ensures ended { (ask : Ask) → IsFor work ask → (k h : List Entry) → StandsLogged ⟦<D as Disk>⟧ K.taken K.faults self.old.followed self.old.log k h → IsLegalSince ⟦<D as Disk>⟧ (origin_of self.old.followed) k h
            → StandsLogged ⟦<D as Disk>⟧ K.taken K.faults self.new.followed self.new.log k (entry ask result ∷ h) × IsLegalSince ⟦<D as Disk>⟧ (origin_of self.old.followed) k (entry ask result ∷ h)
            × ((moments : List ℕ) → CameSince ⟦<D as Disk>⟧ self.old.followed k h moments → CameSince ⟦<D as Disk>⟧ self.new.followed k (entry ask result ∷ h) (D.moment (disk_of (store_of self.new.followed)) ∷ moments)) }
    {
        let reply = self.followed.finish(work);
        let now = self.followed.moment();
        self.log.pass(now, false);
        reply
    }
}

impl<D: Disk, K: LogSink> Object for LoggedStore<D, K> {
    ghost use Rattle.ocm_store.specs.Fitting.{session-fits};
    ghost use Rattle.ocm_serve_store.specs.Following.{IsLegalSince, origin_of};
    ghost use Rattle.ocm_serve_log.specs.Standing.{StandsLogged};

    type Terms = Origin<D>;

    ghost terms = { λ logged. origin_of logged.followed };

    ghost stands = { λ logged k h. StandsLogged ⟦<D as Disk>⟧ K.taken K.faults logged.followed logged.log k h };

    ghost legal = { λ origin k h. IsLegalSince ⟦<D as Disk>⟧ origin k h };

    ghost fits = { λ origin k h ask reply legal. session-fits origin.terms.host origin.terms.area k h ask reply legal };

    fn act(&mut self, ask: Ask) -> Reply {
        self.answer(ask)
    }
}

/// The moment of a store with a log is that of its disk. Its work is to write the record of a change.
impl<D: Disk, K: LogSink> Dated for LoggedStore<D, K> {
    ghost use Rattle.ocm_store.specs.Parting.{IsFor, mark_of, was_tried};
    ghost use Rattle.ocm_store.specs.Stores.{disk_of};
    ghost use Rattle.ocm_serve_store.specs.Following.{CameSince, mark_in, store_of};

    type Work = Writing<D>;

    type Mark = Mark<D>;

    ghost moment = { λ logged. D.moment (disk_of (store_of logged.followed)) };

    ghost came = { λ logged k h moments. CameSince ⟦<D as Disk>⟧ logged.followed k h moments };

    ghost awaited = { λ logged. mark_in logged.followed.held };

    ghost mark = { λ work. mark_of work };

    ghost is_for = { λ work ask. IsFor work ask };

    ghost is_done = { λ work. was_tried work ≡ true };

    ghost begins = { λ logged k s. s.0.1 };

    fn may_wait(ask: &Ask) -> bool {
        may_change(ask)
    }

    fn awaits(&self) -> bool {
        self.followed.is_parted()
    }

    fn step(&mut self, ask: Ask) -> Result<Reply, Ask> {
        self.try_answer(ask)
    }

    fn begin(&mut self, ask: Ask) -> Begun<Writing<D>> {
        self.start(ask)
    }

    fn carry_out(work: &mut Writing<D>) {
        work.write();
    }

    fn end(&mut self, work: Writing<D>) -> Reply {
        self.finish(work)
    }
}
