//! How a store that is followed answers an ask: as the store does. A change is begun, written while others read, and ended.
//! What is taken to change nothing is answered where the store lies.
ghost use Rattle.std.specs.Prelude.{◌≡◌, ◌++◌, ℕ, List, true, false, Some, None, IsTrue, is_some, IfOk, IfErr};
ghost use Rattle.ocm_entry.specs.Proper.{is_proper};
ghost use Rattle.ocm_entry.specs.Ticks.{is_tick};
ghost use Rattle.ocm_entry.specs.declared.asks.Ask.{Ask};
ghost use Rattle.ocm_entry.specs.declared.entries.Entry.{Entry};
ghost use Rattle.ocm_rules.specs.History as history;
ghost use Rattle.ocm_rules.specs.Lean.{count};
ghost use Rattle.ocm_rules.specs.Shares as shares;
ghost use Rattle.ocm_serve_store.specs.Asking as asking;
ghost use Rattle.ocm_serve_store.specs.Following.{HasToWait, mark_in, store_in, store_of};
ghost use Rattle.ocm_law_sessions.specs.Sessions.{would_change};
ghost use Rattle.ocm_store.specs.Acts.{Acts, StandsLegally};
ghost use Rattle.ocm_store.specs.Parting.{IsFor, mark_of};
ghost use Rattle.ocm_store.specs.Stores.{Stands, host_of};
ghost use Rattle.ocm_turn.specs.Begun.{IfReplied, IfApart, IfBusy};

use crate::followed::{Followed, Origin, StoreOrFront};
use core::mem::replace_with;
use ocm_disk::Disk;
use ocm_entry::{Ask, Cmd, Method, Object, Reply};
use ocm_store::{Begun as StoreBegun, Front, Mark, Store, Writing};
use ocm_turn::{Begun, Dated};

/// Whether an ask may make a change that is written while others read. A tick seldom makes one. Where it moves the clock, all
/// others have to wait for the new moment anyway.
pub fn may_change(ask: &Ask) -> bool
    ensures may { result ≡ asking.may_change ask.now }
    // What is taken to change nothing changes nothing, unless it is a tick.
    ensures idle { result ≡ false → is_tick ask.now ≡ false → (host : List ℕ) (g : List Entry) → would_change host g ask.now ≡ false }
{
    makes_a_change(ask)
}

/// Whether an ask makes a change where it is not refused, but for a tick.
fn makes_a_change(ask: &Ask) -> bool
    ensures { result ≡ asking.may_change ask.now }
{
    match ask {
        Ask::Due | Ask::Tick { clock: _ } => false,
        Ask::Local { key: _, cmd } => !matches!(cmd, Cmd::List),
        Ask::Dav {
            secret: _,
            method,
            path: _,
            body: _,
        } => writes(*method),
        _ => true,
    }
}

/// Whether a method changes something where it is not refused.
fn writes(method: Method) -> bool
    ensures { result ≡ history.writes method }
{
    match method {
        Method::Put | Method::Delete | Method::Mkcol => true,
        Method::Get | Method::Head | Method::List0 | Method::List1 => false,
    }
}

/// Answers an ask with a store that has its journal.
fn acted<D: Disk>(store: &mut Store<D>, ask: Ask) -> Reply
    requires proper { IsTrue (is_proper ask) }
    ensures { Acts ⟦<D as Disk>⟧ store.old store.new ask result }
{
    store.act(ask)
}

/// Begins to answer an ask with a store that has its journal.
fn begun<D: Disk>(held: StoreOrFront<D>, ask: Ask) -> (StoreOrFront<D>, Begun<Writing<D>>)
    requires proper { IsTrue (is_proper ask) }
    requires home { mark_in held ≡ None }
    ensures replied { IfReplied result.1 (λ reply. Acts ⟦<D as Disk>⟧ (store_in held) (store_in result.0) ask reply × (mark_in result.0 ≡ mark_in held)) }
    ensures apart { IfApart result.1 (λ work. (mark_in held ≡ None) × (mark_in result.0 ≡ Some (mark_of work)) × IsFor work ask × (store_in result.0 ≡ store_in held)) }
    ensures busy { IfBusy result.1 (λ again. ⊥) }
{
    match held {
        StoreOrFront::Store(store) => begun_store(store, ask),
        StoreOrFront::Front(_) => unreachable!(),
    }
}

/// Begins to answer an ask with a store.
fn begun_store<D: Disk>(store: Store<D>, ask: Ask) -> (StoreOrFront<D>, Begun<Writing<D>>)
    requires proper { IsTrue (is_proper ask) }
    ensures replied { IfReplied result.1 (λ reply. Acts ⟦<D as Disk>⟧ store (store_in result.0) ask reply × (mark_in result.0 ≡ None)) }
    ensures apart { IfApart result.1 (λ work. (mark_in result.0 ≡ Some (mark_of work)) × IsFor work ask × (store_in result.0 ≡ store)) }
    ensures busy { IfBusy result.1 (λ again. ⊥) }
{
    match store.begin(&ask) {
        StoreBegun::Replied(store, reply) => {
            drop(ask);
            (StoreOrFront::Store(store), Begun::Replied(reply))
        }
        StoreBegun::Apart(front, writing) => {
            drop(ask);
            (StoreOrFront::Front(front), Begun::Apart(writing))
        }
    }
}

/// Ends a change whose record was written.
fn ended<D: Disk>(held: StoreOrFront<D>, work: Writing<D>) -> (StoreOrFront<D>, Reply)
    requires { mark_in held ≡ Some (mark_of work) }
    ensures acts { (ask : Ask) → IsFor work ask → Acts ⟦<D as Disk>⟧ (store_in held) (store_in result.0) ask result.1 }
    ensures changes { (ask : Ask) → IsFor work ask → (k h : List Entry) → StandsLegally ⟦<D as Disk>⟧ (store_in held) k h → would_change (host_of (store_in held)) (h ++ k) ask ≡ true }
    ensures home { mark_in result.0 ≡ None }
{
    match held {
        StoreOrFront::Store(_) => unreachable!(),
        StoreOrFront::Front(front) => {
            let (store, reply) = Store::end(front, work);
            (StoreOrFront::Store(store), reply)
        }
    }
}

impl<D: Disk> Followed<D> {
    /// Answers an ask as the store does. Beside a change that is being written, another one is answered as if there were no
    /// memory for it; a turnstile never asks so.
    fn answer(&mut self, ask: Ask) -> Reply
        requires proper { IsTrue (is_proper ask) }
        ensures acts { Acts ⟦<D as Disk>⟧ (store_of self.old) (store_of self.new) ask result }
        ensures born { self.new.born ≡ self.old.born }
    {
        match &mut self.held {
            StoreOrFront::Store(store) => acted(store, ask),
            StoreOrFront::Front(front) => {
                let reply = front.act(&ask);
                drop(ask);
                reply.unwrap_or(Reply::NoMemory)
            }
        }
    }

    /// Begins to answer an ask. What the store was when it was loaded stays as it is.
    pub fn start(&mut self, ask: Ask) -> Begun<Writing<D>>
        requires proper { IsTrue (is_proper ask) }
        ensures replied { IfReplied result (λ reply. Acts ⟦<D as Disk>⟧ (store_of self.old) (store_of self.new) ask reply × (mark_in self.new.held ≡ mark_in self.old.held)) }
        ensures apart { IfApart result (λ work. (mark_in self.old.held ≡ None) × (mark_in self.new.held ≡ Some (mark_of work)) × IsFor work ask × (store_of self.new ≡ store_of self.old)) }
        ensures busy { IfBusy result (λ again. HasToWait ⟦<D as Disk>⟧ self.old self.new ask again) }
        ensures born { self.new.born ≡ self.old.born }
    {
        if self.is_parted() {
            return match self.try_answer(ask) {
                Ok(reply) => Begun::Replied(reply),
                Err(again) => Begun::Busy(again),
            };
        }
        replace_with(&mut self.held, ask, |held, ask| begun(held, ask))
    }

    /// Answers an ask where the store lies. An `Err` gives the ask back: a change is being written, and this one would change
    /// something too.
    pub fn try_answer(&mut self, ask: Ask) -> Result<Reply, Ask>
        requires proper { IsTrue (is_proper ask) }
        ensures replied { IfOk result (λ reply. Acts ⟦<D as Disk>⟧ (store_of self.old) (store_of self.new) ask reply × (mark_in self.new.held ≡ mark_in self.old.held)) }
        ensures busy { IfErr result (λ again. HasToWait ⟦<D as Disk>⟧ self.old self.new ask again) }
        ensures born { self.new.born ≡ self.old.born }
    {
        match &mut self.held {
            StoreOrFront::Store(store) => Ok(acted(store, ask)),
            StoreOrFront::Front(front) => match front.act(&ask) {
                Some(reply) => {
                    drop(ask);
                    Ok(reply)
                }
                None => Err(ask),
            },
        }
    }

    /// Ends a change whose record was written.
    pub fn finish(&mut self, work: Writing<D>) -> Reply
        requires { mark_in self.old.held ≡ Some (mark_of work) }
        ensures acts { (ask : Ask) → IsFor work ask → Acts ⟦<D as Disk>⟧ (store_of self.old) (store_of self.new) ask result }
        // What is ended is a change.
        ensures changes { (ask : Ask) → IsFor work ask → (k h : List Entry) → StandsLegally ⟦<D as Disk>⟧ (store_of self.old) k h → would_change (host_of (store_of self.old)) (h ++ k) ask ≡ true }
        ensures home { mark_in self.new.held ≡ None }
        ensures born { self.new.born ≡ self.old.born }
    {
        replace_with(&mut self.held, work, |held, work| ended(held, work))
    }

    /// Whether a change is being written.
    pub fn is_parted(&self) -> bool
        ensures { result ≡ is_some (mark_in self.now.held) }
    {
        match &self.held {
            StoreOrFront::Store(_) => false,
            StoreOrFront::Front(_) => true,
        }
    }

    /// How many entries of the history are kept.
    pub fn kept(&self) -> u64
        ensures { (k h : List Entry) → Stands ⟦<D as Disk>⟧ (store_of self.now) k h → result ≡ count (host_of (store_of self.now)) (h ++ k) }
    {
        match &self.held {
            StoreOrFront::Store(store) => store.kept(),
            StoreOrFront::Front(front) => front.kept(),
        }
    }

    /// The moment of the last tick, in whole seconds since the epoch, and 0 before the first.
    pub fn moment(&self) -> u64
        ensures { (k h : List Entry) → Stands ⟦<D as Disk>⟧ (store_of self.now) k h → result ≡ shares.moment (history.kept (host_of (store_of self.now)) (h ++ k)) }
    {
        match &self.held {
            StoreOrFront::Store(store) => store.moment(),
            StoreOrFront::Front(front) => front.moment(),
        }
    }
}

impl<D: Disk> Object for Followed<D> {
    ghost use Rattle.ocm_store.specs.Fitting.{session-fits};
    ghost use Rattle.ocm_serve_store.specs.Following.{IsLegalSince, StandsSince, origin_of};

    type Terms = Origin<D>;

    ghost terms = { λ followed. origin_of followed };

    ghost stands = { λ followed k h. StandsSince ⟦<D as Disk>⟧ followed k h };

    ghost legal = { λ origin k h. IsLegalSince ⟦<D as Disk>⟧ origin k h };

    ghost fits = { λ origin k h ask reply legal. session-fits origin.terms.host origin.terms.area k h ask reply legal };

    fn act(&mut self, ask: Ask) -> Reply {
        self.answer(ask)
    }
}

/// The moment of a store is that of its disk. Its work is to write the record of a change.
impl<D: Disk> Dated for Followed<D> {
    ghost use Rattle.ocm_store.specs.Parting.{IsFor, mark_of, was_tried};
    ghost use Rattle.ocm_store.specs.Stores.{disk_of};
    ghost use Rattle.ocm_serve_store.specs.Following.{CameSince, mark_in, store_of};

    type Work = Writing<D>;

    type Mark = Mark<D>;

    ghost moment = { λ followed. D.moment (disk_of (store_of followed)) };

    ghost came = { λ followed k h moments. CameSince ⟦<D as Disk>⟧ followed k h moments };

    ghost awaited = { λ followed. mark_in followed.held };

    ghost mark = { λ work. mark_of work };

    ghost is_for = { λ work ask. IsFor work ask };

    ghost is_done = { λ work. was_tried work ≡ true };

    ghost begins = { λ followed k s. s.1 };

    fn may_wait(ask: &Ask) -> bool {
        may_change(ask)
    }

    fn awaits(&self) -> bool {
        self.is_parted()
    }

    fn step(&mut self, ask: Ask) -> Result<Reply, Ask> {
        self.try_answer(ask)
    }

    fn begin(&mut self, ask: Ask) -> Begun<Writing<D>> {
        self.start(ask)
    }

    fn carry_out(work: &mut Writing<D>) {
        work.write();
    }

    fn end(&mut self, work: Writing<D>) -> Reply {
        self.finish(work)
    }
}
