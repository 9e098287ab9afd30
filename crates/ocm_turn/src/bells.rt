//! How callers wait: each looks again, once or for a while, and then sleeps at a bell until another rings it. Nothing but a
//! wake hangs on the words of this module.
ghost use Rattle.std.specs.Prelude.{◌≡◌, ◌<◌, ◌≤◌, None, IfSome, false};
ghost use Rattle.ocm_turn.specs.Steps.{ticketed};
ghost use Rattle.ocm_turn.specs.declared.view.Stage.TheVariants.{Named};

use crate::board::{TurnSeat, TurnTable};
use crate::dated::Dated;
use crate::rule::Ring;
use std::hint::spin_loop;
use std::sync::Wait;

/// Word 2: the bell of the callers that wait until no turn goes on.
const TURN_BELL: usize = 2;
/// Word 3: the bell of the callers that wait for the end of a call whose work is apart.
const HOME_BELL: usize = 3;
/// Word 16: the next place in the queue of the calls that may have to wait for another's work. Words 4 to 15 are not used,
/// so that whoever looks at the queue shares no cache line with those who take turns.
const QUEUE: usize = 16;
/// Word 17: how many have left that queue.
const SERVED: usize = 17;
/// The first of the bells of that queue.
const QUEUE_BELLS: usize = 18;
/// How many bells the queue has. Up to so many callers have each a bell of its own.
const QUEUE_BELL_COUNT: u64 = 64;
/// How often a caller looks before it sleeps.
const WATCHED: u32 = 2_000;
/// The bit of a bell that says that a caller sleeps on it, or is about to.
const ASLEEP: u64 = 1;

/// The word on which the caller at this place of the queue sleeps.
fn queue_bell_of(place: u64) -> usize
    ensures { (18 ≤ result) × (result < 82) }
{
    QUEUE_BELLS + (place % QUEUE_BELL_COUNT) as usize
}

impl<T: Dated> TurnTable<T> {
    /// Draws a ticket once no turn goes on, so that its own turn comes at once. Sleeps until then.
    pub(crate) fn draw<R: Wait>(&self, rt: &R, seat: &mut TurnSeat<T>) -> u64
        requires own { (seat.old.table_id ≡ self.now.table.shared.table_id) × (seat.old.me.0.ticket ≡ None) × (seat.old.me.0.turn ≡ false) × (seat.old.me.0.stage ≡ Named) }
        ensures own { seat.new.table_id ≡ seat.old.table_id }
        ensures ticket { seat.new.me ≡ (ticketed seat.old.me.0 result, seat.old.me.1) }
    {
        if let Some(ticket) = self.watch_turns(seat) {
            return ticket;
        }
        for _ in rt.forever() {
            let shown = self.mark(seat, TURN_BELL);
            if let Some(ticket) = self.try_draw(seat) {
                return ticket;
            }
            self.sleep(rt, TURN_BELL, shown);
            if let Some(ticket) = self.watch_turns(seat) {
                // A ring wakes one. So whoever was woken marks the bell for those who sleep on.
                self.mark(seat, TURN_BELL);
                return ticket;
            }
        }
        unreachable!()
    }

    /// Looks for a while for a moment at which no turn goes on, and draws a ticket then.
    fn watch_turns(&self, seat: &mut TurnSeat<T>) -> Option<u64>
        requires own { (seat.old.table_id ≡ self.now.table.shared.table_id) × (seat.old.me.0.ticket ≡ None) × (seat.old.me.0.turn ≡ false) × (seat.old.me.0.stage ≡ Named) }
        ensures own { seat.new.table_id ≡ seat.old.table_id }
        ensures drawn { IfSome result (λ n. seat.new.me ≡ (ticketed seat.old.me.0 n, seat.old.me.1)) }
        ensures none { result ≡ None → seat.new.me ≡ seat.old.me }
    {
        for _ in 0..WATCHED {
            if let Some(ticket) = self.try_draw(seat) {
                return Some(ticket);
            }
            spin_loop();
        }
        None
    }

    /// Wakes one of the callers that sleep until no turn goes on.
    pub(crate) fn wake_one(&self, seat: &mut TurnSeat<T>)
        requires own { (seat.old.table_id ≡ self.now.table.shared.table_id) × (seat.old.me.0.stage ≡ Named) }
        ensures same { (seat.new.table_id ≡ seat.old.table_id) × (seat.new.me ≡ seat.old.me) }
    {
        if self.unmark(seat, TURN_BELL) {
            self.table.shared.wake_one(TURN_BELL);
        }
    }

    /// Waits for a place at the head of the queue of the calls that may have to wait for another's work.
    pub(crate) fn queue<R: Wait>(&self, rt: &R, seat: &mut TurnSeat<T>)
        requires own { (seat.old.table_id ≡ self.now.table.shared.table_id) × (seat.old.me.0.stage ≡ Named) }
        ensures same { (seat.new.table_id ≡ seat.old.table_id) × (seat.new.me ≡ seat.old.me) }
    {
        let place = self.table.shared.fetch_add::<Ring>(seat, QUEUE, 1);
        for _ in rt.forever() {
            if self.watch_queue(place) {
                return;
            }
            let bell = queue_bell_of(place);
            let shown = self.mark(seat, bell);
            if self.table.shared.peek(SERVED) == place {
                return;
            }
            self.sleep(rt, bell, shown);
        }
        unreachable!()
    }

    /// Looks for a while whether all before this place have left the queue.
    fn watch_queue(&self, place: u64) -> bool {
        for _ in 0..WATCHED {
            if self.table.shared.peek(SERVED) == place {
                return true;
            }
            spin_loop();
        }
        false
    }

    /// Leaves the queue, and wakes the caller behind.
    pub(crate) fn leave_queue(&self, seat: &mut TurnSeat<T>)
        requires own { (seat.old.table_id ≡ self.now.table.shared.table_id) × (seat.old.me.0.stage ≡ Named) }
        ensures same { (seat.new.table_id ≡ seat.old.table_id) × (seat.new.me ≡ seat.old.me) }
    {
        let served = self.table.shared.fetch_add::<Ring>(seat, SERVED, 1);
        self.ring(seat, queue_bell_of(served.wrapping_add(1)));
    }

    /// Waits for the end of a call whose work is apart: marks its bell, so that the caller tries once more, and then sleeps
    /// where that try was in vain too. Takes and answers what the bell showed when it was marked, and 0 where it is not.
    pub(crate) fn wait_home<R: Wait>(&self, rt: &R, seat: &mut TurnSeat<T>, shown: u64) -> u64
        requires own { (seat.old.table_id ≡ self.now.table.shared.table_id) × (seat.old.me.0.stage ≡ Named) }
        ensures same { (seat.new.table_id ≡ seat.old.table_id) × (seat.new.me ≡ seat.old.me) }
    {
        if shown == 0 {
            return self.mark(seat, HOME_BELL);
        }
        self.sleep(rt, HOME_BELL, shown);
        0
    }

    /// Wakes the callers that wait for the end of a call whose work was apart.
    pub(crate) fn call_home(&self, seat: &mut TurnSeat<T>)
        requires own { (seat.old.table_id ≡ self.now.table.shared.table_id) × (seat.old.me.0.stage ≡ Named) }
        ensures same { (seat.new.table_id ≡ seat.old.table_id) × (seat.new.me ≡ seat.old.me) }
    {
        self.ring(seat, HOME_BELL);
    }

    /// Says at the bell that the caller goes to sleep, and answers what the bell shows then. The caller looks once more
    /// before it sleeps.
    fn mark(&self, seat: &mut TurnSeat<T>, bell: usize) -> u64
        requires own { (seat.old.table_id ≡ self.now.table.shared.table_id) × (seat.old.me.0.stage ≡ Named) }
        requires bell { (2 ≤ bell) × (bell < 82) }
        ensures same { (seat.new.table_id ≡ seat.old.table_id) × (seat.new.me ≡ seat.old.me) }
    {
        self.table.shared.fetch_or::<Ring>(seat, bell, ASLEEP) | ASLEEP
    }

    /// Takes the mark off a bell, and answers whether there was one. Whoever is about to sleep finds the bell changed, and does
    /// not. Where two do so at once a mark may stay: then one wake is in vain.
    fn unmark(&self, seat: &mut TurnSeat<T>, bell: usize) -> bool
        requires own { (seat.old.table_id ≡ self.now.table.shared.table_id) × (seat.old.me.0.stage ≡ Named) }
        requires bell { (2 ≤ bell) × (bell < 82) }
        ensures same { (seat.new.table_id ≡ seat.old.table_id) × (seat.new.me ≡ seat.old.me) }
    {
        let marked = self.table.shared.peek(bell) & ASLEEP != 0;
        if marked {
            self.table.shared.fetch_add::<Ring>(seat, bell, 1);
        }
        marked
    }

    /// Sleeps until the bell no longer shows this.
    fn sleep<R: Wait>(&self, rt: &R, bell: usize, shown: u64)
        requires bell { bell < 82 }
    {
        self.table
            .shared
            .park(rt, bell, (shown & 0xffff_ffff) as u32);
    }

    /// Wakes all callers that sleep at the bell.
    fn ring(&self, seat: &mut TurnSeat<T>, bell: usize)
        requires own { (seat.old.table_id ≡ self.now.table.shared.table_id) × (seat.old.me.0.stage ≡ Named) }
        requires bell { (2 ≤ bell) × (bell < 82) }
        ensures same { (seat.new.table_id ≡ seat.old.table_id) × (seat.new.me ≡ seat.old.me) }
    {
        if self.unmark(seat, bell) {
            self.table.shared.wake_all(bell);
        }
    }
}
