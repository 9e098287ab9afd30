//! How the lists of a server are made of the records of its journal.
ghost use Rattle.std.specs.Prelude.{◌≡◌, ◌≤◌, ◌+◌, ◌^◌, List, [], length, Some, None, Ok, true, IfOk, IfSome, IsOk, IsTrue};
ghost use Rattle.ocm_entry.specs.declared.entries.Entry.{Entry};
ghost use Rattle.ocm_entry_bytes.specs.Spells.{has_spelling};
ghost use Rattle.ocm_journal_records.specs.Stamps.{stamped_of};
ghost use Rattle.ocm_journal_records.specs.declared.stamps.Stamped.TheVariants as stamps;
ghost use Rattle.ocm_journal_image.specs.Reading.{Gives, records_from};
ghost use Rattle.ocm_law_sessions.specs.Readings.{goes_on, opened, with_ask, with_stamped};
ghost use Rattle.ocm_compact.specs.Replays.{GoesOn, HasSpelledAsk, IsReplayOf, home_of, opened_by, refused_by, with_clock};

use crate::dated::note;
use ocm_base::{Bytes, List, NoMemory};
use ocm_core::Core;
use ocm_entry::Ask;
use ocm_journal_image::{ImageFault, next_record};
use ocm_journal_records::{Stamped, read_stamped};
use ocm_types::Host;
use std::alloc::Global;

/// The lists of a server, and the records in form 2 of its asks that are neither ticks nor for files.
pub struct Replay {
    pub core: Core,
    pub others: List<Bytes>,
}

impl Drop for Replay {
    fn drop(self) {
        let Replay { core: _, others: _ } = self;
    }
}

impl Replay {
    /// Before the first record.
    pub fn new(alloc: Global, host: Host) -> Replay
        ensures start { IsReplayOf result [] }
        ensures home { home_of result ≡ host }
    {
        Replay {
            core: Core::new(alloc, host),
            others: List::new(alloc),
        }
    }

    /// Goes on by an ask with its answer. False where it would change nothing.
    fn take(&mut self, ask: &Ask) -> Result<bool, NoMemory>
        requires { IsTrue (has_spelling ask.now) }
        ensures home { home_of self.new ≡ home_of self.old }
        ensures goes_on { IfOk result (GoesOn self.old self.new (with_ask (home_of self.old) ask.now)) }
    {
        let clock = self.core.moment();
        let taken = self.core.take(ask)?;
        if !taken {
            return Ok(false);
        }
        note(&mut self.others, clock, ask)?;
        Ok(true)
    }

    /// Goes on by a tick. False where its clock is not above the moment so far.
    fn take_tick(&mut self, clock: u64) -> Result<bool, NoMemory>
        ensures home { home_of self.new ≡ home_of self.old }
        ensures goes_on { IfOk result (GoesOn self.old self.new (with_ask (home_of self.old) (Ask.Tick clock))) }
    {
        let tick = Ask::Tick { clock };
        let taken = self.take(&tick);
        drop(tick);
        taken
    }

    /// Goes on by a tick with this clock where it is above the moment so far. False where it is below.
    fn take_clock(&mut self, clock: u64) -> Result<bool, NoMemory>
        ensures home { home_of self.new ≡ home_of self.old }
        ensures goes_on { IfOk result (GoesOn self.old self.new (with_clock (home_of self.old) clock)) }
    {
        let moment = self.core.moment();
        if clock <= moment {
            return Ok(moment == clock);
        }
        self.take_tick(clock)
    }

    /// Goes on by a moment and the ask behind it. False where the moment is below that so far, or the ask would change
    /// nothing.
    fn take_timed(&mut self, clock: u64, ask: &Ask) -> Result<bool, NoMemory>
        requires { IsTrue (has_spelling ask.now) }
        ensures home { home_of self.new ≡ home_of self.old }
        ensures goes_on { IfOk result (GoesOn self.old self.new (with_stamped (home_of self.old) (stamps.Timed clock ask.now))) }
    {
        let known = self.take_clock(clock)?;
        if !known {
            return Ok(false);
        }
        self.take(ask)
    }

    /// Goes on by what a record says. False where the record may not stand here.
    fn take_said(&mut self, said: &Stamped) -> Result<bool, NoMemory>
        requires { HasSpelledAsk said.now }
        ensures home { home_of self.new ≡ home_of self.old }
        ensures goes_on { IfOk result (GoesOn self.old self.new (with_stamped (home_of self.old) said.now)) }
    {
        match said {
            Stamped::Bare(ask) => self.take(ask),
            Stamped::Moment(clock) => self.take_tick(*clock),
            Stamped::Timed(clock, ask) => self.take_timed(*clock, ask),
        }
    }

    /// Goes on by a record of an area of this form. False where it says nothing or may not stand here.
    fn take_record(&mut self, form: u8, bytes: &[u8]) -> Result<bool, NoMemory>
        ensures home { home_of self.new ≡ home_of self.old }
        ensures goes_on { IfOk result (GoesOn self.old self.new (λ k. goes_on (home_of self.old) form k bytes.now)) }
    {
        match read_spelled(self.others.allocator(), form, bytes) {
            Ok(Some(said)) => {
                let taken = self.take_said(&said);
                drop(said);
                taken
            }
            Ok(None) => Ok(false),
            Err(NoMemory) => Err(NoMemory),
        }
    }

    /// Goes on from nothing by the records of an area of this form, which are framed, from the gate at `place` on, which is the
    /// first of `bytes`: None. The place of the gate of the first by which it does not go on.
    pub fn take_area(
        &mut self,
        form: u8,
        place: u64,
        bytes: &[u8],
    ) -> Result<Option<u64>, ImageFault>
        requires start { IsReplayOf self.old [] }
        requires within { place + length bytes.now ≤ 2 ^ 63 }
        requires framed { IsOk (records_from 0 place bytes.now) }
        ensures home { home_of self.new ≡ home_of self.old }
        ensures opens { result ≡ Ok None → (k : List Entry) × (opened_by (home_of self.old) form [] (records_from 0 place bytes.now) ≡ Some k) × IsReplayOf self.new k }
        ensures refused { Gives result (refused_by (home_of self.old) form [] (records_from 0 place bytes.now)) }
    {
        let mut end = place;
        let mut rest = bytes;
        while let Some(record) = next_record(end, rest)? {
            let going = self.take_record(form, record)?;
            if !going {
                return Ok(Some(end));
            }
            let size = 5 + record.len();
            end += size as u64;
            rest = &rest[size..];
        }
        Ok(None)
    }

    /// Goes on from nothing by records of form 2. False where it does not go on by one of them.
    pub fn take_texts(&mut self, texts: &List<Bytes>) -> Result<bool, NoMemory>
        requires { IsReplayOf self.old [] }
        ensures home { home_of self.new ≡ home_of self.old }
        ensures opens { result ≡ Ok true → (k : List Entry) × (opened (home_of self.old) 2 texts.now ≡ Some k) × IsReplayOf self.new k }
    {
        let items = texts.as_slice();
        for text in items {
            let going = self.take_record(2, text.as_slice())?;
            if !going {
                return Ok(false);
            }
        }
        Ok(true)
    }
}

/// What a record of an area of this form says, and None where it is no record of that form. Its ask has a spelling.
fn read_spelled(alloc: Global, form: u8, bytes: &[u8]) -> Result<Option<Stamped>, NoMemory>
    ensures says { IfOk result (λ said. said ≡ stamped_of form bytes.now) }
    ensures spelled { IfOk result (λ said. IfSome said HasSpelledAsk) }
{
    let said = read_stamped(alloc, form, bytes)?;
    Ok(said)
}
