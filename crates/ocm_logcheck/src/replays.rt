//! The replay of an image's records, in step with the places of a log.
ghost use Rattle.std.specs.Prelude.{◌≡◌, ◌≤◌, ◌<◌, ◌+◌, ℕ, List, [], length, option_copied, Ok, Err, IfOk, IfErr, OnOk, IfSome, IsTrue, None, true, if◌then◌else◌};
ghost use Rattle.ocm_entry.specs.declared.entries.Entry.{Entry};
ghost use Rattle.ocm_entry.specs.Proper.{is_proper};
ghost use Rattle.ocm_journal_records.specs.declared.stamps.Stamped.TheVariants as stamps;
ghost use Rattle.ocm_rules.specs.Lean.{count};
ghost use Rattle.ocm_rules.specs.Shares.{clock_of};
ghost use Rattle.ocm_law_sessions.specs.Readings.{goes_on, with_ask, with_stamped};
ghost use Rattle.ocm_access_log.specs.Reads.{AreLogged, is_read};
ghost use Rattle.ocm_history_records.specs.Asking.{HasProperAsk};
ghost use Rattle.ocm_logcheck.specs.Steps.{with_clock};
ghost use Rattle.ocm_logcheck.specs.Replays.{GivesCount, GoesOn, IsLookedUp, IsReplayOf, lines_left, next_at};

use crate::faults::LogFault;
use crate::stepping::{clock_of, look_up, take_moment};
use ocm_access_log::LogLine;
use ocm_base::NoMemory;
use ocm_core::Core;
use ocm_entry::Ask;
use ocm_history_records::read_proper;
use ocm_journal_image::RawRecord;
use ocm_journal_records::Stamped;
use ocm_types::Host;
use std::alloc::Global;

/// How far a replay has come. Ticks are put off until the next ask that is none, so that the lines before it can be
/// looked up at the moments that they have.
struct Replay {
    /// The lists after the last ask that was no tick and the ticks of the lines that were looked up since.
    core: Core,
    /// The moment so far, by the records.
    moment: u64,
    /// How many asks were taken that are no tick.
    place: u64,
    /// How many lines were looked up and are true.
    found: usize,
    /// Whether the line behind these is false. No further one is looked up then.
    stopped: bool,
}

impl Drop for Replay {
    fn drop(self) {
        let Replay {
            core: _,
            moment: _,
            place: _,
            found: _,
            stopped: _,
        } = self;
    }
}

impl Replay {
    /// Before the first record.
    fn new(alloc: Global, host: Host, lines: &[LogLine]) -> Replay
        requires { AreLogged lines.now }
        ensures start { IsReplayOf host lines.now result [] }
        ensures place { result.place ≡ 0 }
    {
        let _all = lines.len();
        Replay {
            core: Core::new(alloc, host),
            moment: 0,
            place: 0,
            found: 0,
            stopped: false,
        }
    }

    /// The next line to look up, where it has this place.
    fn next_line<'a>(&self, lines: &'a [LogLine]) -> Option<&'a LogLine>
        requires { AreLogged lines.now }
        ensures next { option_copied result ≡ next_at self.now.place (lines_left self.now lines.now) }
        ensures read { IfSome result (λ line. IsTrue (is_read line.now.ask)) }
    {
        if self.stopped || self.found >= lines.len() {
            return None;
        }
        let line = &lines[self.found];
        if line.place == self.place {
            Some(line)
        } else {
            None
        }
    }

    /// Looks up the next line, where it has this place, which is over. False where there is none, or it is false.
    fn look_up_next(&mut self, lines: &[LogLine]) -> Result<bool, NoMemory>
        requires { AreLogged lines.now }
        ensures found { IfOk result (λ more. (host : List ℕ) (k : List Entry) → IsLookedUp host lines.now (count host k) self.old k
            → IsLookedUp host lines.now (if more then count host k else count host k + 1) self.new k) }
        ensures more { result ≡ Ok true → (self.old.found < self.new.found) × (self.new.found ≤ length lines.now) }
        ensures place { self.new.place ≡ self.old.place }
        ensures clock { self.new.moment ≡ self.old.moment }
    {
        let Some(line) = self.next_line(lines) else {
            return Ok(false);
        };
        if look_up(&mut self.core, self.moment, line)? {
            self.found += 1;
            Ok(true)
        } else {
            self.stopped = true;
            Ok(false)
        }
    }

    /// Looks up the lines of this place, which is over.
    fn look_up_place(&mut self, lines: &[LogLine]) -> Result<(), NoMemory>
        requires { AreLogged lines.now }
        ensures found { OnOk result ((host : List ℕ) (k : List Entry) → IsReplayOf host lines.now self.old k → IsLookedUp host lines.now (count host k + 1) self.new k) }
        ensures place { self.new.place ≡ self.old.place }
        ensures clock { self.new.moment ≡ self.old.moment }
    {
        while self.look_up_next(lines)? {}
        Ok(())
    }

    /// Goes on by a tick, which is put off. False where its clock is not above the moment so far.
    fn pass(&mut self, clock: u64) -> bool
        ensures goes_on { (host : List ℕ) (lines : List LogLine) → GoesOn host lines self.old self.new (with_ask host (Ask.Tick clock)) result }
        ensures place { self.new.place ≡ self.old.place }
    {
        if clock <= self.moment {
            return false;
        }
        self.moment = clock;
        true
    }

    /// Goes on by a tick, which is put off, where its clock is above the moment so far. False where it is below.
    fn pass_on(&mut self, clock: u64) -> bool
        ensures goes_on { (host : List ℕ) (lines : List LogLine) → GoesOn host lines self.old self.new (with_clock host clock) result }
        ensures place { self.new.place ≡ self.old.place }
    {
        if clock < self.moment {
            return false;
        }
        self.moment = clock;
        true
    }

    /// Goes on by an ask that is no tick, once the lines before it were looked up. False where it would change nothing.
    fn go_on(&mut self, ask: &Ask, lines: &[LogLine]) -> Result<bool, NoMemory>
        requires proper { IsTrue (is_proper ask.now) }
        requires other { clock_of ask.now ≡ None }
        requires order { AreLogged lines.now }
        requires room { self.old.place < 18446744073709551615 }
        ensures goes_on { IfOk result (λ taken. (host : List ℕ) → GoesOn host lines.now self.old self.new (with_ask host ask.now) taken) }
        ensures place { self.new.place ≤ self.old.place + 1 }
    {
        self.look_up_place(lines)?;
        take_moment(&mut self.core, self.moment)?;
        let taken = self.core.take(ask)?;
        if taken {
            self.place += 1;
        }
        Ok(taken)
    }

    /// Goes on by an ask. False where it would change nothing.
    fn take_ask(&mut self, ask: &Ask, lines: &[LogLine]) -> Result<bool, NoMemory>
        requires proper { IsTrue (is_proper ask.now) }
        requires order { AreLogged lines.now }
        requires room { self.old.place < 18446744073709551615 }
        ensures goes_on { IfOk result (λ taken. (host : List ℕ) → GoesOn host lines.now self.old self.new (with_ask host ask.now) taken) }
        ensures place { self.new.place ≤ self.old.place + 1 }
    {
        match clock_of(ask) {
            Some(clock) => Ok(self.pass(clock)),
            None => self.go_on(ask, lines),
        }
    }

    /// Goes on by a moment and the ask behind it. False where the moment is below that so far, or the ask would change
    /// nothing.
    fn take_timed(&mut self, clock: u64, ask: &Ask, lines: &[LogLine]) -> Result<bool, NoMemory>
        requires proper { IsTrue (is_proper ask.now) }
        requires order { AreLogged lines.now }
        requires room { self.old.place < 18446744073709551615 }
        ensures goes_on { IfOk result (λ taken. (host : List ℕ) → GoesOn host lines.now self.old self.new (with_stamped host (stamps.Timed clock ask.now)) taken) }
        ensures place { self.new.place ≤ self.old.place + 1 }
    {
        let known = self.pass_on(clock);
        if !known {
            return Ok(false);
        }
        let taken = self.take_ask(ask, lines)?;
        Ok(taken)
    }

    /// Goes on by what a record says. False where the record may not stand here.
    fn take_said(&mut self, said: &Stamped, lines: &[LogLine]) -> Result<bool, NoMemory>
        requires proper { HasProperAsk said.now }
        requires order { AreLogged lines.now }
        requires room { self.old.place < 18446744073709551615 }
        ensures goes_on { IfOk result (λ taken. (host : List ℕ) → GoesOn host lines.now self.old self.new (with_stamped host said.now) taken) }
        ensures place { self.new.place ≤ self.old.place + 1 }
    {
        match said {
            Stamped::Moment(clock) => Ok(self.pass(*clock)),
            Stamped::Bare(ask) => self.take_ask(ask, lines),
            Stamped::Timed(clock, ask) => self.take_timed(*clock, ask, lines),
        }
    }

    /// Goes on by what a record says, which is let go. False where the record may not stand here.
    fn take_all_said(&mut self, said: Stamped, lines: &[LogLine]) -> Result<bool, NoMemory>
        requires proper { HasProperAsk said }
        requires order { AreLogged lines.now }
        requires room { self.old.place < 18446744073709551615 }
        ensures goes_on { IfOk result (λ taken. (host : List ℕ) → GoesOn host lines.now self.old self.new (with_stamped host said) taken) }
        ensures place { self.new.place ≤ self.old.place + 1 }
    {
        let taken = self.take_said(&said, lines);
        drop(said);
        taken
    }

    /// Goes on by a record of an area of this form. False where it says nothing or may not stand here.
    fn take_record(
        &mut self,
        alloc: Global,
        form: u8,
        bytes: &[u8],
        lines: &[LogLine],
    ) -> Result<bool, NoMemory>
        requires order { AreLogged lines.now }
        requires room { self.old.place < 18446744073709551615 }
        ensures goes_on { IfOk result (λ taken. (host : List ℕ) → GoesOn host lines.now self.old self.new (λ k. goes_on host form k bytes.now) taken) }
        ensures place { self.new.place ≤ self.old.place + 1 }
    {
        match read_proper(alloc, form, bytes) {
            Ok(Some(said)) => self.take_all_said(said, lines),
            Ok(None) => Ok(false),
            Err(NoMemory) => Err(NoMemory),
        }
    }
}

/// Goes on from nothing by the records of an area of this form, and looks up all lines. `NotJournal` has the place of the
/// gate of the first record that may not stand where it stands.
fn run(
    replay: &mut Replay,
    alloc: Global,
    form: u8,
    records: &[RawRecord],
    lines: &[LogLine],
) -> Result<(), LogFault>
    requires order { AreLogged lines.now }
    requires start { replay.old.place ≡ 0 }
    ensures counted { OnOk result ((host : List ℕ) → IsReplayOf host lines.now replay.old [] → GivesCount host form records.now lines.now (Ok replay.new.found)) }
    ensures refused { IfErr result (λ fault. (host : List ℕ) → IsReplayOf host lines.now replay.old [] → GivesCount host form records.now lines.now (Err fault)) }
{
    for record in records {
        let going = replay.take_record(alloc, form, record.bytes.as_slice(), lines)?;
        if !going {
            return Err(LogFault::NotJournal(record.place));
        }
    }
    replay.look_up_place(lines)?;
    Ok(())
}

/// How many lines are true before the first that is false, by one replay of the records of an area of this form.
/// `NotJournal` has the place of the gate of the first record that may not stand where it stands.
pub fn count_true(
    alloc: Global,
    host: Host,
    form: u8,
    records: &[RawRecord],
    lines: &[LogLine],
) -> Result<usize, LogFault>
    requires { AreLogged lines.now }
    ensures { GivesCount host form records.now lines.now result }
{
    let mut replay = Replay::new(alloc, host, lines);
    let ran = run(&mut replay, alloc, form, records, lines);
    let found = replay.found;
    drop(replay);
    ran?;
    Ok(found)
}
