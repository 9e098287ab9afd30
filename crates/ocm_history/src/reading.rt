//! How the memory of a server is made of the records of its journal.

ghost use Rattle.std.specs.Prelude.{◌≡◌, List, [], Some, None, IfOk, IfErr, OnOk, IsTrue};
ghost use Rattle.ocm_entry.specs.declared.entries.Entry.{Entry};
ghost use Rattle.ocm_entry.specs.Proper.{is_proper};
ghost use Rattle.ocm_journal_image.specs.Layout.{contents};
ghost use Rattle.ocm_journal_records.specs.declared.stamps.Stamped.TheVariants as stamps;
ghost use Rattle.ocm_law_sessions.specs.Readings.{goes_on, opened, refused_at, with_stamped};
ghost use Rattle.ocm_history.specs.Histories.{home_of};
ghost use Rattle.ocm_history_records.specs.Asking.{HasProperAsk};
ghost use Rattle.ocm_history.specs.Replays.{GoesOn, IsMemoryOf, IsReplayFault, with_clock};

use crate::histories::History;
use ocm_base::NoMemory;
use ocm_entry::Ask;
use ocm_history_records::{ReplayFault, read_proper};
use ocm_journal_area::PlacedRecords;
use ocm_journal_records::Stamped;

/// Goes on by a tick with this clock where it is above the moment so far. False where it is below.
fn take_clock(history: &mut History, clock: u64) -> Result<bool, NoMemory>
    ensures home { home_of history.new ≡ home_of history.old }
    ensures goes_on { IfOk result (GoesOn history.old history.new (with_clock (home_of history.old) clock)) }
{
    let moment = history.core.moment();
    if clock <= moment {
        return Ok(moment == clock);
    }
    history.take_tick(clock)
}

/// Goes on by a moment and the ask behind it: by a tick where the moment is above that so far, and then by the ask. False
/// where the moment is below that so far, or the ask would change nothing.
fn take_timed(history: &mut History, clock: u64, ask: &Ask) -> Result<bool, NoMemory>
    requires { IsTrue (is_proper ask.now) }
    ensures home { home_of history.new ≡ home_of history.old }
    ensures goes_on { IfOk result (GoesOn history.old history.new (with_stamped (home_of history.old) (stamps.Timed clock ask.now))) }
{
    let known = take_clock(history, clock)?;
    if !known {
        return Ok(false);
    }
    history.take(ask)
}

/// Goes on by what a record says. False where the record may not stand here.
fn take_said(history: &mut History, said: &Stamped) -> Result<bool, NoMemory>
    requires { HasProperAsk said.now }
    ensures home { home_of history.new ≡ home_of history.old }
    ensures goes_on { IfOk result (GoesOn history.old history.new (with_stamped (home_of history.old) said.now)) }
{
    match said {
        Stamped::Bare(ask) => history.take(ask),
        Stamped::Moment(clock) => history.take_tick(*clock),
        Stamped::Timed(clock, ask) => take_timed(history, *clock, ask),
    }
}

/// Goes on by one record of an area of this form. False where it says nothing or may not stand here.
fn take_record(history: &mut History, form: u8, bytes: &[u8]) -> Result<bool, NoMemory>
    ensures home { home_of history.new ≡ home_of history.old }
    ensures goes_on { IfOk result (GoesOn history.old history.new (λ k. goes_on (home_of history.old) form k bytes.now)) }
{
    match read_proper(history.records.allocator(), form, bytes) {
        Ok(Some(said)) => {
            let taken = take_said(history, &said);
            drop(said);
            taken
        }
        Ok(None) => Ok(false),
        Err(NoMemory) => Err(NoMemory),
    }
}

/// Goes on from nothing by the records of an area of this form. `Refused` has the place of the gate of the first by which
/// it does not go on.
pub fn take_records(
    history: &mut History,
    form: u8,
    records: &PlacedRecords,
) -> Result<(), ReplayFault>
    requires { IsMemoryOf history.old [] }
    ensures home { home_of history.new ≡ home_of history.old }
    ensures opens { OnOk result ((k : List Entry) × (opened (home_of history.old) form (contents records.now) ≡ Some k) × IsMemoryOf history.new k) }
    ensures refused { IfErr result (IsReplayFault (refused_at (home_of history.old) form records.now)) }
{
    let mut left = records.left();
    while let Some(record) = left.next() {
        let going = take_record(history, form, record.bytes)?;
        if !going {
            return Err(ReplayFault::Refused(record.place));
        }
    }
    Ok(())
}
