//! The records of an area as they are.
ghost use Rattle.std.specs.Prelude.{◌≤◌, ◌+◌, ◌^◌, length};

use crate::faults::CandidateFault;
use crate::texts::Texts;
use ocm_base::{Bytes, List};
use ocm_entry::Ask;
use ocm_journal_image::next_record;
use ocm_journal_records::{Stamped, read_stamped};
use std::alloc::Global;

/// How many bytes a moment takes.
const MOMENT: usize = 8;

/// How many bytes the records take from the gate at `place` on, which is the first of `bytes`.
pub fn used_bytes(place: u64, bytes: &[u8]) -> u64
    requires { place + length bytes.now ≤ 2 ^ 63 }
{
    let mut end = place;
    let mut rest = bytes;
    while let Ok(Some(record)) = next_record(end, rest) {
        let size = 5 + record.len();
        end += size as u64;
        rest = &rest[size..];
    }
    end.saturating_sub(place)
}

/// The records from the gate at `place` on, which is the first of `bytes`, in form 2 and without ticks, but one at the end
/// where no other record shows the moment `clock`. `NotMade` where they take more bytes than there is room.
pub fn whole_of(
    alloc: Global,
    clock: u64,
    room: u64,
    form: u8,
    place: u64,
    bytes: &[u8],
) -> Result<List<Bytes>, CandidateFault>
    requires { place + length bytes.now ≤ 2 ^ 63 }
{
    let mut texts = Texts::new(alloc, room);
    let mut moment = 0;
    let mut end = place;
    let mut rest = bytes;
    while let Ok(Some(record)) = next_record(end, rest) {
        moment = add_as_it_is(alloc, &mut texts, form, moment, record)?;
        let size = 5 + record.len();
        end += size as u64;
        rest = &rest[size..];
    }
    texts.add_moment(clock)?;
    Ok(texts.into_items())
}

/// Adds a record of an area of this form, at this moment so far, where it is no tick. The moment behind it, in form 1.
fn add_as_it_is(
    alloc: Global,
    texts: &mut Texts,
    form: u8,
    moment: u64,
    record: &[u8],
) -> Result<u64, CandidateFault> {
    if form == 1 {
        return add_bare(alloc, texts, moment, record);
    }
    if record.len() > MOMENT {
        texts.add_record(record)?;
    }
    Ok(moment)
}

/// Adds a record of form 1 with this moment so far, where it is no tick. The moment behind it.
fn add_bare(
    alloc: Global,
    texts: &mut Texts,
    moment: u64,
    record: &[u8],
) -> Result<u64, CandidateFault> {
    match read_stamped(alloc, 1, record)? {
        Some(said) => {
            let added = add_said(texts, moment, &said);
            drop(said);
            added
        }
        None => Err(CandidateFault::NotMade),
    }
}

/// Adds what a record of form 1 says with this moment so far, where it is no tick. The moment behind it.
fn add_said(texts: &mut Texts, moment: u64, said: &Stamped) -> Result<u64, CandidateFault> {
    match said {
        Stamped::Bare(ask) => add_ask(texts, moment, ask),
        Stamped::Moment(_) | Stamped::Timed(_, _) => Err(CandidateFault::NotMade),
    }
}

/// Adds an ask with this moment so far, where it is no tick. The moment behind it.
fn add_ask(texts: &mut Texts, moment: u64, ask: &Ask) -> Result<u64, CandidateFault> {
    match ask {
        Ask::Tick { clock } => Ok(*clock),
        _ => {
            texts.add(moment, ask)?;
            Ok(moment)
        }
    }
}
