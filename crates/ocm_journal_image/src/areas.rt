ghost use Rattle.std.specs.Prelude.{◌≡◌, ◌≤◌, ◌<◌, ◌+◌, ◌^◌, length, drop, Ok, Err, IfOk, OnOk, MatchResult, option_copied};
ghost use Rattle.ocm_journal_image.specs.Layout.{IsForm};
ghost use Rattle.ocm_journal_image.specs.Reading.{FirstIs, Gives, TakesNext, record_length, records_from, with_form, area_of};

use crate::faults::{ImageFault, NotImage};
use crate::readings::{Area, RawRecord, Records};
use ocm_texts::{Bytes, List};
use std::alloc::Global;

/// The most bytes of a record.
pub const GREATEST_RECORD: usize = 1 << 21;

/// The length of the record whose gate byte stands before these bytes. None where they hold no such record.
fn record_length(bytes: &[u8]) -> Option<usize>
    ensures { result ≡ record_length bytes.now }
{
    let [a, b, c, d, after @ ..] = bytes else {
        return None;
    };
    let length = u32::from_be_bytes([*a, *b, *c, *d]) as usize;
    if length == 0 || length > GREATEST_RECORD || length > after.len() {
        None
    } else {
        Some(length)
    }
}

/// The record whose gate byte should stand at `place`, which is the first of `rest`: its bytes, which are not copied.
/// None where there is no open gate.
pub fn next_record(place: u64, rest: &[u8]) -> Result<Option<&[u8]>, NotImage>
    ensures { MatchResult result (λ first. FirstIs place rest.now (option_copied first)) (λ fault. records_from 0 place rest.now ≡ Err fault.0) }
{
    let [gate, after @ ..] = rest else {
        return Err(NotImage(place));
    };
    if *gate != 1 {
        return Ok(None);
    }
    match record_length(after) {
        Some(length) => Ok(Some(&after[4..4 + length])),
        None => Err(NotImage(place)),
    }
}

/// A copy of the record whose gate byte should stand at `place`, as [`next_record`] finds it.
fn next_copied(alloc: Global, place: u64, rest: &[u8]) -> Result<Option<RawRecord>, ImageFault>
    ensures { TakesNext place rest.now result }
{
    match next_record(place, rest) {
        Ok(Some(record)) => {
            let bytes = Bytes::of(alloc, record)?;
            Ok(Some(RawRecord { place, bytes }))
        }
        Ok(None) => Ok(None),
        Err(fault) => Err(ImageFault::from(fault)),
    }
}

/// The records of an area from the gate at `place` on, which is the first of `bytes`.
fn read_records(alloc: Global, place: u64, bytes: &[u8]) -> Result<Records, ImageFault>
    requires { place + length bytes.now ≤ 2 ^ 63 }
    ensures reads { Gives result (records_from 0 place bytes.now) }
    ensures within { IfOk result (λ read. (place ≤ read.end) × (read.end < place + length bytes.now)) }
{
    let mut items = List::new(alloc);
    let mut end = place;
    let mut rest = bytes;
    while let Some(record) = next_copied(alloc, end, rest)? {
        let size = 5 + record.bytes.len();
        end += size as u64;
        rest = &rest[size..];
        items.push(record)?;
    }
    Ok(Records { items, end })
}

/// The form of the area that begins at `start` in a file of `len` bytes. `bytes` are all of it that the file has.
pub fn read_form(len: u64, start: u64, bytes: &[u8]) -> Result<u8, NotImage>
    ensures reads { MatchResult result (λ form. area_of len start bytes.now ≡ with_form form (records_from 0 (start + 1) (drop 1 bytes.now)))
        (λ fault. area_of len start bytes.now ≡ Err fault.0) }
    ensures form { IfOk result (λ form. IsForm form) }
    ensures some { OnOk result (1 ≤ length bytes.now) }
{
    let [form, ..] = bytes else {
        return Err(NotImage(len));
    };
    if *form == 1 || *form == 2 {
        Ok(*form)
    } else {
        Err(NotImage(start))
    }
}

/// The area that begins at `start` in a file of `len` bytes. `bytes` are all of it that the file has.
pub fn read_area(alloc: Global, len: u64, start: u64, bytes: &[u8]) -> Result<Area, ImageFault>
    requires { start + length bytes.now ≤ 2 ^ 63 }
    ensures reads { Gives result (area_of len start bytes.now) }
    ensures within { IfOk result (λ live. (start < live.end) × (live.end < start + length bytes.now)) }
    ensures form { IfOk result (λ live. IsForm live.form) }
{
    let form = read_form(len, start, bytes)?;
    let Records { items, end } = read_records(alloc, start + 1, &bytes[1..])?;
    Ok(Area {
        form,
        records: items,
        end,
    })
}
