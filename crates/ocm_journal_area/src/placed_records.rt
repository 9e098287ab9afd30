ghost use Rattle.std.specs.Prelude.{◌≡◌, ◌≤◌, ◌<◌, ◌+◌, ◌^◌, ◌∷◌, [], length, drop, Ok, Err, IfOk, MatchOption, MatchResult};
ghost use Rattle.ocm_journal_image.specs.Layout.{IsForm};
ghost use Rattle.ocm_journal_image.specs.Reading.{area_of, records_from, with_form};
ghost use Rattle.ocm_journal_area.specs.Areas.{end_of};

use ocm_journal_image::{NotImage, next_record};
use std::alloc::Global;
use std::marker::Model;

/// A record as it lies among the bytes of an area.
#[derive(Drop)]
pub struct PlacedRecord<'a> {
    /// The place of its gate byte in the file.
    pub place: u64,
    /// Its bytes, without the gate and the length.
    pub bytes: &'a [u8],
}

/// The records of an area that was read. They have no memory besides the area's bytes. Contracts see the list of records.
pub struct PlacedRecords {
    /// The area from its form byte on, or nothing where there are no records.
    bytes: Vec<u8>,
    /// The place of the gate of the first of them in the file.
    place: u64,
}

impl Drop for PlacedRecords {
    fn drop(self) {
        let PlacedRecords { bytes: _, place: _ } = self;
    }
}

impl Model for PlacedRecords {
    ghost use Rattle.std.specs.Prelude.{◌≤◌, ◌+◌, ◌^◌, List, drop, length};
    ghost use Rattle.ocm_journal_image.specs.declared.readings.RawRecord.{RawRecord};
    ghost use Rattle.ocm_journal_image.specs.Reading.{records_from};
    ghost use Rattle.ocm_journal_area.specs.Areas.{AreRead, items_of};

    ghost Value = { List RawRecord };

    ghost view = { λ r. items_of (records_from 0 r.place (drop 1 r.bytes.items)) };

    ghost invariant = { λ r. AreRead r.place (drop 1 r.bytes.items) × (r.place + length (drop 1 r.bytes.items) ≤ 2 ^ 63) };
}

impl PlacedRecords {
    /// No records. Takes no memory.
    pub fn none(alloc: Global) -> PlacedRecords
        ensures { result ≡ [] }
    {
        PlacedRecords {
            bytes: Vec::new(alloc),
            place: 0,
        }
    }

    /// All of them, the oldest first, to be read one after another.
    pub fn left(&self) -> PlacedLeft<'_>
        ensures { result ≡ self.now }
    {
        PlacedLeft {
            place: self.place,
            rest: behind_form(&self.bytes),
        }
    }
}

/// The bytes behind the first.
fn behind_form(bytes: &[u8]) -> &[u8]
    ensures { result.now ≡ drop 1 bytes.now }
{
    match bytes {
        [_, rest @ ..] => rest,
        [] => &[],
    }
}

/// The records that are still to be read of an area, the oldest first. Contracts see them as a list.
#[derive(Drop)]
pub struct PlacedLeft<'a> {
    place: u64,
    rest: &'a [u8],
}

impl<'a> Model for PlacedLeft<'a> {
    ghost use Rattle.std.specs.Prelude.{◌≤◌, ◌+◌, ◌^◌, List, length};
    ghost use Rattle.ocm_journal_image.specs.declared.readings.RawRecord.{RawRecord};
    ghost use Rattle.ocm_journal_image.specs.Reading.{records_from};
    ghost use Rattle.ocm_journal_area.specs.Areas.{AreRead, items_of};

    ghost Value = { List RawRecord };

    ghost view = { λ l. items_of (records_from 0 l.place l.rest.now) };

    ghost invariant = { λ l. AreRead l.place l.rest.now × (l.place + length l.rest.now ≤ 2 ^ 63) };
}

impl<'a> PlacedLeft<'a> {
    /// The next record. None where none is left.
    pub fn next(&mut self) -> Option<PlacedRecord<'a>>
        ensures { MatchOption result (self.old ≡ []) (λ r. self.old ≡ record { place = r.place; bytes = r.bytes.now } ∷ self.new) }
    {
        let Ok(Some(bytes)) = next_record(self.place, self.rest) else {
            return None;
        };
        let place = self.place;
        let size = 5 + bytes.len();
        self.place = place + size as u64;
        self.rest = &self.rest[size..];
        Some(PlacedRecord { place, bytes })
    }
}

/// What an area holds.
#[derive(Drop)]
pub struct PlacedArea {
    /// 1 or 2.
    pub form: u8,
    /// Its records, the oldest first.
    pub records: PlacedRecords,
    /// The place behind the last record, where the gate byte of the next one would stand.
    pub end: u64,
}

/// The area that begins at `start` in a file of `len` bytes. `bytes` are all of it that the file has. They are kept as they are.
pub fn place_area(len: u64, start: u64, bytes: Vec<u8>) -> Result<PlacedArea, NotImage>
    requires { start + length bytes.items ≤ 2 ^ 63 }
    ensures reads { MatchResult result (λ area. area_of len start bytes.items ≡ Ok (record { form = area.form; records = area.records; end = area.end })) (λ fault. area_of len start bytes.items ≡ Err fault.0) }
    ensures within { IfOk result (λ area. (start < area.end) × (area.end < start + length bytes.items)) }
    ensures form { IfOk result (λ area. IsForm area.form) }
{
    match form_and_end(len, start, &bytes) {
        Ok((form, end)) => Ok(PlacedArea {
            form,
            records: PlacedRecords {
                bytes,
                place: start + 1,
            },
            end,
        }),
        Err(fault) => Err(fault),
    }
}

/// The form of an area, and the place behind its last record.
fn form_and_end(len: u64, start: u64, bytes: &[u8]) -> Result<(u8, u64), NotImage>
    requires { start + length bytes.now ≤ 2 ^ 63 }
    ensures form { IfOk result (λ both. IsForm both.0) }
    ensures some { IfOk result (λ both. 1 ≤ length bytes.now) }
    ensures reads { MatchResult result
        (λ both. (area_of len start bytes.now ≡ with_form both.0 (records_from 0 (start + 1) (drop 1 bytes.now))) × (end_of (records_from 0 (start + 1) (drop 1 bytes.now)) ≡ Ok both.1))
        (λ fault. area_of len start bytes.now ≡ Err fault.0) }
    ensures within { IfOk result (λ both. (start < both.1) × (both.1 < start + length bytes.now)) }
{
    let [form, rest @ ..] = bytes else {
        return Err(NotImage(len));
    };
    if *form != 1 && *form != 2 {
        return Err(NotImage(start));
    }
    let end = last_gate(start + 1, rest)?;
    Ok((*form, end))
}

/// The place behind the last record of an area, of which these are the bytes from the gate at `place` on.
fn last_gate(place: u64, bytes: &[u8]) -> Result<u64, NotImage>
    requires { place + length bytes.now ≤ 2 ^ 63 }
    ensures reads { MatchResult result (λ end. end_of (records_from 0 place bytes.now) ≡ Ok end) (λ fault. end_of (records_from 0 place bytes.now) ≡ Err fault.0) }
    ensures within { IfOk result (λ end. (place ≤ end) × (end < place + length bytes.now)) }
{
    let mut end = place;
    let mut rest = bytes;
    while let Some(record) = next_record(end, rest)? {
        let size = 5 + record.len();
        end += size as u64;
        rest = &rest[size..];
    }
    Ok(end)
}
