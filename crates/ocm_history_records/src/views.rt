//! What is kept in memory of an entry, as it is read.
ghost use Rattle.std.specs.Prelude.{◌≡◌, ◌<◌, ◌≤◌, ◌+◌, ◌∷◌, ◌++◌, [], length, min, option_copied, unwrap_or, OnErr, OnOk, Err};
ghost use Rattle.ocm_entry_bytes.specs.Spells.{counted};
ghost use Rattle.ocm_history_records.specs.Kept.{IsTooLong, asked_size, is_tick_record, lean_text};
ghost use Rattle.ocm_history_records.specs.Packed.{seen};

use crate::faults::RecordFault;
use ocm_base::Bytes;
use ocm_journal_area::AreaRecords;
use ocm_journal_image::GREATEST_RECORD;
use std::marker::Model;

/// Of which kind a record is that is kept.
#[derive(Clone, Copy)]
pub(crate) enum Kind {
    /// That of a tick, with its clock, in whole seconds since the epoch.
    Tick(u64),
    /// That of a PUT.
    Put,
    /// That of any other ask.
    Other,
}

/// What is kept in memory of an entry, wherever it lies there. Contracts see the record.
#[derive(Drop)]
pub struct KeptView<'a> {
    kind: Kind,
    bytes: &'a [u8],
}

impl<'a> Model for KeptView<'a> {
    ghost use Rattle.ocm_history_records.specs.declared.kept.KeptRecord.{KeptRecord};
    ghost use Rattle.ocm_history_records.specs.Packed.{seen};

    ghost Value = { KeptRecord };

    ghost view = { λ v. seen v.kind v.bytes.now };
}

impl<'a> KeptView<'a> {
    /// A record of this kind, with these bytes if it is of no tick.
    pub(crate) fn new(kind: Kind, bytes: &'a [u8]) -> KeptView<'a>
        ensures { result ≡ seen kind bytes.now }
    {
        KeptView { kind, bytes }
    }

    /// Whether it is that of a tick.
    pub fn is_tick(&self) -> bool
        ensures { result ≡ is_tick_record self.now }
    {
        match self.kind {
            Kind::Tick(_) => true,
            Kind::Put | Kind::Other => false,
        }
    }

    /// How many bytes of an area its record takes, in form 2, where this is the body that still stands of a PUT,
    /// or none does. A tick takes none, since the moments of later records show it. The count ends at 2^64 - 1.
    pub fn asked_size(&self, standing: Option<&Bytes>) -> u64
        ensures { result ≡ min (asked_size self.now (5 + length (lean_text self.now (option_copied standing.entry)))) 18446744073709551615 }
    {
        match self.kind {
            Kind::Tick(_) => 0,
            Kind::Put => (self.bytes.len() as u64)
                .saturating_add(9)
                .saturating_add(length_of(standing)),
            Kind::Other => (self.bytes.len() as u64).saturating_add(5),
        }
    }

    /// Adds its record in form 2, where this is the body that still stands of a PUT, or none does. `TooLong` says that
    /// no journal takes it. After a fault the texts are as before.
    pub(crate) fn add_to(
        &self,
        texts: &mut AreaRecords,
        standing: Option<&Bytes>,
    ) -> Result<(), RecordFault>
        ensures text { OnOk result (texts.new ≡ texts.old ++ lean_text self.now (option_copied standing.entry) ∷ []) }
        ensures length { OnOk result (let text = lean_text self.now (option_copied standing.entry) in (1 ≤ length text) × (length text ≤ 2097152)) }
        ensures full { result ≡ Err RecordFault.TooLong → IsTooLong (lean_text self.now (option_copied standing.entry)) }
        ensures unchanged { OnErr result (texts.new ≡ texts.old) }
    {
        match self.kind {
            Kind::Tick(clock) => add_whole(texts, &clock.to_be_bytes()),
            Kind::Put => add_with_body(texts, self.bytes, bytes_of(standing)),
            Kind::Other => add_whole(texts, self.bytes),
        }
    }
}

/// The length of a body, and 0 where there is none.
fn length_of(standing: Option<&Bytes>) -> u64
    ensures { result ≡ length (unwrap_or (option_copied standing.entry) []) }
{
    match standing {
        Some(body) => body.len() as u64,
        None => 0,
    }
}

/// The bytes of a body, none where there is no body.
fn bytes_of(standing: Option<&Bytes>) -> &[u8]
    ensures { result.now ≡ unwrap_or (option_copied standing.entry) [] }
{
    match standing {
        Some(body) => body.as_slice(),
        None => &[],
    }
}

/// Adds the record of a PUT of which this is all before the body.
fn add_with_body(texts: &mut AreaRecords, front: &[u8], body: &[u8]) -> Result<(), RecordFault>
    ensures text { OnOk result (texts.new ≡ texts.old ++ (front.now ++ counted body.now) ∷ []) }
    ensures length { OnOk result ((1 ≤ length (front.now ++ counted body.now)) × (length (front.now ++ counted body.now) ≤ 2097152)) }
    ensures full { result ≡ Err RecordFault.TooLong → 2097152 < length (front.now ++ counted body.now) }
    ensures unchanged { OnErr result (texts.new ≡ texts.old) }
{
    if front.len().saturating_add(body.len()) > GREATEST_RECORD - 4 {
        return Err(RecordFault::TooLong);
    }
    texts.add(front, &(body.len() as u32).to_be_bytes(), body)?;
    Ok(())
}

/// Adds a record that a journal takes.
fn add_whole(texts: &mut AreaRecords, text: &[u8]) -> Result<(), RecordFault>
    ensures text { OnOk result (texts.new ≡ texts.old ++ text.now ∷ []) }
    ensures length { OnOk result ((1 ≤ length text.now) × (length text.now ≤ 2097152)) }
    ensures full { result ≡ Err RecordFault.TooLong → IsTooLong text.now }
    ensures unchanged { OnErr result (texts.new ≡ texts.old) }
{
    if text.is_empty() || text.len() > GREATEST_RECORD {
        return Err(RecordFault::TooLong);
    }
    texts.add(text, &[], &[])?;
    Ok(())
}
