//! What is written of a change.
ghost use Rattle.std.specs.Prelude.{◌≡◌, ◌≤◌, ◌+◌, ◌==◌, ℕ, List, length, min, if◌then◌else◌, unwrap_or, true, IsTrue, IfOk, OnOk};
ghost use Rattle.ocm_entry.specs.declared.entries.Entry.{Entry};
ghost use Rattle.ocm_entry_bytes.specs.Spells.{Fits, has_spelling, spelling};
ghost use Rattle.ocm_entry.specs.Ticks.{is_tick};
ghost use Rattle.ocm_rules.specs.History.{kept};
ghost use Rattle.ocm_rules.specs.Shares.{clock_of, moment};
ghost use Rattle.ocm_law_sessions.specs.Written.{stamp};
ghost use Rattle.ocm_history_records.specs.Drafts.{IsDraft};
ghost use Rattle.ocm_history_records.specs.Kept.{is_tick_record, kept_at};

use crate::kept::KeptRecord;
use crate::lists::KeptRecords;
use ocm_base::{NoMemory, and};
use ocm_entry::Ask;
use ocm_entry_bytes::{add_ask, encode};
use ocm_journal_image::FramedRecord;
use std::alloc::Global;

/// How many bytes the record of a PUT has at most beside the body, in form 2.
const MOST_BESIDE_BODY: usize = 1_297;

/// A change as it is written, and what is kept of it in memory.
#[derive(Drop)]
pub struct Draft {
    /// Its record in the form of the live area, as it is written.
    pub written: FramedRecord,
    /// What is kept of it in memory.
    pub newest: KeptRecord,
    /// How many bytes of an area its record takes in form 2, with its gate byte and its length.
    pub size: u64,
}

impl Draft {
    /// The draft, for an area of this form, of an ask that changes something at this moment.
    pub fn of(alloc: Global, form: u8, clock: u64, ask: &Ask) -> Result<Draft, NoMemory>
        requires { IsTrue (has_spelling ask.now) }
        ensures written { IfOk result (λ draft. draft.written ≡ (if form == 1 then spelling ask.now else stamp clock ask.now)) }
        ensures length { IfOk result (λ draft. (1 ≤ length draft.written) × (length draft.written ≤ 2097152)) }
        ensures newest { IfOk result (λ draft. draft.newest ≡ kept_at clock ask.now) }
        ensures size { IfOk result (λ draft. draft.size ≡ 5 + length (stamp clock ask.now)) }
        ensures fits { OnOk result (Fits ask.now) }
    {
        let text = stamped(alloc, clock, ask)?;
        let newest = KeptRecord::of(alloc, clock, ask, text.as_slice());
        let (text, newest) = and(text, newest)?;
        let size = text.len() as u64 + 5;
        let (newest, written) = and(newest, in_form(alloc, form, ask, text))?;
        Ok(Draft {
            written,
            newest,
            size,
        })
    }

    /// The draft, for an area of this form, of an ask that changes something where the moment so far is this. The moment
    /// at a tick is its clock.
    pub fn after(alloc: Global, form: u8, so_far: u64, ask: &Ask) -> Result<Draft, NoMemory>
        requires { IsTrue (has_spelling ask.now) }
        ensures drafted { IfOk result (λ draft. (host : List ℕ) (g : List Entry) → so_far ≡ moment (kept host g) → IsDraft host form g ask.now draft) }
        ensures length { IfOk result (λ draft. (1 ≤ length draft.written) × (length draft.written ≤ 2097152)) }
        ensures fits { OnOk result (Fits ask.now) }
    {
        let draft = Draft::of(alloc, form, moment_at(ask, so_far), ask)?;
        Ok(draft)
    }

    /// What is kept of the ask. What is written of it is let go.
    pub fn into_newest(self) -> KeptRecord
        ensures { result ≡ self.newest }
    {
        let Draft {
            written,
            newest,
            size: _,
        } = self;
        drop(written);
        newest
    }

    /// How many bytes of an area the records of asks take at most with this one, where they take at most as many as these
    /// say without it. The count ends at 2^64 - 1.
    pub fn most_with(&self, records: &KeptRecords) -> u64
        ensures value { result ≡ min (records.now.size + (if is_tick_record self.now.newest then 0 else self.now.size)) 18446744073709551615 }
    {
        if self.newest.is_tick() {
            records.size()
        } else {
            records.size().saturating_add(self.size)
        }
    }
}

/// The record of this form, of an ask whose record in form 2 this is: the spelling alone, or that with its moment.
fn in_form(
    alloc: Global,
    form: u8,
    ask: &Ask,
    stamped: FramedRecord,
) -> Result<FramedRecord, NoMemory>
    requires { IsTrue (has_spelling ask.now) }
    ensures { IfOk result (λ written. written ≡ (if form == 1 then spelling ask.now else stamped)) }
{
    if form == 1 {
        drop(stamped);
        let text = encode(alloc, ask)?;
        FramedRecord::of(alloc, text.as_slice())
    } else {
        Ok(stamped)
    }
}

/// The record in form 2 of an ask at a moment: the ask is spelled straight behind the moment.
fn stamped(alloc: Global, clock: u64, ask: &Ask) -> Result<FramedRecord, NoMemory>
    requires { IsTrue (has_spelling ask.now) }
    ensures text { IfOk result (λ written. written ≡ stamp clock ask.now) }
    ensures fits { OnOk result (Fits ask.now) }
{
    let mut text = FramedRecord::begin(alloc, room_for(ask))?;
    text.add(&clock.to_be_bytes())?;
    if !is_tick(ask) {
        add_ask(alloc, &mut text, ask)?;
    }
    FramedRecord::finish(alloc, text)
}

/// For how many bytes of a record room is taken at first. The record of a PUT has no more, so its body is not moved again.
fn room_for(ask: &Ask) -> usize {
    match ask {
        Ask::Dav {
            secret: _,
            method: _,
            path: _,
            body,
        } => MOST_BESIDE_BODY.saturating_add(body.len()),
        Ask::AddUser { .. }
        | Ask::Local { .. }
        | Ask::Offer { .. }
        | Ask::Notice { .. }
        | Ask::Tick { .. }
        | Ask::Due
        | Ask::Settle { .. }
        | Ask::Carry { .. } => MOST_BESIDE_BODY,
    }
}

/// Whether an ask is a tick.
fn is_tick(ask: &Ask) -> bool
    ensures is { result ≡ is_tick ask.now }
    ensures fits { result ≡ true → Fits ask.now }
{
    match ask {
        Ask::Tick { clock } => {
            let _clock = *clock;
            true
        }
        Ask::AddUser { .. }
        | Ask::Local { .. }
        | Ask::Offer { .. }
        | Ask::Notice { .. }
        | Ask::Dav { .. }
        | Ask::Due
        | Ask::Settle { .. }
        | Ask::Carry { .. } => false,
    }
}

/// The moment at an ask that changes something, where it was this before: that of a tick is its clock.
fn moment_at(ask: &Ask, so_far: u64) -> u64
    ensures { result ≡ unwrap_or (clock_of ask.now) so_far }
{
    match ask {
        Ask::Tick { clock } => *clock,
        Ask::AddUser { .. }
        | Ask::Local { .. }
        | Ask::Offer { .. }
        | Ask::Notice { .. }
        | Ask::Dav { .. }
        | Ask::Due
        | Ask::Settle { .. }
        | Ask::Carry { .. } => so_far,
    }
}
