//! What is kept in memory of each entry, so that a journal is written anew without a look at the disk.
ghost use Rattle.std.specs.Prelude.{◌≡◌, ◌++◌, ℕ, List, length, if◌then◌else◌, IfOk};
ghost use Rattle.ocm_entry.specs.declared.asks.Ask.TheVariants.{Dav};
ghost use Rattle.ocm_entry_bytes.specs.Spells.{counted};
ghost use Rattle.ocm_path.specs.Paths.{Segments};
ghost use Rattle.ocm_law_sessions.specs.Written.{stamp};
ghost use Rattle.ocm_history_records.specs.declared.kept.KeptRecord.TheVariants as kinds;
ghost use Rattle.ocm_history_records.specs.Kept.{is_tick_record, kept_at};

use crate::views::{KeptView, Kind};
use ocm_base::{Bytes, NoMemory};
use ocm_entry::{Ask, Method};
use std::alloc::Global;

/// What is kept in memory of an entry.
pub enum KeptRecord {
    /// Of a tick: its clock, in whole seconds since the epoch.
    Tick(u64),
    /// Of a PUT: its record in form 2 up to the body.
    Put(Bytes),
    /// Of any other ask: its record in form 2.
    Other(Bytes),
}

impl Drop for KeptRecord {
    fn drop(self) {
        match self {
            KeptRecord::Tick(_) => {}
            KeptRecord::Put(_) => {}
            KeptRecord::Other(_) => {}
        }
    }
}

impl KeptRecord {
    /// What is kept of an ask that changed something at this moment. `text` is its record in form 2.
    pub fn of(alloc: Global, clock: u64, ask: &Ask, text: &[u8]) -> Result<KeptRecord, NoMemory>
        requires { text.now ≡ stamp clock ask.now }
        ensures { IfOk result (λ kept. kept ≡ kept_at clock ask.now) }
    {
        match ask {
            Ask::Tick { clock: _ } => Ok(KeptRecord::Tick(clock)),
            Ask::Dav {
                secret: _,
                method,
                path: _,
                body,
            } => of_request(alloc, *method, body.len(), text),
            Ask::AddUser { .. }
            | Ask::Local { .. }
            | Ask::Offer { .. }
            | Ask::Notice { .. }
            | Ask::Due
            | Ask::Settle { .. }
            | Ask::Carry { .. } => whole_of(alloc, text),
        }
    }

    /// Whether it is that of a tick.
    pub fn is_tick(&self) -> bool
        ensures { result ≡ is_tick_record self.now }
    {
        match self {
            KeptRecord::Tick(_) => true,
            KeptRecord::Put(_) | KeptRecord::Other(_) => false,
        }
    }

    /// The record as it is read, wherever it lies.
    pub fn view(&self) -> KeptView<'_>
        ensures { result ≡ self.now }
    {
        match self {
            KeptRecord::Tick(clock) => KeptView::new(Kind::Tick(*clock), &[]),
            KeptRecord::Put(front) => KeptView::new(Kind::Put, front.as_slice()),
            KeptRecord::Other(text) => KeptView::new(Kind::Other, text.as_slice()),
        }
    }

    /// How many bytes of an area are taken besides the records of asks, where this is the newest record: the form
    /// byte and the last gate, and the record of a tick.
    pub fn rest_size(&self) -> u64
        ensures { result ≡ (if is_tick_record self.now then 15 else 2) }
    {
        if self.is_tick() { 15 } else { 2 }
    }
}

/// What is kept of a request for files, with a body of so many bytes. `text` is its record in form 2.
fn of_request(
    alloc: Global,
    method: Method,
    body: usize,
    text: &[u8],
) -> Result<KeptRecord, NoMemory>
    ensures { (clock : ℕ) (secret : List ℕ) (path : Segments) (bytes : List ℕ) → text.now ≡ stamp clock (Dav secret method path bytes) → body ≡ length bytes
        → IfOk result (λ kept. kept ≡ kept_at clock (Dav secret method path bytes)) }
{
    match method {
        Method::Put => front_of(alloc, text, body),
        Method::Get
        | Method::Head
        | Method::Delete
        | Method::Mkcol
        | Method::List0
        | Method::List1 => whole_of(alloc, text),
    }
}

/// What is kept of a PUT: its record without its last bytes, which are the length of its body and so many more.
fn front_of(alloc: Global, text: &[u8], body: usize) -> Result<KeptRecord, NoMemory>
    ensures { (front bytes : List ℕ) → text.now ≡ front ++ counted bytes → body ≡ length bytes → IfOk result (λ kept. kept ≡ kinds.Put front) }
{
    let end = text.len().saturating_sub(4).saturating_sub(body);
    let front = Bytes::of(alloc, &text[..end])?;
    Ok(KeptRecord::Put(front))
}

/// What is kept of an ask that is neither a tick nor a PUT.
fn whole_of(alloc: Global, text: &[u8]) -> Result<KeptRecord, NoMemory>
    ensures { IfOk result (λ kept. kept ≡ kinds.Other text.now) }
{
    let whole = Bytes::of(alloc, text)?;
    Ok(KeptRecord::Other(whole))
}
