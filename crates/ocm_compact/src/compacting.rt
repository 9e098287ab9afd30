//! The journal of a server in its least form.
ghost use Rattle.std.specs.Prelude.{◌≡◌, ◌≢◌, ◌≤◌, ◌+◌, ◌^◌, ℕ, Err, IfOk, IsOk, List, None, Ok, length, true};
ghost use Rattle.ocm_entry.specs.declared.entries.Entry.{Entry};
ghost use Rattle.ocm_journal_audit.specs.Audits.{is_own_host};
ghost use Rattle.ocm_journal_audit.specs.Passes.{refused_in};
ghost use Rattle.ocm_journal_image.specs.Layout.{IsAreaSize, IsLabel};
ghost use Rattle.ocm_journal_image.specs.Reading.{records_from};
ghost use Rattle.ocm_compact.specs.Compacts.{ComesToAlike, Compacts, IsLeastAfter, IsMadeBelow, IsRefusedBelow, IsTakenBelow, fault_of};
ghost use Rattle.ocm_compact.specs.Replays.{IsReplayOf, home_of};

use crate::comparing::are_alike;
use crate::faults::CompactFault;
use crate::images::{are_records, image_of};
use crate::replays::Replay;
use ocm_base::{Bytes, List, NoMemory};
use ocm_compact_candidates::{CandidateFault, Journal, make_candidate};
use ocm_journal_audit::{first_refused, own_host};
use ocm_journal_image::{Front, ImageFault, fits_area, read_blank_for_any, read_front};
use ocm_types::Host;
use std::alloc::Global;

/// The place of a label in a journal's file.
const LABEL: u64 = 9;

/// The bytes of the journal of the same server in its least form: it has the same users, shares, received offers, requests,
/// messages and moment, the same stands at each place, and each ask is answered alike, now and after any further entries. A
/// blank file comes back as it is.
pub fn compact(alloc: Global, bytes: &[u8]) -> Result<Bytes, CompactFault>
    requires { length bytes.now ≤ 2 ^ 62 }
    ensures { Compacts bytes.now result }
{
    if read_blank_for_any(alloc, bytes)? {
        let same = Bytes::of(alloc, bytes)?;
        return Ok(same);
    }
    match read_front(alloc, bytes) {
        Ok(front) => compact_front(alloc, &front),
        Err(fault) => Err(fault_of(fault)),
    }
}

/// What is told of a fault of an image.
fn fault_of(fault: ImageFault) -> CompactFault
    ensures { result ≡ fault_of fault }
{
    match fault {
        ImageFault::NotJournal(place) => CompactFault::NotJournal(place),
        ImageFault::NoMemory => CompactFault::NoMemory,
    }
}

/// The bytes of the least form of an image. Its records are not copied.
fn compact_front(alloc: Global, front: &Front<'_>) -> Result<Bytes, CompactFault>
    requires within { front.now.place + length front.now.records.now ≤ 2 ^ 63 }
    requires label { IsLabel front.now.header.label }
    requires area { IsOk (records_from 0 front.now.place front.now.records.now) → IsAreaSize front.now.header.area }
    ensures made { IfOk result (IsMadeBelow front.now.header front.now.form (records_from 0 front.now.place front.now.records.now)) }
    ensures refused { (place : ℕ) → result ≡ Err (CompactFault.NotJournal place)
        → IsRefusedBelow front.now.header front.now.form (records_from 0 front.now.place front.now.records.now) place }
    ensures differs { result ≡ Err CompactFault.Differs
        → IsTakenBelow front.now.header front.now.form (records_from 0 front.now.place front.now.records.now) }
{
    match first_refused(alloc, front.form, front.place, front.records) {
        Ok(refused) => compact_framed(alloc, front, refused),
        Err(fault) => Err(fault_of(fault)),
    }
}

/// The bytes of the least form of an image whose records are framed. `refused` is the place of the first record that an audit
/// refuses.
fn compact_framed(
    alloc: Global,
    front: &Front<'_>,
    refused: Option<u64>,
) -> Result<Bytes, CompactFault>
    requires within { front.now.place + length front.now.records.now ≤ 2 ^ 63 }
    requires label { IsLabel front.now.header.label }
    requires area { IsOk (records_from 0 front.now.place front.now.records.now) → IsAreaSize front.now.header.area }
    requires refused { refused_in front.now.form 0 (records_from 0 front.now.place front.now.records.now) ≡ Ok refused }
    ensures made { IfOk result (IsMadeBelow front.now.header front.now.form (records_from 0 front.now.place front.now.records.now)) }
    ensures refused { (place : ℕ) → result ≡ Err (CompactFault.NotJournal place)
        → IsRefusedBelow front.now.header front.now.form (records_from 0 front.now.place front.now.records.now) place }
    ensures differs { result ≡ Err CompactFault.Differs
        → IsTakenBelow front.now.header front.now.form (records_from 0 front.now.place front.now.records.now) }
{
    let host = own_host(alloc, front.header.label.as_slice())?;
    match (host, refused) {
        (None, _) => Err(CompactFault::NotJournal(LABEL)),
        (Some(host), Some(place)) => {
            drop(host);
            Err(CompactFault::NotJournal(place))
        }
        (Some(host), None) => compact_records(alloc, host, front),
    }
}

/// The bytes of the least form of an image whose label is this host, and whose records say something.
fn compact_records(alloc: Global, host: Host, front: &Front<'_>) -> Result<Bytes, CompactFault>
    requires within { front.now.place + length front.now.records.now ≤ 2 ^ 63 }
    requires label { IsLabel front.now.header.label }
    requires area { IsOk (records_from 0 front.now.place front.now.records.now) → IsAreaSize front.now.header.area }
    requires host { host ≡ front.now.header.label }
    requires own { is_own_host front.now.header.label ≡ true }
    requires said { refused_in front.now.form 0 (records_from 0 front.now.place front.now.records.now) ≡ Ok None }
    ensures made { IfOk result (IsMadeBelow front.now.header front.now.form (records_from 0 front.now.place front.now.records.now)) }
    ensures refused { (place : ℕ) → result ≡ Err (CompactFault.NotJournal place)
        → IsRefusedBelow front.now.header front.now.form (records_from 0 front.now.place front.now.records.now) place }
    ensures differs { result ≡ Err CompactFault.Differs
        → IsTakenBelow front.now.header front.now.form (records_from 0 front.now.place front.now.records.now) }
{
    let mut old = Replay::new(alloc, host);
    match old.take_area(front.form, front.place, front.records) {
        Ok(None) => compact_replay(
            alloc,
            &old,
            front.header.label.as_slice(),
            front.header.area,
            front,
        ),
        Ok(Some(place)) => Err(CompactFault::NotJournal(place)),
        Err(fault) => Err(fault_of(fault)),
    }
}

/// The bytes of a journal in its least form, after which each ask is answered as after this replay of an image.
fn compact_replay(
    alloc: Global,
    old: &Replay,
    label: &[u8],
    area: u64,
    front: &Front<'_>,
) -> Result<Bytes, CompactFault>
    requires within { front.now.place + length front.now.records.now ≤ 2 ^ 63 }
    requires host { home_of old.now ≡ label.now }
    requires label { IsLabel label.now }
    requires area { IsAreaSize area }
    ensures made { IfOk result (λ bytes. (k : List Entry) → IsReplayOf old.now k → IsLeastAfter label.now area k bytes) }
    ensures journal { (place : ℕ) → result ≢ Err (CompactFault.NotJournal place) }
{
    match candidate_of(alloc, old, area, front) {
        Ok(texts) => {
            let made = write_alike(alloc, old, label, area, &texts);
            drop(texts);
            made
        }
        Err(CandidateFault::NotMade) => Err(CompactFault::Differs),
        Err(CandidateFault::NoMemory) => Err(CompactFault::NoMemory),
    }
}

/// A shorter list of records for an area of this size, which may come to lists that are alike.
fn candidate_of(
    alloc: Global,
    old: &Replay,
    area: u64,
    front: &Front<'_>,
) -> Result<List<Bytes>, CandidateFault>
    requires { front.now.place + length front.now.records.now ≤ 2 ^ 63 }
{
    let journal = Journal {
        clock: old.core.moment(),
        files: old.core.files(),
        others: &old.others,
        area,
        form: front.form,
        place: front.place,
        records: front.records,
    };
    make_candidate(alloc, &journal)
}

/// The bytes of a journal with these records, where they come to lists that are alike, and it takes them.
fn write_alike(
    alloc: Global,
    old: &Replay,
    label: &[u8],
    area: u64,
    texts: &List<Bytes>,
) -> Result<Bytes, CompactFault>
    requires host { home_of old.now ≡ label.now }
    requires label { IsLabel label.now }
    requires area { IsAreaSize area }
    ensures made { IfOk result (λ bytes. (k : List Entry) → IsReplayOf old.now k → IsLeastAfter label.now area k bytes) }
    ensures journal { (place : ℕ) → result ≢ Err (CompactFault.NotJournal place) }
{
    if !are_records(texts) || !fits_area(texts, area) {
        return Err(CompactFault::Differs);
    }
    let alike = comes_to_alike(alloc, old, texts)?;
    if !alike {
        return Err(CompactFault::Differs);
    }
    let made = image_of(alloc, label, area, texts)?;
    Ok(made)
}

/// Whether records of form 2 come to lists that are alike.
fn comes_to_alike(alloc: Global, old: &Replay, texts: &List<Bytes>) -> Result<bool, NoMemory>
    ensures { result ≡ Ok true → (k : List Entry) → IsReplayOf old.now k → ComesToAlike (home_of old.now) k texts.now }
{
    let host = old.core.host().copy()?;
    let mut new = Replay::new(alloc, host);
    let taken = new.take_texts(texts)?;
    if !taken {
        return Ok(false);
    }
    Ok(are_alike(old, &new))
}
