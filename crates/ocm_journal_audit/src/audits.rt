ghost use Rattle.std.specs.Prelude.{◌≡◌, ◌≤◌, ◌+◌, ◌++◌, ◌^◌, ℕ, List, length, Ok, Err, IsOk, IfOk, OnOk, OnErr};
ghost use Rattle.ocm_base.specs.Outside.{Appends, Rose};
ghost use Rattle.ocm_journal_image.specs.Reading.{image_of, records_from};
ghost use Rattle.ocm_journal_audit.specs.Audits.{Audits, WritesFront, host_line, told_of};
ghost use Rattle.ocm_journal_audit.specs.Passes.{told_lines};

use crate::faults::AuditFault;
use crate::labels::is_own_host;
use crate::lines::host_line;
use crate::testing::first_refused;
use crate::writing::write_records;
use ocm_base::{Sink, write_all};
use ocm_journal_image::{Front, ImageFault, read_blank_for_any, read_front};
use std::alloc::Global;

/// The place of a label in a journal's file.
const LABEL: u64 = 9;

/// Writes what each record of a journal's file says: `blank` for a file on which no journal was made yet, else the host
/// whose journal it is, a line for each record with the place of its gate, its kind and how many bytes it has, and the
/// place of the last gate. Nothing is written of a file that is no journal.
pub fn audit<K: Sink>(alloc: Global, bytes: &[u8], sink: &mut K) -> Result<(), AuditFault>
    requires { length bytes.now ≤ 2 ^ 62 }
    ensures ok { OnOk result ((text : List ℕ) × Audits bytes.now (Ok text) × Appends (K.taken sink.old) (K.taken sink.new) text) }
    ensures not_journal { (place : ℕ) → result ≡ Err (AuditFault.NotJournal place) → Audits bytes.now (Err place) × (sink.new ≡ sink.old) }
    ensures part { OnErr result (WritesFront bytes.now (K.taken sink.old) (K.taken sink.new)) }
    ensures write_fault { result ≡ Err AuditFault.WriteFault → Rose (K.faults sink.old) (K.faults sink.new) }
    ensures never_falls { K.faults sink.old ≤ K.faults sink.new }
{
    if read_blank_for_any(alloc, bytes)? {
        write_all(sink, b"blank\n")?;
        return Ok(());
    }
    match read_tested(alloc, bytes) {
        Ok(front) => {
            let text = host_line(alloc, front.header.label.as_slice())?;
            write_records(alloc, text, front.form, front.place, front.records, sink)
        }
        Err(ImageFault::NotJournal(place)) => Err(AuditFault::NotJournal(place)),
        Err(ImageFault::NoMemory) => Err(AuditFault::NoMemory),
    }
}

/// Reads an image up to its first gate byte, where nothing of it is refused.
fn read_tested(alloc: Global, bytes: &[u8]) -> Result<Front<'_>, ImageFault>
    requires { length bytes.now ≤ 2 ^ 62 }
    ensures tells { IfOk result (λ front. told_of (image_of bytes.now)
        ≡ Ok (host_line front.header.label ++ told_lines front.form (records_from 0 front.place front.records.now))) }
    ensures framed { IfOk result (λ front. IsOk (records_from 0 front.place front.records.now)) }
    ensures within { IfOk result (λ front. front.place + length front.records.now ≤ 2 ^ 63) }
    ensures refused { (place : ℕ) → result ≡ Err (ImageFault.NotJournal place) → told_of (image_of bytes.now) ≡ Err place }
{
    let front = read_front(alloc, bytes)?;
    let refused = first_refused(alloc, front.form, front.place, front.records)?;
    if !is_own_host(alloc, front.header.label.as_slice())? {
        return Err(ImageFault::NotJournal(LABEL));
    }
    match refused {
        Some(place) => Err(ImageFault::NotJournal(place)),
        None => Ok(front),
    }
}
