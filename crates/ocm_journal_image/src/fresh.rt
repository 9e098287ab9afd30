ghost use Rattle.std.specs.Prelude.{◌≡◌, ◌≤◌, ◌++◌, ◌+◌, length, replicate, IfOk, OnOk, IsTrue, ◌↔◌};
ghost use Rattle.ocm_journal_image.specs.Layout.{IsLabel, AreRecords, named, fresh, area_text, block, blocks_size};

use ocm_texts::{Bytes, List, NoMemory};
use std::alloc::Global;

/// So many zeros.
fn zeros(alloc: Global, count: usize) -> Result<Bytes, NoMemory>
    ensures { IfOk result (λ b. b ≡ replicate count 0) }
{
    let mut held = Vec::new(alloc);
    held.resize(count, 0)?;
    Ok(Bytes::from_vec(held))
}

/// What stands in a header from its place 1 up to the selector. The label has 1 to 255 bytes.
fn named_bytes(alloc: Global, label: &[u8], area: u64) -> Result<Bytes, NoMemory>
    requires { IsLabel label.now }
    ensures { IfOk result (λ b. b ≡ named label.now area) }
{
    let mut bytes = Bytes::of(alloc, b"OCMJ002")?;
    bytes.add(&[label.len() as u8])?;
    bytes.add(label)?;
    bytes.add(&area.to_be_bytes())?;
    Ok(bytes)
}

/// What a new journal holds from its place 1 on: its header, and a first area of this form without records.
/// The label has 1 to 255 bytes.
pub fn fresh_bytes(alloc: Global, label: &[u8], area: u64, form: u8) -> Result<Bytes, NoMemory>
    requires { IsLabel label.now }
    ensures { IfOk result (λ b. b ≡ fresh label.now area form) }
{
    let mut bytes = named_bytes(alloc, label, area)?;
    bytes.add(&[1])?;
    let passed_over = zeros(alloc, 494 - label.len())?;
    bytes.add(passed_over.as_slice())?;
    bytes.add(&[form, 0])?;
    Ok(bytes)
}

/// Whether an area of this size has room for the records.
pub fn fits_area(records: &List<Bytes>, area: u64) -> bool
    ensures { IsTrue result ↔ 2 + blocks_size records.now ≤ area }
{
    if area < 2 {
        return false;
    }
    let mut left = area - 2;
    for record in records.as_slice() {
        let size = record.len() as u64;
        if left < 5 || left - 5 < size {
            return false;
        }
        left -= 5 + size;
    }
    true
}

/// Adds a record as it stands in an area.
fn add_block(area: &mut Bytes, bytes: &[u8]) -> Result<(), NoMemory>
    requires { length bytes.now ≤ 2097152 }
    ensures { OnOk result (area.new ≡ area.old ++ block bytes.now) }
{
    area.add(&[1])?;
    area.add(&(bytes.len() as u32).to_be_bytes())?;
    area.add(bytes)
}

/// So many zeros, and then an area of form 2 up to the byte behind its last record.
pub fn area_bytes(alloc: Global, before: usize, records: &List<Bytes>) -> Result<Bytes, NoMemory>
    requires { AreRecords records.now }
    ensures { IfOk result (λ b. b ≡ replicate before 0 ++ area_text 2 records.now 0) }
{
    let mut bytes = zeros(alloc, before)?;
    bytes.add(&[2])?;
    for record in records.as_slice() {
        add_block(&mut bytes, record.as_slice())?;
    }
    bytes.add(&[0])?;
    Ok(bytes)
}
