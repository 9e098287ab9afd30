//! The bytes of a journal in its least form.
ghost use Rattle.std.specs.Prelude.{◌≡◌, ◌≤◌, ◌+◌, ◌∷◌, ◌++◌, IfOk, length, take, true};
ghost use Rattle.ocm_journal_image.specs.Layout.{AreRecords, IsAreaSize, IsImage, IsLabel, blocks_size};

use ocm_base::{Bytes, List, NoMemory};
use ocm_journal_image::{GREATEST_RECORD, area_bytes, fresh_bytes};
use std::alloc::Global;

/// How many bytes stand in a new journal between its first byte and its first area.
const HEADER_REST: usize = 511;

/// Whether a journal takes each of these as a record.
pub fn are_records(texts: &List<Bytes>) -> bool
    ensures { result ≡ true → AreRecords texts.now }
{
    let items = texts.as_slice();
    for text in items {
        if text.is_empty() || text.len() > GREATEST_RECORD {
            return false;
        }
    }
    true
}

/// The bytes of a journal with this label and area size, whose first area has these records in form 2 and is live.
pub fn image_of(
    alloc: Global,
    label: &[u8],
    area: u64,
    texts: &List<Bytes>,
) -> Result<Bytes, NoMemory>
    requires label { IsLabel label.now }
    requires area { IsAreaSize area }
    requires records { AreRecords texts.now }
    requires room { 2 + blocks_size texts.now ≤ area }
    ensures { IfOk result (IsImage label.now area 2 texts.now) }
{
    let fresh = fresh_bytes(alloc, label, area, 2)?;
    let live = area_bytes(alloc, 0, texts)?;
    joined(alloc, fresh.as_slice(), live.as_slice())
}

/// The bytes of a journal, by what stands in a new one from its place 1 on and by its first area.
fn joined(alloc: Global, fresh: &[u8], live: &[u8]) -> Result<Bytes, NoMemory>
    requires { 511 ≤ length fresh.now }
    ensures { IfOk result (λ bytes. bytes ≡ (1 ∷ take 511 fresh.now) ++ live.now) }
{
    let mut bytes = Bytes::of(alloc, &[1])?;
    bytes.add(&fresh[..HEADER_REST])?;
    bytes.add(live)?;
    Ok(bytes)
}
