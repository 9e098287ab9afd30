//! What an audit refuses of the records of an image.
ghost use Rattle.std.specs.Prelude.{◌≡◌, IfOk};
ghost use Rattle.ocm_journal_records.specs.Stamps.{refused_from};

use ocm_base::NoMemory;
use ocm_journal_image::RawRecord;
use ocm_journal_records::moment_past;
use std::alloc::Global;

/// The place of the gate of the first record that says nothing, or whose moment may not stand at the moment so far.
pub fn first_refused(
    alloc: Global,
    form: u8,
    records: &[RawRecord],
) -> Result<Option<u64>, NoMemory>
    ensures { IfOk result (λ place. place ≡ refused_from form 0 records.now) }
{
    let mut moment = 0;
    for record in records {
        match moment_past(alloc, form, moment, record.bytes.as_slice())? {
            Some(past) => moment = past,
            None => return Ok(Some(record.place)),
        }
    }
    Ok(None)
}
