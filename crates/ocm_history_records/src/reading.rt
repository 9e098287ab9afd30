//! What the records of a journal say.
ghost use Rattle.std.specs.Prelude.{◌≡◌, IfOk, IfSome};
ghost use Rattle.ocm_journal_records.specs.Stamps.{stamped_of};
ghost use Rattle.ocm_history_records.specs.Asking.{HasProperAsk};

use ocm_base::NoMemory;
use ocm_journal_records::{Stamped, read_stamped};
use std::alloc::Global;

/// What a record of an area of this form says, and None where it is no record of that form. Its ask is proper.
pub fn read_proper(alloc: Global, form: u8, bytes: &[u8]) -> Result<Option<Stamped>, NoMemory>
    ensures says { IfOk result (λ said. said ≡ stamped_of form bytes.now) }
    ensures proper { IfOk result (λ said. IfSome said HasProperAsk) }
{
    let said = read_stamped(alloc, form, bytes)?;
    Ok(said)
}
