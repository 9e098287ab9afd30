ghost use Rattle.std.specs.Prelude.{◌≡◌, ◌<◌, ◌^◌, ◌↔◌, IfOk, IsTrue, nat_eq};
ghost use Rattle.std.specs.Cmp.Lexicographic.{pointwise};
ghost use Rattle.ocm_journal_image.specs.Layout.{IsLabel, fresh};
ghost use Rattle.ocm_journal_image.specs.Blank.{blank_of, IsBlankForAny};

use crate::fresh::fresh_bytes;
use crate::headers::area_in;
use ocm_texts::NoMemory;
use std::alloc::Global;

/// How far the making of a journal had come.
#[derive(Clone, Copy)]
pub enum Blank {
    /// At most one byte is there.
    Empty,
    /// The first byte is 0, and a front of the rest may be written.
    Begun,
    /// All but the first byte is written, in this form.
    Written(u8),
}

/// The most bytes of a file on which no journal was made yet.
const GREATEST_BLANK: usize = 514;

/// Whether these are the fresh bytes of this label, area size and form.
fn is_fresh(
    alloc: Global,
    label: &[u8],
    area: u64,
    form: u8,
    bytes: &[u8],
) -> Result<bool, NoMemory>
    requires { IsLabel label.now }
    ensures { IfOk result (λ is. is ≡ pointwise nat_eq bytes.now (fresh label.now area form)) }
{
    let fresh = fresh_bytes(alloc, label, area, form)?;
    let same = bytes == fresh.as_slice();
    Ok(same)
}

/// How far the making of a journal of this label and area size had come on a file of these bytes.
/// None where they are not those of a file on which none was made.
pub fn read_blank(
    alloc: Global,
    label: &[u8],
    area: u64,
    bytes: &[u8],
) -> Result<Option<Blank>, NoMemory>
    requires { IsLabel label.now }
    ensures { IfOk result (λ blank. blank ≡ blank_of label.now area bytes.now) }
{
    if bytes.len() <= 1 {
        return Ok(Some(Blank::Empty));
    }
    if bytes[0] == 0 {
        let begun = if bytes.len() <= GREATEST_BLANK {
            Some(Blank::Begun)
        } else {
            None
        };
        return Ok(begun);
    }
    if bytes[0] == 1 {
        return Ok(None);
    }
    if is_fresh(alloc, label, area, 1, &bytes[1..])? {
        return Ok(Some(Blank::Written(1)));
    }
    if is_fresh(alloc, label, area, 2, &bytes[1..])? {
        return Ok(Some(Blank::Written(2)));
    }
    Ok(None)
}

/// Whether a file of these bytes is one on which no journal was made yet, whatever its label and area size were to be.
pub fn read_blank_for_any(alloc: Global, bytes: &[u8]) -> Result<bool, NoMemory>
    ensures { IfOk result (λ blank. IsTrue blank ↔ IsBlankForAny bytes.now) }
{
    if bytes.len() <= 1 {
        return Ok(true);
    }
    if bytes[0] == 0 {
        return Ok(bytes.len() <= GREATEST_BLANK);
    }
    if bytes.len() != GREATEST_BLANK {
        return Ok(false);
    }
    let label_end = 9 + bytes[8] as usize;
    if label_end == 9 {
        return Ok(false);
    }
    let blank = read_blank(alloc, &bytes[9..label_end], area_in(bytes), bytes)?;
    Ok(blank.is_some())
}
