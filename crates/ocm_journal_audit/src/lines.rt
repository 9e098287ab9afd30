ghost use Rattle.std.specs.Prelude.{◌≡◌, ◌++◌, OnOk, IfOk};
ghost use Rattle.std.specs.Fmt.{decimal};
ghost use Rattle.ocm_journal_audit.specs.Audits.{end_line, host_line, kind_in, line_of};
ghost use Rattle.ocm_journal_records.specs.Stamps.{stamped_of};

use ocm_base::{Bytes, NoMemory};
use ocm_journal_records::read_stamped;
use std::alloc::Global;

/// The line that names the host of a journal.
pub fn host_line(alloc: Global, label: &[u8]) -> Result<Bytes, NoMemory>
    ensures { IfOk result (λ line. line ≡ host_line label.now) }
{
    let mut line = Bytes::of(alloc, b"host ")?;
    line.add(label)?;
    line.add(b"\n")?;
    Ok(line)
}

/// Adds a number and what follows it.
fn add_number(alloc: Global, text: &mut Bytes, number: u64, behind: &[u8]) -> Result<(), NoMemory>
    ensures { OnOk result (text.new ≡ text.old ++ (decimal number ++ behind.now)) }
{
    let digits = number.to_string(alloc)?;
    text.add(digits.as_bytes())?;
    text.add(behind)?;
    Ok(())
}

/// Adds the line that names the place of the last gate.
pub fn add_end_line(alloc: Global, text: &mut Bytes, place: u64) -> Result<(), NoMemory>
    ensures { OnOk result (text.new ≡ text.old ++ end_line place) }
{
    text.add(b"end ")?;
    add_number(alloc, text, place, b"\n")?;
    Ok(())
}

/// The kind of a record in one word. Empty where it says nothing.
#[tactic(auto, unfolding(crate::specs::Audits::kind_in))]
fn kind_in(alloc: Global, form: u8, bytes: &[u8]) -> Result<&'static str, NoMemory>
    ensures { IfOk result (λ kind. kind.now ≡ kind_in (stamped_of form bytes.now)) }
{
    match read_stamped(alloc, form, bytes)? {
        Some(said) => {
            let kind = said.kind();
            drop(said);
            Ok(kind)
        }
        None => Ok(""),
    }
}

/// Adds the line of a record: the place of its gate, its kind, and how many bytes it has.
pub fn add_line(
    alloc: Global,
    text: &mut Bytes,
    form: u8,
    place: u64,
    bytes: &[u8],
) -> Result<(), NoMemory>
    ensures { OnOk result (text.new ≡ text.old ++ line_of form place bytes.now) }
{
    let kind = kind_in(alloc, form, bytes)?;
    add_number(alloc, text, place, b" ")?;
    text.add(kind.as_bytes())?;
    text.add(b" ")?;
    add_number(alloc, text, bytes.len() as u64, b"\n")?;
    Ok(())
}
