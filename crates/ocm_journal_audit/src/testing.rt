ghost use Rattle.std.specs.Prelude.{◌≡◌, ◌≤◌, ◌+◌, ◌^◌, length, Ok, Err, IsOk, MatchResult};
ghost use Rattle.ocm_journal_image.specs.Reading.{Gives, records_from};
ghost use Rattle.ocm_journal_audit.specs.Passes.{refused_in};

use ocm_journal_image::{ImageFault, NotImage, next_record};
use ocm_journal_records::moment_past;
use std::alloc::Global;

/// Tests the framing of the records from the gate at `place` on, which is the first of `bytes`.
fn test_framing(place: u64, bytes: &[u8]) -> Result<(), NotImage>
    requires { place + length bytes.now ≤ 2 ^ 63 }
    ensures { MatchResult result (λ _. IsOk (records_from 0 place bytes.now)) (λ fault. records_from 0 place bytes.now ≡ Err fault.0) }
{
    let mut end = place;
    let mut rest = bytes;
    while let Some(bytes) = next_record(end, rest)? {
        let size = 5 + bytes.len();
        end += size as u64;
        rest = &rest[size..];
    }
    Ok(())
}

/// The place of the gate of the first record that is no entry or whose moment may not stand there, among those from the
/// gate at `place` on, which is the first of `bytes`. None where there is none. A fault of their framing comes first.
pub fn first_refused(
    alloc: Global,
    form: u8,
    place: u64,
    bytes: &[u8],
) -> Result<Option<u64>, ImageFault>
    requires { place + length bytes.now ≤ 2 ^ 63 }
    ensures { Gives result (refused_in form 0 (records_from 0 place bytes.now)) }
{
    let mut moment = 0;
    let mut end = place;
    let mut rest = bytes;
    while let Some(bytes) = next_record(end, rest)? {
        let Some(past) = moment_past(alloc, form, moment, bytes)? else {
            test_framing(end, rest)?;
            return Ok(Some(end));
        };
        moment = past;
        let size = 5 + bytes.len();
        end += size as u64;
        rest = &rest[size..];
    }
    Ok(None)
}
