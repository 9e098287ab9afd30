ghost use Rattle.std.specs.Prelude.{◌≡◌, ◌≤◌, ◌+◌, ◌^◌, length, Ok, Err, IfOk, MatchResult};
ghost use Rattle.ocm_journal_image.specs.Layout.{IsForm, IsLabel};
ghost use Rattle.ocm_journal_image.specs.Reading.{Gives, image_of, live_bytes, records_from, start_of, with_form, with_header};

use crate::areas::{read_area, read_form};
use crate::faults::ImageFault;
use crate::headers::read_header;
use crate::readings::{Header, Image};
use std::alloc::Global;

/// The bytes of the live area, as far as the file has them.
fn live_bytes<'a>(header: &Header, bytes: &'a [u8]) -> &'a [u8]
    requires { header.now.area ≤ 2 ^ 38 }
    ensures { result.now ≡ live_bytes header.now bytes.now }
{
    let start = header.start() as usize;
    if start > bytes.len() {
        return &[];
    }
    let rest = &bytes[start..];
    &rest[..rest.len().min(header.area as usize)]
}

/// What stands in an image before its records, and the bytes of its records.
#[derive(Drop)]
pub struct Front<'a> {
    pub header: Header,
    /// The form of the live area: 1 or 2.
    pub form: u8,
    /// The place of the live area's first gate byte.
    pub place: u64,
    /// The bytes of the live area from there on, as far as the file has them.
    pub records: &'a [u8],
}

/// Reads the image that the bytes of a file are up to its first gate byte. What is behind it is not tested.
pub fn read_front(alloc: Global, bytes: &[u8]) -> Result<Front<'_>, ImageFault>
    requires { length bytes.now ≤ 2 ^ 62 }
    ensures reads { MatchResult result (λ front. image_of bytes.now ≡ with_header front.header (with_form front.form (records_from 0 front.place front.records.now)))
        (λ fault. Gives (Err fault) (image_of bytes.now)) }
    ensures form { IfOk result (λ front. IsForm front.form) }
    ensures label { IfOk result (λ front. IsLabel front.header.label) }
    ensures within { IfOk result (λ front. front.place + length front.records.now ≤ 2 ^ 63) }
{
    let len = bytes.len() as u64;
    let header = read_header(alloc, len, bytes)?;
    let live = live_bytes(&header, bytes);
    let start = header.start();
    let form = read_form(len, start, live)?;
    Ok(Front {
        header,
        form,
        place: start + 1,
        records: &live[1..],
    })
}

/// Reads the image that the bytes of a file are.
pub fn read_image(alloc: Global, bytes: &[u8]) -> Result<Image, ImageFault>
    requires { length bytes.now ≤ 2 ^ 62 }
    ensures { Gives result (image_of bytes.now) }
{
    let len = bytes.len() as u64;
    let header = read_header(alloc, len, bytes)?;
    let live = read_area(alloc, len, header.start(), live_bytes(&header, bytes))?;
    Ok(Image { header, live })
}
