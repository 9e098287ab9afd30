ghost use Rattle.std.specs.Prelude.{◌≡◌, ◌≤◌, ◌<◌, ◌+◌, ◌^◌, min, length, Some, Result, Ok, IfOk, OnOk};
ghost use Rattle.ocm_journal_image.specs.Reading.{Gives, first_difference, area_in, header_of, sizes_tested, start_of};
ghost use Rattle.ocm_journal_image.specs.Layout.{live_start, IsLabel, IsAreaSize};

use crate::faults::ImageFault;
use crate::readings::Header;
use ocm_texts::Bytes;
use std::alloc::Global;

/// How many bytes a header has.
pub const HEADER_SIZE: u64 = 512;

/// The least size of an area.
pub const LEAST_AREA: u64 = 1792;

/// The greatest size of an area.
pub const GREATEST_AREA: u64 = 1 << 38;

/// The place of the first byte that differs from the text, which should stand from `place` on.
fn first_difference(place: u64, text: &[u8], bytes: &[u8]) -> Option<u64>
    requires { place + length text.now < 2 ^ 64 }
    ensures { result ≡ first_difference place text.now bytes.now }
{
    let [t, text_rest @ ..] = text else {
        return None;
    };
    let [b, bytes_rest @ ..] = bytes else {
        return None;
    };
    if b == t {
        first_difference(place + 1, text_rest, bytes_rest)
    } else {
        Some(place)
    }
}

/// The area size in a header that is there up to its selector.
pub fn area_in(bytes: &[u8]) -> u64
    requires { 512 ≤ length bytes.now }
    ensures { result ≡ area_in bytes.now }
{
    let at = 9 + bytes[8] as usize;
    let [a, b, c, d, e, f, g, h] = [
        bytes[at],
        bytes[at + 1],
        bytes[at + 2],
        bytes[at + 3],
        bytes[at + 4],
        bytes[at + 5],
        bytes[at + 6],
        bytes[at + 7],
    ];
    u64::from_be_bytes([a, b, c, d, e, f, g, h])
}

/// The header behind a right first byte and mark.
fn sizes_tested(alloc: Global, len: u64, bytes: &[u8]) -> Result<Header, ImageFault>
    requires within { length bytes.now ≤ len }
    requires whole { min len 512 ≤ length bytes.now }
    ensures { Gives result (sizes_tested len bytes.now) }
{
    if len > 8 && bytes[8] == 0 {
        return Err(ImageFault::NotJournal(8));
    }
    if len < HEADER_SIZE {
        return Err(ImageFault::NotJournal(len));
    }
    let label_end = 9 + bytes[8] as usize;
    let area = area_in(bytes);
    if area < LEAST_AREA || area > GREATEST_AREA {
        return Err(ImageFault::NotJournal(label_end as u64));
    }
    let label = Bytes::of(alloc, &bytes[9..label_end])?;
    Ok(Header {
        label,
        area,
        selector: bytes[label_end + 8],
    })
}

/// The header of a file of `len` bytes that begins with `bytes`: all of them, or at least the first 512.
pub fn read_header(alloc: Global, len: u64, bytes: &[u8]) -> Result<Header, ImageFault>
    requires within { length bytes.now ≤ len }
    requires whole { min len 512 ≤ length bytes.now }
    ensures reads { Gives result (header_of len bytes.now) }
    ensures sizes { IfOk result (λ header. IsLabel header.label × IsAreaSize header.area) }
    ensures long { OnOk result (512 ≤ len) }
{
    match first_difference(0, b"\x01OCMJ002", bytes) {
        Some(place) => Err(ImageFault::NotJournal(place)),
        None => sizes_tested(alloc, len, bytes),
    }
}

impl Header {
    /// Where the live area begins in the file.
    pub fn start(&self) -> u64
        requires { self.now.area ≤ 2 ^ 38 }
        ensures { result ≡ start_of self.now }
    {
        if self.selector == 1 {
            HEADER_SIZE
        } else {
            HEADER_SIZE + self.area
        }
    }
}
