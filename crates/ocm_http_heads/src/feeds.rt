//! Where the next LF is.
ghost use Rattle.std.specs.Prelude.{◌≡◌, ◌≤◌, length, map};
ghost use Rattle.std.specs.List.{prefix_len};
ghost use Rattle.std.specs.Simd.Lanes.{mask_l};
ghost use Rattle.ocm_http_heads.specs.Endings.{is_feed, is_in_line};

use std::simd::prelude::*;

/// Bit k is set where byte k is LF.
#[inline(always)]
fn feeds(bytes: u8x16) -> u64
    ensures { result ≡ mask_l (map is_feed bytes) }
{
    bytes.simd_eq(u8x16::splat(b'\n')).to_bitmask()
}

fn before_feed_slowly(bytes: &[u8]) -> usize
    ensures count { result ≡ prefix_len is_in_line bytes.now }
    ensures within { result ≤ length bytes.now }
{
    for (i, byte) in bytes.iter().enumerate() {
        if *byte == b'\n' {
            return i;
        }
    }
    bytes.len()
}

/// How many bytes come before the first LF, or all where there is none. Where 16 bytes or more are left, it tests 16 at a
/// time.
pub fn before_feed(bytes: &[u8]) -> usize
    ensures count { result ≡ prefix_len is_in_line bytes.now }
    ensures within { result ≤ length bytes.now }
{
    let mut i = 0;
    while bytes.len() - i >= 16 {
        let found = feeds(u8x16::from_slice(&bytes[i..]));
        if found != 0 {
            return i + found.trailing_zeros() as usize;
        }
        i += 16;
    }
    i + before_feed_slowly(&bytes[i..])
}
