//! Interim replies, which a server may send ahead of its reply (RFC 9110 section 15.2).
ghost use Rattle.std.specs.Prelude.{◌≡◌, ◌<◌, ◌≤◌, length, IfSome};
ghost use Rattle.ocm_net_flights.specs.Interims as interims;
ghost use Rattle.ocm_net_flights.specs.Interims.{IsFront};

use ocm_http_heads::{Found, Look, blanks};
use ocm_limits::MOST_HEAD_BYTES;

/// Whether a byte ends the status of a status line.
fn ends_status(byte: u8) -> bool
    ensures { result ≡ interims.ends_status byte }
{
    byte == b' ' || byte == b'\r' || byte == b'\n'
}

/// Whether these go on as a status line does behind the first digit of a status: with two digits, but for 01, and its end.
fn goes_on(rest: &[u8]) -> bool
    ensures { result ≡ interims.goes_on rest.now }
{
    match rest {
        [tens, ones, end, ..] => {
            tens.is_ascii_digit()
                && ones.is_ascii_digit()
                && ends_status(*end)
                && !(*tens == b'0' && *ones == b'1')
        }
        _ => false,
    }
}

/// Whether a head is that of an interim reply: of HTTP/1.1 with a status from 100 to 199, but for 101, behind which the
/// bytes are of another protocol.
fn is_interim(head: &[u8]) -> bool
    ensures { result ≡ interims.is_interim head.now }
{
    head.starts_with(b"HTTP/1.1 1") && goes_on(&head[10..])
}

/// How many bytes the interim reply has that stands whole at the front of these.
pub fn interim_at(bytes: &[u8]) -> Option<usize>
    ensures exact { result ≡ interims.interim_at bytes.now }
    ensures within { IfSome result (λ n. (0 < n) × (n ≤ length bytes.now)) }
{
    let mut look = Look::of_head();
    match look.look(bytes) {
        Found::Whole(len) => {
            let head = &bytes[..len];
            is_interim(&head[blanks(head)..]).then_some(len)
        }
        Found::TooLong(_) | Found::Unfinished => None,
    }
}

/// How many bytes at the front are interim replies: all that stand there whole, and no more of them than a head may
/// have bytes.
pub fn interim_front(bytes: &[u8]) -> usize
    ensures exact { IsFront bytes.now result }
    ensures within { result ≤ length bytes.now }
{
    let mut front = 0;
    while let Some(len) = interim_at(&bytes[front..]) {
        if len > MOST_HEAD_BYTES - front {
            return front;
        }
        front += len;
    }
    front
}
