//! The status that a text of a transcript shows.

ghost use Rattle.std.specs.Prelude.{◌≡◌, ◌<◌, IfSome, length};
ghost use Rattle.ocm_drill.specs.Summary as summary;

/// How many statuses there are: each has three digits.
pub const STATUSES: usize = 1000;

/// The place of the first such byte.
fn place_of(byte: u8, bytes: &[u8]) -> Option<usize>
    ensures value { result ≡ summary.place_of byte bytes.now }
    ensures within { IfSome result (λ place. place < length bytes.now) }
{
    bytes.iter().position(|b| *b == byte)
}

/// What stands before the place, and what stands behind it; all and nothing where there is none.
fn cut_at(bytes: &[u8], place: Option<usize>) -> (&[u8], &[u8])
    requires { IfSome place (λ place. place < length bytes.now) }
    ensures front { result.0.now ≡ summary.front_to place bytes.now }
    ensures rest { result.1.now ≡ summary.rest_from place bytes.now }
{
    match place {
        Some(place) => (&bytes[..place], &bytes[place + 1..]),
        None => (bytes, &[]),
    }
}

/// The first line, without its line feed.
fn first_line(text: &[u8]) -> &[u8]
    ensures { result.now ≡ summary.first_line text.now }
{
    cut_at(text, place_of(b'\n', text)).0
}

/// The first word of a line, and what follows it and its space.
fn next_word(line: &[u8]) -> (&[u8], &[u8])
    ensures word { result.0.now ≡ summary.first_word line.now }
    ensures rest { result.1.now ≡ summary.next_words line.now }
{
    cut_at(line, place_of(b' ', line))
}

/// The word of a line that may be a status, where these are its words behind its number.
fn status_word(words: &[u8]) -> &[u8]
    ensures { result.now ≡ summary.status_word words.now }
{
    let (word, rest) = next_word(words);
    if word != b"at".as_slice() {
        return word;
    }
    let (_host, rest) = next_word(rest);
    next_word(rest).0
}

/// The number that three digits write. None of any other word.
fn three_digits(word: &[u8]) -> Option<u16>
    ensures value { result ≡ summary.three_digits word.now }
    ensures below { IfSome result (λ number. number < 1000) }
{
    match word {
        [a, b, c] if a.is_ascii_digit() && b.is_ascii_digit() && c.is_ascii_digit() => {
            Some((a - b'0') as u16 * 100 + (b - b'0') as u16 * 10 + (c - b'0') as u16)
        }
        _ => None,
    }
}

/// The status that stands first in the first line of what an event printed: behind the line's number, or
/// behind `at` and a host. Lines that show none are those of an event that opened, reached or did nothing.
pub fn status_in(text: &[u8]) -> Option<u16>
    ensures value { result ≡ summary.status_in text.now }
    ensures below { IfSome result (λ status. status < 1000) }
{
    let (_number, words) = next_word(first_line(text));
    three_digits(status_word(words))
}
