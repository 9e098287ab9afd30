ghost use Rattle.std.specs.Prelude.{◌≡◌, ◌<◌, ◌∷◌, length, position};
ghost use Rattle.ocm_script.specs.Lines.{is_line_feed, lines_of};

fn line_feed_in(bytes: &[u8]) -> Option<usize>
    ensures { result ≡ position is_line_feed bytes.now }
{
    bytes.iter().position(|b| *b == b'\n')
}

/// The first line without its line feed, and what is behind it.
pub fn first_line(bytes: &[u8]) -> (&[u8], &[u8])
    requires { 0 < length bytes.now }
    ensures lines { lines_of bytes.now ≡ result.0.now ∷ lines_of result.1.now }
    ensures shorter { length result.1.now < length bytes.now }
{
    match line_feed_in(bytes) {
        Some(place) => (&bytes[..place], &bytes[place + 1..]),
        None => (bytes, &[]),
    }
}

/// How many lines there are.
pub fn count_lines(bytes: &[u8]) -> usize
    ensures { result ≡ length (lines_of bytes.now) }
{
    let mut rest = bytes;
    let mut count = 0;
    while !rest.is_empty() {
        let (_, behind) = first_line(rest);
        rest = behind;
        count += 1;
    }
    count
}
