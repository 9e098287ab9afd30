ghost use Rattle.std.specs.Prelude.{◌≡◌, ◌+◌, ◌≤◌, length, drop};
ghost use Rattle.ocm_http_heads.specs.Endings as endings;

use crate::feeds::before_feed;
use ocm_limits::{MOST_HEAD_BYTES, MOST_HEAD_LINES};

/// Where a look for an empty line stands.
#[derive(Clone, Copy)]
pub enum Stand {
    /// Before the head: there was nothing but CR and LF.
    Before,
    /// In a line that isn't empty.
    InLine,
    /// At the start of a line.
    AtLine,
    /// After a CR that began a line.
    AfterReturn,
}

/// What a look finds in a piece.
#[derive(Clone, Copy)]
pub enum Found {
    /// The empty line ends after so many bytes of the piece.
    Whole(usize),
    /// More bytes or lines came than are allowed. True where all of them are CR and LF.
    TooLong(bool),
    /// Neither.
    Unfinished,
}

/// A look for the first empty line, that is LF, an optional CR, LF (RFC 9112 section 2.2), in bytes that come in
/// pieces.
#[derive(Clone, Copy)]
pub struct Look {
    /// Where it stands.
    pub stand: Stand,
    /// How many bytes more are allowed.
    pub size: u32,
    /// How many lines more are allowed. A line is counted at its LF.
    pub lines: u32,
}

impl Look {
    /// A look for the end of a head of at most 16,384 bytes and 66 lines. Empty lines before the head count.
    pub fn of_head() -> Look
        ensures { result ≡ endings.of_head }
    {
        Look {
            stand: Stand::Before,
            size: MOST_HEAD_BYTES as u32,
            lines: MOST_HEAD_LINES as u32,
        }
    }

    /// A look for the end of trailers of at most 8,192 bytes. It begins at a line.
    pub fn of_trailers() -> Look
        ensures { result ≡ endings.of_trailers }
    {
        Look {
            stand: Stand::AtLine,
            size: 8192,
            lines: 8192,
        }
    }

    fn passes(&self, byte: u8) -> bool
        ensures { result ≡ endings.passes self.now byte }
    {
        self.size == 0 || (byte == b'\n' && self.lines == 0)
    }

    fn is_bare(&self, byte: u8) -> bool
        ensures { result ≡ endings.is_bare self.now.stand byte }
    {
        match self.stand {
            Stand::Before => is_blank(byte),
            Stand::InLine => false,
            Stand::AtLine => false,
            Stand::AfterReturn => false,
        }
    }

    fn ends(&self, byte: u8) -> bool
        ensures { result ≡ endings.ends self.now.stand byte }
    {
        match self.stand {
            Stand::Before => false,
            Stand::InLine => false,
            Stand::AtLine => byte == b'\n',
            Stand::AfterReturn => byte == b'\n',
        }
    }

    fn stand_after(&self, byte: u8) -> Stand
        ensures { result ≡ endings.stand_after self.now.stand byte }
    {
        match self.stand {
            Stand::Before => {
                if is_blank(byte) {
                    Stand::Before
                } else {
                    Stand::InLine
                }
            }
            Stand::InLine => {
                if byte == b'\n' {
                    Stand::AtLine
                } else {
                    Stand::InLine
                }
            }
            Stand::AtLine => {
                if byte == b'\r' {
                    Stand::AfterReturn
                } else {
                    Stand::InLine
                }
            }
            Stand::AfterReturn => Stand::InLine,
        }
    }

    fn stepped(&self, byte: u8) -> Look
        ensures { result ≡ endings.stepped self.now byte }
    {
        Look {
            stand: self.stand_after(byte),
            size: self.size.saturating_sub(1),
            lines: if byte == b'\n' {
                self.lines.saturating_sub(1)
            } else {
                self.lines
            },
        }
    }

    /// Passes over the bytes before the next LF, as many as are allowed, where it stands in a line. Answers how many.
    #[inline(always)]
    fn skip(&mut self, piece: &[u8]) -> usize
        ensures within { result ≤ length piece.now }
        ensures found { endings.found self.old piece.now ≡ endings.further result (endings.found self.new (drop result piece.now)) }
        ensures moved { endings.moved self.old piece.now ≡ endings.moved self.new (drop result piece.now) }
    {
        match self.stand {
            Stand::InLine => {
                let count = before_feed(piece).min(self.size as usize);
                self.size -= count as u32;
                count
            }
            Stand::Before => 0,
            Stand::AtLine => 0,
            Stand::AfterReturn => 0,
        }
    }

    /// Looks on in the next piece. Where nothing is found the look goes on behind it.
    pub fn look(&mut self, piece: &[u8]) -> Found
        ensures found { result ≡ endings.found self.old piece.now }
        ensures moved { result ≡ Found.Unfinished → self.new ≡ endings.moved self.old piece.now }
    {
        let mut here = *self;
        let mut i = 0;
        while i < piece.len() {
            i += here.skip(&piece[i..]);
            if i < piece.len() {
                let byte = piece[i];
                if here.passes(byte) {
                    return Found::TooLong(here.is_bare(byte));
                }
                if here.ends(byte) {
                    return Found::Whole(i + 1);
                }
                here = here.stepped(byte);
                i += 1;
            }
        }
        *self = here;
        Found::Unfinished
    }
}

fn is_blank(byte: u8) -> bool
    ensures { result ≡ endings.is_blank byte }
{
    byte == b'\n' || byte == b'\r'
}

/// How many bytes at the front are CR or LF.
pub fn blanks(bytes: &[u8]) -> usize
    ensures count { result ≡ endings.blanks bytes.now }
    ensures within { result ≤ length bytes.now }
{
    for (i, byte) in bytes.iter().enumerate() {
        if !is_blank(*byte) {
            return i;
        }
    }
    bytes.len()
}
