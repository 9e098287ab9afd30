ghost use Rattle.std.specs.Prelude.{◌≡◌};
ghost use Rattle.ocm_http_heads.specs.ChunkLines.{SaysLine};

use httparse::{Status, parse_chunk_size};

/// What the front of some bytes is as a chunk line (RFC 9112 section 7.1).
#[derive(Clone, Copy)]
pub enum ChunkLine {
    /// A line of so many bytes, its CR LF among them, that gives the chunk's size in bytes.
    Line(usize, u64),
    /// No line yet, and more bytes may make it one.
    Unfinished,
    /// No line, whatever follows.
    Refused,
}

/// Reads a chunk line at the front, as `httparse` reads one.
pub fn read_chunk_line(bytes: &[u8]) -> ChunkLine
    ensures { SaysLine bytes.now result }
{
    match parse_chunk_size(bytes) {
        Ok(Status::Complete((len, size))) => ChunkLine::Line(len, size),
        Ok(Status::Partial) => ChunkLine::Unfinished,
        Err(_) => ChunkLine::Refused,
    }
}
