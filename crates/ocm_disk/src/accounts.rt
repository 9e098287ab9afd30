//! What was done to a file, for contracts alone.

use ocm_base::GhostBytes;

/// A step of the account of a file.
#[derive(Drop)]
pub(crate) enum FileStep {
    /// It was opened with so many bytes, which are said to be these, and synced.
    Opened(u64, GhostBytes),
    /// A read gave these bytes from a place on.
    Read(u64, GhostBytes),
    /// These bytes were written from a place on.
    Wrote(u64, GhostBytes),
    /// So many bytes were written from a place on, maybe in part.
    WroteInPart(u64, u64),
    /// It was cut to a length.
    Shortened(u64),
    /// It was cut to a length, maybe in part.
    ShortenedInPart(u64),
    /// It was synced.
    Synced,
}
