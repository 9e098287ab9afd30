//! What a connection does.
use ocm_cases_rows::cut;

/// What a connection does: how many bytes it gives a read and takes a write at most, the number of the call that fails at its
/// source and at its sink, counted from 1 (0 is none), and how many bytes it takes in all.
#[derive(Clone, Copy)]
pub struct Manner {
    pub gives: usize,
    pub takes: usize,
    pub source: u64,
    pub sink: u64,
    pub room: usize,
}

impl Manner {
    /// Gives 16 bytes a read, takes one a write and 4,096 in all, and fails at these calls.
    pub fn failing(source: u64, sink: u64) -> Manner {
        Manner {
            gives: 16,
            takes: 1,
            source,
            sink,
            room: 4_096,
        }
    }

    /// Gives and takes 4,096 bytes a call, takes 1,000,000 in all, and does not fail.
    pub fn ready() -> Manner {
        Manner {
            gives: 4_096,
            takes: 4_096,
            source: 0,
            sink: 0,
            room: 1_000_000,
        }
    }

    /// Fails at the call of this number at its sink, where that is the kind, and else at its source.
    pub fn failing_at(kind: &str, number: u64) -> Manner {
        match kind {
            "sink" => Manner::failing(0, number),
            _ => Manner::failing(number, 0),
        }
    }

    /// What `PIECE FAILS ROOM` say of a connection. It takes 7 bytes a write.
    pub fn of(words: &str) -> Option<Manner> {
        let (piece, words) = cut(words, " ");
        let (fails, room) = cut(words, " ");
        Some(Manner {
            gives: piece.parse().ok()?,
            takes: 7,
            source: fails.parse().ok()?,
            sink: 0,
            room: room.parse().ok()?,
        })
    }
}
