//! All numbers by which deliveries share threads and time.

use ocm_schedule::Plan;

/// How many exchanges are under way with hosts that answered soon, and as many with those that did not.
const SEATS: usize = 32;

/// How many with hosts that were never asked, which all are behind a start, and as many with those that failed each time:
/// sixty-four a second, so that three thousand that hang are tried once a minute.
const MANY_SEATS: usize = 64;

/// How many with hosts that failed once, and as many for twice and so on: each passes here once.
const FAILED_SEATS: usize = 8;

/// How many exchanges are under way in all at most.
pub const MOST_SEATS: usize = 2 * (SEATS + MANY_SEATS) + 3 * FAILED_SEATS;

/// How long a host rests that failed once, in milliseconds; four times as long each time, so that one that was down for a
/// moment is reached soon.
const FIRST_PAUSE: u32 = 1_000;

/// How long a host rests at most, in milliseconds, how long it is to the next round where nothing happens, and for how long
/// nothing could be delivered to a host before that is told.
pub const LONGEST_PAUSE: u32 = 60_000;

/// How long a delivery may take its seat where another waits for one, in milliseconds. A host that takes longer is late, and
/// has the longest time from then on.
pub const SHORT_TIME: u64 = 2_500;

/// The same for hosts that failed then too, which mostly fail again, in milliseconds.
const FAILED_TIME: u64 = 1_000;

/// How long a delivery may take at most, in milliseconds.
pub const LONGEST_TIME: u64 = 20_000;

/// The most bytes of a reply.
pub const MOST_REPLY: usize = 65_536;

/// For how long a document is used for further messages to its host, in milliseconds, and how many bytes it has at most. So many
/// messages to one host take half of the time.
pub const DOCUMENT_TIME: u64 = 30_000;

pub const MOST_DOCUMENT: usize = 4_096;

/// How many threads there are at most. A look-up of a name can't be cut short, so those that hang outlive their seats.
pub const MOST_THREADS: u64 = 512;

/// How many hosts are remembered for which nothing is due, and how many owners are told apart.
pub const MOST_KEPT: usize = 65_536;

/// How many times as long as a round took the next one is held back, so that rounds over many messages leave the server to
/// others most of the time.
pub const HOLDS: u64 = 4;

/// How long a round holds the next one back at most, in milliseconds.
pub const LONGEST_HOLD: u64 = 1_000;

/// The lane of hosts that answered late.
const LATE: usize = 1;

/// The lane of hosts that failed once.
const FAILED: usize = 3;

/// The lanes: hosts that answered soon, late, that were never asked, and that failed once, twice and so on.
pub static PLANS: [Plan; 7] = [
    Plan {
        seats: SEATS,
        pause: 0,
    },
    Plan {
        seats: SEATS,
        pause: 0,
    },
    Plan {
        seats: MANY_SEATS,
        pause: 0,
    },
    Plan {
        seats: FAILED_SEATS,
        pause: FIRST_PAUSE,
    },
    Plan {
        seats: FAILED_SEATS,
        pause: FIRST_PAUSE * 4,
    },
    Plan {
        seats: FAILED_SEATS,
        pause: FIRST_PAUSE * 16,
    },
    Plan {
        seats: MANY_SEATS,
        pause: LONGEST_PAUSE,
    },
];

/// How long a delivery of a lane may take its seat where another waits for one, in milliseconds.
pub fn time_of(lane: usize) -> u64 {
    if lane >= FAILED {
        FAILED_TIME
    } else if lane == LATE {
        LONGEST_TIME
    } else {
        SHORT_TIME
    }
}

/// Up to how many threads there may be where an exchange of a lane begins, or is cut. Hosts that failed leave half to others.
pub fn threads_of(lane: usize) -> u64 {
    if lane >= FAILED {
        MOST_THREADS / 2
    } else {
        MOST_THREADS
    }
}

/// Whether a host of a lane whose time is up is late, and has not failed.
pub fn is_late(lane: usize) -> bool {
    lane < FAILED && lane != LATE
}
