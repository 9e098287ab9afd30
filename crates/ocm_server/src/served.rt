ghost use Rattle.std.specs.Prelude.{◌≡◌};
ghost use Rattle.ocm_server.specs.Statuses.{status_of};

use ocm_base::Bytes;

/// What a running server came to.
#[derive(Drop)]
pub enum Served {
    /// Every door came to its end. How many calls the server answered, and how many of these its workers made.
    Ended { calls: u64, own: u64 },
    /// A door failed.
    DoorFault { calls: u64, own: u64 },
    /// The disk failed at opening; the count of its faults.
    DiskFault { count: u64 },
    /// The disk is no journal of this server; the place where that shows.
    NotJournal { place: u64 },
    /// The journal is that of another host.
    OtherHost { found: Bytes },
    /// There was no memory. No door was asked.
    NoMemory,
}

/// The status with which a program ends that ran a server: 0 for its end, 5 for want of memory, 6 for a fault of the
/// disk, 7 for what is no journal, 10 for another host's and 11 for a fault of a door.
pub fn served_status(served: &Served) -> u8
    ensures { result ≡ status_of served.now }
{
    match served {
        Served::Ended { .. } => 0,
        Served::DoorFault { .. } => 11,
        Served::DiskFault { .. } => 6,
        Served::NotJournal { .. } => 7,
        Served::OtherHost { .. } => 10,
        Served::NoMemory => 5,
    }
}
