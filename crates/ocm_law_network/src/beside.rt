//! A log, from its bookkeeping and what is told of each of its servers.
ghost use Rattle.ocm_law_network.specs.Apart.{RunsMakeLogs, SessionsMakeLogs};

use ocm_disk::Disk;

/// Where the bookkeeping is kept, and the calls of each server are those of a session, before each opening of its file and at
/// the end, it is a log: in whichever order the servers made their calls, and whatever these came on.
pub fn sessions_beside_each_other_are_a_log()
    ensures { SessionsMakeLogs }
{}

/// So it is of any number of servers that ran beside each other, where the calls since each opening are the first of those
/// that a run of that server made.
pub fn servers_that_ran_beside_each_other_are_a_log<D: Disk>()
    ensures { RunsMakeLogs ⟦<D as Disk>⟧ }
{}
