//! What the clause of a running server says of its calls, as a log has them.
ghost use Rattle.ocm_law_network.specs.Runs.{RunsFollow, RunsMakeSessions, RunsOpenNext};
ghost use Rattle.ocm_law_network.specs.Serving.{HistoriesSettleAnswers, KilledServersOpenAgain, ServersGoOn, ServersOpenAgain, ShiftsSettleAnswers};
ghost use Rattle.ocm_law_network.specs.Working.{CallsAreWorkers, DeliveriesArePosts, SearchesFindSites, WorkersAreBacked};

use ocm_disk::Disk;

/// A delivery that came to an answer posted the letter to the site that was found, and what came back told the answer. The site
/// was found in what came back of a request for the document of the letter's host.
pub fn deliveries_are_posts()
    ensures posts { DeliveriesArePosts }
    ensures searches { SearchesFindSites }
{}

/// Each call of a worker is no settlement, or settles a message that an earlier call of its own told due, by what was
/// answered over its post.
pub fn workers_settle_what_was_answered<C, G>()
    ensures { WorkersAreBacked C G }
{}

/// Where the workers made as many calls as there are in all, each call is one of theirs.
pub fn every_call_is_a_workers()
    ensures { CallsAreWorkers }
{}

/// So each call of the one history settles no message, or one that an earlier call told due, by what was answered over the
/// post of some worker.
pub fn histories_settle_what_was_answered()
    ensures { HistoriesSettleAnswers }
{}

/// So it is of what a running server tells: of the history of its turnstile, where its workers made as many calls as there
/// are in all.
pub fn shifts_settle_what_was_answered<C, G>()
    ensures { ShiftsSettleAnswers C G }
{}

/// What `serve` tells: its calls are those of a session behind what its disk opened to, and settle what was answered; its disk
/// opens to what may follow them, and after a crash at any moment to what may follow a beginning of them. Each call is one of its
/// workers', and each settlement of a worker has exchanges of its own.
pub fn a_server_that_ran_made_a_sessions_calls<D: Disk, C>()
    ensures { RunsMakeSessions ⟦<D as Disk>⟧ C }
{}

/// A run that finds on its disk what an earlier run left there goes on behind what may follow a beginning of the earlier
/// run's calls, or all of them: what the file opens to that has the bytes of that run's disk.
pub fn one_run_follows_another<D: Disk, E: Disk>()
    ensures opens { RunsOpenNext ⟦<D as Disk>⟧ }
    ensures follows { RunsFollow ⟦<D as Disk>⟧ ⟦<E as Disk>⟧ }
{}

/// A log goes on by what several servers did beside each other, in whichever order they made their calls; and to the next
/// opening of a server's file, after its calls or a beginning of them, where that opens to what may follow.
pub fn what_servers_did_is_a_log()
    ensures calls { ServersGoOn }
    ensures again { ServersOpenAgain }
    ensures killed { KilledServersOpenAgain }
{}
