//! A server that runs, and runs again.
ghost use Rattle.std.specs.Prelude.{◌<◌, ◌^◌, [], ℕ, length, None};
ghost use Rattle.ocm_limits.specs.Limits.{served_disk_bytes};
ghost use Rattle.ocm_journal.specs.Openings.{new_area};
ghost use Rattle.ocm_server.specs.Objects.{EachShift};
ghost use Rattle.ocm_server.specs.Visits.{work};
ghost use Rattle.ocm_serve_store.specs.Runs.{HasServed, Ran};
ghost use Rattle.ocm_law_openings.specs.Keeping.{Keeps};
ghost use Rattle.ocm_law_serve.specs.OnDisk.{AnswersAreOnDisk, AnswersOnDisk};
ghost use Rattle.ocm_law_serve.specs.Runs.{RunsKeep, WasRun};
ghost use Rattle.ocm_law_serve.specs.Served.{ServedRunsKeep};
ghost use Rattle.ocm_store.specs.Stores.{terms_of};

use ocm_base::Clock;
use ocm_disk::Disk;
use ocm_pump::Post;
use ocm_serve_options::Plan;
use ocm_serve_store::{Followed, serve};
use ocm_server::{Door, Served, Worker};
use ocm_server_connections::Conn;
use std::alloc::Global;
use std::sync::Wait;
use std::thread::Threads;

/// The runs of one server, each from a disk that the one before left, at its end or by a crash at any moment
/// of it, have one legal history that outlives every crash. Each run that came to its end has all its calls
/// in it, and one that was killed a beginning of them: with all that were done by the moment since which a
/// crash left its bytes, where that is told.
pub fn runs_of_one_server_keep_what_is_promised<D: Disk>()
    ensures { RunsKeep ⟦<D as Disk>⟧ }
{}

/// Each page that answers calls, of a connection that notes moments, was noted with the one behind the newest of these calls. From
/// then on a crash leaves what may follow them, or later calls, where since the moment behind each call of the run it leaves what
/// may follow that call, or a later one. It is said of a run that comes back, and of the connections that a worker's door tells.
pub fn an_answer_is_on_the_disk<D: Disk, C: Conn>()
    ensures { AnswersAreOnDisk ⟦<D as Disk>⟧ C.sides }
{}

/// By all that is told of a run by a plan, as of that of the program: the calls of its workers are those of a session, whose
/// history is legal and outlives every crash, and each page that answers calls was noted with a moment since which a crash
/// leaves these. Where a worker's door and post tell, as those of the program do, these are the pages of all connections that
/// the door gave, and the post's exchanges those of the rounds behind these and no other. Where the disk held some bytes alone
/// when it was opened, and was read faithfully, these bytes opened to the list behind which the calls stand, and a crash at any
/// moment of the run leaves what opens as they do, or what may follow at some place of the calls.
pub fn served_runs_keep_what_is_promised<D: Disk, C: Conn>()
    ensures { ServedRunsKeep ⟦<D as Disk>⟧ C.sides }
{}

/// Serves as `serve` does. The calls of all workers stand in one legal history, in which requests for files
/// are served exactly where every link grants them, and repeats act once. Where the disk tells its bytes, a door its
/// connections, and these note moments, each page that answers calls has one: that behind the newest of these. Since then a
/// crash leaves what may follow them, or later calls.
pub fn serve_keeps_what_is_promised<
    D: Disk + Send,
    L: Door + Send,
    N: Post + Send,
    K: Clock + Send,
    R: Threads + Wait + Sync,
>(
    rt: &R,
    alloc: Global,
    plan: &Plan,
    workers: &mut [Worker<Followed<D>, L, N, K>],
    disk: D,
    draw_key: [u8; 32],
) -> (Served, D)
where
    L::Conn: Send,
    requires some { 0 < length workers.old }
    ensures kept { (calls own : ℕ) → HasServed result.0 calls own → (ran : Ran ⟦<D as Disk>⟧ plan.now (new_area served_disk_bytes) (2 ^ 63) disk result.1 calls own
        (λ config gate first past all. EachShift L.Conn.sides config draw_key workers.old workers.new
        (λ w. work (L.told w.door) (L.faults w.door) (N.exchanges w.post) (N.faults w.post) (N.delivers w.post) w.draw (K.given w.clock) w.pass w.end) gate first past all))
        × (was : WasRun ⟦<D as Disk>⟧ plan.now.host (new_area served_disk_bytes) disk result.1 ran.served.first.base ran.served.service.history)
        × Keeps plan.now.host (record { area = was.size; base = ran.served.first.base; calls = ran.served.service.history; flight = None }) []
        × (D.tells → (i : ℕ) (d : _) (below : i < length workers.old) →
        AnswersOnDisk ⟦<D as Disk>⟧ (terms_of ran.store) ran.served.first.base (record { history = ran.served.service.history; moments = ran.served.service.moments }) result.1 (ran.served.service.each.1 i d below)) }
{
    serve(rt, alloc, plan, workers, disk, draw_key)
}
