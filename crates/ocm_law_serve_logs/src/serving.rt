//! A server that runs with a log.
ghost use Rattle.std.specs.Prelude.{◌≡◌, ◌<◌, ◌^◌, [], ℕ, length, IfSome, IsTrue};
ghost use Rattle.ocm_limits.specs.Limits.{served_disk_bytes};
ghost use Rattle.ocm_journal.specs.Openings.{new_area};
ghost use Rattle.ocm_journal_audit.specs.Audits.{is_own_host};
ghost use Rattle.ocm_server.specs.Objects.{EachShift};
ghost use Rattle.ocm_server.specs.Visits.{work};
ghost use Rattle.ocm_serve_log.specs.Logs.{IsLogOf};
ghost use Rattle.ocm_serve_store.specs.Runs.{HasServed, Ran};
ghost use Rattle.ocm_store.specs.Stores.{terms_of};
ghost use Rattle.ocm_law_serve.specs.OnDisk.{AnswersOnDisk};
ghost use Rattle.ocm_law_serve_logs.specs.ServedLogs.{HasTrueLog};

use ocm_base::Clock;
use ocm_disk::Disk;
use ocm_law_serve::running::an_answer_is_on_the_disk;
use ocm_pump::Post;
use ocm_serve_log::{LogSink, LoggedRun, LoggedStore, serve_logged};
use ocm_serve_options::Plan;
use ocm_server::{Door, Worker};
use ocm_types::Host;
use ocm_types::laws::host_reads_its_text;
use std::alloc::Global;
use std::sync::Wait;
use std::thread::Threads;

/// Serves as `serve_logged` does. What it wrote to its log is true of its journal: cut at any line's end, by the disk that
/// came back; all of it where no line was left out, and then it has the line of each read; and the lines of the calls before
/// any crash, by what that crash left. And as without a log, where the disk tells its bytes, a door its connections, and these
/// note moments, each page that answers calls has one: that behind the newest of these. Since then a crash leaves what may
/// follow them, or later calls.
pub fn serve_logged_writes_what_is_true<
    D: Disk + Send,
    L: Door + Send,
    N: Post + Send,
    C: Clock + Send,
    K: LogSink + Send,
    R: Threads + Wait + Sync,
>(
    rt: &R,
    alloc: Global,
    plan: &Plan,
    workers: &mut [Worker<LoggedStore<D, K>, L, N, C>],
    disk: D,
    sink: K,
    draw_key: [u8; 32],
) -> LoggedRun<D, K>
where
    L::Conn: Send,
    requires some { 0 < length workers.old }
    requires fresh { IfSome (K.taken sink) (λ held. held ≡ []) }
    ensures { (calls own : ℕ) → HasServed result.served calls own → (run : Ran ⟦<D as Disk>⟧ plan.now (new_area served_disk_bytes) (2 ^ 63) disk result.disk calls own
        (λ config gate first past all. EachShift L.Conn.sides config draw_key workers.old workers.new
        (λ w. work (L.told w.door) (L.faults w.door) (N.exchanges w.post) (N.faults w.post) (N.delivers w.post) w.draw (C.given w.clock) w.pass w.end) gate first past all))
        × IsLogOf (K.taken result.sink) (K.faults result.sink) result.left_out result.out_of_memory plan.now.host run.served.first.base run.served.service.history
        × HasTrueLog ⟦<D as Disk>⟧ plan.now.host result.disk (terms_of run.store) run.served.first.base run.served.service.history (K.taken result.sink) result.left_out
        × (D.tells → (i : ℕ) (d : _) (below : i < length workers.old) →
        AnswersOnDisk ⟦<D as Disk>⟧ (terms_of run.store) run.served.first.base (record { history = run.served.service.history; moments = run.served.service.moments }) result.disk (run.served.service.each.1 i d below)) }
{
    host_labels_its_journal(&plan.host);
    an_answer_is_on_the_disk::<D, L::Conn>();
    serve_logged(rt, alloc, plan, workers, disk, sink, draw_key)
}

/// A host's text is the label of a journal that an audit takes for one.
fn host_labels_its_journal(host: &Host)
    ensures { IsTrue (is_own_host host.now) }
{
    host_reads_its_text(host);
    let _text = host.as_str();
}
