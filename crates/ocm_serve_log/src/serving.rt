//! A store with a log, served from its disk to its disk.
ghost use Rattle.std.specs.Prelude.{◌≡◌, ◌⊎◌, ◌<◌, ◌^◌, ℕ, [], List, length, slice_index_or, false, None, IfSome};
ghost use Rattle.ocm_limits.specs.Limits.{served_disk_bytes};
ghost use Rattle.ocm_disk.specs.Disk.{LeavesOnly};
ghost use Rattle.ocm_journal.specs.Openings.{StaysAsItOpens, new_area};
ghost use Rattle.ocm_server.specs.Objects.{EachShift};
ghost use Rattle.ocm_server.specs.Visits.{work};
ghost use Rattle.ocm_server.specs.declared.workers.Rounds.TheVariants as rounds;
ghost use Rattle.ocm_store.specs.Opening.{loading};
ghost use Rattle.ocm_store.specs.Stores.{IsLegalUnder, Stands, disk_of, host_of, terms_of};
ghost use Rattle.ocm_entry.specs.declared.entries.Entry.{Entry};
ghost use Rattle.ocm_serve_log.specs.Logs.{Holds, IsLog, IsLogOf};
ghost use Rattle.ocm_access_log.specs.declared.lines.LogLine.{LogLine};
ghost use Rattle.ocm_serve_store.specs.Following.{mark_in, store_of};
ghost use Rattle.ocm_serve_store.specs.Runs.{HasServed, IsCounted, IsDiskFault, IsLoaded, IsSaid, WasServed, IsUnserved, Ran};

use crate::logged::LoggedStore;
use crate::logs::Log;
use crate::sinks::LogSink;
use ocm_base::Clock;
use ocm_dav::Config;
use ocm_disk::Disk;
use ocm_limits::SERVED_DISK_BYTES;
use ocm_pump::Post;
use ocm_serve_options::Plan;
use ocm_serve_store::{Followed, MOST_CALLS, ended, names_of, refused};
use ocm_server::{Door, Served, Worker, serve_object};
use ocm_store::Store;
use ocm_turn::Founded;
use std::alloc::Global;
use std::marker::Brand;
use std::snapshot::Snapshot;
use std::sync::Wait;
use std::thread::Threads;

/// What is left of a server that ran with a log.
#[derive(Drop)]
pub struct LoggedRun<D, K> {
    /// What it came to.
    pub served: Served,
    /// Its disk.
    pub disk: D,
    /// Where its log went.
    pub sink: K,
    /// How many lines were left out, since one of them could not be written. Those that were to be written with it all count,
    /// also where they were.
    pub left_out: u64,
    /// Whether there was no memory for one of them.
    pub out_of_memory: bool,
}

/// Does what [`ocm_serve_store::serve`] does, and writes a line of each read to a log: of each GET, HEAD and PROPFIND that was
/// answered by a reply of the rules, with the place and the moment in the history at which it was. The sink has taken
/// nothing before. Lines are written together, when 64 KiB are there or the moment changes, and at the end. Behind the
/// first that can't be written none is, and the sink is told how many were left out, at most once a minute.
pub fn serve_logged<
    D: Disk + Send,
    L: Door + Send,
    N: Post + Send,
    C: Clock + Send,
    K: LogSink + Send,
    R: Threads + Wait + Sync,
>(
    rt: &R,
    alloc: Global,
    plan: &Plan,
    workers: &mut [Worker<LoggedStore<D, K>, L, N, C>],
    disk: D,
    sink: K,
    draw_key: [u8; 32],
) -> LoggedRun<D, K>
where
    L::Conn: Send,
    requires some { 0 < length workers.old }
    requires fresh { IfSome (K.taken sink) (λ held. held ≡ []) }

    // All that `serve` says of a run, and that the sink has the first lines of the reads in the one history, in their order: all of them but so many
    // as were left out, which is none where the sink has had no fault and there was memory for each line, and some where there was none for one.
    ensures served { (calls own : ℕ) → HasServed result.served calls own → (run : Ran ⟦<D as Disk>⟧ plan.now (new_area served_disk_bytes) (2 ^ 63) disk result.disk calls own
        (λ config gate first past all. EachShift L.Conn.sides config draw_key workers.old workers.new
        (λ w. work (L.told w.door) (L.faults w.door) (N.exchanges w.post) (N.faults w.post) (N.delivers w.post) w.draw (C.given w.clock) w.pass w.end) gate first past all))
        × IsLogOf (K.taken result.sink) (K.faults result.sink) result.left_out result.out_of_memory plan.now.host run.served.first.base run.served.service.history }
    ensures ended { (calls own : ℕ) → result.served ≡ Served.Ended calls own → (i : ℕ) (d : _) → i < length workers.new → (slice_index_or workers.new i d).end ≡ rounds.Ended }
    ensures fault { (calls own : ℕ) → result.served ≡ Served.DoorFault calls own → (i : ℕ) × (i < length workers.new) × ((d : _) → (slice_index_or workers.new i d).end ≡ rounds.DoorFault) }
    ensures said { D.tells → D.faithful result.disk → IsSaid (loading plan.now.host (new_area served_disk_bytes) (D.seen disk)) result.served }
    ensures counted { IsCounted (D.count disk) (D.count result.disk) result.served }
    ensures unfailing { ((n : ℕ) → D.passes disk n) → IsDiskFault result.served → ⊥ }
    ensures unasked { IsUnserved result.served → workers.new ≡ workers.old }
    ensures unserved { D.tells → D.faithful result.disk → IsUnserved result.served → LeavesOnly D.moment D.left_since disk result.disk (λ c. D.may_leave disk c ⊎ StaysAsItOpens plan.now.host (new_area served_disk_bytes) (D.seen disk) c) }
    ensures kept { D.tells → D.faithful result.disk → IsUnserved result.served → StaysAsItOpens plan.now.host (new_area served_disk_bytes) (D.seen disk) (D.seen result.disk) }
    // Then no line was written, and none left out.
    ensures unlogged { IsUnserved result.served → (result.sink ≡ sink) × (result.left_out ≡ 0) × (result.out_of_memory ≡ false) }
{
    let Ok((config, host)) = names_of(plan) else {
        return LoggedRun {
            served: Served::NoMemory,
            disk,
            sink,
            left_out: 0,
            out_of_memory: false,
        };
    };
    let before = Snapshot::of(&disk);
    match Store::load(alloc, disk, host, SERVED_DISK_BYTES) {
        Ok(store) => serve_logged_store::<Brand, D, L, N, C, K, R>(
            rt, alloc, &config, workers, store, sink, draw_key, &before,
        ),
        Err((disk, fault)) => LoggedRun {
            served: refused(fault),
            disk,
            sink,
            left_out: 0,
            out_of_memory: false,
        },
    }
}

/// Serves a store that was loaded from a disk as it was before, with a log, and gives the disk and the sink back.
fn serve_logged_store<
    J: Founded,
    D: Disk + Send,
    L: Door + Send,
    N: Post + Send,
    C: Clock + Send,
    K: LogSink + Send,
    R: Threads + Wait + Sync,
>(
    rt: &R,
    alloc: Global,
    config: &Config,
    workers: &mut [Worker<LoggedStore<D, K>, L, N, C>],
    store: Store<D>,
    sink: K,
    draw_key: [u8; 32],
    before: &Snapshot<D>,
) -> LoggedRun<D, K>
where
    L::Conn: Send,
    requires some { 0 < length workers.old }
    requires fresh { IfSome (K.taken sink) (λ held. held ≡ []) }
    requires store { (k : List Entry) × J.known k × Stands ⟦<D as Disk>⟧ store k [] × IsLegalUnder (terms_of store) k [] }
    ensures served { (calls own : ℕ) → HasServed result.served calls own → (run : WasServed ⟦<D as Disk>⟧ (2 ^ 63) J.known store result.disk calls own
        (λ gate first past all. EachShift L.Conn.sides config.now draw_key workers.old workers.new
        (λ w. work (L.told w.door) (L.faults w.door) (N.exchanges w.post) (N.faults w.post) (N.delivers w.post) w.draw (C.given w.clock) w.pass w.end) gate first past all))
        × IsLogOf (K.taken result.sink) (K.faults result.sink) result.left_out result.out_of_memory (host_of store) run.first.base run.service.history }
    ensures ended { (calls own : ℕ) → result.served ≡ Served.Ended calls own → (i : ℕ) (d : _) → i < length workers.new → (slice_index_or workers.new i d).end ≡ rounds.Ended }
    ensures fault { (calls own : ℕ) → result.served ≡ Served.DoorFault calls own → (i : ℕ) × (i < length workers.new) × ((d : _) → (slice_index_or workers.new i d).end ≡ rounds.DoorFault) }
    ensures loaded { IsLoaded result.served }
    ensures unasked { IsUnserved result.served → workers.new ≡ workers.old }
    ensures kept { IsUnserved result.served → result.disk ≡ disk_of store }
    ensures unlogged { IsUnserved result.served → (result.sink ≡ sink) × (result.left_out ≡ 0) × (result.out_of_memory ≡ false) }
{
    let followed = Followed::new(store);
    let log = Log::new(alloc, sink);
    let logged = LoggedStore::new(followed, log);
    match serve_object::<J, LoggedStore<D, K>, L, N, C, R>(
        rt, alloc, config, workers, logged, MOST_CALLS, draw_key,
    ) {
        Ok(done) => {
            let served = ended(workers, done.calls, done.own);
            run_of(served, done.value)
        }
        Err(logged) => run_of(Served::NoMemory, logged),
    }
}

/// What is left of a store that was served: its disk, and its log with its last lines written.
fn run_of<D: Disk, K: LogSink>(served: Served, logged: LoggedStore<D, K>) -> LoggedRun<D, K>
    requires home { mark_in logged.followed.held ≡ None }
    ensures served { result.served ≡ served }
    ensures disk { result.disk ≡ disk_of (store_of logged.followed) }
    ensures log { (lines : List LogLine) → Holds K.taken K.faults logged.log lines → IsLog (K.taken result.sink) (K.faults result.sink) result.left_out result.out_of_memory lines }
    ensures empty { logged.log.gathered.items ≡ [] → (result.sink ≡ logged.log.sink) × (result.left_out ≡ logged.log.left_out) }
    ensures memory { result.out_of_memory ≡ logged.log.out_of_memory }
{
    let (followed, log) = logged.into_parts();
    let (sink, left_out, out_of_memory) = log.finish();
    LoggedRun {
        served,
        disk: followed.into_store().into_disk(),
        sink,
        left_out,
        out_of_memory,
    }
}
