//! A store, served from its disk to its disk.
ghost use Rattle.std.specs.Prelude.{◌≡◌, ◌⊎◌, ◌<◌, ◌^◌, ℕ, [], List, length, slice_index_or, IfOk};
ghost use Rattle.ocm_limits.specs.Limits.{served_disk_bytes};
ghost use Rattle.ocm_disk.specs.Disk.{LeavesOnly};
ghost use Rattle.ocm_journal.specs.Openings.{StaysAsItOpens, new_area};
ghost use Rattle.ocm_server.specs.Objects.{EachShift};
ghost use Rattle.ocm_server.specs.Visits.{work};
ghost use Rattle.ocm_server.specs.declared.workers.Rounds.TheVariants as rounds;
ghost use Rattle.ocm_store.specs.Opening.{loading};
ghost use Rattle.ocm_store.specs.Stores.{IsLegalUnder, Stands, disk_of, terms_of};
ghost use Rattle.ocm_entry.specs.declared.entries.Entry.{Entry};
ghost use Rattle.ocm_serve_store.specs.Runs.{HasServed, IsCounted, IsDiskFault, IsLoaded, IsSaid, WasServed, IsUnserved, Ran, as_served, config_of};

use crate::followed::Followed;
use ocm_base::{Clock, NoMemory};
use ocm_dav::Config;
use ocm_disk::Disk;
use ocm_limits::SERVED_DISK_BYTES;
use ocm_pump::Post;
use ocm_serve_options::Plan;
use ocm_server::{Door, Rounds, Served, Worker, serve_object};
use ocm_store::{LoadFault, Store};
use ocm_turn::{Dated, Founded};
use ocm_types::Host;
use std::alloc::Global;
use std::marker::Brand;
use std::snapshot::Snapshot;
use std::sync::Wait;
use std::thread::Threads;

/// How many calls the store answers at most: 2^63.
pub const MOST_CALLS: u64 = 9_223_372_036_854_775_808;

/// Loads the store of the plan's host from a disk and serves it by the workers, each in a thread of its own, until every
/// door came to its end or failed. The disk comes back. The worker at each place draws by the stream of that number under
/// the key, and makes rounds of delivery where its post delivers. There may be more workers than the plan names, and
/// has to be one. Where the disk is not loaded, no door was asked. It waits, and its return is not promised.
pub fn serve<
    D: Disk + Send,
    L: Door + Send,
    N: Post + Send,
    K: Clock + Send,
    R: Threads + Wait + Sync,
>(
    rt: &R,
    alloc: Global,
    plan: &Plan,
    workers: &mut [Worker<Followed<D>, L, N, K>],
    disk: D,
    draw_key: [u8; 32],
) -> (Served, D)
where
    L::Conn: Send,
    requires some { 0 < length workers.old }

    // The calls of each worker stand in one history, in the order in which it made them. The history is legal behind what the disk
    // opened to, and the disk that comes back is that of a store that stands for it and came to it by these calls. A crash at any moment
    // of the run leaves what may follow at some place of them, and loses nothing that was answered before. A connection that notes moments
    // has with each page that of the disk behind the newest call that the connection had made up to it or, without one, behind the newest
    // that the worker knew of before, if any. Since that moment a crash leaves what may follow this call, or a later one.
    ensures served { (calls own : ℕ) → HasServed result.0 calls own → Ran ⟦<D as Disk>⟧ plan.now (new_area served_disk_bytes) (2 ^ 63) disk result.1 calls own
        (λ config gate first past all. EachShift L.Conn.sides config draw_key workers.old workers.new
        (λ w. work (L.told w.door) (L.faults w.door) (N.exchanges w.post) (N.faults w.post) (N.delivers w.post) w.draw (K.given w.clock) w.pass w.end) gate first past all) }

    // It ended where every door came to its end, and else the door of a worker failed.
    ensures ended { (calls own : ℕ) → result.0 ≡ Served.Ended calls own → (i : ℕ) (d : _) → i < length workers.new → (slice_index_or workers.new i d).end ≡ rounds.Ended }
    ensures fault { (calls own : ℕ) → result.0 ≡ Served.DoorFault calls own → (i : ℕ) × (i < length workers.new) × ((d : _) → (slice_index_or workers.new i d).end ≡ rounds.DoorFault) }

    // What is told of the disk is what its bytes say, or the count of its faults, which rose; then no door was asked.
    ensures said { D.tells → D.faithful result.1 → IsSaid (loading plan.now.host (new_area served_disk_bytes) (D.seen disk)) result.0 }
    ensures counted { IsCounted (D.count disk) (D.count result.1) result.0 }
    ensures unfailing { ((n : ℕ) → D.passes disk n) → IsDiskFault result.0 → ⊥ }
    ensures unasked { IsUnserved result.0 → workers.new ≡ workers.old }

    // A crash at any moment leaves what it might have left before, or what opens as the disk did.
    ensures unserved { D.tells → D.faithful result.1 → IsUnserved result.0 → LeavesOnly D.moment D.left_since disk result.1 (λ c. D.may_leave disk c ⊎ StaysAsItOpens plan.now.host (new_area served_disk_bytes) (D.seen disk) c) }

    // Then the disk reads as before, or, where no journal was made on it before, it opens to nothing as before.
    ensures kept { D.tells → D.faithful result.1 → IsUnserved result.0 → StaysAsItOpens plan.now.host (new_area served_disk_bytes) (D.seen disk) (D.seen result.1) }
{
    let Ok((config, host)) = names_of(plan) else {
        return (Served::NoMemory, disk);
    };
    let before = Snapshot::of(&disk);
    match Store::load(alloc, disk, host, SERVED_DISK_BYTES) {
        Ok(store) => serve_store::<Brand, D, L, N, K, R>(
            rt, alloc, &config, workers, store, draw_key, &before,
        ),
        Err((disk, fault)) => (refused(fault), disk),
    }
}

/// Whose server it is, for its pages and for its store.
pub fn names_of(plan: &Plan) -> Result<(Config, Host), NoMemory>
    ensures { IfOk result (λ both. (both.0 ≡ config_of plan.now) × (both.1 ≡ plan.now.host)) }
{
    let host = plan.host.copy()?;
    let own = plan.host.copy()?;
    let admin = plan.admin.copy()?;
    Ok((Config { host, admin }, own))
}

/// Why a disk was not loaded, as it is told.
pub fn refused(fault: LoadFault) -> Served
    ensures { result ≡ as_served fault }
{
    match fault {
        LoadFault::NotJournal(place) => Served::NotJournal { place },
        LoadFault::OtherHost(found) => Served::OtherHost { found },
        LoadFault::DiskFault(count) => Served::DiskFault { count },
        LoadFault::NoMemory => Served::NoMemory,
    }
}

/// Serves a store that was loaded from a disk as it was before, and gives the disk back.
fn serve_store<
    J: Founded,
    D: Disk + Send,
    L: Door + Send,
    N: Post + Send,
    K: Clock + Send,
    R: Threads + Wait + Sync,
>(
    rt: &R,
    alloc: Global,
    config: &Config,
    workers: &mut [Worker<Followed<D>, L, N, K>],
    store: Store<D>,
    draw_key: [u8; 32],
    before: &Snapshot<D>,
) -> (Served, D)
where
    L::Conn: Send,
    requires some { 0 < length workers.old }
    requires store { (k : List Entry) × J.known k × Stands ⟦<D as Disk>⟧ store k [] × IsLegalUnder (terms_of store) k [] }
    ensures served { (calls own : ℕ) → HasServed result.0 calls own → WasServed ⟦<D as Disk>⟧ (2 ^ 63) J.known store result.1 calls own
        (λ gate first past all. EachShift L.Conn.sides config.now draw_key workers.old workers.new
        (λ w. work (L.told w.door) (L.faults w.door) (N.exchanges w.post) (N.faults w.post) (N.delivers w.post) w.draw (K.given w.clock) w.pass w.end) gate first past all) }
    ensures ended { (calls own : ℕ) → result.0 ≡ Served.Ended calls own → (i : ℕ) (d : _) → i < length workers.new → (slice_index_or workers.new i d).end ≡ rounds.Ended }
    ensures fault { (calls own : ℕ) → result.0 ≡ Served.DoorFault calls own → (i : ℕ) × (i < length workers.new) × ((d : _) → (slice_index_or workers.new i d).end ≡ rounds.DoorFault) }
    ensures loaded { IsLoaded result.0 }
    ensures unasked { IsUnserved result.0 → workers.new ≡ workers.old }
    ensures kept { IsUnserved result.0 → result.1 ≡ disk_of store }
{
    match serve_object::<J, Followed<D>, L, N, K, R>(
        rt,
        alloc,
        config,
        workers,
        Followed::new(store),
        MOST_CALLS,
        draw_key,
    ) {
        Ok(done) => {
            let served = ended(workers, done.calls, done.own);
            (served, done.value.into_store().into_disk())
        }
        Err(followed) => (Served::NoMemory, followed.into_store().into_disk()),
    }
}

/// How workers ended that made so many calls: by a fault of a door where one of them had it.
pub fn ended<T: Dated, L: Door, N: Post, K: Clock>(
    workers: &[Worker<T, L, N, K>],
    calls: u64,
    own: u64,
) -> Served
    ensures counts { (c o : ℕ) → HasServed result c o → (c ≡ calls) × (o ≡ own) }
    ensures loaded { IsLoaded result }
    ensures served { IsUnserved result → ⊥ }
    ensures ended { (c o : ℕ) → result ≡ Served.Ended c o → (i : ℕ) (d : Worker T L N K T.Work T.Mark T.Terms L.Conn) → i < length workers.now → (slice_index_or workers.now i d).end ≡ rounds.Ended }
    ensures fault { (c o : ℕ) → result ≡ Served.DoorFault c o → (i : ℕ) × (i < length workers.now) × ((d : Worker T L N K T.Work T.Mark T.Terms L.Conn) → (slice_index_or workers.now i d).end ≡ rounds.DoorFault) }
{
    for k in 0..workers.len() {
        if matches!(workers[k].end, Rounds::DoorFault) {
            return Served::DoorFault { calls, own };
        }
    }
    Served::Ended { calls, own }
}
