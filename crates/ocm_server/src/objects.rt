//! An object served, from its first call to its last.

ghost use Rattle.std.specs.Prelude.{◌≡◌, ◌≤◌, ◌<◌, ◌^◌, ℕ, List, [], None, length, slice_index_or, IfOk, IfErr};
ghost use Rattle.ocm_entry.specs.declared.entries.Entry.{Entry};
ghost use Rattle.ocm_turn.specs.Passes.{Gate, Known, BelongsTo, all_parts};
ghost use Rattle.ocm_server.specs.Objects.{Begins, EachShift, Service};
ghost use Rattle.ocm_server.specs.Visits.{work};

use crate::doors::Door;
use crate::passes::{deal, gather};
use crate::workers::{Rounds, Worker, serve_all};
use ocm_base::Clock;
use ocm_dav::Config;
use ocm_pump::Post;
use ocm_server_connections::{Conn, Node};
use ocm_turn::{Dated, Founded, Pass, Turnstile};
use std::alloc::Global;
use std::sync::Wait;
use std::thread::Threads;

/// What is left where all workers are done.
#[derive(Drop)]
pub struct Finished<T> {
    /// The object, after all calls.
    pub value: T,
    /// How many calls it answered.
    pub calls: u64,
    /// How many of these the workers made: all of them.
    pub own: u64,
    /// How the workers ended.
    pub rounds: Rounds,
}

/// Runs the workers at a turnstile, each with a pass of its own, and takes the object out behind the last call.
fn serve_through<
    T: Dated + Send,
    L: Door + Send,
    N: Post + Send,
    K: Clock + Send,
    R: Threads + Wait + Sync,
>(
    rt: &R,
    alloc: Global,
    config: &Config,
    workers: &mut [Worker<T, L, N, K>],
    node: Node<T>,
    mut pass: Pass<T>,
    draw_key: [u8; 32],
) -> Finished<T>
where
    T::Terms: Send,
    T::Mark: Send,
    L::Conn: Send,
    requires own { BelongsTo node pass }
    requires uncalled { pass.mine ≡ [] }
    requires whole { pass.parts ≡ all_parts }
    requires some { 0 < length workers.old }
    // The object comes back when it awaits no work.
    ensures home { T.awaited result.value ≡ None }
    ensures service { Service T.terms T.stands T.came T.legal node pass result.value result.calls result.own
        (λ past all. EachShift L.Conn.sides config.now draw_key workers.old workers.new
        (λ w. work (L.told w.door) (L.faults w.door) (N.exchanges w.post) (N.faults w.post) (N.delivers w.post) w.draw (K.given w.clock) w.pass w.end) node pass past all) }
    ensures ended { result.rounds ≡ Rounds.Ended → (i : ℕ) (d : Worker T L N K T.Work T.Mark T.Terms L.Conn) → i < length workers.new → (slice_index_or workers.new i d).end ≡ Rounds.Ended }
    ensures fault { result.rounds ≡ Rounds.DoorFault → (i : ℕ) × (i < length workers.new) × ((d : Worker T L N K T.Work T.Mark T.Terms L.Conn) → (slice_index_or workers.new i d).end ≡ Rounds.DoorFault) }
{
    deal(&node, &mut pass, workers, draw_key);
    let rounds = serve_all(rt, alloc, config, &node, workers);
    gather(&node, &mut pass, workers);
    let own = pass.calls();
    let shut = node.close(rt, pass);
    Finished {
        value: shut.value,
        calls: shut.calls,
        own,
        rounds,
    }
}

/// Serves an object by workers, each in a thread of its own, for `limit` calls at most: makes a turnstile in front of it
/// with a pass for each worker, runs all workers, and takes the object out behind the last call. The worker at each place
/// draws by the stream of that number under the key. Where memory is wanting the object comes back, and no door was asked.
/// It waits, and its return is not promised.
pub fn serve_object<
    J: Founded,
    T: Dated + Send,
    L: Door + Send,
    N: Post + Send,
    K: Clock + Send,
    R: Threads + Wait + Sync,
>(
    rt: &R,
    alloc: Global,
    config: &Config,
    workers: &mut [Worker<T, L, N, K>],
    value: T,
    limit: u64,
    draw_key: [u8; 32],
) -> Result<Finished<T>, T>
where
    T::Terms: Send,
    T::Mark: Send,
    L::Conn: Send,
    requires limit { (1 ≤ limit) × (limit ≤ 2 ^ 63) }
    requires value { (base : List Entry) × J.known base × T.stands value base [] × T.legal (T.terms value) base [] }
    requires home { T.awaited value ≡ None }
    requires some { 0 < length workers.old }
    ensures home { IfOk result (λ f. T.awaited f.value ≡ None) }
    ensures served { IfOk result (λ f. (gate : Gate) × (first : Known T.Terms) × Begins limit (T.terms value) gate first
        × (J.known first.base × T.stands value first.base [] × T.legal first.terms first.base [])
        × Service T.terms T.stands T.came T.legal gate first f.value f.calls f.own
        (λ past all. EachShift L.Conn.sides config.now draw_key workers.old workers.new
        (λ w. work (L.told w.door) (L.faults w.door) (N.exchanges w.post) (N.faults w.post) (N.delivers w.post) w.draw (K.given w.clock) w.pass w.end) gate first past all)) }
    // How the workers ended: a fault of a door where one of them had it.
    ensures ended { IfOk result (λ f. f.rounds ≡ Rounds.Ended → (i : ℕ) (d : Worker T L N K T.Work T.Mark T.Terms L.Conn) → i < length workers.new → (slice_index_or workers.new i d).end ≡ Rounds.Ended) }
    ensures fault { IfOk result (λ f. f.rounds ≡ Rounds.DoorFault → (i : ℕ) × (i < length workers.new) × ((d : Worker T L N K T.Work T.Mark T.Terms L.Conn) → (slice_index_or workers.new i d).end ≡ Rounds.DoorFault)) }
    ensures same { IfErr result (λ v. v ≡ value) }
    ensures unasked { IfErr result (λ _. workers.new ≡ workers.old) }
{
    match Turnstile::make::<J>(alloc, value, limit) {
        Ok((node, pass)) => Ok(serve_through(rt, alloc, config, workers, node, pass, draw_key)),
        Err(value) => Err(value),
    }
}
