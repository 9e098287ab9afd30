//! Workers, each with a door of its own.

ghost use Rattle.std.specs.Prelude.{◌≡◌, ◌≤◌, ◌<◌, ℕ, None, All, length, slice_index_or};
ghost use Rattle.ocm_base.specs.Outside.{Rose};
ghost use Rattle.ocm_turn.specs.Passes.{BelongsTo};
ghost use Rattle.ocm_server_rounds.specs.Rounds.{hold};
ghost use Rattle.ocm_server.specs.Doors.{IsOut};
ghost use Rattle.ocm_server.specs.Visits.{Behind, Comes, Serves, Owns, Worked, ends, desk, work};

use crate::doors::Door;
use ocm_base::Clock;
use ocm_dav::Config;
use ocm_pump::Post;
use ocm_server_connections::{Conn, Draw, Node, serve_conn};
use ocm_server_rounds::{Pumped, pump_round};
use ocm_turn::{Dated, Pass};
use std::alloc::Global;
use std::sync::Wait;
use std::thread::{Threads, for_each_mut};

/// How a worker ended.
#[derive(Clone, Copy)]
pub enum Rounds {
    /// The door came to its end.
    Ended,
    /// The door failed.
    DoorFault,
}

/// Makes a round of delivery where the worker's post delivers, and else no call.
fn round_behind<T: Dated, N: Post, R: Wait>(
    rt: &R,
    alloc: Global,
    node: &Node<T>,
    pass: &mut Pass<T>,
    post: &mut N,
) -> Option<Pumped>
    requires own { BelongsTo node.now pass.old }
    ensures behind { Behind node.now.limit (N.delivers post.old) result (hold pass.old (N.exchanges post.old)) (hold pass.new (N.exchanges post.new)) }
    ensures own { BelongsTo node.now pass.new }
    ensures never_falls { N.faults post.old ≤ N.faults post.new }
    ensures kind { N.delivers post.new ≡ N.delivers post.old }
{
    if post.delivers() {
        Some(pump_round(rt, alloc, node, pass, post))
    } else {
        None
    }
}

/// Serves one connection, hands it back, and makes one round of delivery where the worker's post delivers.
fn serve_visit<T: Dated, L: Door, N: Post, K: Clock, R: Wait>(
    rt: &R,
    alloc: Global,
    config: &Config,
    node: &Node<T>,
    pass: &mut Pass<T>,
    door: &mut L,
    post: &mut N,
    draw: &mut Draw,
    clock: &mut K,
    mut conn: L::Conn,
)
    requires own { BelongsTo node.now pass.old }
    requires out { IsOut (L.told door.old) }
    ensures comes { Comes L.Conn.sides config.now node.now.limit (N.delivers post.old) conn (L.told door.old) (L.told door.new)
        (desk draw.old (K.given clock.old) (N.exchanges post.old) pass.old) (desk draw.new (K.given clock.new) (N.exchanges post.new) pass.new) }
    ensures own { BelongsTo node.now pass.new }
    ensures faults { L.faults door.new ≡ L.faults door.old }
    ensures post_never_falls { N.faults post.old ≤ N.faults post.new }
    ensures kind { N.delivers post.new ≡ N.delivers post.old }
{
    let ended = serve_conn(rt, alloc, config, node, pass, &mut conn, draw, clock);
    door.done(conn, ended);
    let _pumped = round_behind(rt, alloc, node, pass, post);
}

/// Serves the connections of a door one after another.
fn serve_door<T: Dated, L: Door, N: Post, K: Clock, R: Wait>(
    rt: &R,
    alloc: Global,
    config: &Config,
    node: &Node<T>,
    pass: &mut Pass<T>,
    door: &mut L,
    post: &mut N,
    draw: &mut Draw,
    clock: &mut K,
) -> Rounds
    requires own { BelongsTo node.now pass.old }
    ensures serves { Serves L.Conn.sides config.now node.now.limit (N.delivers post.old) (L.told door.old) (L.told door.new) (ends result)
        (desk draw.old (K.given clock.old) (N.exchanges post.old) pass.old) (desk draw.new (K.given clock.new) (N.exchanges post.new) pass.new) }
    ensures own { BelongsTo node.now pass.new }
    ensures fault { result ≡ Rounds.DoorFault → Rose (L.faults door.old) (L.faults door.new) }
    ensures unfailed { result ≡ Rounds.Ended → L.faults door.new ≡ L.faults door.old }
    ensures never_falls { L.faults door.old ≤ L.faults door.new }
    ensures post_never_falls { N.faults post.old ≤ N.faults post.new }
    ensures kind { N.delivers post.new ≡ N.delivers post.old }
{
    for _ in rt.forever() {
        match door.next() {
            Ok(Some(conn)) => serve_visit(
                rt, alloc, config, node, pass, door, post, draw, clock, conn,
            ),
            Ok(None) => return Rounds::Ended,
            Err(_) => return Rounds::DoorFault,
        }
    }
    unreachable!()
}

/// A worker: its door, its post, its stream of drawn values, its pass, how it ended, and its clock.
pub struct Worker<T: Dated, L: Door, N: Post, K: Clock> {
    pub door: L,
    pub post: N,
    pub draw: Draw,
    pub pass: Option<Pass<T>>,
    pub end: Rounds,
    pub clock: K,
}

impl<T: Dated + Drop, L: Door + Drop, N: Post + Drop, K: Clock + Drop> Drop for Worker<T, L, N, K> {
    fn drop(self) {
        let Worker {
            door: _,
            post: _,
            draw: _,
            pass: _,
            end: _,
            clock: _,
        } = self;
    }
}

impl<T: Dated, L: Door, N: Post, K: Clock> Worker<T, L, N, K> {
    /// A worker without a pass, which has not begun.
    pub fn new(door: L, post: N, draw: Draw, clock: K) -> Worker<T, L, N, K>
        ensures { result ≡ record { door = door; post = post; draw = draw; pass = None; end = Rounds.Ended; clock = clock } }
    {
        Worker {
            door,
            post,
            draw,
            pass: None,
            end: Rounds::Ended,
            clock,
        }
    }
}

/// Serves the connections of the worker's door one after another: each to its ending, whatever that is, and then makes a
/// round of delivery where the worker's post delivers. It ends where the door comes to its end or fails. It waits for its turns, and its return is not
/// promised.
pub fn serve_worker<T: Dated, L: Door, N: Post, K: Clock, R: Wait>(
    rt: &R,
    alloc: Global,
    config: &Config,
    node: &Node<T>,
    worker: &mut Worker<T, L, N, K>,
)
    requires own { Owns node.now worker.old.pass }
    ensures worked { Worked L.Conn.sides config.now node.now
        (work (L.told worker.old.door) (L.faults worker.old.door) (N.exchanges worker.old.post) (N.faults worker.old.post) (N.delivers worker.old.post) worker.old.draw (K.given worker.old.clock) worker.old.pass worker.old.end)
        (work (L.told worker.new.door) (L.faults worker.new.door) (N.exchanges worker.new.post) (N.faults worker.new.post) (N.delivers worker.new.post) worker.new.draw (K.given worker.new.clock) worker.new.pass worker.new.end) }
{
    let taken = worker.pass.take();
    let mut pass = taken.unwrap();
    worker.end = serve_door(
        rt,
        alloc,
        config,
        node,
        &mut pass,
        &mut worker.door,
        &mut worker.post,
        &mut worker.draw,
        &mut worker.clock,
    );
    // Whoever asks a pass for its calls is told that they stand in order.
    let _calls = pass.calls();
    worker.pass = Some(pass);
}

/// How workers ended: a fault of a door where one of them had it.
fn rounds_of<T: Dated, L: Door, N: Post, K: Clock>(workers: &[Worker<T, L, N, K>]) -> Rounds
    ensures ended { result ≡ Rounds.Ended → (i : ℕ) (d : Worker T L N K T.Work T.Mark T.Terms L.Conn) → i < length workers.now → (slice_index_or workers.now i d).end ≡ Rounds.Ended }
    ensures fault { result ≡ Rounds.DoorFault → (i : ℕ) × (i < length workers.now) × ((d : Worker T L N K T.Work T.Mark T.Terms L.Conn) → (slice_index_or workers.now i d).end ≡ Rounds.DoorFault) }
{
    for k in 0..workers.len() {
        if matches!(workers[k].end, Rounds::DoorFault) {
            return Rounds::DoorFault;
        }
    }
    Rounds::Ended
}

/// Runs every worker, each in a thread of its own, and waits for all of them. It answers DoorFault where a worker's door
/// failed. Its return is not promised.
pub fn serve_all<
    T: Dated + Send,
    L: Door + Send,
    N: Post + Send,
    K: Clock + Send,
    R: Threads + Wait + Sync,
>(
    rt: &R,
    alloc: Global,
    config: &Config,
    node: &Node<T>,
    workers: &mut [Worker<T, L, N, K>],
) -> Rounds
where
    T::Terms: Send,
    T::Mark: Send,
    L::Conn: Send,
    requires some { 0 < length workers.old }
    requires own { All (λ w. Owns node.now w.pass) workers.old }
    ensures each { (i : ℕ) (d : Worker T L N K T.Work T.Mark T.Terms L.Conn) → i < length workers.old →
        let a = slice_index_or workers.old i d in let b = slice_index_or workers.new i d in
        Worked L.Conn.sides config.now node.now
        (work (L.told a.door) (L.faults a.door) (N.exchanges a.post) (N.faults a.post) (N.delivers a.post) a.draw (K.given a.clock) a.pass a.end)
        (work (L.told b.door) (L.faults b.door) (N.exchanges b.post) (N.faults b.post) (N.delivers b.post) b.draw (K.given b.clock) b.pass b.end) }
    ensures ended { result ≡ Rounds.Ended → (i : ℕ) (d : Worker T L N K T.Work T.Mark T.Terms L.Conn) → i < length workers.new → (slice_index_or workers.new i d).end ≡ Rounds.Ended }
    ensures fault { result ≡ Rounds.DoorFault → (i : ℕ) × (i < length workers.new) × ((d : Worker T L N K T.Work T.Mark T.Terms L.Conn) → (slice_index_or workers.new i d).end ≡ Rounds.DoorFault) }
{
    let count = workers.len();
    for_each_mut(
        rt,
        workers,
        count,
        &|_i, worker: &mut Worker<T, L, N, K>| serve_worker(rt, alloc, config, node, worker),
    );
    rounds_of(workers)
}
