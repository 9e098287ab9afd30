//! Passes handed out to workers, and gathered from them.

ghost use Rattle.std.specs.Prelude.{◌≡◌, ◌<◌, ◌≤◌, ◌+◌, ◌-◌, ℕ, None, Some, All, map, max, length, slice_index_or};
ghost use Rattle.ocm_turn.specs.Calls.{merged};
ghost use Rattle.ocm_turn.specs.Passes.{BelongsTo, SameGround, all_parts};
ghost use Rattle.ocm_server.specs.Objects.{beginner, draw_at, drawn_of, gathered, mine_of, parts_of, past_of, IsOlder, Knows};
ghost use Rattle.ocm_server.specs.Visits.{Owns};

use crate::doors::Door;
use crate::workers::Worker;
use ocm_base::Clock;
use ocm_pump::Post;
use ocm_server_connections::{Draw, Node};
use ocm_turn::{Dated, Pass};

/// Gives a worker a pass that is split off, and a stream of drawn values.
fn deal_one<T: Dated, L: Door, N: Post, K: Clock>(
    node: &Node<T>,
    pass: &mut Pass<T>,
    worker: &mut Worker<T, L, N, K>,
    draw: Draw,
)
    requires own { BelongsTo node.now pass.old }
    requires some { 1 < pass.old.parts }
    ensures same { pass.new ≡ record pass.old { parts = pass.old.parts - 1 } }
    ensures worker { worker.new ≡ record worker.old { draw = draw; pass = Some (beginner pass.old) } }
{
    let split = node.split(pass).unwrap();
    worker.draw = draw;
    worker.pass = Some(split);
}

/// Gives each worker a pass that is split off the first, and a stream of drawn values of its own, by its place.
pub(crate) fn deal<T: Dated, L: Door, N: Post, K: Clock>(
    node: &Node<T>,
    pass: &mut Pass<T>,
    workers: &mut [Worker<T, L, N, K>],
    draw_key: [u8; 32],
)
    requires own { BelongsTo node.now pass.old }
    requires whole { pass.old.parts ≡ all_parts }
    ensures same { pass.new ≡ record pass.old { parts = pass.new.parts } }
    ensures parts { pass.new.parts + length workers.old ≡ all_parts }
    ensures dealt { (i : ℕ) (d : Worker T L N K T.Work T.Mark T.Terms L.Conn) → i < length workers.old →
        slice_index_or workers.new i d ≡ record (slice_index_or workers.old i d) { draw = draw_at draw_key i; pass = Some (beginner pass.old) } }
{
    for k in 0..workers.len() {
        deal_one(node, pass, &mut workers[k], Draw::new(draw_key, k as u64));
    }
}

/// Takes a worker's pass, and joins it to another.
fn gather_one<T: Dated, L: Door, N: Post, K: Clock>(
    node: &Node<T>,
    pass: &mut Pass<T>,
    worker: &mut Worker<T, L, N, K>,
)
    requires own { BelongsTo node.now pass.old }
    requires worker { Owns node.now worker.old.pass }
    ensures own { BelongsTo node.now pass.new }
    ensures ground { SameGround pass.old pass.new }
    ensures mine { pass.new.mine ≡ merged pass.old.mine (mine_of worker.old.pass) }
    ensures drawn { pass.new.drawn ≡ max pass.old.drawn (drawn_of worker.old.pass) }
    ensures parts { pass.new.parts ≡ pass.old.parts + parts_of worker.old.pass }
    ensures older { IsOlder (past_of pass.old) (past_of pass.new) }
    ensures knows { Knows worker.old.pass (past_of pass.new) }
    ensures worker { worker.new ≡ record worker.old { pass = None } }
{
    let taken = worker.pass.take();
    let other = taken.unwrap();
    node.join(pass, other);
}

/// Takes each worker's pass, and joins all of them to one.
pub(crate) fn gather<T: Dated, L: Door, N: Post, K: Clock>(
    node: &Node<T>,
    pass: &mut Pass<T>,
    workers: &mut [Worker<T, L, N, K>],
)
    requires own { BelongsTo node.now pass.old }
    requires workers { All (λ w. Owns node.now w.pass) workers.old }
    requires one { All (λ w. parts_of w.pass ≡ 1) workers.old }
    ensures own { BelongsTo node.now pass.new }
    ensures ground { SameGround pass.old pass.new }
    ensures mine { pass.new.mine ≡ gathered pass.old.mine (map (λ w. mine_of w.pass) workers.old) }
    ensures drawn { (i : ℕ) (d : Worker T L N K T.Work T.Mark T.Terms L.Conn) → i < length workers.old → drawn_of (slice_index_or workers.old i d).pass ≤ pass.new.drawn }
    ensures parts { pass.new.parts ≡ pass.old.parts + length workers.old }
    ensures knows { (i : ℕ) (d : Worker T L N K T.Work T.Mark T.Terms L.Conn) → i < length workers.old → Knows (slice_index_or workers.old i d).pass (past_of pass.new) }
    ensures taken { (i : ℕ) (d : Worker T L N K T.Work T.Mark T.Terms L.Conn) → i < length workers.old →
        slice_index_or workers.new i d ≡ record (slice_index_or workers.old i d) { pass = None } }
{
    for k in 0..workers.len() {
        gather_one(node, pass, &mut workers[k]);
    }
}
