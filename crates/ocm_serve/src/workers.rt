//! The workers of a plan.
ghost use Rattle.std.specs.Prelude.{◌≡◌, ◌+◌, None, All, IfOk, OnOk, vec_len};

use ocm_base::{Clock, StdClock};
use ocm_net_adapters::{NetDoor, Peers, TcpPost, is_local_host};
use ocm_net_posts::{Delivering, Posts};
use ocm_net_sockets::Serving;
use ocm_pump::Post;
use ocm_serve_options::{Peers as Told, Plan};
use ocm_serve_system::Opening;
use ocm_server::{Door, Worker};
use ocm_server_connections::Draw;
use ocm_turn::Dated;
use std::alloc::Global;
use std::io::Eprint;
use std::net::{Net, TcpListener, TcpStream};
use std::sync::{Arc, Wait};
use std::thread::Threads;
use std::{io, time};

/// A worker with its door and post over TCP, and the system's clock: one that serves connections and delivers nothing, or
/// one that delivers.
pub type NetWorker<'a, T, R> = Worker<T, NetDoor<'a, R>, TcpPost<'a, R>, StdClock<'a, R>>;

/// Puts a worker without a pass behind others.
fn add<T: Dated, L: Door, N: Post, K: Clock>(
    workers: &mut Vec<Worker<T, L, N, K>>,
    door: L,
    post: N,
    draw: Draw,
    clock: K,
) -> io::Result<()>
    ensures count { OnOk result (vec_len workers.new ≡ vec_len workers.old + 1) }
    ensures fresh { OnOk result (All (λ w. w.pass ≡ None) workers.old.items → All (λ w. w.pass ≡ None) workers.new.items) }
{
    workers.push(Worker::new(door, post, draw, clock))?;
    Ok(())
}

/// Lets workers go.
pub(crate) fn dismiss<T: Dated, L: Door, N: Post, K: Clock>(workers: Vec<Worker<T, L, N, K>>) {
    drop(workers);
}

/// Puts the serving worker of a number behind others, with a door of its own to what was opened.
fn add_serving<
    'a,
    T: Dated,
    R: Threads + Wait + time::Clock + Eprint + Net<Listener = TcpListener, Stream = TcpStream>,
>(
    rt: &'a R,
    alloc: Global,
    opening: &Opening,
    number: u32,
    workers: &mut Vec<NetWorker<'a, T, R>>,
) -> io::Result<()>
    ensures count { OnOk result (vec_len workers.new ≡ vec_len workers.old + 1) }
    ensures fresh { OnOk result (All (λ w. w.pass ≡ None) workers.old.items → All (λ w. w.pass ≡ None) workers.new.items) }
{
    let entrance = Arc::try_clone(&opening.entrance)?;
    let door = NetDoor::serving(Serving::new(rt, alloc, entrance, number as usize)?);
    let draw = Draw::new(opening.draw_key, u64::from(number));
    add(workers, door, TcpPost::idle(), draw, StdClock::new(rt))
}

/// Which peers the server of a plan asks: any where the plan says so, and where the host itself is named as one of its own
/// machine or network; else those with public addresses.
fn peers_of(plan: &Plan) -> Peers {
    match plan.peers {
        Told::Private => Peers::Any,
        Told::Public if is_local_host(plan.host.as_str()) => Peers::Any,
        Told::Public => Peers::Public,
    }
}

/// Puts the worker of a plan that delivers behind those that serve. Its number is the one behind theirs.
fn add_delivering<
    'a,
    T: Dated,
    R: Threads + Wait + time::Clock + Eprint + Net<Listener = TcpListener, Stream = TcpStream>,
>(
    rt: &'a R,
    alloc: Global,
    opening: &Opening,
    plan: &Plan,
    workers: &mut Vec<NetWorker<'a, T, R>>,
) -> io::Result<()>
    ensures count { OnOk result (vec_len workers.new ≡ vec_len workers.old + 1) }
    ensures fresh { OnOk result (All (λ w. w.pass ≡ None) workers.old.items → All (λ w. w.pass ≡ None) workers.new.items) }
{
    let bell = Arc::try_clone(&opening.posts)?;
    let posts = Arc::new(alloc, Posts::new(rt, alloc, bell, peers_of(plan))?)?;
    let door = NetDoor::delivering(Delivering::new(Arc::try_clone(&posts)?));
    let draw = Draw::new(opening.draw_key, u64::from(plan.workers));
    add(workers, door, TcpPost::new(posts), draw, StdClock::new(rt))
}

/// The workers of a plan, each with a door of its own to what was opened, and behind them one that delivers. None has a
/// pass.
pub fn workers_for<
    'a,
    T: Dated,
    R: Threads + Wait + time::Clock + Eprint + Net<Listener = TcpListener, Stream = TcpStream>,
>(rt: &'a R, alloc: Global, plan: &Plan, opening: &Opening) -> io::Result<Vec<NetWorker<'a, T, R>>>
    ensures count { IfOk result (λ workers. vec_len workers ≡ plan.now.workers + 1) }
    ensures fresh { IfOk result (λ workers. All (λ w. w.pass ≡ None) workers.items) }
{
    let mut workers: Vec<NetWorker<'a, T, R>> = Vec::new(alloc);
    for number in 0..plan.workers {
        if let Err(error) = add_serving(rt, alloc, opening, number, &mut workers) {
            dismiss(workers);
            return Err(error);
        }
    }
    if let Err(error) = add_delivering(rt, alloc, opening, plan, &mut workers) {
        dismiss(workers);
        return Err(error);
    }
    Ok(workers)
}
