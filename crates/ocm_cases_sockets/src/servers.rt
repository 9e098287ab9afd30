//! A server in a thread of its own, and a client beside it.
ghost use Rattle.std.specs.Prelude.{◌<◌, vec_len};

use crate::dials::host_at;
use crate::visits::visits_told;
use ocm_base::{Clock, GhostBytes};
use ocm_disk::Disk;
use ocm_pump::Post;
use ocm_serve::{Opening, serve, workers_for};
use ocm_serve_options::{Plan, read_plan};
use ocm_serve_store::Followed;
use ocm_serve_system::read_admin;
use ocm_server::{Door, Served, Worker};
use ocm_turn::Dated;
use std::alloc::Global;
use std::fs::File;
use std::io::Eprint;
use std::net::{Net, TcpListener, TcpStream};
use std::rt::Files;
use std::sync::Wait;
use std::thread::{Threads, join};
use std::{fs, time};

/// What comes of a server by the words of a line, which name a number of connections, and of a client beside it. The
/// server's host is its address. Its disk is removed before and after.
pub fn server_told<
    R: Threads
        + Wait
        + Sync
        + time::Clock
        + Files<File = File>
        + Eprint
        + Net<Listener = TcpListener, Stream = TcpStream>,
>(rt: &R, alloc: Global, line: &str) -> Option<String> {
    let mut plan = plan_of(rt, alloc, line)?;
    let _ = fs::remove_file(rt, plan.disk.as_str());
    let opening = Opening::new(rt, alloc, &plan, GhostBytes::new()).ok()?;
    let address = opening.entrance.address();
    plan.host = host_at(alloc, address)?;
    let (ended, visits) = join(
        rt,
        || run_server(rt, alloc, &plan, opening),
        || visits_told(rt, alloc, &plan, address),
    );
    let _ = fs::remove_file(rt, plan.disk.as_str());
    let (ended, visits) = ended.zip(visits)?;
    format!(in alloc; "{}; {}", visits.as_str(), ended.as_str()).ok()
}

/// The plan by the words of a line, one space between two.
fn plan_of<R: Files<File = File>>(rt: &R, alloc: Global, line: &str) -> Option<Plan> {
    let mut words = Vec::new(alloc);
    for word in line.split(' ') {
        words.push(String::from_str(alloc, word).ok()?).ok()?;
    }
    let orders = read_plan(alloc, &words).ok()?;
    let admin = read_admin(rt, alloc, &orders.admin).ok()?;
    Some(orders.plan(admin))
}

/// Runs the server of a plan, and tells its workers and how it ended.
fn run_server<
    R: Threads
        + Wait
        + Sync
        + time::Clock
        + Eprint
        + Net<Listener = TcpListener, Stream = TcpStream>,
>(rt: &R, alloc: Global, plan: &Plan, opening: Opening) -> Option<String> {
    let workers = workers_for(rt, alloc, plan, &opening).ok()?;
    let (disk, draw_key) = opening.into_disk();
    run_workers(rt, alloc, plan, workers, disk, draw_key)
}

fn run_workers<
    D: Disk + Send,
    L: Door + Send,
    N: Post + Send,
    K: Clock + Send,
    R: Threads + Wait + Sync,
>(
    rt: &R,
    alloc: Global,
    plan: &Plan,
    mut workers: Vec<Worker<Followed<D>, L, N, K>>,
    disk: D,
    draw_key: [u8; 32],
) -> Option<String>
where
    L::Conn: Send,
    requires { 0 < vec_len workers }
{
    let (served, disk) = serve(rt, alloc, plan, &mut workers, disk, draw_key);
    drop(disk);
    let ending = match &served {
        Served::Ended { calls, own } if calls == own => "ended, all calls its own",
        _ => "another end",
    };
    let told = workers_told(alloc, workers)?;
    format!(in alloc; "{}; {ending}", told.as_str()).ok()
}

/// Which workers serve, and which deliver.
fn workers_told<T: Dated, L: Door, N: Post, K: Clock>(
    alloc: Global,
    workers: Vec<Worker<T, L, N, K>>,
) -> Option<String> {
    let mut told = String::from_str(alloc, "workers").ok()?;
    for worker in workers.iter() {
        let does = if worker.post.delivers() {
            " delivers"
        } else {
            " serves"
        };
        told.push_str(does).ok()?;
    }
    Some(told)
}
