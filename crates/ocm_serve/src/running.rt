//! A server run by a plan, with what an administrator is told.
ghost use Rattle.std.specs.Prelude.{◌≡◌, ◌⊎◌, ◌≤◌, ◌<◌, ◌+◌, ℕ, List, map, vec_len};
ghost use Rattle.ocm_serve.specs.Runs.{CouldNotBegin, RanOver, ServesTo};
ghost use Rattle.ocm_serve_system.specs.Openings.{IsOpenedWith};
ghost use Rattle.ocm_serve_system.specs.Statuses.{IsStatus};
ghost use Rattle.ocm_server.specs.Statuses.{status_of};
ghost use Rattle.ocm_server.specs.Visits.{work};
ghost use Rattle.ocm_server.specs.declared.served.Served.{Served};

use crate::workers::{NetWorker, dismiss, workers_for};
use ocm_base::{Clock, GhostBytes};
use ocm_disk::{Disk, FileDisk};
use ocm_net_adapters::StreamConn;
use ocm_pump::Post;
use ocm_serve_options::Plan;
use ocm_serve_store::{Followed, serve};
use ocm_serve_system::{OpenFault, Opening, ToldDisk, tell_end, tell_fault, tell_host, tell_place};
use ocm_server::{Door, Worker};
use ocm_server_connections::Conn;
use std::alloc::Global;
use std::fs::File;
use std::io::Eprint;
use std::net::{Net, TcpListener, TcpStream};
use std::rt::Files;
use std::sync::Wait;
use std::thread::Threads;
use std::time;

/// Runs the server of a plan, and answers the status of the program. On standard error an administrator is told where it
/// listens, when its disk fails, and how it ended. What its disk holds is said by the caller, for contracts alone.
pub fn run<
    'a,
    R: Threads
        + Wait
        + Sync
        + time::Clock
        + Files<File = File>
        + Eprint
        + Net<Listener = TcpListener, Stream = TcpStream>,
>(rt: &'a R, alloc: Global, plan: &Plan, holds: GhostBytes) -> u8
    requires workers { 1 ≤ plan.now.workers }
    ensures status { IsStatus result }

    // It could not begin, or it served the disk that it opened, and the status is that of what came.
    ensures ran { CouldNotBegin result ⊎ RanOver ⟦<ToldDisk<'a, R, FileDisk> as Disk>⟧ ⟦<StreamConn<'a, R> as Conn>⟧.sides plan.now holds.bytes result }
{
    let opening = match Opening::new(rt, alloc, plan, holds) {
        Ok(opening) => opening,
        Err(fault) => return tell_fault(rt, fault, plan, ""),
    };
    let workers = match workers_for(rt, alloc, plan, &opening) {
        Ok(workers) => workers,
        Err(error) => {
            drop(opening);
            return tell_fault(rt, OpenFault::of_listening(&error), plan, "");
        }
    };
    tell_place(rt, &opening);
    tell_host(rt, alloc, &plan.host);
    let (disk, draw_key) = opening.into_disk();
    run_over(rt, alloc, plan, workers, ToldDisk::new(rt, disk), draw_key)
}

/// Serves the store of a disk by the workers of a plan, tells how that ended, and answers the status.
fn run_over<
    'a,
    D: Disk + Send,
    R: Threads
        + Wait
        + Sync
        + time::Clock
        + Eprint
        + Net<Listener = TcpListener, Stream = TcpStream>,
>(
    rt: &R,
    alloc: Global,
    plan: &Plan,
    workers: Vec<NetWorker<'a, Followed<D>, R>>,
    disk: D,
    draw_key: [u8; 32],
) -> u8
    requires counted { vec_len workers ≡ plan.now.workers + 1 }
    ensures status { IsStatus result }
    ensures ran { (holds : List ℕ) → IsOpenedWith ⟦<D as Disk>⟧ holds disk → RanOver ⟦<D as Disk>⟧ ⟦<StreamConn<'a, R> as Conn>⟧.sides plan.now holds result }
{
    run_workers(rt, alloc, plan, workers, disk, draw_key)
}

/// Serves the store of a disk by workers, tells how that ended, and answers the status.
fn run_workers<
    D: Disk + Send,
    L: Door + Send,
    N: Post + Send,
    K: Clock + Send,
    R: Threads + Wait + Sync + Eprint,
>(
    rt: &R,
    alloc: Global,
    plan: &Plan,
    mut workers: Vec<Worker<Followed<D>, L, N, K>>,
    disk: D,
    draw_key: [u8; 32],
) -> u8
where
    L::Conn: Send,
    requires some { 0 < vec_len workers }
    ensures status { IsStatus result }

    // The status is that of what `serve` came to, with all that is known of it.
    ensures runs { (came : Served) × (result ≡ status_of came) × ServesTo ⟦<D as Disk>⟧ L.Conn.sides plan.now draw_key disk
        (map (λ w. work (L.told w.door) (L.faults w.door) (N.exchanges w.post) (N.faults w.post) (N.delivers w.post) w.draw (K.given w.clock) w.pass w.end) workers.items) came }
{
    let (served, disk) = serve(rt, alloc, plan, &mut workers, disk, draw_key);
    drop(disk);
    dismiss(workers);
    tell_end(rt, served, plan)
}
