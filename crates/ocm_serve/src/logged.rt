//! A server run by a plan, with a log of what it answers to its readers.
ghost use Rattle.std.specs.Prelude.{◌≡◌, ◌⊎◌, ◌≤◌, ◌<◌, ◌+◌, [], ℕ, List, Some, IfSome, map, vec_len};
ghost use Rattle.ocm_serve.specs.Runs.{CouldNotBegin, LogsTo, RanLogged};
ghost use Rattle.ocm_serve_system.specs.Openings.{IsOpenedWith};
ghost use Rattle.ocm_serve_system.specs.Statuses.{IsStatus};
ghost use Rattle.ocm_server.specs.Statuses.{status_of};
ghost use Rattle.ocm_server.specs.Visits.{work};
ghost use Rattle.ocm_server.specs.declared.served.Served.{Served};

use crate::log_files::{ToldLog, open_log};
use crate::workers::{NetWorker, dismiss, workers_for};
use ocm_base::{Clock, GhostBytes, Sink};
use ocm_disk::{Disk, FileDisk};
use ocm_log_files::LogFile;
use ocm_net_adapters::StreamConn;
use ocm_pump::Post;
use ocm_serve_log::{LogSink, LoggedRun, LoggedStore, serve_logged};
use ocm_serve_options::Plan;
use ocm_serve_system::{
    OpenFault, Opening, ToldDisk, tell_end, tell_fault, tell_host, tell_log, tell_place,
};
use ocm_server::{Door, Worker};
use ocm_server_connections::Conn;
use std::alloc::Global;
use std::fs::File;
use std::io::Eprint;
use std::net::{Net, TcpListener, TcpStream};
use std::rt::Files;
use std::sync::Wait;
use std::thread::Threads;
use std::time;

/// Does what [`crate::run`] does, and writes what the server answers to its readers to a log, the file at this path.
/// What that file took is told as the system answered.
pub fn run_logged<
    'a,
    R: Threads
        + Wait
        + Sync
        + time::Clock
        + Files<File = File>
        + Eprint
        + Net<Listener = TcpListener, Stream = TcpStream>,
>(rt: &'a R, alloc: Global, plan: &Plan, log: &str, holds: GhostBytes) -> u8
    requires workers { 1 ≤ plan.now.workers }
    ensures status { IsStatus result }

    // As without a log, and what the log's file took is the log of the calls of the run.
    ensures ran { CouldNotBegin result ⊎ RanLogged ⟦<ToldDisk<'a, R, FileDisk> as Disk>⟧ ⟦<StreamConn<'a, R> as Conn>⟧.sides ⟦<LogFile as Sink>⟧.taken ⟦<LogFile as Sink>⟧.faults plan.now holds.bytes result }
{
    let opening = match Opening::new(rt, alloc, plan, holds) {
        Ok(opening) => opening,
        Err(fault) => return tell_fault(rt, fault, plan, log),
    };
    match open_log(rt, alloc, log, plan.disk.as_str()) {
        Ok(log) => run_opened(rt, alloc, plan, opening, log),
        Err(fault) => {
            drop(opening);
            tell_fault(rt, fault, plan, log)
        }
    }
}

/// Runs the server of a plan with what was opened for it.
fn run_opened<
    'a,
    R: Threads
        + Wait
        + Sync
        + time::Clock
        + Files<File = File>
        + Eprint
        + Net<Listener = TcpListener, Stream = TcpStream>,
>(rt: &'a R, alloc: Global, plan: &Plan, opening: Opening, log: ToldLog<'a, R>) -> u8
    requires workers { 1 ≤ plan.now.workers }
    requires fresh { ⟦<LogFile as Sink>⟧.taken log.file ≡ Some [] }
    ensures status { IsStatus result }
    ensures ran { (holds : List ℕ) → IsOpenedWith ⟦<FileDisk as Disk>⟧ holds opening.disk
        → CouldNotBegin result ⊎ RanLogged ⟦<ToldDisk<'a, R, FileDisk> as Disk>⟧ ⟦<StreamConn<'a, R> as Conn>⟧.sides ⟦<LogFile as Sink>⟧.taken ⟦<LogFile as Sink>⟧.faults plan.now holds result }
{
    let workers = match workers_for(rt, alloc, plan, &opening) {
        Ok(workers) => workers,
        Err(error) => {
            drop(opening);
            drop(log);
            return tell_fault(rt, OpenFault::of_listening(&error), plan, "");
        }
    };
    tell_place(rt, &opening);
    tell_host(rt, alloc, &plan.host);
    let (disk, draw_key) = opening.into_disk();
    run_over(
        rt,
        alloc,
        plan,
        workers,
        ToldDisk::new(rt, disk),
        log,
        draw_key,
    )
}

/// Serves the store of a disk by the workers of a plan, with a log, tells how that ended, and answers the status.
fn run_over<
    'a,
    D: Disk + Send,
    K: LogSink + Send,
    R: Threads
        + Wait
        + Sync
        + time::Clock
        + Eprint
        + Net<Listener = TcpListener, Stream = TcpStream>,
>(
    rt: &R,
    alloc: Global,
    plan: &Plan,
    workers: Vec<NetWorker<'a, LoggedStore<D, K>, R>>,
    disk: D,
    log: K,
    draw_key: [u8; 32],
) -> u8
    requires counted { vec_len workers ≡ plan.now.workers + 1 }
    requires fresh { IfSome (K.taken log) (λ held. held ≡ []) }
    ensures status { IsStatus result }
    ensures ran { (holds : List ℕ) → IsOpenedWith ⟦<D as Disk>⟧ holds disk → RanLogged ⟦<D as Disk>⟧ ⟦<StreamConn<'a, R> as Conn>⟧.sides K.taken K.faults plan.now holds result }
{
    run_logged_workers(rt, alloc, plan, workers, disk, log, draw_key)
}

/// Serves the store of a disk by workers, with a log, tells how that ended, and answers the status.
fn run_logged_workers<
    D: Disk + Send,
    L: Door + Send,
    N: Post + Send,
    C: Clock + Send,
    K: LogSink + Send,
    R: Threads + Wait + Sync + Eprint,
>(
    rt: &R,
    alloc: Global,
    plan: &Plan,
    mut workers: Vec<Worker<LoggedStore<D, K>, L, N, C>>,
    disk: D,
    log: K,
    draw_key: [u8; 32],
) -> u8
where
    L::Conn: Send,
    requires some { 0 < vec_len workers }
    requires fresh { IfSome (K.taken log) (λ held. held ≡ []) }
    ensures status { IsStatus result }
    ensures runs { (came : Served) × (result ≡ status_of came) × LogsTo ⟦<D as Disk>⟧ L.Conn.sides K.taken K.faults plan.now draw_key disk
        (map (λ w. work (L.told w.door) (L.faults w.door) (N.exchanges w.post) (N.faults w.post) (N.delivers w.post) w.draw (C.given w.clock) w.pass w.end) workers.items) came }
{
    let ran = serve_logged(rt, alloc, plan, &mut workers, disk, log, draw_key);
    let LoggedRun {
        served,
        disk,
        sink,
        left_out,
        out_of_memory: _,
    } = ran;
    drop(sink);
    drop(disk);
    dismiss(workers);
    tell_log(rt, left_out);
    tell_end(rt, served, plan)
}
