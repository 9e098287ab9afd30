//! Connections served alone.
ghost use Rattle.std.specs.Prelude.{List, []};
ghost use Rattle.ocm_entry.specs.declared.entries.Entry.{Entry};
ghost use Rattle.ocm_store.specs.Stores.{IsLegalUnder, Stands, terms_of};

use crate::backs::ended_told;
use crate::conns::{OPEN, conn_of, rest_conn_of};
use crate::disks::disk_of;
use crate::gates::Gates;
use crate::manners::Manner;
use crate::noting::Noting;
use crate::stores::{host, loaded};
use ocm_base::MemClock;
use ocm_cases_rows::{clock_of, cut};
use ocm_dav::Config;
use ocm_disk::{Disk, GateDisk};
use ocm_serve_store::Followed;
use ocm_server::{Conn, Draw, Ended, GateConn, serve_conn};
use ocm_store::Store;
use ocm_turn::Turnstile;
use ocm_types::Secret;
use std::alloc::Global;
use std::marker::Brand;
use std::sync::Wait;

/// What a connection comes to, `DISK; LIMIT CLOCKS PIECE FAILS ROOM; BYTES`.
pub fn talk_told<R: Wait>(rt: &R, alloc: Global, gates: &Gates, row: &str) -> Option<String> {
    let (disk, row) = cut(row, "; ");
    let (words, bytes) = cut(row, "; ");
    let (limit, words) = cut(words, " ");
    let (clocks, words) = cut(words, " ");
    let limit = limit.parse().ok()?;
    let conn = conn_of(alloc, gates, OPEN, bytes, Manner::of(words)?);
    match conn.zip(clock_of(alloc, clocks)) {
        Some((mut conn, mut clock)) => {
            let store = disk_of(alloc, gates, disk);
            let ended = talked(rt, alloc, store, limit, &mut conn, &mut clock);
            drop(clock);
            let told = calls_told(alloc, ended, conn.sink.bytes());
            drop(conn);
            told
        }
        None => None,
    }
}

/// The same of a connection that rests where nothing is left.
pub fn rest_told<R: Wait>(rt: &R, alloc: Global, gates: &Gates, row: &str) -> Option<String> {
    let (disk, row) = cut(row, "; ");
    let (words, bytes) = cut(row, "; ");
    let (limit, words) = cut(words, " ");
    let (clocks, words) = cut(words, " ");
    let limit = limit.parse().ok()?;
    let conn = rest_conn_of(alloc, bytes, Manner::of(words)?);
    match conn.zip(clock_of(alloc, clocks)) {
        Some((mut conn, mut clock)) => {
            let store = disk_of(alloc, gates, disk);
            let ended = talked(rt, alloc, store, limit, &mut conn, &mut clock);
            drop(clock);
            let told = calls_told(alloc, ended, conn.pair.bytes());
            drop(conn);
            told
        }
        None => None,
    }
}

/// The same of a connection that notes, for contracts alone, the moment behind the newest call with each page that it
/// writes.
pub fn noted_told<R: Wait>(rt: &R, alloc: Global, gates: &Gates, row: &str) -> Option<String> {
    let (disk, row) = cut(row, "; ");
    let (words, bytes) = cut(row, "; ");
    let (limit, words) = cut(words, " ");
    let (clocks, words) = cut(words, " ");
    let limit = limit.parse().ok()?;
    let conn = noting_conn_of(alloc, gates, bytes, Manner::of(words)?);
    match conn.zip(clock_of(alloc, clocks)) {
        Some((mut conn, mut clock)) => {
            let store = disk_of(alloc, gates, disk);
            let ended = talked(rt, alloc, store, limit, &mut conn, &mut clock);
            drop(clock);
            let told = calls_told(alloc, ended, conn.conn.sink.bytes());
            drop(conn);
            told
        }
        None => None,
    }
}

fn noting_conn_of(
    alloc: Global,
    gates: &Gates,
    bytes: &str,
    manner: Manner,
) -> Option<Noting<GateConn>> {
    match conn_of(alloc, gates, OPEN, bytes, manner) {
        Some(conn) => Noting::new(alloc, conn),
        None => None,
    }
}

/// How many calls were made, how a connection ended, and what was written on it.
fn calls_told(alloc: Global, ended: Option<(Ended, u64)>, written: &[u8]) -> Option<String> {
    let (ended, calls) = ended?;
    let told = ended_told(alloc, ended, written, "")?;
    let line = format!(in alloc; "{calls} calls, {}", told.as_str());
    drop(told);
    line.ok()
}

fn config(alloc: Global) -> Option<Config> {
    let admin = Secret::read(alloc, "ffffffffffffffffffffffffffffffff");
    match host(alloc).zip(admin.ok()) {
        Some((host, admin)) => Some(Config { host, admin }),
        None => None,
    }
}

/// How the connection ends at the store of a disk, and how many calls were made.
fn talked<R: Wait, C: Conn>(
    rt: &R,
    alloc: Global,
    disk: Option<GateDisk>,
    limit: u64,
    conn: &mut C,
    clock: &mut MemClock,
) -> Option<(Ended, u64)> {
    match disk.zip(config(alloc)) {
        Some((disk, config)) => {
            let ended = match loaded(alloc, disk) {
                Some(store) => talked_at(rt, alloc, &config, store, limit, conn, clock),
                None => None,
            };
            drop(config);
            ended
        }
        None => None,
    }
}

fn talked_at<R: Wait, C: Conn>(
    rt: &R,
    alloc: Global,
    config: &Config,
    store: Store<GateDisk>,
    limit: u64,
    conn: &mut C,
    clock: &mut MemClock,
) -> Option<(Ended, u64)>
    requires { (k : List Entry) × Stands ⟦<GateDisk as Disk>⟧ store k [] × IsLegalUnder (terms_of store) k [] }
{
    if limit < 1 || limit > 10_000 {
        drop(store);
        return None;
    }
    match Turnstile::make::<Brand>(alloc, Followed::new(store), limit) {
        Ok((node, mut pass)) => {
            let mut draw = Draw::new([0; 32], 0);
            let ended = serve_conn(rt, alloc, config, &node, &mut pass, conn, &mut draw, clock);
            let calls = pass.calls();
            drop(draw);
            drop(pass);
            drop(node);
            Some((ended, calls))
        }
        Err(followed) => {
            drop(followed);
            None
        }
    }
}
