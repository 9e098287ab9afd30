//! Doors and dials of rows.
use crate::conns::{OPEN, conn_of};
use crate::doors::CaseDoor;
use crate::gates::Gates;
use crate::manners::Manner;
use ocm_base::{Bytes, List};
use ocm_cases_rows::{add_reply, cut};
use ocm_pump::MemDial;
use ocm_server::{GateConn, MemDoor};
use std::alloc::Global;

/// The door and the dial of a worker's row, `FAILS | PART | PART`. The first connection of the door is of this manner.
pub fn ends_of(
    alloc: Global,
    gates: &Gates,
    row: &str,
    manner: Manner,
) -> Option<(CaseDoor<GateConn>, MemDial)> {
    let (fails, parts) = cut(row, " | ");
    let fails = fails.parse().ok()?;
    let mut conns = List::new(alloc);
    let mut replies = List::new(alloc);
    let added = add_parts(alloc, gates, &mut conns, &mut replies, parts, manner);
    let door = added.and(MemDoor::new(alloc, conns).ok());
    match door.zip(Some(MemDial::new(alloc, replies))) {
        Some((door, dial)) => Some((CaseDoor::new(door, fails), dial)),
        None => None,
    }
}

fn add_parts(
    alloc: Global,
    gates: &Gates,
    conns: &mut List<GateConn>,
    replies: &mut List<Option<Bytes>>,
    parts: &str,
    manner: Manner,
) -> Option<()> {
    for part in parts.split(" | ") {
        add_part(alloc, gates, conns, replies, part, manner)?;
    }
    Some(())
}

/// Adds a connection, `conn BYTES` or `held FAILS BACK WAIT EVENT SET: BYTES`, or a reply.
fn add_part(
    alloc: Global,
    gates: &Gates,
    conns: &mut List<GateConn>,
    replies: &mut List<Option<Bytes>>,
    part: &str,
    manner: Manner,
) -> Option<()> {
    let (kind, row) = cut(part, " ");
    match kind {
        "" => Some(()),
        "reply" => add_reply(alloc, replies, row),
        "held" => add_conn(conns, held_conn(alloc, gates, row)),
        "conn" => {
            let manner = if conns.is_empty() {
                manner
            } else {
                Manner::failing(0, 0)
            };
            add_conn(conns, conn_of(alloc, gates, OPEN, row, manner))
        }
        _ => None,
    }
}

fn add_conn(conns: &mut List<GateConn>, conn: Option<GateConn>) -> Option<()> {
    match conn {
        Some(conn) => conns.push(conn).ok(),
        None => None,
    }
}

fn held_conn(alloc: Global, gates: &Gates, row: &str) -> Option<GateConn> {
    let (words, bytes) = cut(row, ": ");
    let (fails, held) = cut(words, " ");
    let fails = fails.parse().ok()?;
    conn_of(alloc, gates, held, bytes, Manner::failing(fails, 0))
}
