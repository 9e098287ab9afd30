//! Doors in memory.

ghost use Rattle.std.specs.Prelude.{◌≡◌, ◌≤◌, ◌+◌, [], ◌++◌, Some, None, IfOk, IfSome, IsOk, drop, slice_get, reverse};
ghost use Rattle.ocm_server.specs.Doors.{given, came_back, over, IsOut};

use crate::doors::Door;
use crate::returned::Back;
use ocm_base::{Failed, List, NoMemory};
use ocm_server_connections::{Conn, Ended};
use std::alloc::Global;
use std::marker::Model;
use std::snapshot::Snapshot;

/// A door that gives connections out of memory, and keeps those that come back. It never fails, and takes no memory
/// after it was made.
pub struct MemDoor<C> {
    all: Snapshot<List<C>>,
    given: usize,
    rest: Vec<C>,
    back: Vec<Back<C>>,
    overs: u64,
}

impl<C: Drop> Drop for MemDoor<C> {
    fn drop(self) {
        let MemDoor {
            all: _,
            given: _,
            rest: _,
            back: _,
            overs: _,
        } = self;
    }
}

impl<C> Model for MemDoor<C> {
    ghost use Rattle.std.specs.Prelude.{◌≡◌, ◌≤◌, take, drop, length, reverse, vec_len, vec_capacity};
    ghost use Rattle.ocm_server.specs.Doors.{DoorState};

    ghost Value = { DoorState C };

    ghost view = { λ d. record {
      door = record { given = reverse (take d.given d.all.value); back = reverse d.back.items; overs = d.overs };
      rest = drop d.given d.all.value;
      all = d.all.value;
    } };

    ghost invariant = { λ d. (reverse d.rest.items ≡ drop d.given d.all.value) × (d.given ≤ length d.all.value)
        × (vec_len d.back ≤ d.given) × (length d.all.value ≤ vec_capacity d.back) };
}

impl<C: Drop> MemDoor<C> {
    /// A door that gives these connections in order, and is then over.
    pub fn new(alloc: Global, conns: List<C>) -> Result<MemDoor<C>, NoMemory>
        ensures { IfOk result (λ d. d ≡ record { door = record { given = []; back = []; overs = 0 }; rest = conns; all = conns }) }
    {
        let back = Vec::with_capacity(alloc, conns.len())?;
        let all = Snapshot::of(&conns);
        let mut rest = conns.into_vec();
        rest.as_mut_slice().reverse();
        Ok(MemDoor {
            all,
            given: 0,
            rest,
            back,
            overs: 0,
        })
    }

    /// The connections that came back, in order.
    pub fn back(&self) -> &[Back<C>]
        ensures { result.now ≡ reverse self.now.door.back }
    {
        self.back.as_slice()
    }
}

impl<C: Conn> Door for MemDoor<C> {
    type Conn = C;

    ghost told = { λ d. Some d.door };

    ghost faults = { λ _. 0 };

    /// Gives the next of its connections, and None behind the last.
    #[tactic(auto, using(crate::proofs::Giving::all_listed))]
    fn next(&mut self) -> Result<Option<C>, Failed>
        ensures given { IfOk result (λ o. IfSome o (λ conn. self.new.door ≡ given conn self.old.door)) }
        ensures out { IfOk result (λ o. IfSome o (λ _. IsOut (Some self.new.door))) }
        ensures over { IfOk result (λ o. o ≡ None → self.new.door ≡ over self.old.door) }
        ensures never_fails { IsOk result }
        ensures gives { IfOk result (λ o. o ≡ slice_get self.old.rest 0) }
        ensures rest { self.new.rest ≡ drop 1 self.old.rest }
        // What it gave and what it has still to give is the list that it was made with.
        ensures list { reverse self.new.door.given ++ self.new.rest ≡ self.new.all }
        ensures all { self.new.all ≡ self.old.all }
    {
        match self.rest.pop() {
            Some(conn) => {
                self.given += 1;
                Ok(Some(conn))
            }
            None => {
                self.overs = self.overs.saturating_add(1);
                Ok(None)
            }
        }
    }

    fn done(&mut self, conn: C, ended: Ended)
        requires { IsOut (Some self.old.door) }
        ensures back { self.new.door ≡ came_back conn ended self.old.door }
        ensures rest { self.new.rest ≡ self.old.rest }
        ensures all { self.new.all ≡ self.old.all }
    {
        match self.back.push(Back { conn, ended }) {
            Ok(()) => {}
            Err(_) => unreachable!(),
        }
    }
}
