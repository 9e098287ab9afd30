ghost use Rattle.std.specs.Prelude.{◌≡◌, ◌<◌, ◌≤◌, ◌+◌, ◌++◌, ◌∷◌, [], IsSome, IsOk, OnOk};
ghost use Rattle.ocm_rules.specs.Numbers.{at_number};
ghost use Rattle.ocm_rules.specs.State.{changed_at};

use ocm_base::NoMemory;
use ocm_rules::Told;
use ocm_types::Perms;
use std::alloc::Global;
use std::marker::Model;

/// What the guest of each received offer was last told of its permissions, with the number of the
/// change that told it.
///
/// Offers are numbered from 1. Contracts see the list of what was told, and how many more rows can be
/// added without memory.
pub struct Board {
    rows: Vec<Told>,
}

impl Drop for Board {
    fn drop(self) {
        let Board { rows: _ } = self;
    }
}

impl Model for Board {
    ghost use Rattle.std.specs.Prelude.{◌-◌, vec_len, vec_capacity};
    ghost use Rattle.ocm_change.specs.Lists.{BoardLists};

    ghost Value = { BoardLists };

    ghost view = { λ board. record {
      told = board.rows.items;
      room = vec_capacity board.rows - vec_len board.rows;
    } };
}

impl Board {
    /// No rows.
    pub fn new(alloc: Global) -> Board
        ensures { result.told ≡ [] }
    {
        Board {
            rows: Vec::new(alloc),
        }
    }

    /// Makes room for one more row. It never lessens the room, and where there is room already it
    /// takes no memory and succeeds.
    pub fn room(&mut self) -> Result<(), NoMemory>
        ensures told { self.new.told ≡ self.old.told }
        ensures ok { OnOk result (0 < self.new.room) }
        ensures kept { self.old.room ≤ self.new.room }
        ensures succeeds { 0 < self.old.room → IsOk result }
    {
        self.rows.reserve(1)?;
        Ok(())
    }

    /// What the guest of the offer of this number was last told.
    pub fn told(&self, n: u32) -> Told
        requires { IsSome (at_number self.now.told n) }
        ensures { at_number self.now.told n ≡ Some result }
    {
        let index = n as usize - 1;
        self.rows[index]
    }

    /// From now on the guest of the offer of this number was last told these permissions, by the
    /// change of this number. It takes no memory.
    pub fn take(&mut self, n: u32, serial: u32, perms: Perms)
        requires { IsSome (at_number self.old.told n) }
        ensures told { self.new.told ≡ changed_at n (λ _. record { serial = serial; perms = perms }) self.old.told }
        ensures room { self.new.room ≡ self.old.room }
    {
        self.rows[n as usize - 1] = Told { serial, perms };
    }

    /// Adds the row of one more offer, which itself told these permissions. It takes no memory.
    pub fn add(&mut self, perms: Perms)
        requires { 0 < self.old.room }
        ensures told { self.new.told ≡ self.old.told ++ record { serial = 0; perms = perms } ∷ [] }
        ensures room { self.old.room ≤ self.new.room + 1 }
    {
        self.rows.push(Told { serial: 0, perms }).unwrap();
    }
}
