ghost use Rattle.std.specs.Prelude.{◌≡◌, ◌<◌, ◌≤◌, ◌+◌, ◌++◌, ◌∷◌, [], length, None, OnOk, option_copied};
ghost use Rattle.ocm_limits.specs.Limits.{most_users};
ghost use Rattle.ocm_rules.specs.Numbers.{at_number};
ghost use Rattle.ocm_rules.specs.Users.{user_of_key, is_taken};

use crate::plans::PlannedUser;
use ocm_base::NoMemory;
use ocm_entry::User;
use ocm_rules::row_at;
use ocm_types::{Name, Secret};
use std::alloc::Global;
use std::collections::{HashMap, HashSet};
use std::marker::Model;

/// The users of a server in order, found by their keys and their names. There are at most 4,096.
/// Contracts see the list of the users, and how many more can be added without memory.
pub struct UserTable {
    rows: Vec<User>,
    by_key: HashMap<Secret, u32>,
    names: HashSet<Name>,
}

impl Drop for UserTable {
    fn drop(self) {
        let UserTable {
            rows: _,
            by_key: _,
            names: _,
        } = self;
    }
}

impl Model for UserTable {
    ghost use Rattle.std.specs.Prelude.{◌-◌, min, vec_len, vec_capacity};
    ghost use Rattle.std.specs.HashMap as map;
    ghost use Rattle.std.specs.HashSet as set;
    ghost use Rattle.ocm_users.specs.Lists.{UserLists, IsUserIndex};

    ghost Value = { UserLists };

    ghost view = { λ table. record {
      users = table.rows.items;
      room = min (vec_capacity table.rows - vec_len table.rows) (min (map.spare table.by_key) (set.spare table.names));
    } };

    ghost invariant = { λ table. IsUserIndex table.rows.items table.by_key table.names };
}

impl UserTable {
    /// No users.
    pub fn new(alloc: Global) -> UserTable
        ensures { result.users ≡ [] }
    {
        UserTable {
            rows: Vec::new(alloc),
            by_key: HashMap::new(alloc),
            names: HashSet::new(alloc),
        }
    }

    /// The number of the user with this key.
    pub fn with_key(&self, key: &Secret) -> Option<u32>
        ensures { result ≡ user_of_key self.now.users key.now }
    {
        self.by_key.get(key).copied()
    }

    /// Whether a user has this name.
    pub fn is_taken(&self, name: &Name) -> bool
        ensures { result ≡ is_taken self.now.users name.now }
    {
        self.names.contains(name)
    }

    /// How many users there are.
    pub fn count(&self) -> u32
        ensures count { result ≡ length self.now.users }
        ensures within { result ≤ most_users }
    {
        self.rows.len() as u32
    }

    /// The user of this number, counted from 1.
    pub fn get(&self, number: u32) -> Option<&User>
        ensures { option_copied result ≡ at_number self.now.users number }
    {
        row_at(&self.rows, number)
    }

    /// Makes room for one more user.
    pub fn room(&mut self) -> Result<(), NoMemory>
        ensures users { self.new.users ≡ self.old.users }
        ensures ok { OnOk result (0 < self.new.room) }
    {
        self.rows.reserve(1)?;
        self.by_key.reserve(1)?;
        self.names.reserve(1)?;
        Ok(())
    }

    /// Adds a user, with a key that no user has.
    pub fn add(&mut self, planned: PlannedUser)
        requires room { 0 < self.old.room }
        requires few { length self.old.users < most_users }
        requires key { user_of_key self.old.users planned.key ≡ None }
        ensures users { self.new.users ≡ self.old.users ++ planned ∷ [] }
        ensures room { self.old.room ≤ self.new.room + 1 }
    {
        let (user, name, key) = planned.parts();
        let number = self.rows.len() as u32 + 1;
        let numbered: Result<_, _> = self.by_key.insert(key, number);
        let _before = numbered.unwrap();
        let named: Result<_, _> = self.names.insert(name);
        let _is_new = named.unwrap();
        self.rows.push(user).unwrap();
    }
}
