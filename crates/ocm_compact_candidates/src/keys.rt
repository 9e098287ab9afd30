//! The users of a server by their keys.
use ocm_base::{List, NoMemory};
use ocm_types::Secret;
use std::alloc::Global;
use std::collections::HashMap;

/// The keys of the users, in the order of their numbers, which count from 1.
pub struct Keys {
    list: List<Secret>,
    numbers: HashMap<Secret, u32>,
    /// How many there are.
    count: u32,
}

impl Drop for Keys {
    fn drop(self) {
        let Keys {
            list: _,
            numbers: _,
            count: _,
        } = self;
    }
}

impl Keys {
    /// No keys.
    pub fn new(alloc: Global) -> Keys {
        Keys {
            list: List::new(alloc),
            numbers: HashMap::new(alloc),
            count: 0,
        }
    }

    /// Adds the key of the next user.
    pub fn add(&mut self, key: Secret) -> Result<(), NoMemory> {
        let other = key.copy()?;
        self.list.push(key)?;
        self.count = self.count.saturating_add(1);
        self.numbers.insert(other, self.count)?;
        Ok(())
    }

    /// The number of the user with this key, and 0 where there is none.
    pub fn number_of(&self, key: &Secret) -> u32 {
        match self.numbers.get(key) {
            Some(number) => *number,
            None => 0,
        }
    }

    /// The key of the user of a number. None where there is none.
    pub fn key_of(&self, user: u32) -> Option<&Secret> {
        match user.checked_sub(1) {
            Some(index) => self.list.get(index as usize),
            None => None,
        }
    }
}
