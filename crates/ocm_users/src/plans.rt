ghost use Rattle.std.specs.Prelude.{◌≡◌, IfOk};

use ocm_base::NoMemory;
use ocm_entry::User;
use ocm_types::{Name, Secret};
use std::marker::Model;

/// A user that can be added without memory: the row, and once more what it is found by. Contracts see
/// the user.
pub struct PlannedUser {
    user: User,
    name: Name,
    key: Secret,
}

impl Drop for PlannedUser {
    fn drop(self) {
        let PlannedUser {
            user: _,
            name: _,
            key: _,
        } = self;
    }
}

impl Model for PlannedUser {
    ghost use Rattle.std.specs.Prelude.{◌≡◌};
    ghost use Rattle.ocm_entry.specs.declared.rows.User.{User};

    ghost Value = { User };

    ghost view = { λ planned. planned.user };

    ghost invariant = { λ planned. (planned.name ≡ planned.user.name) × (planned.key ≡ planned.user.key) };
}

impl PlannedUser {
    /// A user of this name and this key, to be added.
    pub fn new(name: &Name, key: &Secret) -> Result<PlannedUser, NoMemory>
        ensures { IfOk result (λ planned. planned ≡ record { name = name.now; key = key.now }) }
    {
        let user = User {
            name: name.copy()?,
            key: key.copy()?,
        };
        let name = name.copy()?;
        let key = key.copy()?;
        Ok(PlannedUser { user, name, key })
    }

    /// The row, with the name and the key that it is found by.
    pub(crate) fn parts(self) -> (User, Name, Secret)
        ensures user { result.0 ≡ self }
        ensures name { result.1 ≡ self.name }
        ensures key { result.2 ≡ self.key }
    {
        let PlannedUser { user, name, key } = self;
        (user, name, key)
    }
}
