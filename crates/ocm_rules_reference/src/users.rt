ghost use Rattle.std.specs.Prelude.{◌≡◌, ◌+◌, ◌<◌, ◌≤◌, ◌^◌, ◌-◌, IfOk, Some, length};
ghost use Rattle.ocm_rules.specs.Numbers.{number_from};
ghost use Rattle.ocm_rules.specs.Users.{has_key, is_taken, name_of, user_by, user_of_key, users};

use crate::numbers::added;
use ocm_base::{List, NoMemory};
use ocm_entry::{Ask, Entry, Reply, User};
use ocm_rules::row_at;
use ocm_types::{Name, Secret};
use std::alloc::Global;

/// The users after kept entries, the oldest first.
pub fn users_of(alloc: Global, entries: &[Entry]) -> Result<List<User>, NoMemory>
    ensures users { IfOk result (λ found. found ≡ users entries.now) }
    ensures few { IfOk result (λ found. length found ≤ length entries.now) }
{
    match entries {
        [] => Ok(List::new(alloc)),
        [entry, before @ ..] => {
            let users = users_of(alloc, before)?;
            let user = user_by(&entry.ask, &entry.reply)?;
            let users = added(users, user)?;
            Ok(users)
        }
    }
}

/// The user that a kept entry adds.
fn user_by(ask: &Ask, reply: &Reply) -> Result<Option<User>, NoMemory>
    ensures { IfOk result (λ user. user ≡ user_by ask.now reply.now) }
{
    match ask {
        Ask::AddUser { name, .. } => match reply {
            Reply::Key { key } => {
                let name = name.copy()?;
                let key = key.copy()?;
                Ok(Some(User { name, key }))
            }
            _ => Ok(None),
        },
        _ => Ok(None),
    }
}

/// The number of the user with this key.
pub fn user_of_key(users: &[User], key: &Secret) -> Option<u32>
    requires { length users.now < 2 ^ 32 - 1 }
    ensures { result ≡ user_of_key users.now key.now }
{
    user_from(users, key, 1)
}

/// The number of the first user with this key, where the first of all has this number.
fn user_from(users: &[User], key: &Secret, number: u32) -> Option<u32>
    requires { number + length users.now < 2 ^ 32 }
    ensures { result ≡ number_from (has_key key.now) number users.now }
{
    match users {
        [] => None,
        [user, others @ ..] => {
            if user.key == *key {
                Some(number)
            } else {
                user_from(others, key, number + 1)
            }
        }
    }
}

/// The name of the user of this number, who has this key.
pub fn name_of<'a>(users: &'a [User], key: &Secret, number: u32) -> &'a Name
    requires { user_of_key users.now key.now ≡ Some number }
    ensures { result.now ≡ name_of users.now number }
{
    &row_at(users, number).unwrap().name
}

/// Whether a user has this name.
pub fn is_taken(users: &[User], name: &Name) -> bool
    ensures { result ≡ is_taken users.now name.now }
{
    users.iter().any(|user| user.name == *name)
}
