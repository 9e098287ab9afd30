//! Users, and who holds a secret.
ghost use Rattle.std.specs.Prelude.{◌≡◌, ◌≤◌, ◌+◌, ◌*◌, ◌^◌, ◌-◌, [], length, IfOk, IfSome, IsSome, IsTrue, option_copied};
ghost use Rattle.ocm_limits.specs.Limits.{most_users};
ghost use Rattle.ocm_types.specs.Rights.{all_rights};
ghost use Rattle.ocm_entry.specs.Proper.{is_short};
ghost use Rattle.ocm_rules.specs.Numbers.{at_number};
ghost use Rattle.ocm_rules.specs.Users.{user_of_key, is_taken};
ghost use Rattle.ocm_rules.specs.Shares.{is_used};
ghost use Rattle.ocm_rules.specs.Views.{grant_in};
ghost use Rattle.ocm_rules.specs.State.{view_in};
ghost use Rattle.ocm_tables.specs.Tables.{GrantCost};

use crate::tables::Tables;
use ocm_base::NoMemory;
use ocm_chain::{Probes, Steps};
use ocm_entry::{Grant, Place, Share, User};
use ocm_path::Path;
use ocm_types::{Name, Rights, Secret};
use std::alloc::Global;
use std::sync::ledger::Ledger;

impl Tables {
    /// Whether a user has this name.
    pub fn is_taken(&self, name: &Name) -> bool
        ensures { result ≡ is_taken self.now.state.users name.now }
    {
        self.users.is_taken(name)
    }

    /// How many users there are.
    pub fn user_count(&self) -> u32
        ensures count { result ≡ length self.now.state.users }
        ensures within { result ≤ most_users }
    {
        self.users.count()
    }

    /// The user of this number, counted from 1.
    pub fn user(&self, number: u32) -> Option<&User>
        ensures { option_copied result ≡ at_number self.now.state.users number }
    {
        self.users.get(number)
    }

    /// The number of the user with this key.
    pub fn account(&self, key: &Secret) -> Option<u32>
        ensures number { result ≡ user_of_key self.now.state.users key.now }
        ensures user { IfSome result (λ number. IsSome (at_number self.now.state.users number)) }
    {
        self.users.with_key(key)
    }

    /// Whether a secret is the key of a user or the secret of a share. It takes b steps at most, where 2
    /// to the power of b is at most one more than twice the shares.
    #[tactic(auto, using(crate::proofs::Numbering::used_found))]
    pub fn is_used<L: Ledger>(&self, secret: &Secret, steps: &mut Steps<L>) -> bool
        ensures used { result ≡ is_used self.now.state.users (view_in self.now.state).shares secret.now }
        ensures cost { 2 ^ (steps.new - steps.old) ≤ 2 * length self.now.state.shares + 1 }
        ensures onward { steps.old ≤ steps.new }
    {
        self.users.with_key(secret).is_some() || self.shares.find(secret, steps).is_some()
    }

    /// What the holder of a secret may do: a user everything below the user's root, the guest of a
    /// live share what it permits below the share's root, and anyone else nothing. What it costs to
    /// look at shares is counted: a search of the index of secrets, and one row, at any depth.
    pub fn grant<I: Ledger, R: Ledger>(
        &self,
        secret: &Secret,
        probes: &mut Probes<I, R>,
    ) -> Result<Option<Grant>, NoMemory>
        ensures grant { IfOk result (λ grant. grant ≡ grant_in (view_in self.now.state) secret.now) }
        ensures short { IfOk result (λ grant. IfSome grant (λ some. IsTrue (is_short some.root.path))) }
        ensures cost { GrantCost (length self.now.state.shares) probes.old probes.new }
    {
        if let Some(user) = self.users.with_key(secret) {
            return Ok(Some(account_grant(self.alloc, user)));
        }
        match self.shares.guest(secret, probes) {
            Some((share, rights)) => Ok(Some(guest_grant(share, rights)?)),
            None => Ok(None),
        }
    }
}

/// What the guest of a live share may do: what the share lets its guest do, below the share's root.
fn guest_grant(share: &Share, rights: Rights) -> Result<Grant, NoMemory>
    ensures { IfOk result (λ grant. grant ≡ record { root = record { user = share.now.owner; path = share.now.root }; rights = rights }) }
{
    let path = share.root.copy()?;
    Ok(Grant {
        root: Place {
            user: share.owner,
            path,
        },
        rights,
    })
}

/// What a user may do with the user's own files: everything.
fn account_grant(alloc: Global, user: u32) -> Grant
    ensures user { result.root.user ≡ user }
    ensures path { result.root.path ≡ [] }
    ensures rights { result.rights ≡ all_rights }
{
    Grant {
        root: Place {
            user,
            path: Path::root(alloc),
        },
        rights: Rights {
            read: true,
            write: true,
            share: true,
        },
    }
}
