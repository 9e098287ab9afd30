ghost use Rattle.std.specs.Prelude.{◌≡◌, ◌<◌, ◌≤◌, ◌+◌, ◌*◌, ◌^◌, ◌-◌, ℕ, List, [], length, Some, None, OnOk, IfOk, IfErr, if◌then◌else◌, slice_get};
ghost use Rattle.ocm_limits.specs.Limits.{most_shares};
ghost use Rattle.ocm_rules.specs.Numbers.{same_text};

use crate::steps::Steps;
use ocm_base::NoMemory;
use ocm_types::Secret;
use std::alloc::Global;
use std::cmp::Ordering;
use std::marker::Model;
use std::sync::ledger::Ledger;

/// A secret with the number of the share that has it.
#[derive(Drop)]
pub struct SecretEntry {
    pub secret: Secret,
    pub number: u32,
}

/// The numbers of shares by their secrets, in the order of the secrets' bytes. Contracts see the
/// entries in this order, and how many more it takes without memory.
pub struct SecretIndex {
    entries: Vec<SecretEntry>,
}

impl Drop for SecretIndex {
    fn drop(self) {
        let SecretIndex { entries: _ } = self;
    }
}

impl Model for SecretIndex {
    ghost use Rattle.std.specs.Prelude.{◌-◌, ◌≤◌, length, vec_len, vec_capacity};
    ghost use Rattle.ocm_limits.specs.Limits.{most_shares};
    ghost use Rattle.ocm_chain.specs.Indexes.{SecretLists, SecretsAscend};

    ghost Value = { SecretLists };

    ghost view = { λ index. record { entries = index.entries.items; room = vec_capacity index.entries - vec_len index.entries } };

    ghost invariant = { λ index. (length index.entries.items ≤ most_shares) × SecretsAscend index.entries.items };
}

impl SecretIndex {
    ghost use Rattle.ocm_chain.specs.Indexes.{number_with, secret_cmp, IsEqualAt, ArePartedAt, SecretsAscend};
    ghost use Rattle.ocm_chain.specs.declared.secrets.SecretEntry.{SecretEntry};

    /// No secrets.
    pub(crate) fn new(alloc: Global) -> SecretIndex
        ensures { result.entries ≡ [] }
    {
        SecretIndex {
            entries: Vec::new(alloc),
        }
    }

    /// How many secrets there are. They stand in the order of their bytes.
    pub fn len(&self) -> u32
        ensures len { result ≡ length self.now.entries }
        ensures few { result ≤ most_shares }
        ensures order { SecretsAscend self.now.entries }
    {
        self.entries.len() as u32
    }

    /// The order of the secret at this place, counted from 0, and the given one, byte by byte. It is one step,
    /// and no other call reads the secrets.
    pub fn compare<L: Ledger>(&self, place: u32, secret: &Secret, steps: &mut Steps<L>) -> Ordering
        requires { place < length self.now.entries }
        ensures order { (e : SecretEntry) → slice_get self.now.entries place ≡ Some e → result ≡ secret_cmp e secret.now }
        ensures tick { steps.new ≡ steps.old + 1 }
    {
        steps.tick();
        self.entries[place as usize].secret.cmp(secret)
    }

    /// The place of this secret, or the place at which it would stand.
    pub(crate) fn place_of<L: Ledger>(
        &self,
        secret: &Secret,
        steps: &mut Steps<L>,
    ) -> Result<u32, u32>
        ensures found { IfOk result (IsEqualAt (λ (e : SecretEntry). secret_cmp e secret.now) self.now.entries) }
        ensures absent { IfErr result (ArePartedAt (λ (e : SecretEntry). secret_cmp e secret.now) self.now.entries) }
        ensures cost { 2 ^ (steps.new - steps.old) ≤ 2 * length self.now.entries + 1 }
        ensures onward { steps.old ≤ steps.new }
    {
        let mut low = 0;
        let mut high = self.len();
        while low < high {
            let middle = low + (high - low) / 2;
            match self.compare(middle, secret, steps) {
                Ordering::Less => low = middle + 1,
                Ordering::Equal => return Ok(middle),
                Ordering::Greater => high = middle,
            }
        }
        Err(low)
    }

    /// The number that a secret has here. It takes b steps at most, where 2 to the power of b is at
    /// most one more than twice the secrets.
    pub fn find<L: Ledger>(&self, secret: &Secret, steps: &mut Steps<L>) -> Option<u32>
        ensures found { result ≡ number_with self.now.entries secret.now }
        ensures cost { 2 ^ (steps.new - steps.old) ≤ 2 * length self.now.entries + 1 }
        ensures onward { steps.old ≤ steps.new }
    {
        match self.place_of(secret, steps) {
            Ok(place) => Some(self.entries[place as usize].number),
            Err(_) => None,
        }
    }

    /// Room for one more secret.
    pub(crate) fn room(&mut self) -> Result<(), NoMemory>
        ensures entries { self.new.entries ≡ self.old.entries }
        ensures ok { OnOk result (0 < self.new.room) }
        ensures room { self.old.room ≤ self.new.room }
    {
        self.entries.reserve(1)?;
        Ok(())
    }

    /// Adds a secret that has no number yet.
    pub(crate) fn add<L: Ledger>(&mut self, secret: Secret, number: u32, steps: &mut Steps<L>)
        requires room { 0 < self.old.room }
        requires few { length self.old.entries < most_shares }
        requires fresh { number_with self.old.entries secret ≡ None }
        ensures found { (s : List ℕ) → number_with self.new.entries s ≡ (if same_text secret s then Some number else number_with self.old.entries s) }
        ensures len { length self.new.entries ≡ length self.old.entries + 1 }
        ensures room { self.old.room ≤ self.new.room + 1 }
    {
        if let Err(place) = self.place_of(&secret, steps) {
            self.entries
                .insert(place as usize, SecretEntry { secret, number })
                .unwrap();
        }
    }
}
