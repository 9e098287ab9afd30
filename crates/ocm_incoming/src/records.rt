ghost use Rattle.std.specs.Prelude.{◌≡◌, ℕ, ◌<◌, ◌≤◌, ◌+◌, ◌++◌, ◌∷◌, [], ◌&&◌, not, is_some, length, Some, IsSome, OnOk, option_copied, if◌then◌else◌};
ghost use Rattle.std.specs.HashMap as hash;
ghost use Rattle.ocm_limits.specs.Limits.{most_records};
ghost use Rattle.ocm_types.specs.declared.phases.Phase.TheVariants.{Pending};
ghost use Rattle.ocm_rules.specs.Numbers.{at_number, number_of};
ghost use Rattle.ocm_rules.specs.State.{changed_at};
ghost use Rattle.ocm_rules.specs.Equal.{same_offer};
ghost use Rattle.ocm_incoming.specs.Lists.{offers_of, users_of, marks_of, first_for, first_with, phased};

use crate::plans::{OfferKey, PlannedOffer};
use crate::rows::{Mark, Record};
use ocm_base::NoMemory;
use ocm_rules::row_at;
use ocm_types::{Name, Phase};
use std::alloc::Global;
use std::collections::HashMap;
use std::hash::Hash;
use std::marker::Model;

/// The received offers in order, numbered from 1, found by what they say, by the user that they are
/// for, and by their marks.
pub struct RecordTable {
    rows: Vec<Record>,
    /// The number of the first that says this.
    by_offer: HashMap<OfferKey, u32>,
    /// The number of the first for a user of this name.
    by_user: HashMap<Name, u32>,
    /// The number of the first with this mark.
    by_mark: HashMap<Mark, u32>,
}

impl Drop for RecordTable {
    fn drop(self) {
        let RecordTable {
            rows: _,
            by_offer: _,
            by_user: _,
            by_mark: _,
        } = self;
    }
}

impl Model for RecordTable {
    ghost use Rattle.std.specs.Prelude.{◌-◌, min, vec_len, vec_capacity};
    ghost use Rattle.std.specs.HashMap as map;
    ghost use Rattle.ocm_incoming.specs.Lists.{RecordRows};
    ghost use Rattle.ocm_incoming.specs.Index.{IsRecords};

    ghost Value = { RecordRows };

    ghost view = { λ table. record {
      rows = table.rows.items;
      room = min (vec_capacity table.rows - vec_len table.rows) (min (map.spare table.by_offer) (min (map.spare table.by_user) (map.spare table.by_mark)));
    } };

    ghost invariant = { λ table. IsRecords table.rows.items table.by_offer table.by_user table.by_mark };
}

/// Keeps a number for a key that has none.
fn note<K: Eq + Hash + Drop>(places: &mut HashMap<K, u32>, key: K, number: u32)
    requires { 0 < hash.spare places.old }
    ensures found { (k : K) → hash.get K.eq places.new k ≡ (if K.eq key k && not (is_some (hash.get K.eq places.old key)) then Some number else hash.get K.eq places.old k) }
    ensures room { hash.spare places.old ≤ hash.spare places.new + 1 }
{
    if places.get(&key).is_none() {
        let kept: Result<_, _> = places.insert(key, number);
        let _before = kept.unwrap();
    }
}

impl RecordTable {
    /// No received offers.
    pub fn new(alloc: Global) -> RecordTable
        ensures { result.rows ≡ [] }
    {
        RecordTable {
            rows: Vec::new(alloc),
            by_offer: HashMap::new(alloc),
            by_user: HashMap::new(alloc),
            by_mark: HashMap::new(alloc),
        }
    }

    /// How many there are.
    pub fn count(&self) -> u32
        ensures { result ≡ length self.now.rows }
    {
        self.rows.len() as u32
    }

    /// The record of this number.
    pub fn get(&self, number: u32) -> Option<&Record>
        ensures { option_copied result ≡ at_number self.now.rows number }
    {
        row_at(&self.rows, number)
    }

    /// The number of the first equal offer.
    pub fn same(&self, planned: &PlannedOffer) -> Option<u32>
        ensures { result ≡ number_of (same_offer planned.now) (offers_of self.now.rows) }
    {
        self.by_offer.get(planned.key()).copied()
    }

    /// The number of the first that is for a user of this name.
    pub fn first_for(&self, user: &Name) -> Option<u32>
        ensures { result ≡ first_for (users_of self.now.rows) user.now }
    {
        self.by_user.get(user).copied()
    }

    /// The number of the first with this mark.
    pub fn first_with(&self, mark: &Mark) -> Option<u32>
        ensures { result ≡ first_with (marks_of self.now.rows) mark.now }
    {
        self.by_mark.get(mark).copied()
    }

    /// Makes room for one more.
    pub fn room(&mut self) -> Result<(), NoMemory>
        ensures rows { self.new.rows ≡ self.old.rows }
        ensures ok { OnOk result (0 < self.new.room) }
        ensures kept { self.old.room ≤ self.new.room }
    {
        self.rows.reserve(1)?;
        self.by_offer.reserve(1)?;
        self.by_user.reserve(1)?;
        self.by_mark.reserve(1)?;
        Ok(())
    }

    /// Adds an offer on which its recipient has not decided.
    pub fn add(&mut self, planned: PlannedOffer)
        requires room { 0 < self.old.room }
        requires few { length self.old.rows < most_records }
        ensures rows { self.new.rows ≡ self.old.rows ++ record { offer = planned; phase = Pending } ∷ [] }
        ensures room { self.old.room ≤ self.new.room + 1 }
    {
        let (offer, key, user, mark) = planned.parts();
        let number = self.rows.len() as u32 + 1;
        note(&mut self.by_offer, key, number);
        note(&mut self.by_user, user, number);
        note(&mut self.by_mark, mark, number);
        let row = Record {
            offer,
            phase: Phase::Pending,
        };
        self.rows.push_reserved(row);
    }

    /// The record of this number is in this phase from now on.
    pub fn set_phase(&mut self, number: u32, phase: Phase)
        requires { IsSome (at_number self.old.rows number) }
        ensures rows { self.new.rows ≡ changed_at number (phased phase) self.old.rows }
        ensures room { self.new.room ≡ self.old.room }
    {
        self.rows[number as usize - 1].phase = phase;
    }
}
