ghost use Rattle.std.specs.Prelude.{◌≡◌, ℕ, List, [], ◌∷◌, ◌++◌, Option, None, Some, length, reverse};
ghost use Rattle.ocm_base.specs.Outside.{Appends};
ghost use Rattle.ocm_base.specs.Memory.{value_at};

use crate::traces::Trace;
use ocm_texts::List;
use std::marker::Model;
use std::time;

/// Where the time comes from. It cannot fail.
pub trait Clock: Drop {
    /// The values that it gave, oldest first, where it knows them.
    ghost given: { Self → Option (List ℕ) };

    /// Whole seconds since 1970-01-01T00:00:00Z.
    fn now(&mut self) -> u64
        ensures { Appends (given self.old) (given self.new) (result ∷ []) };
}

/// A clock in memory: it gives its values in turn, and then the last one for ever; 0 where it has none. It tells
/// what it gave.
#[derive(Drop)]
pub struct MemClock {
    values: List<u64>,
    place: usize,
    given: Trace<u64>,
}

impl Model for MemClock {
    ghost use Rattle.std.specs.Prelude.{◌≡◌, ◌-◌, length, min, reverse};
    ghost use Rattle.ocm_base.specs.Memory.{ClockState};

    ghost Value = { ClockState };

    ghost view = { λ c. record { values = c.values; given = reverse c.given } };

    ghost invariant = { λ c. c.place ≡ min (length c.given) (length c.values - 1) };
}

impl MemClock {
    /// A clock that gives these values.
    pub fn new(values: List<u64>) -> MemClock
        ensures { result ≡ record { values = values; given = [] } }
    {
        MemClock {
            values,
            place: 0,
            given: Trace::new(),
        }
    }
}

impl Clock for MemClock {
    ghost given = { λ c. Some c.given };

    fn now(&mut self) -> u64
        ensures told { self.new.given ≡ self.old.given ++ result ∷ [] }
        ensures value { result ≡ value_at self.old.values (length self.old.given) }
        ensures same { self.new.values ≡ self.old.values }
    {
        let value = match self.values.get(self.place) {
            Some(value) => *value,
            None => 0,
        };
        let last = self.values.len().saturating_sub(1);
        if self.place < last {
            self.place += 1;
        }
        self.given.push(&value);
        value
    }
}

/// The system's clock. It gives 0 before 1970 and where the system has no time. It tells what it gave.
#[derive(Drop)]
pub struct StdClock<'a, R: time::Clock> {
    rt: &'a R,
    given: Trace<u64>,
}

impl<'a, R: time::Clock> StdClock<'a, R> {
    /// The clock of this runtime. It gave nothing so far.
    pub fn new(rt: &'a R) -> StdClock<'a, R>
        ensures { ⟦<StdClock<'a, R> as Clock>⟧.given result ≡ Some [] }
    {
        StdClock {
            rt,
            given: Trace::new(),
        }
    }
}

impl<'a, R: time::Clock> Clock for StdClock<'a, R> {
    ghost given = { λ c. Some (reverse c.given) };

    fn now(&mut self) -> u64 {
        let value = match self.rt.since_1970() {
            Ok(time) => time.as_secs(),
            Err(_) => 0,
        };
        self.given.push(&value);
        value
    }
}
