ghost use Rattle.std.specs.Prelude.{◌≡◌, IfOk};

use ocm_texts::{Copied, NoMemory};
use std::alloc::Global;
use std::marker::Model;
use std::ops::Deref;
use std::sync::Arc;

/// A value that its copies share: a copy takes no memory, and is another owner of the same value. Contracts see the value.
pub struct Shared<T> {
    held: Arc<T, Global>,
}

impl<T: Drop> Drop for Shared<T> {
    fn drop(self) {
        let Shared { held: _ } = self;
    }
}

impl<T> Model for Shared<T> {
    ghost Value = { T };

    ghost view = { λ s. s.held.value };
}

impl<T: Drop> Shared<T> {
    /// The value, to be shared. Without memory for that it is let go.
    pub fn new(alloc: Global, value: T) -> Result<Shared<T>, NoMemory>
        ensures { IfOk result (λ shared. shared ≡ value) }
    {
        Ok(Shared {
            held: Arc::new(alloc, value)?,
        })
    }

    /// Another owner of the same value. There are at most 2^63 - 1.
    pub fn copy(&self) -> Result<Shared<T>, NoMemory>
        ensures { IfOk result (λ copy. copy ≡ self.now) }
    {
        Ok(Shared {
            held: Arc::try_clone(&self.held)?,
        })
    }
}

impl<T> Deref for Shared<T> {
    type Target = T;

    ghost deref_gives = { λ shared value. value ≡ shared };

    fn deref(&self) -> &T
        ensures { result.now ≡ self.now }
    {
        &self.held
    }
}

impl<T: Drop> Copied for Shared<T> {
    fn copied(&self) -> Result<Shared<T>, NoMemory> {
        self.copy()
    }
}
