use std::sync::atomic::{AtomicBool, Ordering};

/// A gate between threads, which is set once. Contracts know nothing of it.
pub struct Gate {
    is_set: AtomicBool,
}

impl Drop for Gate {
    fn drop(self) {
        let Gate { is_set: _ } = self;
    }
}

impl Gate {
    /// A gate that is not set.
    pub fn new() -> Gate {
        Gate {
            is_set: AtomicBool::new(false),
        }
    }

    /// Sets it.
    pub fn set(&self) {
        self.is_set.store(true, Ordering::SeqCst);
    }

    /// Whether it was set.
    pub fn is_set(&self) -> bool {
        self.is_set.load(Ordering::SeqCst)
    }
}
