//! The gates of a case.
use ocm_base::Gate;
use std::alloc::Global;
use std::sync::Arc;

/// Two gates that are set as a case says, and one that is set from the start.
pub struct Gates {
    a: Arc<Gate, Global>,
    b: Arc<Gate, Global>,
    open: Arc<Gate, Global>,
}

impl Drop for Gates {
    fn drop(self) {
        let Gates {
            a: _,
            b: _,
            open: _,
        } = self;
    }
}

impl Gates {
    /// The gates `a` and `b`, neither of them set.
    pub fn new(alloc: Global) -> Option<Gates> {
        let both = gate(alloc).zip(gate(alloc));
        match both.zip(gate(alloc)) {
            Some(((a, b), open)) => {
                open.set();
                Some(Gates { a, b, open })
            }
            None => None,
        }
    }

    /// The gate `a` or `b`, and for each other name the one that is set.
    pub fn named(&self, name: &str) -> Option<Arc<Gate, Global>> {
        let gate = match name {
            "a" => &self.a,
            "b" => &self.b,
            _ => &self.open,
        };
        Arc::try_clone(gate).ok()
    }
}

fn gate(alloc: Global) -> Option<Arc<Gate, Global>> {
    Arc::new(alloc, Gate::new()).ok()
}
