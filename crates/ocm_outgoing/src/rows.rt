use ocm_rules::Subject;
use ocm_types::Numbered;

/// A message that was sent, with whether it is settled.
pub struct Sent {
    pub numbered: Numbered,
    pub subject: Subject,
    pub settled: bool,
    /// The number of the next message about the same, 0 for none. It is read only from the first
    /// unsettled message about the same on.
    pub next: u32,
}

impl Drop for Sent {
    fn drop(self) {
        let Sent {
            numbered: _,
            subject: _,
            settled: _,
            next: _,
        } = self;
    }
}

/// The unsettled messages about one thing: the number of the first that is not settled, and of the last.
#[derive(Clone, Copy)]
pub struct Thread {
    pub first: u32,
    pub last: u32,
}
