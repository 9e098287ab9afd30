use ocm_core::Planned;
use ocm_history::Draft;

/// A change for which all is ready: what is planned, what is written of it, and how many bytes of an area the records of
/// asks take with it at most, in the shortest form of the journal.
#[derive(Drop)]
pub struct ReadyChange {
    pub planned: Planned,
    pub draft: Draft,
    pub size: u64,
}
