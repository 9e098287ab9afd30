use ocm_entry::Entry;
use std::collections::LinkedList;

/// A call with its place in the history: the number of the entries before it. No value of it is made;
/// contracts speak of it.
pub struct Call {
    pub place: u64,
    pub entry: Entry,
}

/// Whether a seat's base is named, and whether the seat was joined to another.
pub enum Stage {
    New,
    Named,
    Spent,
}

/// What a seat knows, with the terms of the value behind the turnstile and the marks of work. No value of it is made.
pub struct View<G, M> {
    pub stage: Stage,
    pub limit: u64,
    pub terms: Option<G>,
    pub base: LinkedList<Entry>,
    pub seen: LinkedList<Entry>,
    /// The moments behind the entries of `seen`, as many as these.
    pub moments: LinkedList<u64>,
    /// An older part of `seen` that was another seat's `seen`, after a join.
    pub heard: LinkedList<Entry>,
    /// The moments behind the entries of `heard`.
    pub heard_moments: LinkedList<u64>,
    pub mine: LinkedList<Call>,
    /// The base of the seat that was joined last, or the own one.
    pub met_base: LinkedList<Entry>,
    /// The terms of the seat that was joined last, or the own ones.
    pub met_terms: Option<G>,
    pub ticket: Option<u64>,
    pub turn: bool,
    /// The history that was found when the turn came.
    pub found: LinkedList<Entry>,
    /// The moments behind the entries of `found`.
    pub found_moments: LinkedList<u64>,
    /// The mark of the work for which the value waited when the turn came.
    pub lent: Option<M>,
    /// The mark of the work of the seat's own call, from the turn that begins the call to the turn that ends it.
    pub held: Option<M>,
    /// The greatest number of calls that were over when a turn of the seat was used: the place of its last call, or the
    /// limit.
    pub drawn: u64,
    /// The seat's parts of the right to know the whole: who has all of them has made every call.
    pub parts: u128,
}
