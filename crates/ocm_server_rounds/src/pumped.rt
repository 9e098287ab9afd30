/// What a round of delivery came to.
#[derive(Clone, Copy)]
pub struct Pumped {
    /// How many messages were due. The count stands still at its type's end.
    pub tried: u32,
    /// How many of them were settled. The count stands still at its type's end.
    pub answered: u32,
    /// How the round ended.
    pub end: RoundEnd,
}

/// How a round of delivery ended.
#[derive(Clone, Copy, Debug, PartialEq, Eq)]
pub enum RoundEnd {
    /// Each due message was delivered or left for a later round.
    Whole,
    /// The turnstile's limit was reached.
    Spent,
    /// There was no memory for the messages, for a delivery or for a settlement.
    NoMemory,
}
