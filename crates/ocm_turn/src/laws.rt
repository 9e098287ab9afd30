ghost use Rattle.ocm_turn.specs.Laws.{AllCallsAreTheHistory, OrderedAreAlone, JoinedStand, JoinedAreAlone, JoinedAreCounted};

/// Calls that stand in order have each a place of its own.
pub fn ordered_calls_are_alone()
    ensures { OrderedAreAlone }
{}

/// Where the calls of two passes, joined, stand in a history, the calls of each do.
pub fn joined_calls_stand()
    ensures { JoinedStand }
{}

/// Where the calls of two passes, joined, have each a place of its own, the calls of each have, and no place has a call
/// of both.
pub fn joined_calls_are_alone()
    ensures { JoinedAreAlone }
{}

/// The calls of two passes, joined, are as many as those of both.
pub fn joined_calls_are_counted()
    ensures { JoinedAreCounted }
{}

/// Calls that stand in a history, in order, and are as many as its entries, are the whole of it.
pub fn all_calls_are_the_history()
    ensures { AllCallsAreTheHistory }
{}
