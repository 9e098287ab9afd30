//! What holds of a schedule over whole runs.

ghost use Rattle.ocm_schedule.specs.Jobs.{JobsInOrder};
ghost use Rattle.ocm_schedule.specs.Runs.{LanesAsPlanned, NoHostStarves, NothingBeginsEarly, OthersRest, OwnersStandOnce, PlacesAreOwn};

/// In a schedule, whatever happens with whichever hosts, a host that has rested and has n of its owner's before it in its lane begins after fewer
/// than (n + 1) * m turns, shared by the lane's seats, if never more than m owners have hosts there at one time, each exchange of that lane ends
/// within the limit, and the schedule is asked until nothing may begin in it before time passes. Of the other lanes nothing is asked: their
/// exchanges may last for ever.
pub fn no_host_starves()
    ensures { NoHostStarves }
{}

/// Each owner stands in a lane's circle once, with its own hosts that have rested, and with one at least.
pub fn owners_stand_once()
    ensures { OwnersStandOnce }
{}

/// A host that waits in a lane waits among its own owner's.
pub fn places_are_own()
    ensures { PlacesAreOwn }
{}

/// A host begins only once its pause is over.
pub fn nothing_begins_early()
    ensures { NothingBeginsEarly }
{}

/// A host that waits in a lane and does not stand in its circle still rests: its pause is not over.
pub fn others_rest()
    ensures { OthersRest }
{}

/// A lane has as many seats as planned, and a host that joins it rests for the pause that is planned.
pub fn lanes_as_planned()
    ensures { LanesAsPlanned }
{}

/// The jobs of a host begin in the order in which they came, and none is lost or made.
pub fn jobs_in_order()
    ensures { JobsInOrder }
{}
