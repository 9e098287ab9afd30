//! What a running server logged of its reads is true of its journal. The laws are contracts of functions that do nothing.
#![tactic(auto)]

ghost use Rattle.ocm_law_serve_logs.specs.ServedLogs.{FrontsAreLines, LogsAreTrue, LogsOutlastCrashes, WholeLogsAreTrue};

mod serving;

use ocm_disk::Disk;
pub use serving::serve_logged_writes_what_is_true;

/// A run's log that is cut at a line's end has the first lines, and they are read back as they are.
pub fn a_log_that_is_cut_has_the_first_lines()
    ensures { FrontsAreLines }
{}

/// What a server that ran wrote to its log, cut at any line's end, is a true log by the disk that came back: a check of the
/// two tells the number of lines. Where no line was left out this holds of all of it, and it has the line of each read.
pub fn a_served_log_is_true<D: Disk>()
    ensures cut { LogsAreTrue ⟦<D as Disk>⟧ }
    ensures whole { WholeLogsAreTrue ⟦<D as Disk>⟧ }
{}

/// After a crash at any moment of a run, the lines of the calls that were made before it are a true log by what it left.
pub fn a_log_outlasts_crashes<D: Disk>()
    ensures { LogsOutlastCrashes ⟦<D as Disk>⟧ }
{}
