//! Logs of a server whose journal is blank.
ghost use Rattle.std.specs.Prelude.{◌≡◌, [], IsTrue};
ghost use Rattle.ocm_access_log.specs.Reads.{AreLogged, is_read};
ghost use Rattle.ocm_access_log.specs.Truth.{is_true};
ghost use Rattle.ocm_logcheck.specs.Replays.{count_true};

use ocm_access_log::LogLine;

/// Whether a line is true of the empty list: there is no place but 0, no moment but 0, and no secret is known.
fn is_true_of_none(line: &LogLine) -> bool
    requires { IsTrue (is_read line.now.ask) }
    ensures { result ≡ is_true [] [] line.now }
{
    line.place == 0 && line.moment == 0 && line.status == 401
}

/// How many lines are true of the empty list before the first that is false.
pub fn count_true_of_none(lines: &[LogLine]) -> usize
    requires { AreLogged lines.now }
    ensures { result ≡ count_true [] [] lines.now }
{
    let mut found = 0;
    while found < lines.len() && is_true_of_none(&lines[found]) {
        found += 1;
    }
    found
}
