//! Laws of the definitions, each the contract of a function that computes nothing.
ghost use Rattle.std.specs.Prelude.{◌≡◌, ℕ, List, Result, [], Err, IsTrue};
ghost use Rattle.ocm_journal_audit.specs.Audits.{Audits};
ghost use Rattle.ocm_access_log.specs.declared.lines.LogLine.{LogLine};
ghost use Rattle.ocm_access_log.specs.Reads.{is_read};
ghost use Rattle.ocm_access_log.specs.Truth.{is_true};
ghost use Rattle.ocm_logcheck.specs.Checks.{Checks};
ghost use Rattle.ocm_logcheck.specs.declared.faults.LogFault.{LogFault};

/// A check tells one thing of an image and a log: a number of lines, or one fault.
pub fn a_check_tells_one_thing()
    ensures { (image log : List ℕ) (told other : Result ℕ LogFault) → Checks image log told → Checks image log other → told ≡ other }
{}

/// What an audit refuses, a check refuses at the same place, whatever the log is.
pub fn what_an_audit_refuses_is_refused()
    ensures { (image log : List ℕ) (place : ℕ) → Audits image (Err place) → Checks image log (Err (LogFault.NotJournal place)) }
{}

/// Of the empty list the same lines are true at all hosts, since no secret is known.
pub fn the_empty_list_is_the_same_for_all_hosts()
    ensures { (host other : List ℕ) (line : LogLine) → IsTrue (is_read line.ask) → is_true host [] line ≡ is_true other [] line }
{}
