//! What is traced of a run: the log of what one server answered to its readers is true of the image of its disk, and what
//! `trace` writes is found true by `logcheck`. Each law is the contract of a function that does nothing.
#![tactic(auto)]

ghost use Rattle.std.specs.Prelude.{◌≡◌, ◌≤◌, List, [], ℕ, Ok, Some, length};
ghost use Rattle.ocm_disk.specs.Shelf.{bytes_of, disk_of};
ghost use Rattle.ocm_disk.specs.declared.shelf.ShelfPlace.{ShelfPlace};
ghost use Rattle.ocm_limits.specs.Limits.{most_audited_bytes};
ghost use Rattle.ocm_script.specs.Script.{script_of};
ghost use Rattle.ocm_script.specs.declared.events.Event.{Event};
ghost use Rattle.ocm_entry_bytes.specs.Spells.{AreBytes};
ghost use Rattle.ocm_script_run.specs.Servers.{World};
ghost use Rattle.ocm_world.specs.Shelves.{AreShelved};
ghost use Rattle.ocm_world.specs.Traces.{Traced};
ghost use Rattle.ocm_script_run.specs.Traces.{Logged, log_input};
ghost use Rattle.ocm_script_run.specs.Transcript.{Transcript};
ghost use Rattle.ocm_commands.specs.Commands.{Writes};
ghost use Rattle.ocm_commands_files.specs.Logchecks.{log_parts};
ghost use Rattle.ocm_commands_files.specs.declared.ends.End.TheVariants as ends;
ghost use Rattle.ocm_commands_files.specs.declared.words.Command.TheVariants as commands;
ghost use Rattle.ocm_law_traces.specs.TrueLogs.{IsFoundTrue, IsTrueLog};

/// The log of a run of a script is true of the image of that host's disk at the end of the run, whatever disks failed and
/// crashed in it. That the image is made of bytes is the clause `bytes` of `trace`, which writes the two.
pub fn a_traced_log_is_true()
    ensures { (bytes : List ℕ) (events : List Event) (host log image : List ℕ)
        (final : World) (shelf : List ShelfPlace)
        → script_of bytes ≡ Ok events → Logged [] 1 host events log final
        → AreBytes image → AreShelved final shelf → bytes_of (disk_of host shelf) ≡ Some image
        → IsTrueLog host image log }
{}

/// What is traced of a run is its transcript, and what is logged of the same run.
pub fn a_traced_run_has_a_transcript()
    ensures { (world final : World) (number : ℕ) (host text log : List ℕ) (events : List Event)
        → Traced world number host events text log final
        → Transcript world number events text final × Logged world number host events log final }
{}

/// An image and a log that are written behind the image's length are read back as these two, where the image has no more
/// bytes than a check takes.
pub fn a_written_log_has_its_parts()
    ensures { (image log : List ℕ) → length image ≤ most_audited_bytes → log_parts (log_input image log) ≡ Some (image, log) }
{}

/// What the command `trace` writes with the status 0 is found true by the command `logcheck`, where it has no more bytes than
/// an image may have there: 1,073,741,824. Each of the two commands is meant by the clause of `command` that says what it
/// writes.
pub fn a_written_trace_is_found_true()
    ensures { (host bytes text : List ℕ) (shelf : List ShelfPlace)
        → Writes (commands.Trace host) bytes ends.Done (Some []) (Some text) shelf → length text ≤ most_audited_bytes
        → IsFoundTrue text }
{}
