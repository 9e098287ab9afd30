//! A transcript is a run.
ghost use Rattle.std.specs.Prelude.{◌≡◌, ℕ, List, []};
ghost use Rattle.ocm_law_world.specs.World.{Run, World, empty};
ghost use Rattle.ocm_script.specs.declared.events.Event.{Event};
ghost use Rattle.ocm_script_run.specs.Servers.{Server};
ghost use Rattle.ocm_script_run.specs.Transcript.{Transcript};
ghost use Rattle.ocm_law_runs.specs.Standing.{Stands};

/// The servers that a script leaves have the sessions of a world that a run reaches, where no host is
/// foreign; and further lines go on by a further run.
pub fn a_transcript_is_a_run()
    ensures reached { (events : List Event) (text : List ℕ) (final : List Server) → Transcript [] 1 events text final → (w : World) × Run empty w × Stands w final }
    ensures further { (w : World) (servers final : List Server) (number : ℕ) (events : List Event) (text : List ℕ) → Run empty w → Stands w servers → Transcript servers number events text final
        → (later : World) × Run w later × Stands later final }
{}
