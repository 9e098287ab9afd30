//! What follows from the definitions, each law as the contract of a function that does nothing.
ghost use Rattle.std.specs.Prelude.{◌≡◌, ℕ, List, ◌++◌};
ghost use Rattle.std.specs.List.{concat};
ghost use Rattle.ocm_dav.specs.declared.configs.Config.{Config};
ghost use Rattle.ocm_script.specs.declared.events.Event.{Event};
ghost use Rattle.ocm_script_run.specs.Drills.{Texts};
ghost use Rattle.ocm_script_run.specs.Servers.{Server, World};
ghost use Rattle.ocm_script_run.specs.Talks.{IsTalk};
ghost use Rattle.ocm_script_run.specs.Traces.{Logged};
ghost use Rattle.ocm_script_run.specs.Transcript.{Transcript};

/// What the lines of a script print, one text after another, is its transcript: a drill sums up a
/// transcript of the script that was made.
pub fn texts_are_a_transcript()
    ensures { (world final : World) (number : ℕ) (events : List Event) (texts : List (List ℕ))
        → Texts world number events texts final → Transcript world number events (concat texts) final }
{}

/// What is logged at a server is logged of a run that has a transcript.
pub fn a_log_is_of_a_run()
    ensures { (world final : World) (number : ℕ) (host : List ℕ) (events : List Event) (log : List ℕ)
        → Logged world number host events log final → (text : List ℕ) × Transcript world number events text final }
{}

/// The calls of a connection's talk are those that its server gets: they stand before the ones that it had, in the
/// same session, and at the same host.
pub fn a_connection_adds_the_calls_of_its_talk()
    ensures calls { (config : Config) (line number place : ℕ) (fresh bytes text : List ℕ) (server after : Server)
        → (talk : IsTalk config line fresh number place bytes server after text) → after.calls ≡ talk.calls ++ server.calls }
    ensures base { (config : Config) (line number place : ℕ) (fresh bytes text : List ℕ) (server after : Server)
        → IsTalk config line fresh number place bytes server after text → after.base ≡ server.base }
    ensures host { (config : Config) (line number place : ℕ) (fresh bytes text : List ℕ) (server after : Server)
        → IsTalk config line fresh number place bytes server after text → after.host ≡ server.host }
{}
