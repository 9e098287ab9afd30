//! What each line of a script prints, and what is promised of a script.
ghost use Rattle.std.specs.Prelude.{◌≡◌, ◌∷◌, ◌++◌, [], ℕ, List, Bool, Some, true, false};
ghost use Rattle.ocm_entry.specs.declared.asks.Ask.{Ask};
ghost use Rattle.ocm_entry.specs.declared.entries.Entry.{Entry};
ghost use Rattle.ocm_entry.specs.declared.replies.Reply.{Reply};
ghost use Rattle.ocm_transcript.specs.Texts.{reply_lines};
ghost use Rattle.ocm_script.specs.Events.{host_of};
ghost use Rattle.ocm_script.specs.declared.events.Event.{Event};
ghost use Rattle.ocm_script_run.specs.Asked.{ask_of, shows_digits};
ghost use Rattle.ocm_script_run.specs.Deliveries.{Run};
ghost use Rattle.ocm_script_run.specs.Servers.{Server, area, history, server_at, with_call};
ghost use Rattle.ocm_script_run.specs.Transcript.{IsRun, Transcript};
ghost use Rattle.ocm_law_repeats.specs.Repeats.{is_for_records, is_repeat};
ghost use Rattle.ocm_law_sessions.specs.Sessions.{IsReply, would_change};
ghost use Rattle.ocm_law_openings.specs.Openings.{GoOn, Period};
ghost use Rattle.ocm_law_openings.specs.Worlds.{IsLife};
ghost use Rattle.ocm_law_served.specs.Requests.{FileRequest, ask_with};
ghost use Rattle.ocm_law_served.specs.Served.{IsAnsweredSo};
ghost use Rattle.ocm_law_runs.specs.Promises.{Between, Promised};
ghost use Rattle.ocm_law_runs.specs.Standing.{session_of};

/// A transcript is cut at each line: there are servers to which the lines before lead, and from which the
/// lines behind go on.
pub fn a_transcript_is_cut_at_each_line()
    ensures { (before after : List Event) (text : List ℕ) (servers final : List Server) (number : ℕ) → Transcript servers number (before ++ after) text final
        → Between servers number before after text final }
{}

/// A line that asks a server something prints the reply, which is one that the server's session allows, and
/// the server has the call with it.
pub fn a_line_prints_a_reply_of_the_session()
    ensures { (servers : List Server) (number : ℕ) (host : List ℕ) (server : Server) (e : Event) (ask : Ask) (line : Run) → server_at servers host ≡ Some server
        → host_of e ≡ Some host → ask_of e ≡ Some ask → IsRun servers number e line
        → (reply : Reply) × IsReply host area server.base server.calls ask reply × (line.text ≡ reply_lines number (shows_digits e) reply)
        × (server_at line.world host ≡ Some (with_call server ask reply)) }
{}

/// So a line that asks for files prints a reply that is served exactly where the secret grants it. Each call
/// of a server that asks for files, also one over a connection, is answered so.
pub fn files_of_a_script_are_served_exactly_where_every_link_grants_it()
    ensures line { (events : List Event) (text : List ℕ) (servers : List Server) (number : ℕ) (host : List ℕ) (server : Server) (e : Event) (secret : List ℕ) (request : FileRequest) (line : Run)
        → Transcript [] 1 events text servers → server_at servers host ≡ Some server → host_of e ≡ Some host → ask_of e ≡ Some (ask_with secret request) → IsRun servers number e line
        → (reply : Reply) × IsAnsweredSo host area server.base server.calls secret request reply × (line.text ≡ reply_lines number (shows_digits e) reply) }
    ensures call { (events : List Event) (text : List ℕ) (servers : List Server) (host : List ℕ) (server : Server) (later before : List Entry) (secret : List ℕ) (request : FileRequest) (reply : Reply)
        → Transcript [] 1 events text servers → server_at servers host ≡ Some server → server.calls ≡ later ++ record { ask = ask_with secret request; reply = reply } ∷ before
        → IsAnsweredSo host area server.base before secret request reply }
{}

/// What a server of a script went through are sessions that follow one another, from an empty file on, and
/// further lines go on with them.
pub fn every_server_of_a_transcript_has_a_life()
    ensures life { (events : List Event) (text : List ℕ) (servers : List Server) (host : List ℕ) (server : Server) → Transcript [] 1 events text servers → server_at servers host ≡ Some server
        → (ps : List Period) × IsLife host (session_of server) ps }
    ensures goes_on { (events further : List Event) (text more : List ℕ) (servers final : List Server) (number : ℕ) (host : List ℕ) (server : Server) (ps : List Period)
        → Transcript [] 1 events text servers → Transcript servers number further more final → server_at servers host ≡ Some server → IsLife host (session_of server) ps
        → (later : Server) × (server_at final host ≡ Some later) × (qs : List Period) × IsLife host (session_of later) qs × GoOn ps qs }
{}

/// An offer, notice or settlement that was taken at a server changes nothing after all further lines,
/// whatever crashed since. The two notices that are for all records with an id and a secret act on records
/// that came since.
pub fn a_repeat_changes_nothing_in_a_transcript()
    ensures { (events further : List Event) (text more : List ℕ) (servers final : List Server) (number : ℕ) (host : List ℕ) (server later : Server) (ask : Ask)
        → Transcript [] 1 events text servers → Transcript servers number further more final → server_at servers host ≡ Some server → server_at final host ≡ Some later
        → is_repeat (history server) ask ≡ true → is_for_records ask ≡ false → would_change host (history later) ask ≡ false }
{}

/// A script that was run to its end keeps what is promised of it: of its servers, its lines, its guests and
/// what has ended.
pub fn a_script_keeps_what_is_promised()
    ensures { (events : List Event) (text : List ℕ) (final : List Server) → Transcript [] 1 events text final → Promised events text final }
{}
