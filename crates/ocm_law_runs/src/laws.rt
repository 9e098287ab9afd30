//! What holds of the servers of every transcript.
ghost use Rattle.std.specs.Prelude.{◌≡◌, ℕ, List, [], IsTrue, Some, codes};
ghost use Rattle.ocm_types.specs.declared.letters.Offer.{Offer};
ghost use Rattle.ocm_types.specs.declared.phases.Phase.TheVariants.{Confirmed};
ghost use Rattle.ocm_entry.specs.declared.asks.Cmd.TheVariants.{Unshare};
ghost use Rattle.ocm_entry.specs.declared.rows.Share.{Share};
ghost use Rattle.ocm_rules.specs.History.{IsLegal};
ghost use Rattle.ocm_rules.specs.Messages.{phase};
ghost use Rattle.ocm_rules.specs.Numbers.{at_number};
ghost use Rattle.ocm_rules.specs.Offers.{offers};
ghost use Rattle.ocm_rules.specs.Shares.{made};
ghost use Rattle.ocm_law_grants.specs.Revocation.{is_at_or_below};
ghost use Rattle.ocm_law_sessions.specs.Sessions.{IsSession};
ghost use Rattle.ocm_transcript.specs.Texts.{line_text};
ghost use Rattle.ocm_script.specs.declared.events.Event.{Event};
ghost use Rattle.ocm_script.specs.declared.events.Event.TheVariants.{Local};
ghost use Rattle.ocm_script_run.specs.Deliveries.{Run};
ghost use Rattle.ocm_script_run.specs.Servers.{Server, area, history, server_at};
ghost use Rattle.ocm_script_run.specs.Transcript.{IsRun, Transcript};
ghost use Rattle.ocm_law_runs.specs.Standing.{IsEnded, IsMade, IsRefused, RefusesRequests, UsesSecret, kept_at};

/// The calls at each server are those of a session after what its disk opened to last, and so its
/// history is a legal one.
pub fn every_server_of_a_transcript_has_a_legal_history()
    ensures session { (events : List Event) (text : List ℕ) (final : List Server) (host : List ℕ) (server : Server) → Transcript [] 1 events text final → server_at final host ≡ Some server
        → IsSession host area server.base server.calls }
    ensures legal { (events : List Event) (text : List ℕ) (final : List Server) (host : List ℕ) (server : Server) → Transcript [] 1 events text final → server_at final host ≡ Some server
        → IsLegal host (history server) }
{}

/// Where a record is confirmed at a server of a script, the server of its owner is one too, and has made
/// the share that the record's offer says: with its owner, recipient and secret, and with all its
/// permissions granted.
pub fn a_confirmed_share_was_made_by_its_owner_in_the_script()
    ensures { (events : List Event) (text : List ℕ) (final : List Server) (host : List ℕ) (server : Server) (n : ℕ) (offer : Offer) → Transcript [] 1 events text final → server_at final host ≡ Some server
        → at_number (offers (kept_at host server)) n ≡ Some offer → phase host (kept_at host server) n ≡ Confirmed → IsMade final offer }
{}

/// A share that is not live at a server of a script is there after all further lines with its number,
/// and is not live, whatever crashed since.
pub fn what_has_ended_stays_ended_in_a_transcript()
    ensures { (events further : List Event) (text more : List ℕ) (servers final : List Server) (number : ℕ) (host : List ℕ) (i : ℕ) (m : Share)
        → Transcript [] 1 events text servers → Transcript servers number further more final → IsEnded servers host i m → IsEnded final host i m }
{}

/// A line `get`, `head`, `list0`, `list1`, `mkcol`, `put`, `delete`, `copy` or `move` with the secret of a
/// share that has ended prints `401 unauthorized`, or `500 no memory`. So does each request in a `raw` line that
/// asks for files with it: its call is refused, and its page is that of this refusal. Where the tick before it
/// failed there is no such call, and its page is that of the tick's reply.
pub fn what_has_ended_is_refused_in_a_transcript()
    ensures line { (events : List Event) (text : List ℕ) (servers : List Server) (number : ℕ) (host : List ℕ) (i : ℕ) (m : Share) (e : Event) (line : Run)
        → Transcript [] 1 events text servers → IsEnded servers host i m → UsesSecret host m.secret e → IsRun servers number e line → IsRefused number line }
    ensures requests { (events : List Event) (text : List ℕ) (servers : List Server) (number : ℕ) (host : List ℕ) (i : ℕ) (m : Share)
        → Transcript [] 1 events text servers → IsEnded servers host i m → RefusesRequests servers number host m.secret }
{}

/// Once a line `unshare` has printed `204`, each such line with the secret of that share, or of one below
/// it, prints `401 unauthorized`, or `500 no memory`, and each such request in a `raw` line is refused: whatever
/// the lines between did, and whatever crashed.
pub fn what_was_unshared_is_refused_ever_after()
    ensures line { (events further : List Event) (text more : List ℕ) (servers final : List Server) (number next place : ℕ) (host key : List ℕ) (id i : ℕ) (server : Server) (m : Share) (e : Event) (unshare line : Run)
        → Transcript [] 1 events text servers → IsRun servers number (Local host key (Unshare id)) unshare → unshare.text ≡ line_text number (codes "204")
        → server_at unshare.world host ≡ Some server → at_number (made host (kept_at host server)) i ≡ Some m → IsTrue (is_at_or_below host (kept_at host server) id i)
        → Transcript unshare.world next further more final → UsesSecret host m.secret e → IsRun final place e line → IsRefused place line }
    ensures requests { (events further : List Event) (text more : List ℕ) (servers final : List Server) (number next place : ℕ) (host key : List ℕ) (id i : ℕ) (server : Server) (m : Share) (ended : Run)
        → Transcript [] 1 events text servers → IsRun servers number (Local host key (Unshare id)) ended → ended.text ≡ line_text number (codes "204")
        → server_at ended.world host ≡ Some server → at_number (made host (kept_at host server)) i ≡ Some m → IsTrue (is_at_or_below host (kept_at host server) id i)
        → Transcript ended.world next further more final → RefusesRequests final place host m.secret }
{}
