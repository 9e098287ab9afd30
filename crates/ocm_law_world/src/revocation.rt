//! What was revoked stays revoked, at every server and over every crash.
ghost use Rattle.std.specs.Prelude.{◌≡◌, ◌≤◌, ◌⊎◌, ℕ, List, Bool, false, IsTrue, Some};
ghost use Rattle.ocm_path.specs.Paths.{Segments};
ghost use Rattle.ocm_types.specs.declared.letters.Notice.TheVariants.{Declined, ReshareUndo};
ghost use Rattle.ocm_entry.specs.declared.asks.Ask.TheVariants.{Carry, Dav, Local, Notice, Tick};
ghost use Rattle.ocm_entry.specs.declared.asks.Cmd.TheVariants.{Expire, Unshare};
ghost use Rattle.ocm_entry.specs.declared.asks.Method.{Method};
ghost use Rattle.ocm_entry.specs.declared.refusals.Why.TheVariants.{Unauthorized};
ghost use Rattle.ocm_entry.specs.declared.replies.Reply.{Reply};
ghost use Rattle.ocm_entry.specs.declared.replies.Reply.TheVariants.{Done, NoMemory, Noticed};
ghost use Rattle.ocm_entry.specs.declared.rows.Share.{Share};
ghost use Rattle.ocm_rules.specs.Answers.{refused};
ghost use Rattle.ocm_rules.specs.Numbers.{at_number};
ghost use Rattle.ocm_rules.specs.Shares.{made, moment, named, until};
ghost use Rattle.ocm_law_grants.specs.Revocation.{is_at_or_below};
ghost use Rattle.ocm_law_sessions.specs.Sessions.{IsReply};
ghost use Rattle.ocm_law_world.specs.Ends.{IsEnded};
ghost use Rattle.ocm_law_world.specs.World.{IsReached, Run, Session, World, kept_at, with_call};

/// A share that is not live at a server is there at every later step with its number, and is not
/// live, whatever crashed since.
pub fn what_has_ended_stays_ended_in_every_run()
    ensures { (w later : World) (host : List ℕ) (i : ℕ) (m : Share) → IsReached w → Run w later → IsEnded w host i m → IsEnded later host i m }
{}

/// Once the end of a share was acknowledged, it and all below it are not live at every later step.
/// The end comes by its owner's command, by its guest who declines it, or by the guest who asked for
/// it and takes it back; by an end in time that is not ahead; or by a tick that comes to its end.
pub fn an_acknowledged_end_lasts_in_every_run()
    ensures unshared { (w later : World) (host : List ℕ) (s : Session) (key : List ℕ) (id i : ℕ) (m : Share)
        → let t : Session = with_call s (Local key (Unshare id)) Done in
        IsReached w → Run w later → w.session host ≡ Some t → at_number (made host (kept_at host t)) i ≡ Some m
        → IsTrue (is_at_or_below host (kept_at host t) id i) → IsEnded later host i m }
    ensures declined { (w later : World) (host : List ℕ) (s : Session) (text secret fresh : List ℕ) (id i : ℕ) (m : Share)
        → let t : Session = with_call s (Notice (Declined text secret) fresh) Noticed in
        IsReached w → Run w later → w.session host ≡ Some t → at_number (made host (kept_at host t)) i ≡ Some m
        → named text ≡ Some id → IsTrue (is_at_or_below host (kept_at host t) id i) → IsEnded later host i m }
    ensures undone { (w later : World) (host : List ℕ) (s : Session) (text secret fresh : List ℕ) (id i : ℕ) (m : Share)
        → let t : Session = with_call s (Notice (ReshareUndo text secret) fresh) Noticed in
        IsReached w → Run w later → w.session host ≡ Some t → at_number (made host (kept_at host t)) i ≡ Some m
        → named text ≡ Some id → IsTrue (is_at_or_below host (kept_at host t) id i) → IsEnded later host i m }
    ensures expired { (w later : World) (host : List ℕ) (s : Session) (key : List ℕ) (id end i : ℕ) (m : Share)
        → let t : Session = with_call s (Local key (Expire id end)) Done in
        IsReached w → Run w later → w.session host ≡ Some t → at_number (made host (kept_at host t)) i ≡ Some m
        → end ≤ moment (kept_at host s) → IsTrue (is_at_or_below host (kept_at host t) id i) → IsEnded later host i m }
    ensures ticked { (w later : World) (host : List ℕ) (s : Session) (clock id end i : ℕ) (m : Share)
        → let t : Session = with_call s (Tick clock) Done in
        IsReached w → Run w later → w.session host ≡ Some t → at_number (made host (kept_at host t)) i ≡ Some m
        → until (kept_at host s) id ≡ Some end → end ≤ clock → IsTrue (is_at_or_below host (kept_at host t) id i) → IsEnded later host i m }
{}

/// Whoever asks a server for a file with the secret of a share that has ended is told `unauthorized`,
/// or that memory was wanting; so is who asks for a copy or a move.
pub fn what_has_ended_is_refused_in_every_run()
    ensures read { (w : World) (host : List ℕ) (s : Session) (i : ℕ) (m : Share) (method : Method) (path : Segments) (body : List ℕ) (reply : Reply) → IsReached w → IsEnded w host i m → w.session host ≡ Some s
        → IsReply host s.area s.base s.calls (Dav m.secret method path body) reply → (reply ≡ refused Unauthorized) ⊎ (reply ≡ NoMemory) }
    ensures carried { (w : World) (host : List ℕ) (s : Session) (i : ℕ) (m : Share) (from to : Segments) (moving overwrite : Bool) (reply : Reply) → IsReached w → IsEnded w host i m → w.session host ≡ Some s
        → IsReply host s.area s.base s.calls (Carry m.secret from to moving overwrite) reply → (reply ≡ refused Unauthorized) ⊎ (reply ≡ NoMemory) }
{}
