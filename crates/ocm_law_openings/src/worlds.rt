//! The sessions of each server along every run of several servers.
ghost use Rattle.std.specs.Prelude.{◌≡◌, ◌∷◌, [], ℕ, List, Bool, Some, true, false};
ghost use Rattle.ocm_entry.specs.declared.asks.Ask.{Ask};
ghost use Rattle.ocm_law_repeats.specs.Repeats.{is_for_records, is_repeat};
ghost use Rattle.ocm_law_sessions.specs.Sessions.{would_change};
ghost use Rattle.ocm_law_world.specs.World.{IsReached, Run, Session, World, history_of};
ghost use Rattle.ocm_law_openings.specs.Openings.{Follow, GoOn, Period};
ghost use Rattle.ocm_law_openings.specs.Worlds.{IsLife, IsLast};

/// In every run, what a server went through since it began are sessions that follow one another, from an
/// empty file on; and at each later step these sessions have gone on.
pub fn every_server_has_a_life()
    ensures life { (w : World) (host : List ℕ) (s : Session) → IsReached w → w.session host ≡ Some s → (ps : List Period) × IsLife host s ps }
    ensures goes_on { (w later : World) (host : List ℕ) (s : Session) (ps : List Period) → IsReached w → Run w later → w.session host ≡ Some s → IsLife host s ps
        → (t : Session) × (later.session host ≡ Some t) × (qs : List Period) × IsLife host t qs × GoOn ps qs }
{}

/// So in every run an offer, notice or settlement that was taken once changes nothing at any later step:
/// whatever other asks came since, and whatever crashed. The two notices that are for all records with an
/// id and a secret act on records that came since.
pub fn a_repeat_changes_nothing_in_every_run()
    ensures { (w later : World) (host : List ℕ) (s t : Session) (ask : Ask) → IsReached w → Run w later → w.session host ≡ Some s → later.session host ≡ Some t
        → is_repeat (history_of s) ask ≡ true → is_for_records ask ≡ false → would_change host (history_of t) ask ≡ false }
{}
