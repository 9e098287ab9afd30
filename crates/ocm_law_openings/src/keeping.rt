//! What is promised of one server, at one place: of sessions that follow one another, and so of each server
//! in every run of several.
ghost use Rattle.std.specs.Prelude.{◌≡◌, ◌∷◌, ℕ, List, Some};
ghost use Rattle.ocm_law_world.specs.World.{IsReached, Run, Session, World};
ghost use Rattle.ocm_law_openings.specs.Keeping.{Keeps};
ghost use Rattle.ocm_law_openings.specs.Openings.{Follow, GoOn, Period};
ghost use Rattle.ocm_law_openings.specs.Worlds.{IsLife};

/// Sessions that follow one another keep what is promised of a server.
pub fn sessions_keep_what_is_promised()
    ensures { (host : List ℕ) (p : Period) (older : List Period) → Follow host (p ∷ older) → Keeps host p older }
{}

/// So does each server in every run of several servers, from its empty file on. At each later step the sessions that it had
/// gone through by then have gone on, whatever crashed since.
pub fn every_server_keeps_what_is_promised()
    ensures keeps { (w : World) (host : List ℕ) (s : Session) → IsReached w → w.session host ≡ Some s
        → (p : Period) × (older : List Period) × IsLife host s (p ∷ older) × Keeps host p older }
    ensures goes_on { (w later : World) (host : List ℕ) (s : Session) (ps : List Period) → IsReached w → Run w later → w.session host ≡ Some s → IsLife host s ps
        → (t : Session) × (later.session host ≡ Some t) × (p : Period) × (older : List Period) × IsLife host t (p ∷ older) × GoOn ps (p ∷ older) × Keeps host p older }
{}
