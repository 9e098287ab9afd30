//! What holds of the servers of every log in which the replies of hosts that are not foreign come from them.
ghost use Rattle.std.specs.Prelude.{◌≡◌, ◌≤◌, ◌<◌, ◌⊎◌, ◌∷◌, ◌++◌, [], ℕ, List, Bool, false, Option, Some};
ghost use Rattle.ocm_path.specs.Paths.{Segments};
ghost use Rattle.ocm_types.specs.declared.letters.Offer.{Offer};
ghost use Rattle.ocm_types.specs.declared.phases.Phase.TheVariants.{Confirmed};
ghost use Rattle.ocm_entry.specs.declared.asks.Ask.TheVariants.{Dav};
ghost use Rattle.ocm_entry.specs.declared.asks.Method.{Method};
ghost use Rattle.ocm_entry.specs.declared.refusals.Why.TheVariants.{Unauthorized};
ghost use Rattle.ocm_entry.specs.declared.replies.Reply.{Reply};
ghost use Rattle.ocm_entry.specs.declared.replies.Reply.TheVariants.{NoMemory};
ghost use Rattle.ocm_entry.specs.declared.rows.Share.{Share};
ghost use Rattle.ocm_rules.specs.Answers.{refused};
ghost use Rattle.ocm_rules.specs.Messages.{phase};
ghost use Rattle.ocm_rules.specs.Numbers.{at_number};
ghost use Rattle.ocm_rules.specs.Offers.{offers, told};
ghost use Rattle.ocm_law_sessions.specs.Sessions.{IsSession};
ghost use Rattle.ocm_law_world.specs.Ends.{IsEnded};
ghost use Rattle.ocm_law_world.specs.Guests.{HearsOwnerAlone, IsAfterLimit, IsMade};
ghost use Rattle.ocm_law_world.specs.World.{Session, kept_at};
ghost use Rattle.ocm_law_network.specs.Hearing.{HearersKeepTheWord, HearsInLog, PostsAreItsWord};
ghost use Rattle.ocm_law_network.specs.Network.{Event, IsLog, RepliesAreTheirs, session_of, world_of};
ghost use Rattle.ocm_law_network.specs.Network.Event.{Called};

/// The calls at each server are those of a session after what its file opened to last.
pub fn every_server_of_a_log_has_a_session()
    ensures { (foreign : List ℕ → Bool) (log : List Event) (host : List ℕ) (s : Session) → IsLog foreign log → RepliesAreTheirs foreign log → session_of log host ≡ Some s → IsSession host s.area s.base s.calls }
{}

/// Where a record is confirmed at a server, and the host of its owner is not foreign, the owner's server is there, and has
/// made the share that the record's offer says: with its owner, recipient and secret, and with all its permissions granted.
pub fn a_confirmed_share_was_made_by_its_owner_in_the_network()
    ensures { (foreign : List ℕ → Bool) (log : List Event) (host : List ℕ) (s : Session) (n : ℕ) (offer : Offer) → IsLog foreign log → RepliesAreTheirs foreign log → session_of log host ≡ Some s
        → at_number (offers (kept_at host s)) n ≡ Some offer → phase host (kept_at host s) n ≡ Confirmed → foreign offer.owner.host ≡ false → IsMade (world_of foreign log []) offer }
{}

/// A share that is not live at a server is there after all that happens later, with its number, and is not live.
pub fn what_has_ended_stays_ended_in_the_network()
    ensures { (foreign : List ℕ → Bool) (log more : List Event) (host : List ℕ) (i : ℕ) (m : Share) → IsLog foreign (more ++ log) → RepliesAreTheirs foreign (more ++ log)
        → IsEnded (world_of foreign log []) host i m → IsEnded (world_of foreign (more ++ log) []) host i m }
{}

/// Whoever asks a server for a file with the secret of a share that has ended is told `unauthorized`, or that memory was
/// wanting.
pub fn what_has_ended_is_refused_in_the_network()
    ensures { (foreign : List ℕ → Bool) (log : List Event) (on : Option ℕ) (host : List ℕ) (i : ℕ) (m : Share) (method : Method) (path : Segments) (body : List ℕ) (reply : Reply)
        → IsLog foreign (Called host on (record { ask = Dav m.secret method path body; reply = reply }) ∷ log) → RepliesAreTheirs foreign log
        → IsEnded (world_of foreign log []) host i m → (reply ≡ refused Unauthorized) ⊎ (reply ≡ NoMemory) }
{}

/// A host that takes nothing of an offer's permissions but the owner's word, at each event of a log, keeps nothing else. What
/// the owner's server posts to it is its word.
pub fn who_hears_the_owner_alone_in_the_network_keeps_its_word()
    ensures log { HearersKeepTheWord }
    ensures posted { PostsAreItsWord }
{}

/// The serial that the guest of a record was told never falls, whatever happens. What it was told with the serial 0 is what
/// the offer says; and where nobody but the owner's server tells it other permissions, which may be said of the end or of each
/// event, what it was told with another serial is what the share, which was there then, let its guest do after the owner's
/// limit of that number.
pub fn what_was_told_in_the_network_is_what_the_owner_permits()
    ensures never_older { (foreign : List ℕ → Bool) (log more : List Event) (host : List ℕ) (s : Session) (n : ℕ) (offer : Offer) → IsLog foreign (more ++ log) → RepliesAreTheirs foreign (more ++ log) → session_of log host ≡ Some s
        → at_number (offers (kept_at host s)) n ≡ Some offer
        → (t : Session) × (session_of (more ++ log) host ≡ Some t) × (at_number (offers (kept_at host t)) n ≡ Some offer) × ((told (kept_at host s) n).serial ≤ (told (kept_at host t) n).serial) }
    ensures first { (foreign : List ℕ → Bool) (log : List Event) (host : List ℕ) (s : Session) (n : ℕ) (offer : Offer) → IsLog foreign log → RepliesAreTheirs foreign log → session_of log host ≡ Some s
        → at_number (offers (kept_at host s)) n ≡ Some offer → (told (kept_at host s) n).serial ≡ 0 → (told (kept_at host s) n).perms ≡ offer.perms }
    ensures later { (foreign : List ℕ → Bool) (log : List Event) (host : List ℕ) (s : Session) (n : ℕ) (offer : Offer) → IsLog foreign log → RepliesAreTheirs foreign log → session_of log host ≡ Some s
        → at_number (offers (kept_at host s)) n ≡ Some offer → HearsOwnerAlone (world_of foreign log []) host s offer → 0 < (told (kept_at host s) n).serial
        → (y : Session) × (session_of log offer.owner.host ≡ Some y) × IsAfterLimit offer.owner.host (kept_at offer.owner.host y) offer (told (kept_at host s) n) }
    ensures in_log { (foreign : List ℕ → Bool) (log : List Event) (host : List ℕ) (s : Session) (n : ℕ) (offer : Offer) → IsLog foreign log → RepliesAreTheirs foreign log → session_of log host ≡ Some s
        → at_number (offers (kept_at host s)) n ≡ Some offer → HearsInLog foreign host offer log → 0 < (told (kept_at host s) n).serial
        → (y : Session) × (session_of log offer.owner.host ≡ Some y) × IsAfterLimit offer.owner.host (kept_at offer.owner.host y) offer (told (kept_at host s) n) }
{}
