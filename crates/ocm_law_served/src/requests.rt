//! Which requests for files are served, and which are refused.
ghost use Rattle.std.specs.Prelude.{◌≡◌, ◌⊎◌, ◌∷◌, ◌++◌, ℕ, List, Bool, Some, None, true, false};
ghost use Rattle.ocm_entry.specs.declared.entries.Entry.{Entry};
ghost use Rattle.ocm_entry.specs.declared.refusals.Why.TheVariants.{NotPermitted, Unauthorized};
ghost use Rattle.ocm_entry.specs.declared.replies.Reply.{Reply};
ghost use Rattle.ocm_entry.specs.declared.replies.Reply.TheVariants.{DiskFault, JournalFull, NoMemory, Stopped};
ghost use Rattle.ocm_entry.specs.declared.rows.Place.{Place};
ghost use Rattle.ocm_entry.specs.declared.rows.Share.{Share};
ghost use Rattle.ocm_rules.specs.Answers.{refused};
ghost use Rattle.ocm_rules.specs.History.{IsLegal, kept};
ghost use Rattle.ocm_rules.specs.Numbers.{at_number};
ghost use Rattle.ocm_rules.specs.Shares.{is_live, made};
ghost use Rattle.ocm_law_sessions.specs.Sessions.{IsReply, IsSession, fault_in, fits, would_change};
ghost use Rattle.ocm_law_served.specs.Requests.{FileRequest, ask_with};
ghost use Rattle.ocm_law_served.specs.Served.{IsAnsweredSo, IsGranted, IsHeld, IsServed, IsShort, IsUnheld};

/// The replies that a session allows to a request for files are these. It is served where its secret is a
/// user's key, or names a share of which every link up to the owner is open and grants the request; it is
/// not permitted where all these links are open and one does not grant it; else it is not authorized; and
/// memory may be wanting at any request.
pub fn a_request_is_served_exactly_where_every_link_grants_it()
    ensures answered { (host : List ℕ) (area : ℕ) (k h : List Entry) (secret : List ℕ) (request : FileRequest) (reply : Reply) → IsSession host area k h
        → IsReply host area k h (ask_with secret request) reply → IsAnsweredSo host area k h secret request reply }
    ensures allowed { (host : List ℕ) (area : ℕ) (k h : List Entry) (secret : List ℕ) (request : FileRequest) (reply : Reply) → IsSession host area k h
        → IsAnsweredSo host area k h secret request reply → IsReply host area k h (ask_with secret request) reply }
{}

/// So is each call of a session that asks for files.
pub fn each_call_of_a_session_is_answered_so()
    ensures { (host : List ℕ) (area : ℕ) (k later before : List Entry) (secret : List ℕ) (request : FileRequest) (reply : Reply)
        → IsSession host area k (later ++ record { ask = ask_with secret request; reply = reply } ∷ before) → IsAnsweredSo host area k before secret request reply }
{}

/// Of each secret and request exactly one holds after a legal history: it is granted, it is held by one
/// whose rights do not suffice, or nobody may use the secret. Nobody holds a secret with two places.
pub fn each_request_is_granted_short_or_unheld()
    ensures some { (host : List ℕ) (g : List Entry) (secret : List ℕ) (request : FileRequest) → IsLegal host g
        → ((root : Place) × IsGranted host (kept host g) secret request root) ⊎ (IsShort host (kept host g) secret request ⊎ IsUnheld host (kept host g) secret) }
    ensures granted { (host : List ℕ) (g : List Entry) (secret : List ℕ) (request : FileRequest) (root : Place) → IsLegal host g
        → IsGranted host (kept host g) secret request root → IsHeld host (kept host g) secret root × (IsShort host (kept host g) secret request → ⊥) }
    ensures short { (host : List ℕ) (g : List Entry) (secret : List ℕ) (request : FileRequest) → IsLegal host g
        → IsShort host (kept host g) secret request → IsUnheld host (kept host g) secret → ⊥ }
    ensures one { (host : List ℕ) (g : List Entry) (secret : List ℕ) (root other : Place) → IsLegal host g
        → IsHeld host (kept host g) secret root → IsHeld host (kept host g) secret other → root ≡ other }
{}

/// So each reply comes exactly there, out of memory aside. The table of no method says `unauthorized` or
/// `not permitted`.
pub fn each_refusal_comes_exactly_there()
    ensures served { (host : List ℕ) (area : ℕ) (k h : List Entry) (secret : List ℕ) (request : FileRequest) (root : Place) (reply : Reply) → IsSession host area k h
        → IsGranted host (kept host (h ++ k)) secret request root → IsReply host area k h (ask_with secret request) reply
        → (reply ≡ NoMemory) ⊎ IsServed host area k h secret request root reply }
    ensures short { (host : List ℕ) (area : ℕ) (k h : List Entry) (secret : List ℕ) (request : FileRequest) (reply : Reply) → IsSession host area k h
        → IsShort host (kept host (h ++ k)) secret request → IsReply host area k h (ask_with secret request) reply
        → (reply ≡ NoMemory) ⊎ (reply ≡ refused NotPermitted) }
    ensures unheld { (host : List ℕ) (area : ℕ) (k h : List Entry) (secret : List ℕ) (request : FileRequest) (reply : Reply) → IsSession host area k h
        → IsUnheld host (kept host (h ++ k)) secret → IsReply host area k h (ask_with secret request) reply
        → (reply ≡ NoMemory) ⊎ (reply ≡ refused Unauthorized) }
    ensures unauthorized { (host : List ℕ) (area : ℕ) (k h : List Entry) (secret : List ℕ) (request : FileRequest) → IsSession host area k h
        → IsReply host area k h (ask_with secret request) (refused Unauthorized) → IsUnheld host (kept host (h ++ k)) secret }
    ensures not_permitted { (host : List ℕ) (area : ℕ) (k h : List Entry) (secret : List ℕ) (request : FileRequest) → IsSession host area k h
        → IsReply host area k h (ask_with secret request) (refused NotPermitted) → IsShort host (kept host (h ++ k)) secret request }
{}

/// The replies of a session that are no table's come to a request for files only where it is granted and
/// would change something: `stopped` after a disk fault, that the journal is full where there was none and
/// the change does not fit, and a disk fault where there was none and it fits.
pub fn other_replies_come_to_granted_changes_alone()
    ensures stopped { (host : List ℕ) (area : ℕ) (k h : List Entry) (secret : List ℕ) (request : FileRequest) (count : ℕ) → IsSession host area k h
        → IsReply host area k h (ask_with secret request) (Stopped count)
        → ((root : Place) × IsGranted host (kept host (h ++ k)) secret request root) × (would_change host (h ++ k) (ask_with secret request) ≡ true) × (fault_in h ≡ Some count) }
    ensures full { (host : List ℕ) (area : ℕ) (k h : List Entry) (secret : List ℕ) (request : FileRequest) → IsSession host area k h
        → IsReply host area k h (ask_with secret request) JournalFull
        → ((root : Place) × IsGranted host (kept host (h ++ k)) secret request root) × (would_change host (h ++ k) (ask_with secret request) ≡ true)
        × (fault_in h ≡ None) × (fits host area (h ++ k) (ask_with secret request) ≡ false) }
    ensures fault { (host : List ℕ) (area : ℕ) (k h : List Entry) (secret : List ℕ) (request : FileRequest) (count : ℕ) → IsSession host area k h
        → IsReply host area k h (ask_with secret request) (DiskFault count)
        → ((root : Place) × IsGranted host (kept host (h ++ k)) secret request root) × (would_change host (h ++ k) (ask_with secret request) ≡ true)
        × (fault_in h ≡ None) × (fits host area (h ++ k) (ask_with secret request) ≡ true) }
{}

/// Nobody holds the secret of a share that is not live. So each request with it is told `unauthorized`, or
/// that memory was wanting.
pub fn nobody_holds_the_secret_of_what_has_ended()
    ensures unheld { (host : List ℕ) (g : List Entry) (i : ℕ) (m : Share) → IsLegal host g → at_number (made host (kept host g)) i ≡ Some m
        → is_live host (kept host g) i ≡ false → IsUnheld host (kept host g) m.secret }
    ensures refused { (host : List ℕ) (area : ℕ) (k h : List Entry) (i : ℕ) (m : Share) (request : FileRequest) (reply : Reply) → IsSession host area k h
        → at_number (made host (kept host (h ++ k))) i ≡ Some m → is_live host (kept host (h ++ k)) i ≡ false → IsAnsweredSo host area k h m.secret request reply
        → (reply ≡ NoMemory) ⊎ (reply ≡ refused Unauthorized) }
{}
