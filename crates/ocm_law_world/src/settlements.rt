//! An answer that says neither yes nor no, as a `503`, settles nothing.
ghost use Rattle.std.specs.Prelude.{◌≡◌, ◌⊎◌, ℕ, List, false, Option};
ghost use Rattle.ocm_entry.specs.declared.asks.Ask.TheVariants.{Settle};
ghost use Rattle.ocm_entry.specs.declared.refusals.Why.TheVariants.{NotFound};
ghost use Rattle.ocm_entry.specs.declared.replies.Reply.{Reply};
ghost use Rattle.ocm_entry.specs.declared.replies.Reply.TheVariants.{Done, Left, NoMemory};
ghost use Rattle.ocm_rules.specs.Answers.{refused};
ghost use Rattle.ocm_law_sessions.specs.Sessions.{IsReply};
ghost use Rattle.ocm_law_world.specs.World.{Session, is_settlement, kept_at, with_call};

/// A server that is asked to settle a message by a status that says neither yes nor no tells that it
/// has no such message, that it is settled, that it is left due, or that memory was wanting; and it
/// keeps what it kept.
pub fn what_settles_nothing_changes_nothing()
    ensures told { (host : List ℕ) (s : Session) (number status : ℕ) (id : Option (List ℕ)) (reply : Reply) → is_settlement (Settle number status id) ≡ false → IsReply host s.area s.base s.calls (Settle number status id) reply
        → (reply ≡ refused NotFound) ⊎ (reply ≡ Done) ⊎ (reply ≡ Left) ⊎ (reply ≡ NoMemory) }
    ensures same { (host : List ℕ) (s : Session) (number status : ℕ) (id : Option (List ℕ)) (reply : Reply) → is_settlement (Settle number status id) ≡ false → IsReply host s.area s.base s.calls (Settle number status id) reply
        → kept_at host (with_call s (Settle number status id) reply) ≡ kept_at host s }
{}
