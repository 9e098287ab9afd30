//! What has ended stays ended, and nothing is read by it.
ghost use Rattle.std.specs.Prelude.{◌≡◌, ◌≤◌, ◌∷◌, ◌++◌, ℕ, List, Bool, false, IsTrue, Some};
ghost use Rattle.ocm_path.specs.Paths.{Segments};
ghost use Rattle.ocm_entry.specs.declared.asks.Ask.TheVariants as asks;
ghost use Rattle.ocm_entry.specs.declared.asks.Cmd.TheVariants as commands;
ghost use Rattle.ocm_entry.specs.declared.asks.Method.{Method};
ghost use Rattle.ocm_entry.specs.declared.entries.Entry.{Entry};
ghost use Rattle.ocm_entry.specs.declared.refusals.Why.TheVariants.{Unauthorized};
ghost use Rattle.ocm_entry.specs.declared.replies.Reply.TheVariants as replies;
ghost use Rattle.ocm_entry.specs.declared.rows.Share.{Share};
ghost use Rattle.ocm_rules.specs.Answers.{refused};
ghost use Rattle.ocm_rules.specs.History.{IsLegal, answer, kept};
ghost use Rattle.ocm_rules.specs.Numbers.{at_number};
ghost use Rattle.ocm_rules.specs.Shares.{is_live, made, moment, named, until};
ghost use Rattle.ocm_types.specs.declared.letters.Notice.TheVariants as notices;
ghost use Rattle.ocm_law_grants.specs.Revocation.{is_at_or_below};

/// A share that is not live is never live again.
pub fn what_has_ended_stays_ended()
    ensures { (host : List ℕ) (later g : List Entry) (i : ℕ) (m : Share) → IsLegal host (later ++ g)
        → at_number (made host (kept host g)) i ≡ Some m → is_live host (kept host g) i ≡ false → is_live host (kept host (later ++ g)) i ≡ false }
{}

/// Whoever asks for a file with the secret of a share that is not live is told `unauthorized`, then and
/// for ever.
pub fn nothing_reads_after_revocation()
    ensures { (host : List ℕ) (later g : List Entry) (i : ℕ) (m : Share) (method : Method) (path : Segments) (body : List ℕ) → IsLegal host (later ++ g)
        → at_number (made host (kept host g)) i ≡ Some m → is_live host (kept host g) i ≡ false
        → answer host (later ++ g) (asks.Dav m.secret method path body) ≡ refused Unauthorized }
{}

/// The same of a copy or a move.
pub fn nothing_is_carried_after_revocation()
    ensures { (host : List ℕ) (later g : List Entry) (i : ℕ) (m : Share) (from to : Segments) (moving overwrite : Bool) → IsLegal host (later ++ g)
        → at_number (made host (kept host g)) i ≡ Some m → is_live host (kept host g) i ≡ false
        → answer host (later ++ g) (asks.Carry m.secret from to moving overwrite) ≡ refused Unauthorized }
{}

/// After its owner has ended a share, it and all below it are not live.
pub fn unsharing_ends_a_share()
    ensures { (host : List ℕ) (before : List Entry) (key : List ℕ) (id i : ℕ)
        → let g : List Entry = record { ask = asks.Local key (commands.Unshare id); reply = replies.Done } ∷ before in
        IsTrue (is_at_or_below host (kept host g) id i) → is_live host (kept host g) i ≡ false }
{}

/// After its guest has declined a share, it and all below it are not live.
pub fn declining_ends_a_share()
    ensures { (host : List ℕ) (before : List Entry) (id secret fresh : List ℕ) (number i : ℕ)
        → let g : List Entry = record { ask = asks.Notice (notices.Declined id secret) fresh; reply = replies.Noticed } ∷ before in
        named id ≡ Some number → IsTrue (is_at_or_below host (kept host g) number i) → is_live host (kept host g) i ≡ false }
{}

/// After the guest who asked for it has taken a share back, it and all below it are not live.
pub fn undoing_ends_a_share()
    ensures { (host : List ℕ) (before : List Entry) (id secret fresh : List ℕ) (number i : ℕ)
        → let g : List Entry = record { ask = asks.Notice (notices.ReshareUndo id secret) fresh; reply = replies.Noticed } ∷ before in
        named id ≡ Some number → IsTrue (is_at_or_below host (kept host g) number i) → is_live host (kept host g) i ≡ false }
{}

/// After its owner has given a share an end that is not ahead, it and all below it are not live.
pub fn an_end_that_is_not_ahead_ends_a_share()
    ensures { (host : List ℕ) (before : List Entry) (key : List ℕ) (id end i : ℕ)
        → let g : List Entry = record { ask = asks.Local key (commands.Expire id end); reply = replies.Done } ∷ before in
        end ≤ moment (kept host before) → IsTrue (is_at_or_below host (kept host g) id i) → is_live host (kept host g) i ≡ false }
{}

/// After a tick, a share whose end is not ahead of the tick, and all below it, are not live.
pub fn a_tick_ends_the_shares_whose_end_has_come()
    ensures { (host : List ℕ) (before : List Entry) (clock id end i : ℕ)
        → let g : List Entry = record { ask = asks.Tick clock; reply = replies.Done } ∷ before in
        until (kept host before) id ≡ Some end → end ≤ clock → IsTrue (is_at_or_below host (kept host g) id i) → is_live host (kept host g) i ≡ false }
{}
