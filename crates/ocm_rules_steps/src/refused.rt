//! What is refused changes nothing.
ghost use Rattle.std.specs.Prelude.{◌≡◌, false};
ghost use Rattle.ocm_entry.specs.declared.asks.Ask.{Ask};
ghost use Rattle.ocm_entry.specs.declared.refusals.Why.{Why};
ghost use Rattle.ocm_entry.specs.declared.replies.Reply.TheVariants.{Refused};
ghost use Rattle.ocm_rules.specs.Views.{View};
ghost use Rattle.ocm_rules.specs.History.{changes_in};
ghost use Rattle.ocm_rules.specs.State.{State, after};

/// An ask that is refused changes nothing, whatever was read of the history before.
pub fn refusals_change_nothing()
    ensures entry { (v : View) (ask : Ask) (why : Why) → changes_in v ask (Refused why) ≡ false }
    ensures lists { (st : State) (ask : Ask) (why : Why) → after st ask (Refused why) ≡ st }
{}
