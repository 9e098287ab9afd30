//! How the lists of a server go on, and what they answer to a read.
ghost use Rattle.std.specs.Prelude.{◌≡◌, ◌≤◌, ◌∷◌, ◌&&◌, ℕ, List, nat_le, IfOk, OnOk, IsTrue, Ok, true};
ghost use Rattle.ocm_entry.specs.declared.asks.Ask.{Ask};
ghost use Rattle.ocm_entry.specs.declared.entries.Entry.{Entry};
ghost use Rattle.ocm_rules.specs.History.{answer};
ghost use Rattle.ocm_rules.specs.Shares.{clock_of, moment};
ghost use Rattle.ocm_core.specs.Standing.{IsAfter};
ghost use Rattle.ocm_law_sessions.specs.Sessions.{heard, would_change};
ghost use Rattle.ocm_access_log.specs.Reads.{is_read};
ghost use Rattle.ocm_access_log.specs.Truth.{has_status};
ghost use Rattle.ocm_logcheck.specs.Steps.{IsBehind, is_true_until, up_to_ask};

use ocm_access_log::{LogLine, status_of};
use ocm_base::NoMemory;
use ocm_core::Core;
use ocm_entry::{Ask, Reply};

/// The clock of a tick.
pub fn clock_of(ask: &Ask) -> Option<u64>
    ensures { result ≡ clock_of ask.now }
{
    match ask {
        Ask::Tick { clock } => Some(*clock),
        Ask::AddUser { .. }
        | Ask::Local { .. }
        | Ask::Offer { .. }
        | Ask::Notice { .. }
        | Ask::Dav { .. }
        | Ask::Due
        | Ask::Settle { .. }
        | Ask::Carry { .. } => None,
    }
}

/// Goes on by a tick, whose clock is above the moment so far or else changes nothing.
fn take_tick(core: &mut Core, clock: u64) -> Result<bool, NoMemory>
    ensures taken { IfOk result (λ taken. (g : List Entry) → IsAfter core.old.state g → taken ≡ would_change core.old.state.host g (Ask.Tick clock)) }
    ensures goes_on { (g : List Entry) → IsAfter core.old.state g → result ≡ Ok true → IsAfter core.new.state (heard core.old.state.host g (Ask.Tick clock) ∷ g) }
    ensures home { core.new.state.host ≡ core.old.state.host }
{
    let tick = Ask::Tick { clock };
    let taken = core.take(&tick);
    drop(tick);
    taken
}

/// Goes on to a moment that is not below that so far, nor above that of the list.
pub fn take_moment(core: &mut Core, clock: u64) -> Result<(), NoMemory>
    ensures lists { OnOk result ((host : List ℕ) (k : List Entry) → IsBehind host core.old.state k → core.old.state.moment ≤ clock → clock ≤ moment k → IsBehind host core.new.state k) }
    ensures moment { OnOk result ((host : List ℕ) (k : List Entry) → IsBehind host core.old.state k → core.old.state.moment ≤ clock → core.new.state.moment ≡ clock) }
{
    if clock <= core.moment() {
        return Ok(());
    }
    take_tick(core, clock)?;
    Ok(())
}

/// Whether a read is answered with this status.
fn has_status(status: u16, reply: &Reply) -> bool
    ensures { result ≡ has_status status reply.now }
{
    match status_of(reply) {
        Some(told) => status == told,
        None => false,
    }
}

/// Whether these lists answer a read with this status.
fn is_answered(core: &Core, ask: &Ask, status: u16) -> Result<bool, NoMemory>
    requires { IsTrue (is_read ask.now) }
    ensures { IfOk result (λ same. (g : List Entry) → IsAfter core.now.state g → same ≡ has_status status (answer core.now.state.host g ask.now)) }
{
    let planned = core.answer(ask)?;
    let same = has_status(status, planned.reply());
    drop(planned.into_reply());
    Ok(same)
}

/// Whether a moment lies between two.
fn lies_within(from: u64, moment: u64, end: u64) -> bool
    ensures { result ≡ (nat_le from moment && nat_le moment end) }
{
    from <= moment && moment <= end
}

/// Whether a line is true whose place it is, where that place is over at the moment `end`. Where it is, the lists go on to
/// its moment.
pub fn look_up(core: &mut Core, end: u64, line: &LogLine) -> Result<bool, NoMemory>
    requires { IsTrue (is_read line.now.ask) }
    ensures found { IfOk result (λ found. (host : List ℕ) (k : List Entry) → IsBehind host core.old.state k → end ≡ moment k
        → (moment (up_to_ask k) ≤ line.now.moment → core.old.state.moment ≤ line.now.moment) → found ≡ is_true_until host (up_to_ask k) end line.now) }
    ensures lists { OnOk result ((host : List ℕ) (k : List Entry) → IsBehind host core.old.state k → end ≡ moment k → IsBehind host core.new.state k) }
    ensures moment { (host : List ℕ) (k : List Entry) → IsBehind host core.old.state k → result ≡ Ok true → core.new.state.moment ≡ line.now.moment }
{
    if !lies_within(core.moment(), line.moment, end) {
        return Ok(false);
    }
    take_moment(core, line.moment)?;
    is_answered(core, &line.ask, line.status)
}
