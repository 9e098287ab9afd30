//! Requests of guests that a share be shared further (OCM API 1.1, `REQUEST_RESHARE`).
ghost use Rattle.std.specs.Prelude.{◌≡◌, ◌<◌, ◌+◌, ◌&&◌, ℕ, IfErr, IfOk, IsSome, List, OnOk, false, if◌then◌else◌, length, option_copied, unwrap_or};
ghost use Rattle.std.specs.Option.{option_map_or};
ghost use Rattle.ocm_texts.specs.Hex.{hex};
ghost use Rattle.ocm_limits.specs.Limits.{most_shares};
ghost use Rattle.ocm_entry.specs.declared.asks.Ask.{Ask};
ghost use Rattle.ocm_entry.specs.declared.asks.Ask.TheVariants as asks;
ghost use Rattle.ocm_entry.specs.declared.refusals.Why.TheVariants.{Collision};
ghost use Rattle.ocm_entry.specs.declared.rows.Share.{Share};
ghost use Rattle.ocm_types.specs.declared.letters.Notice.TheVariants as notices;
ghost use Rattle.ocm_rules.specs.Answers.{first_reply, may_share, refused, repeated_reply, reply_in};
ghost use Rattle.ocm_rules.specs.Equal.{same_address, same_asked};
ghost use Rattle.ocm_rules.specs.History.{changes_in};
ghost use Rattle.ocm_rules.specs.Numbers.{at_number};
ghost use Rattle.ocm_rules.specs.Shares.{is_used, named};
ghost use Rattle.ocm_rules.specs.State.{view_in};
ghost use Rattle.ocm_rules.specs.Views.{effective_in};
ghost use Rattle.ocm_plan.specs.Plans.{Plans};

use crate::reads::owner_of;
use ocm_base::NoMemory;
use ocm_entry::{AddressField, Reply, Share, Why};
use ocm_letters::child_share;
use ocm_limits::MOST_SHARES;
use ocm_plan::{Planned, is_full, offered_share};
use ocm_tables::{Steps, TableChange, Tables};
use ocm_types::{Address, Fresh, Perms, ProviderId, Rights, Secret, SenderId, Which};
use std::sync::ledger::Ledger;

/// A guest asks that a share be shared further.
pub fn plan_request<L: Ledger>(
    tables: &Tables,
    id: &ProviderId,
    secret: &Secret,
    with: &Address,
    sender_id: &SenderId,
    asked: &Option<Perms>,
    fresh: &Fresh,
    steps: &mut Steps<L>,
) -> Result<Planned, NoMemory>
    ensures { IfOk result (λ plan. Plans tables.now.state (asks.Notice (notices.ReshareRequest id.now secret.now with.now sender_id.now asked.now) fresh.now) plan) }
{
    let Some(parent) = tables.share_with(id, secret, steps) else {
        return Ok(Planned::refused(tables, Why::UnknownShare));
    };
    match tables.child_for(parent, sender_id, steps) {
        Some(child) => Ok(plan_repeated(tables, child, with, *asked, steps)),
        None => plan_first(tables, parent, with, sender_id, asked, fresh, steps),
    }
}

/// A request that was made before, where this child was made for it.
fn plan_repeated<L: Ledger>(
    tables: &Tables,
    child: u32,
    with: &Address,
    asked: Option<Perms>,
    steps: &mut Steps<L>,
) -> Planned
    ensures { (ask : Ask) → reply_in (view_in tables.now.state) ask ≡ repeated_reply child (at_number (view_in tables.now.state).shares child) with.now asked
        → changes_in (view_in tables.now.state) ask (Reply.Child child) ≡ false → Plans tables.now.state ask result }
{
    if is_same_request(tables.share(child, steps), with, asked) {
        Planned::only(tables, Reply::Child { id: child })
    } else {
        Planned::refused(tables, Why::SenderIdReused)
    }
}

/// Whether this child was made for a request for the same guest and the same permissions.
fn is_same_request(child: Option<&Share>, with: &Address, asked: Option<Perms>) -> bool
    ensures { result ≡ option_map_or (λ (share : Share). same_address share.with with.now && same_asked share.asked asked) (option_copied child.entry) false }
{
    child.is_some_and(|share| share.with == *with && is_same_asked(share.asked, asked))
}

/// Whether the same was asked: the same permissions, or none both times.
fn is_same_asked(before: Option<Perms>, now: Option<Perms>) -> bool
    ensures { result ≡ same_asked before now }
{
    match (before, now) {
        (Some(before), Some(now)) => before.within(now.rights()) && now.within(before.rights()),
        (None, None) => true,
        _ => false,
    }
}

/// What a child grants, where the parent's rights allow it: the permissions that were asked for, or
/// where none were the parent's rights.
fn granted_within(rights: Rights, asked: &Option<Perms>) -> Option<Perms>
    ensures { result ≡ (if may_share rights asked.now then Some (unwrap_or asked.now rights) else None) }
{
    if !rights.share {
        return None;
    }
    match asked {
        Some(perms) if perms.within(rights) => Some(*perms),
        Some(_) => None,
        None => Perms::of(rights),
    }
}

/// A request that is made for the first time, by the guest of the share of this number.
fn plan_first<L: Ledger>(
    tables: &Tables,
    parent: u32,
    with: &Address,
    sender_id: &SenderId,
    asked: &Option<Perms>,
    fresh: &Fresh,
    steps: &mut Steps<L>,
) -> Result<Planned, NoMemory>
    requires { IsSome (at_number (view_in tables.now.state).shares parent) }
    ensures { (id mark : List ℕ) → let ask : Ask = asks.Notice (notices.ReshareRequest id mark with.now sender_id.now asked.now) fresh.now in
        named id ≡ Some parent → reply_in (view_in tables.now.state) ask ≡ first_reply (view_in tables.now.state) parent with.now asked.now (hex fresh.now)
        → IfOk result (λ plan. Plans tables.now.state ask plan) }
{
    match granted_to(tables, parent, with, asked, steps) {
        Ok(granted) => {
            plan_granted(
                tables, parent, &granted, with, sender_id, asked, fresh, steps,
            )
        }
        Err(why) => Ok(Planned::refused(tables, why)),
    }
}

/// What a child of the share of this number grants to this guest, or what stands against the child,
/// whatever is drawn for it.
fn granted_to<L: Ledger>(
    tables: &Tables,
    parent: u32,
    with: &Address,
    asked: &Option<Perms>,
    steps: &mut Steps<L>,
) -> Result<Perms, Why>
    requires { IsSome (at_number (view_in tables.now.state).shares parent) }
    ensures refused { IfErr result (λ why. (secret : List ℕ) → refused why ≡ first_reply (view_in tables.now.state) parent with.now asked.now secret) }
    ensures granted { IfOk result (λ granted. granted ≡ unwrap_or asked.now (effective_in (view_in tables.now.state) parent)) }
    ensures few { OnOk result (length tables.now.state.shares < most_shares) }
    ensures free { OnOk result ((secret : List ℕ) → (if is_used tables.now.state.users (view_in tables.now.state).shares secret then refused Collision else Reply.Child (length tables.now.state.shares + 1))
        ≡ first_reply (view_in tables.now.state) parent with.now asked.now secret) }
{
    if !tables.is_live(parent, steps) {
        return Err(Why::ShareClosed);
    }
    let Some(granted) = granted_within(tables.effective(parent, steps), asked) else {
        return Err(Why::NotPermitted);
    };
    if with.host == *tables.host() {
        let field = AddressField::ShareWith;
        return Err(Why::OwnHost { field });
    }
    if is_full(tables.share_count(), MOST_SHARES) {
        let which = Which::Shares;
        return Err(Why::Limit { which });
    }
    Ok(granted)
}

/// A child of the share of this number that grants this, where the drawn bytes spell a new secret.
fn plan_granted<L: Ledger>(
    tables: &Tables,
    parent: u32,
    granted: &Perms,
    with: &Address,
    sender_id: &SenderId,
    asked: &Option<Perms>,
    fresh: &Fresh,
    steps: &mut Steps<L>,
) -> Result<Planned, NoMemory>
    requires parent { IsSome (at_number (view_in tables.now.state).shares parent) }
    requires few { length tables.now.state.shares < most_shares }
    ensures { (id mark : List ℕ) → let ask : Ask = asks.Notice (notices.ReshareRequest id mark with.now sender_id.now asked.now) fresh.now in
        named id ≡ Some parent → granted.now ≡ unwrap_or asked.now (effective_in (view_in tables.now.state) parent)
        → reply_in (view_in tables.now.state) ask ≡ (if is_used tables.now.state.users (view_in tables.now.state).shares (hex fresh.now) then refused Collision else Reply.Child (length tables.now.state.shares + 1))
        → IfOk result (λ plan. Plans tables.now.state ask plan) }
{
    let secret = fresh.secret(tables.allocator())?;
    if tables.is_used(&secret, steps) {
        return Ok(Planned::refused(tables, Why::Collision));
    }
    plan_child(
        tables, parent, granted, with, sender_id, *asked, secret, steps,
    )
}

/// A child of the share of this number, which nothing stands against.
fn plan_child<L: Ledger>(
    tables: &Tables,
    parent: u32,
    granted: &Perms,
    with: &Address,
    sender_id: &SenderId,
    asked: Option<Perms>,
    secret: Secret,
    steps: &mut Steps<L>,
) -> Result<Planned, NoMemory>
    requires parent { IsSome (at_number (view_in tables.now.state).shares parent) }
    requires few { length tables.now.state.shares < most_shares }
    requires secret { is_used tables.now.state.users (view_in tables.now.state).shares secret ≡ false }
    ensures { (id mark fresh : List ℕ) → let ask : Ask = asks.Notice (notices.ReshareRequest id mark with.now sender_id.now asked) fresh in
        named id ≡ Some parent → secret ≡ hex fresh → granted.now ≡ unwrap_or asked (effective_in (view_in tables.now.state) parent)
        → reply_in (view_in tables.now.state) ask ≡ Reply.Child (length tables.now.state.shares + 1) → IfOk result (λ plan. Plans tables.now.state ask plan) }
{
    let above = tables.share(parent, steps).unwrap();
    let owner = owner_of(tables, above);
    let share = child_share(parent, above, *granted, with, sender_id, asked, secret)?;
    let (share, sent) = offered_share(tables, &owner.name, share)?;
    let id = tables.share_count() + 1;
    Ok(Planned::new(
        tables,
        Reply::Child { id },
        TableChange::AddShare(share),
        sent,
    ))
}
