//! Notices of other servers (OCM API 1.1, `/notifications`), and those about shares that were made here.
ghost use Rattle.std.specs.Prelude.{◌≡◌, ◌||◌, ℕ, IfOk, List, not, option_copied};
ghost use Rattle.ocm_entry.specs.declared.asks.Ask.TheVariants as asks;
ghost use Rattle.ocm_types.specs.declared.letters.Notice.TheVariants as notices;
ghost use Rattle.ocm_types.specs.Rights.{is_within};
ghost use Rattle.ocm_rules.specs.Answers.{fails};
ghost use Rattle.ocm_rules.specs.Equal.{same_address};
ghost use Rattle.ocm_plan.specs.Plans.{Plans};

use crate::news::{plan_changed, plan_unshared};
use crate::reads::{is_child_of, owner_of, without};
use crate::requests::plan_request;
use ocm_base::NoMemory;
use ocm_entry::{Reply, Share, Why};
use ocm_plan::{Planned, told_of_ends};
use ocm_tables::{Steps, TableChange, Tables};
use ocm_types::{Address, Fresh, Host, Name, Notice, Perms, ProviderId, Secret};
use std::sync::ledger::Ledger;

/// A notice about a share that was made here, or about one that was received. A share that it makes has
/// the drawn bytes as its secret. Its looks at shares are counted, and no clause bounds them: the end of a
/// share may go over all shares.
pub fn plan_notice<L: Ledger>(
    tables: &Tables,
    notice: &Notice,
    fresh: &Fresh,
    steps: &mut Steps<L>,
) -> Result<Planned, NoMemory>
    ensures { IfOk result (λ plan. Plans tables.now.state (asks.Notice notice.now fresh.now) plan) }
{
    match notice {
        Notice::Accepted {
            id,
            secret,
            owner,
            with,
            perms,
        } => Ok(plan_accepted(
            tables,
            id,
            secret,
            owner.as_ref(),
            with.as_ref(),
            *perms,
            steps,
        )),
        Notice::Declined { id, secret } => plan_declined(tables, id, secret, steps),
        Notice::ReshareRequest {
            id,
            secret,
            with,
            sender_id,
            perms,
        } => plan_request(tables, id, secret, with, sender_id, perms, fresh, steps),
        Notice::ReshareUndo { id, secret } => plan_undone(tables, id, secret, steps),
        Notice::Unshared { id, secret } => plan_unshared(tables, id, secret),
        Notice::Changed {
            id,
            secret,
            serial,
            perms,
        } => plan_changed(tables, id, secret, *serial, *perms),
    }
}

/// A guest took a share: how it understood the offer must be within what was offered. Nothing changes.
fn plan_accepted<L: Ledger>(
    tables: &Tables,
    id: &ProviderId,
    secret: &Secret,
    owner: Option<&Address>,
    with: Option<&Address>,
    perms: Option<Perms>,
    steps: &mut Steps<L>,
) -> Planned
    ensures { (fresh : List ℕ) → Plans tables.now.state (asks.Notice (notices.Accepted id.now secret.now (option_copied owner.entry) (option_copied with.entry) perms) fresh) result }
{
    let Some(number) = tables.share_with(id, secret, steps) else {
        return Planned::refused(tables, Why::UnknownShare);
    };
    if !tables.is_live(number, steps) {
        return Planned::refused(tables, Why::ShareClosed);
    }
    let share = tables.share(number, steps).unwrap();
    let user = owner_of(tables, share);
    if !is_as_offered(tables.host(), &user.name, share, owner, with, perms) {
        return Planned::refused(tables, Why::NotPermitted);
    }
    Planned::only(tables, Reply::Noticed)
}

/// Whether what a guest tells of a share of this host, whose owner has this name, is what was offered,
/// as far as it tells.
fn is_as_offered(
    host: &Host,
    name: &Name,
    share: &Share,
    owner: Option<&Address>,
    with: Option<&Address>,
    perms: Option<Perms>,
) -> bool
    ensures { result ≡ not (fails (same_address (record { user = name.now; host = host.now })) (option_copied owner.entry) || fails (same_address share.now.with) (option_copied with.entry) || fails (λ p. is_within p share.now.granted) perms) }
{
    owner.is_none_or(|address| *name == address.user && *host == address.host)
        && with.is_none_or(|address| share.with == *address)
        && perms.is_none_or(|perms| perms.within(share.granted.rights()))
}

/// A guest declined a share: it ends, and the guests of all others that end by it are told.
fn plan_declined<L: Ledger>(
    tables: &Tables,
    id: &ProviderId,
    secret: &Secret,
    steps: &mut Steps<L>,
) -> Result<Planned, NoMemory>
    ensures { (fresh : List ℕ) → IfOk result (λ plan. Plans tables.now.state (asks.Notice (notices.Declined id.now secret.now) fresh) plan) }
{
    let Some(number) = tables.share_with(id, secret, steps) else {
        return Ok(Planned::refused(tables, Why::UnknownShare));
    };
    if !tables.is_live(number, steps) {
        return Ok(Planned::only(tables, Reply::Noticed));
    }
    let cut = tables.cut_by(number, steps)?;
    let others = without(number, &cut)?;
    let sent = told_of_ends(tables, &others, steps)?;
    Ok(Planned::new(
        tables,
        Reply::Noticed,
        TableChange::Close { id: number },
        sent,
    ))
}

/// A request was taken back: the share that was made for it ends, and the guests of all that end by it
/// are told.
fn plan_undone<L: Ledger>(
    tables: &Tables,
    id: &ProviderId,
    secret: &Secret,
    steps: &mut Steps<L>,
) -> Result<Planned, NoMemory>
    ensures { (fresh : List ℕ) → IfOk result (λ plan. Plans tables.now.state (asks.Notice (notices.ReshareUndo id.now secret.now) fresh) plan) }
{
    if !is_child_of(tables, id, secret, steps) {
        return Ok(Planned::refused(tables, Why::UnknownShare));
    }
    let number = tables.named_share(id).unwrap();
    if !tables.is_live(number, steps) {
        return Ok(Planned::only(tables, Reply::Noticed));
    }
    let cut = tables.cut_by(number, steps)?;
    let sent = told_of_ends(tables, &cut, steps)?;
    Ok(Planned::new(
        tables,
        Reply::Noticed,
        TableChange::Close { id: number },
        sent,
    ))
}
