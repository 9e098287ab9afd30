//! Notices about shares that were received: that one is shared no more, or that its guest may do
//! something else from now on.
ghost use Rattle.std.specs.Prelude.{ℕ, IfOk, List};
ghost use Rattle.ocm_entry.specs.declared.asks.Ask.TheVariants as asks;
ghost use Rattle.ocm_types.specs.declared.letters.Notice.TheVariants as notices;
ghost use Rattle.ocm_plan.specs.Plans.{Plans};

use crate::reads::received_behind;
use ocm_base::NoMemory;
use ocm_entry::{Reply, Why};
use ocm_incoming::Mark;
use ocm_plan::Planned;
use ocm_tables::{TableChange, Tables};
use ocm_types::{Perms, ProviderId, Secret};

/// A share that was received is shared no more.
pub fn plan_unshared(tables: &Tables, id: &ProviderId, secret: &Secret) -> Result<Planned, NoMemory>
    ensures { (fresh : List ℕ) → IfOk result (λ plan. Plans tables.now.state (asks.Notice (notices.Unshared id.now secret.now) fresh) plan) }
{
    let mark = Mark::of(id, secret)?;
    if !tables.is_received(&mark) {
        return Ok(Planned::refused(tables, Why::UnknownShare));
    }
    if !tables.is_held(&mark) {
        return Ok(Planned::only(tables, Reply::Noticed));
    }
    Ok(Planned::silent(tables, Reply::Noticed, TableChange::GiveUp(mark)))
}

/// What a guest may do has changed: the records that were told of an earlier change are told of it.
pub fn plan_changed(
    tables: &Tables,
    id: &ProviderId,
    secret: &Secret,
    serial: u32,
    perms: Perms,
) -> Result<Planned, NoMemory>
    ensures { (fresh : List ℕ) → IfOk result (λ plan. Plans tables.now.state (asks.Notice (notices.Changed id.now secret.now serial perms) fresh) plan) }
{
    let mark = Mark::of(id, secret)?;
    if !tables.is_received(&mark) {
        return Ok(Planned::refused(tables, Why::UnknownShare));
    }
    let numbers = received_behind(tables, &mark, serial)?;
    if numbers.is_empty() {
        return Ok(Planned::only(tables, Reply::Noticed));
    }
    Ok(Planned::silent(
        tables,
        Reply::Noticed,
        TableChange::Tell {
            numbers,
            serial,
            perms,
        },
    ))
}
