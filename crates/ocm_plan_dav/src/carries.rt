//! COPY and MOVE (RFC 4918 sections 9.8 and 9.9).
ghost use Rattle.std.specs.Prelude.{◌≡◌, Bool, true, false, not, ◌&&◌, None, length, is_some, IfOk, IsTrue};
ghost use Rattle.std.specs.Option.{IsSomeAnd};
ghost use Rattle.ocm_path.specs.Paths.{is_root};
ghost use Rattle.ocm_entry.specs.declared.asks.Ask.TheVariants as asks;
ghost use Rattle.ocm_entry.specs.Proper.{is_proper};
ghost use Rattle.ocm_rules.specs.Answers.{carries_root, is_collection};
ghost use Rattle.ocm_rules.specs.Files.{limit_of_carry, overlap, parent_of};
ghost use Rattle.ocm_rules.specs.State.{node_at, view_in};
ghost use Rattle.ocm_tables.specs.Tables.{GrantCost};
ghost use Rattle.ocm_plan.specs.Plans.{Plans};
ghost use Rattle.ocm_plan_dav.specs.Requests.{PlansCarry};

use crate::access::{overlap, parent_of, permits_carry, place_below, stands};
use crate::files::put_done;
use ocm_base::NoMemory;
use ocm_entry::{Place, Why};
use ocm_path::Path;
use ocm_plan::Planned;
use ocm_tables::{Probes, TableChange, Tables};
use ocm_types::Secret;
use std::sync::ledger::Ledger;

/// Plans a copy, or a move where it is moving, by the holder of the secret. What it costs to look at
/// shares is counted.
pub fn plan_carry<I: Ledger, R: Ledger>(
    tables: &Tables,
    secret: &Secret,
    from: &Path,
    to: &Path,
    moving: bool,
    overwrite: bool,
    probes: &mut Probes<I, R>,
) -> Result<Planned, NoMemory>
    requires { IsTrue (is_proper (asks.Carry secret.now from.now to.now moving overwrite)) }
    ensures plans { IfOk result (λ plan. Plans tables.now.state (asks.Carry secret.now from.now to.now moving overwrite) plan) }
    ensures cost { GrantCost (length tables.now.state.shares) probes.old probes.new }
{
    let Some(grant) = tables.grant(secret, probes)? else {
        return Ok(Planned::refused(tables, Why::Unauthorized));
    };
    if !permits_carry(grant.rights, moving) {
        return Ok(Planned::refused(tables, Why::NotPermitted));
    }
    if carries_root(from, to, moving) {
        return Ok(Planned::refused(tables, Why::RootStays));
    }
    let source = place_below(&grant.root, from)?;
    let target = place_below(&grant.root, to)?;
    plan_carried(tables, &source, &target, moving, overwrite)
}

/// Whether a copy or move would end at a holder's `/`, or take it away.
fn carries_root(from: &Path, to: &Path, moving: bool) -> bool
    ensures { result ≡ carries_root from.now to.now moving }
{
    to.is_root() || (moving && from.is_root())
}

/// Plans a copy or move of what stands at the first place to the second, both of one user, for one who
/// may do it there.
fn plan_carried(
    tables: &Tables,
    from: &Place,
    to: &Place,
    moving: bool,
    overwrite: bool,
) -> Result<Planned, NoMemory>
    requires { from.now.user ≡ to.now.user }
    ensures { IfOk result (λ plan. PlansCarry tables.now.state from.now to.now moving overwrite plan) }
{
    if !stands(tables, from) {
        return Ok(Planned::refused(tables, Why::NotFound));
    }
    if overlap(from, to) {
        return Ok(Planned::refused(tables, Why::SamePlace));
    }
    let parent = parent_of(to)?;
    if !tables.is_collection(&parent) {
        return Ok(Planned::refused(tables, Why::ParentMissing));
    }
    if is_occupied(tables, to, overwrite) {
        return Ok(Planned::refused(tables, Why::Occupied));
    }
    if let Some(which) = tables.files().limit_of_carry(from, to, &parent, moving) {
        return Ok(Planned::refused(tables, Why::Limit { which }));
    }
    carry(tables, from, to, moving)
}

/// Whether something stands at a place that is not to be overwritten.
fn is_occupied(tables: &Tables, to: &Place, overwrite: bool) -> bool
    ensures { result ≡ (is_some ((view_in tables.now.state).stands to.now) && not overwrite) }
{
    stands(tables, to) && !overwrite
}

/// Plans that all at and below the first place stands at the second, for one who may do it there.
fn carry(tables: &Tables, from: &Place, to: &Place, moving: bool) -> Result<Planned, NoMemory>
    requires below { is_root from.now.path ≡ false }
    requires apart { overlap from.now to.now ≡ false }
    requires inside { is_collection ((view_in tables.now.state).stands (parent_of to.now)) ≡ true }
    requires within { IsSomeAnd (node_at tables.now.state.nodes from.now) (λ standing. limit_of_carry tables.now.state.nodes from.now to.now moving standing ≡ None) }
    ensures { IfOk result (λ plan. (overwrite : Bool) → (is_some ((view_in tables.now.state).stands to.now) && not overwrite) ≡ false → PlansCarry tables.now.state from.now to.now moving overwrite plan) }
{
    let planned = tables.files().plan_carry(from, to, moving)?;
    let standing = tables.standing_at(to);
    Ok(Planned::silent(tables, put_done(standing), TableChange::Carry(planned)))
}
