//! Commands of users about their own shares.
ghost use Rattle.std.specs.Prelude.{◌≡◌, ◌+◌, ◌<◌, ◌||◌, IfOk, IsTrue, Some, map, nat_lt};
ghost use Rattle.ocm_limits.specs.Limits.{most_changes, most_restrictions};
ghost use Rattle.ocm_entry.specs.declared.asks.Ask.TheVariants as asks;
ghost use Rattle.ocm_entry.specs.declared.asks.Cmd.TheVariants as commands;
ghost use Rattle.ocm_entry.specs.Proper.{is_short};
ghost use Rattle.ocm_letters.specs.Mailings.{changed_to_guests};
ghost use Rattle.ocm_rules.specs.Answers.{is_full_of_changes};
ghost use Rattle.ocm_rules.specs.Numbers.{same_text};
ghost use Rattle.ocm_rules.specs.State.{view_in};
ghost use Rattle.ocm_rules.specs.Users.{user_of_key};
ghost use Rattle.ocm_plan.specs.Plans.{Plans};
ghost use Rattle.ocm_plan_local.specs.OwnRows.{IsLiveShare};
ghost use Rattle.ocm_plan_local.specs.Told.{new_perms};

use crate::reads::{live_share, stands, user_name};
use ocm_base::{List, NoMemory};
use ocm_chain::Change;
use ocm_entry::{AddressField, Reply, Share, Why};
use ocm_letters::{NewPerms, own_share};
use ocm_limits::{MOST_CHANGES, MOST_RESTRICTIONS, MOST_SHARES};
use ocm_path::Path;
use ocm_plan::{Planned, is_full, offered_share, told_of_ends, told_of_perms};
use ocm_rules::Message;
use ocm_tables::{Steps, TableChange, Tables};
use ocm_types::{Address, Fresh, Perms, Secret, Which};
use std::alloc::Global;
use std::sync::ledger::Ledger;

/// The end of a share, by the user of this number, who has this key.
pub fn plan_unshare<L: Ledger>(
    tables: &Tables,
    key: &Secret,
    user: u32,
    id: u32,
    steps: &mut Steps<L>,
) -> Result<Planned, NoMemory>
    requires { user_of_key tables.now.state.users key.now ≡ Some user }
    ensures { IfOk result (λ plan. Plans tables.now.state (asks.Local key.now (commands.Unshare id)) plan) }
{
    match live_share(tables, user, id, steps) {
        Ok(_share) => {
            let ids = tables.cut_by(id, steps)?;
            let sent = told_of_ends(tables, &ids, steps)?;
            let change = TableChange::Close { id };
            Ok(Planned::new(tables, Reply::Done, change, sent))
        }
        Err(why) => Ok(Planned::refused(tables, why)),
    }
}

/// The end of a share at a moment, by the user of this number, who has this key.
pub fn plan_expire<L: Ledger>(
    tables: &Tables,
    key: &Secret,
    user: u32,
    id: u32,
    until: u64,
    steps: &mut Steps<L>,
) -> Planned
    requires { user_of_key tables.now.state.users key.now ≡ Some user }
    ensures { Plans tables.now.state (asks.Local key.now (commands.Expire id until)) result }
{
    match live_share(tables, user, id, steps) {
        Ok(_share) => Planned::silent(tables, Reply::Done, TableChange::Expire { id, until }),
        Err(why) => Planned::refused(tables, why),
    }
}

/// Other permissions for a share, by the user of this number, who has this key.
pub fn plan_limit<L: Ledger>(
    tables: &Tables,
    key: &Secret,
    user: u32,
    id: u32,
    perms: Perms,
    steps: &mut Steps<L>,
) -> Result<Planned, NoMemory>
    requires { user_of_key tables.now.state.users key.now ≡ Some user }
    ensures { IfOk result (λ plan. Plans tables.now.state (asks.Local key.now (commands.Limit id perms)) plan) }
{
    match live_share(tables, user, id, steps) {
        Ok(share) => plan_new_perms(tables, key, user, id, share, perms, steps),
        Err(why) => Ok(Planned::refused(tables, why)),
    }
}

/// Other permissions for a live share of the user of this number, who has this key.
fn plan_new_perms<L: Ledger>(
    tables: &Tables,
    key: &Secret,
    user: u32,
    id: u32,
    share: &Share,
    perms: Perms,
    steps: &mut Steps<L>,
) -> Result<Planned, NoMemory>
    requires user { user_of_key tables.now.state.users key.now ≡ Some user }
    requires live { IsLiveShare tables.now.state user id share.now }
    ensures { IfOk result (λ plan. Plans tables.now.state (asks.Local key.now (commands.Limit id perms)) plan) }
{
    if !perms.within(share.granted.rights()) {
        return Ok(Planned::refused(tables, Why::NotPermitted));
    }
    let told = tables.told_by_limit(id, perms, steps)?;
    if is_full_of_changes(tables, told.len()) {
        let which = Which::Changes;
        return Ok(Planned::refused(tables, Why::Limit { which }));
    }
    let sent = told_of_changes(tables, &told, steps)?;
    let change = TableChange::Limit { id, perms };
    Ok(Planned::new(tables, Reply::Done, change, sent))
}

/// Whether so many more messages that tell changed permissions, or one more limit, would pass a limit.
fn is_full_of_changes(tables: &Tables, more: usize) -> bool
    ensures { result ≡ is_full_of_changes (view_in tables.now.state) more }
{
    are_too_many(tables.change_count(), more) || is_full(tables.limits(), MOST_RESTRICTIONS)
}

/// Whether so many more messages that tell changed permissions would be too many.
fn are_too_many(count: u32, more: usize) -> bool
    ensures { result ≡ nat_lt most_changes (count + more) }
{
    more.saturating_add(count as usize) > MOST_CHANGES
}

/// The messages that tell the guests of shares what they may do from now on, by one limit more.
fn told_of_changes<L: Ledger>(
    tables: &Tables,
    told: &List<Change>,
    steps: &mut Steps<L>,
) -> Result<List<Message>, NoMemory>
    requires { tables.now.state.limits < most_restrictions }
    ensures { IfOk result (λ sent. sent ≡ changed_to_guests (view_in tables.now.state).shares (tables.now.state.limits + 1) (map new_perms told.now)) }
{
    let told = all_new_perms(tables.allocator(), told.as_slice())?;
    let serial = tables.limits() + 1;
    told_of_perms(tables, serial, &told, steps)
}

/// What the guest of a share may do from now on.
fn new_perms(changed: &Change) -> NewPerms
    ensures { result ≡ new_perms changed.now }
{
    NewPerms {
        id: changed.id,
        perms: changed.perms,
    }
}

/// What the guests of these shares may do from now on, in the same order.
fn all_new_perms(alloc: Global, changed: &[Change]) -> Result<Vec<NewPerms>, NoMemory>
    ensures { IfOk result (λ all. all.items ≡ map new_perms changed.now) }
{
    let mut all = Vec::new(alloc);
    for one in changed {
        all.push(new_perms(one))?;
    }
    Ok(all)
}

/// Whether an address is of this very host.
fn is_own_host(tables: &Tables, with: &Address) -> bool
    ensures { result ≡ same_text with.now.host tables.now.state.host }
{
    with.host == *tables.host()
}

/// A new share, by the user of this number, who has this key.
pub fn plan_new_share<L: Ledger>(
    tables: &Tables,
    key: &Secret,
    user: u32,
    path: &Path,
    with: &Address,
    perms: Perms,
    fresh: &Fresh,
    steps: &mut Steps<L>,
) -> Result<Planned, NoMemory>
    requires short { IsTrue (is_short path.now) }
    requires user { user_of_key tables.now.state.users key.now ≡ Some user }
    ensures { IfOk result (λ plan. Plans tables.now.state (asks.Local key.now (commands.Share path.now with.now perms fresh.now)) plan) }
{
    if is_own_host(tables, with) {
        let field = AddressField::ShareWith;
        return Ok(Planned::refused(tables, Why::OwnHost { field }));
    }
    if !stands(tables, user, path)? {
        return Ok(Planned::refused(tables, Why::NotFound));
    }
    if is_full(tables.share_count(), MOST_SHARES) {
        let which = Which::Shares;
        return Ok(Planned::refused(tables, Why::Limit { which }));
    }
    let secret = fresh.secret(tables.allocator())?;
    if tables.is_used(&secret, steps) {
        return Ok(Planned::refused(tables, Why::Collision));
    }
    let owner = user_name(tables, key, user);
    let share = own_share(tables.host(), user, owner, path, with, perms, secret)?;
    let (share, sent) = offered_share(tables, owner, share)?;
    let number = tables.share_count() + 1;
    let change = TableChange::AddShare(share);
    Ok(Planned::new(tables, Reply::Number { number }, change, sent))
}
