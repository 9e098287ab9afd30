//! What plans read of the tables, beyond what these offer.
ghost use Rattle.std.specs.Prelude.{◌≡◌, IfOk, IsSome, Some, false, filter, nat_lt, option_and_then, option_copied};
ghost use Rattle.std.specs.Option.{option_map_or};
ghost use Rattle.ocm_rules.specs.Numbers.{at_number, numbers};
ghost use Rattle.ocm_rules.specs.Offers.{is_of};
ghost use Rattle.ocm_rules.specs.Shares.{named};
ghost use Rattle.ocm_rules.specs.Answers.{is_child_of, parent_row};
ghost use Rattle.ocm_rules.specs.Messages.{without};
ghost use Rattle.ocm_rules.specs.State.{view_in};

use ocm_base::{List, NoMemory};
use ocm_entry::{Share, User};
use ocm_incoming::Mark;
use ocm_tables::{Steps, Tables};
use ocm_types::{ProviderId, Secret};
use std::sync::ledger::Ledger;

/// Whether the share that an owner's mark names has a parent with this secret.
pub fn is_child_of<L: Ledger>(
    tables: &Tables,
    id: &ProviderId,
    secret: &Secret,
    steps: &mut Steps<L>,
) -> bool
    ensures { result ≡ is_child_of (view_in tables.now.state) id.now secret.now }
{
    match parent_of_named(tables, id, steps) {
        Some(parent) => parent.secret == *secret,
        None => false,
    }
}

/// The parent of the share that an owner's mark names.
fn parent_of_named<'a, L: Ledger>(
    tables: &'a Tables,
    id: &ProviderId,
    steps: &mut Steps<L>,
) -> Option<&'a Share>
    ensures { option_copied result ≡ option_and_then (parent_row (view_in tables.now.state)) (option_and_then (at_number (view_in tables.now.state).shares) (named id.now)) }
{
    let number = tables.named_share(id)?;
    parent_of(tables, number, steps)
}

/// The parent of the share of this number.
fn parent_of<'a, L: Ledger>(
    tables: &'a Tables,
    number: u32,
    steps: &mut Steps<L>,
) -> Option<&'a Share>
    ensures { option_copied result ≡ option_and_then (parent_row (view_in tables.now.state)) (at_number (view_in tables.now.state).shares number) }
{
    let parent = tables.share(number, steps)?.parent?;
    tables.share(parent, steps)
}

/// The user whose share this is.
pub fn owner_of<'a>(tables: &'a Tables, share: &Share) -> &'a User
    requires { IsSome (at_number tables.now.state.users share.now.owner) }
    ensures { at_number tables.now.state.users share.now.owner ≡ Some result.now }
{
    tables.user(share.owner).unwrap()
}

/// These numbers in the same order, but for this one.
pub fn without(number: u32, ids: &List<u32>) -> Result<List<u32>, NoMemory>
    ensures { IfOk result (λ others. others ≡ without number ids.now) }
{
    let others = ids
        .as_slice()
        .iter()
        .copied()
        .filter(|id| number != *id)
        .collect(ids.allocator())?;
    Ok(List::from_vec(others))
}

/// The serial of the last change that the guest of the received offer of this number was told of: 0
/// before the first.
fn told_serial(tables: &Tables, number: u32) -> u32
    ensures { result ≡ ((view_in tables.now.state).told number).serial }
{
    match tables.record(number) {
        Some(_) => tables.told(number).serial,
        None => 0,
    }
}

/// The numbers of the received offers with this mark whose guest was told of no change as late as the one
/// of this serial, ascending.
pub fn received_behind(tables: &Tables, mark: &Mark, serial: u32) -> Result<List<u32>, NoMemory>
    ensures { IfOk result (λ behind. behind ≡ filter (λ n. nat_lt ((view_in tables.now.state).told n).serial serial)
        (filter (λ n. option_map_or (is_of mark.now.id mark.now.secret) (at_number (view_in tables.now.state).offers n) false) (numbers (view_in tables.now.state).offers))) }
{
    let received = tables.received_with(mark)?;
    behind(tables, &received, serial)
}

/// Those of these received offers whose guest was told of no change as late as the one of this serial,
/// in the same order.
fn behind(tables: &Tables, numbers: &List<u32>, serial: u32) -> Result<List<u32>, NoMemory>
    ensures { IfOk result (λ behind. behind ≡ filter (λ n. nat_lt ((view_in tables.now.state).told n).serial serial) numbers.now) }
{
    let behind = numbers
        .as_slice()
        .iter()
        .copied()
        .filter(|number| told_serial(tables, *number) < serial)
        .collect(tables.allocator())?;
    Ok(List::from_vec(behind))
}
