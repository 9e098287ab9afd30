ghost use Rattle.std.specs.Prelude.{◌≡◌, ◌≤◌, ◌+◌, ◌*◌, ◌^◌, ◌-◌, IfOk, length};
ghost use Rattle.ocm_entry.specs.declared.asks.Ask.TheVariants as asks;
ghost use Rattle.ocm_plan.specs.Plans.{Plans};

use crate::limits::is_full;
use crate::plans::Planned;
use ocm_base::NoMemory;
use ocm_entry::{Reply, Why};
use ocm_limits::MOST_USERS;
use ocm_tables::{Steps, TableChange, Tables};
use ocm_types::{Fresh, Name, Which};
use ocm_users::PlannedUser;
use std::sync::ledger::Ledger;

/// A new user, whose key is drawn. It looks for a share with this key in the index of secrets, in b steps
/// at most, where 2 to the power of b is at most one more than twice the shares.
pub fn plan_new_user<L: Ledger>(
    tables: &Tables,
    name: &Name,
    fresh: &Fresh,
    steps: &mut Steps<L>,
) -> Result<Planned, NoMemory>
    ensures plans { IfOk result (λ plan. Plans tables.now.state (asks.AddUser name.now fresh.now) plan) }
    ensures cost { 2 ^ (steps.new - steps.old) ≤ 2 * length tables.now.state.shares + 1 }
    ensures onward { steps.old ≤ steps.new }
{
    if tables.is_taken(name) {
        return Ok(Planned::refused(tables, Why::UserExists));
    }
    if is_full(tables.user_count(), MOST_USERS) {
        return Ok(Planned::refused(
            tables,
            Why::Limit {
                which: Which::Users,
            },
        ));
    }
    let key = fresh.secret(tables.allocator())?;
    if tables.is_used(&key, steps) {
        return Ok(Planned::refused(tables, Why::Collision));
    }
    let user = PlannedUser::new(name, &key)?;
    Ok(Planned::silent(tables, Reply::Key { key }, TableChange::AddUser(user)))
}

/// The time goes on, or stays where a tick tells no later one.
pub fn plan_tick(tables: &Tables, clock: u64) -> Planned
    ensures { Plans tables.now.state (asks.Tick clock) result }
{
    if clock > tables.moment() {
        Planned::silent(tables, Reply::Done, TableChange::Advance { clock })
    } else {
        Planned::only(tables, Reply::Done)
    }
}
