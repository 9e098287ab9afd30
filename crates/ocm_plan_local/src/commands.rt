ghost use Rattle.std.specs.Prelude.{IfOk, IsTrue};
ghost use Rattle.ocm_entry.specs.declared.asks.Ask.TheVariants as asks;
ghost use Rattle.ocm_entry.specs.Proper.{is_proper};
ghost use Rattle.ocm_plan.specs.Plans.{Plans};

use crate::guests::{plan_accept, plan_decline, plan_reshare, plan_undo};
use crate::listings::plan_list;
use crate::shares::{plan_expire, plan_limit, plan_new_share, plan_unshare};
use ocm_base::NoMemory;
use ocm_entry::{Cmd, Why};
use ocm_plan::Planned;
use ocm_tables::{Steps, Tables};
use ocm_types::Secret;
use std::sync::ledger::Ledger;

/// A command by the holder of an account's key. Its looks at shares are counted, and no clause bounds
/// them: a command may go over all shares.
pub fn plan_command<L: Ledger>(
    tables: &Tables,
    key: &Secret,
    cmd: &Cmd,
    steps: &mut Steps<L>,
) -> Result<Planned, NoMemory>
    requires { IsTrue (is_proper (asks.Local key.now cmd.now)) }
    ensures { IfOk result (λ plan. Plans tables.now.state (asks.Local key.now cmd.now) plan) }
{
    let Some(user) = tables.account(key) else {
        return Ok(Planned::refused(tables, Why::Unauthorized));
    };
    match cmd {
        Cmd::Share {
            path,
            with,
            perms,
            fresh,
        } => plan_new_share(tables, key, user, path, with, *perms, fresh, steps),
        Cmd::Unshare { id } => plan_unshare(tables, key, user, *id, steps),
        Cmd::Limit { id, perms } => plan_limit(tables, key, user, *id, *perms, steps),
        Cmd::Expire { id, until } => Ok(plan_expire(tables, key, user, *id, *until, steps)),
        Cmd::Accept { number } => plan_accept(tables, key, user, *number),
        Cmd::Decline { number } => plan_decline(tables, key, user, *number),
        Cmd::Reshare {
            number,
            with,
            perms,
        } => plan_reshare(tables, key, user, *number, with, *perms),
        Cmd::Undo { request } => plan_undo(tables, key, user, *request),
        Cmd::List => plan_list(tables, key, user, steps),
    }
}
