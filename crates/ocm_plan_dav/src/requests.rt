//! Requests for files (RFC 4918) by the holders of secrets.
ghost use Rattle.std.specs.Prelude.{length, IfOk, IsTrue};
ghost use Rattle.ocm_entry.specs.declared.asks.Ask.TheVariants as asks;
ghost use Rattle.ocm_entry.specs.Proper.{is_proper, is_short};
ghost use Rattle.ocm_tables.specs.Tables.{GrantCost};
ghost use Rattle.ocm_plan.specs.Plans.{Plans};
ghost use Rattle.ocm_plan_dav.specs.Requests.{PlansMethod};

use crate::access::{permits, place_below};
use crate::files::{plan_delete, plan_get, plan_mkcol, plan_put};
use crate::listings::{plan_item, plan_items};
use ocm_base::{Bytes, NoMemory};
use ocm_entry::{Method, Place, Why};
use ocm_path::Path;
use ocm_plan::Planned;
use ocm_tables::{Probes, Tables};
use ocm_types::Secret;
use std::sync::ledger::Ledger;

/// Plans a request for files by the holder of the secret: GET, HEAD (RFC 9110 section 9.3), PUT, DELETE,
/// MKCOL or PROPFIND (RFC 4918 section 9). What it costs to look at shares is counted.
pub fn plan_dav<I: Ledger, R: Ledger>(
    tables: &Tables,
    secret: &Secret,
    method: Method,
    path: &Path,
    body: &Bytes,
    probes: &mut Probes<I, R>,
) -> Result<Planned, NoMemory>
    requires { IsTrue (is_proper (asks.Dav secret.now method path.now body.now)) }
    ensures plans { IfOk result (λ plan. Plans tables.now.state (asks.Dav secret.now method path.now body.now) plan) }
    ensures cost { GrantCost (length tables.now.state.shares) probes.old probes.new }
{
    let Some(grant) = tables.grant(secret, probes)? else {
        return Ok(Planned::refused(tables, Why::Unauthorized));
    };
    if !permits(grant.rights, method) {
        return Ok(Planned::refused(tables, Why::NotPermitted));
    }
    let place = place_below(&grant.root, path)?;
    plan_method(tables, method, place, path, body)
}

/// Plans a method at a place, which has this path below the holder's root, for one who may do it there.
fn plan_method(
    tables: &Tables,
    method: Method,
    place: Place,
    path: &Path,
    body: &Bytes,
) -> Result<Planned, NoMemory>
    requires { IsTrue (is_short path.now) }
    ensures { IfOk result (λ plan. PlansMethod tables.now.state method place path.now body.now plan) }
{
    match method {
        Method::Get => plan_get(tables, &place),
        Method::Head => plan_get(tables, &place),
        Method::List0 => plan_item(tables, &place, path),
        Method::List1 => plan_items(tables, &place, path),
        Method::Put => plan_put(tables, place, body),
        Method::Mkcol => plan_mkcol(tables, place, body),
        Method::Delete => Ok(plan_delete(tables, place, path)),
    }
}
