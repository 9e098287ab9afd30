//! GET, HEAD, PUT, MKCOL and DELETE, for those who may do them.
ghost use Rattle.std.specs.Prelude.{◌≡◌, true, false, None, IfOk, option_copied};
ghost use Rattle.ocm_path.specs.Paths.{Segments};
ghost use Rattle.ocm_entry.specs.declared.asks.Method.TheVariants as methods;
ghost use Rattle.ocm_entry.specs.declared.rows.Standing.TheVariants.{File};
ghost use Rattle.ocm_rules.specs.Answers.{has_bytes, is_collection, put_done};
ghost use Rattle.ocm_rules.specs.Files.{limit_of, parent_of};
ghost use Rattle.ocm_rules.specs.State.{view_in};
ghost use Rattle.ocm_plan_dav.specs.Requests.{PlansBodiless, PlansMethod};

use crate::access::{parent_of, stands};
use ocm_base::{Bytes, NoMemory};
use ocm_entry::{Place, Reply, Standing, Why};
use ocm_path::Path;
use ocm_plan::Planned;
use ocm_tables::{TableChange, Tables};
use ocm_tree::PlannedNode;

/// Plans GET or HEAD at a place (RFC 9110 sections 9.3.1 and 9.3.2).
pub fn plan_get(tables: &Tables, place: &Place) -> Result<Planned, NoMemory>
    ensures get { IfOk result (λ plan. (path : Segments) → PlansBodiless tables.now.state methods.Get place.now path plan) }
    ensures head { IfOk result (λ plan. (path : Segments) → PlansBodiless tables.now.state methods.Head place.now path plan) }
{
    match tables.standing_at(place) {
        None => Ok(Planned::refused(tables, Why::NotFound)),
        Some(Standing::Collection) => Ok(Planned::refused(tables, Why::NotAllowed)),
        Some(Standing::File { body }) => {
            let body = body.copy()?;
            Ok(Planned::only(tables, Reply::File { body }))
        }
    }
}

/// Plans PUT of a body at a place (RFC 4918 section 9.7).
pub fn plan_put(tables: &Tables, place: Place, body: &Bytes) -> Result<Planned, NoMemory>
    ensures { IfOk result (λ plan. (path : Segments) → PlansMethod tables.now.state methods.Put place path body.now plan) }
{
    if tables.is_collection(&place) {
        return Ok(Planned::refused(tables, Why::NotAllowed));
    }
    let parent = parent_of(&place)?;
    if !tables.is_collection(&parent) {
        return Ok(Planned::refused(tables, Why::ParentMissing));
    }
    if let Some(which) = tables.limit_of_file(&place, &parent, body) {
        return Ok(Planned::refused(tables, Why::Limit { which }));
    }
    put_file(tables, place, parent, body)
}

/// Plans that a file with this body stands at a place, which lies in this parent, for one who may do it.
fn put_file(tables: &Tables, place: Place, parent: Place, body: &Bytes) -> Result<Planned, NoMemory>
    requires parent { parent ≡ parent_of place }
    requires here { is_collection ((view_in tables.now.state).stands place) ≡ false }
    requires inside { is_collection ((view_in tables.now.state).stands parent) ≡ true }
    requires within { limit_of tables.now.state.nodes (record { place = place; standing = File body.now }) ≡ None }
    ensures { IfOk result (λ plan. (path : Segments) → PlansMethod tables.now.state methods.Put place path body.now plan) }
{
    let standing = tables.standing_at(&place);
    let body = body.copy()?;
    let node = PlannedNode::new(place, parent, Standing::File { body })?;
    Ok(Planned::silent(tables, put_done(standing), TableChange::Put(node)))
}

/// The reply to what was put, or carried, where this stood.
pub fn put_done(standing: Option<&Standing>) -> Reply
    ensures { result ≡ put_done (option_copied standing.entry) }
{
    match standing {
        None => Reply::Created,
        Some(_) => Reply::Replaced,
    }
}

/// Plans MKCOL at a place (RFC 4918 section 9.3), which takes no body.
pub fn plan_mkcol(tables: &Tables, place: Place, body: &Bytes) -> Result<Planned, NoMemory>
    ensures { IfOk result (λ plan. (path : Segments) → PlansMethod tables.now.state methods.Mkcol place path body.now plan) }
{
    if stands(tables, &place) {
        return Ok(Planned::refused(tables, Why::NotAllowed));
    }
    let parent = parent_of(&place)?;
    if !tables.is_collection(&parent) {
        return Ok(Planned::refused(tables, Why::ParentMissing));
    }
    if has_bytes(body) {
        return Ok(Planned::refused(tables, Why::BodyRefused));
    }
    if let Some(which) = tables.limit_of_collection(&place, &parent) {
        return Ok(Planned::refused(tables, Why::Limit { which }));
    }
    let node = PlannedNode::new(place, parent, Standing::Collection)?;
    Ok(Planned::silent(tables, Reply::Created, TableChange::Put(node)))
}

/// Whether there are bytes.
fn has_bytes(body: &Bytes) -> bool
    ensures { result ≡ has_bytes body.now }
{
    !body.is_empty()
}

/// Plans DELETE at a place, which has this path below the holder's root (RFC 4918 section 9.6).
pub fn plan_delete(tables: &Tables, place: Place, path: &Path) -> Planned
    ensures { PlansBodiless tables.now.state methods.Delete place path.now result }
{
    if path.is_root() {
        return Planned::refused(tables, Why::RootStays);
    }
    if !stands(tables, &place) {
        return Planned::refused(tables, Why::NotFound);
    }
    Planned::silent(tables, Reply::Removed, TableChange::Remove(place))
}
