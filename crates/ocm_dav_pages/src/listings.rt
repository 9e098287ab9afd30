//! What a user has, as JSON.

ghost use Rattle.std.specs.Prelude.{◌≡◌, codes, map, option_map, IfOk, OnOk};
ghost use Rattle.std.specs.List.{flat_map};
ghost use Rattle.std.specs.Option.{option_to_list};
ghost use Rattle.serde_json.specs.Data.{string, object, no_members, put as with_member};
ghost use Rattle.serde_json.specs.View.{view, members_view};
ghost use Rattle.serde_json.specs.Written.{compact_text};
ghost use Rattle.ocm_path.specs.Paths.{path_escaped};
ghost use Rattle.ocm_records.specs.Written.{put_if};
ghost use Rattle.ocm_dav_pages.specs.Listings as listings;

use crate::values::push_if;
use ocm_base::{Bytes, NoMemory};
use ocm_entry::Line;
use ocm_path::Path;
use ocm_records::{bytes_of, object_of, put_address, put_perms, put_perms_if, put_text};
use ocm_types::{Address, Offer, Perms, Phase, RequestPhase};
use serde_json::{Map, Value, put};
use std::alloc::Global;

/// A list of what a user has.
#[derive(Clone, Copy)]
pub enum Part {
    /// The shares that were offered to the user.
    Received,
    /// The user's requests to share further.
    Requests,
    /// The shares of the user's files.
    Shares,
}

/// The phase of a request, in one word.
fn request_word(state: &RequestPhase) -> &'static str
    ensures { result.now ≡ listings.request_word state.now }
{
    match state {
        RequestPhase::Asked => "asked",
        RequestPhase::Granted { child: _ } => "granted",
        RequestPhase::Refused => "refused",
        RequestPhase::Undone => "undone",
    }
}

/// Whether a share is live, in one word.
fn live_word(live: bool) -> &'static str
    ensures { result.now ≡ listings.live_word live }
{
    if live { "live" } else { "closed" }
}

/// Adds what a received offer has from `permissions` on. The members are added from the last key on.
fn put_offered(
    members: &mut Map<String, Value>,
    alloc: Global,
    offer: &Offer,
    phase: Phase,
) -> Result<(), NoMemory>
    requires none { members_view members.old.entries ≡ no_members }
    ensures { OnOk result (members_view members.new.entries ≡ listings.offered_members offer.now phase) }
{
    put_text(members, alloc, "sharedSecret", offer.secret.as_str())?;
    put_text(members, alloc, "providerId", offer.id.as_str())?;
    put_text(members, alloc, "phase", phase.word())?;
    put_perms(members, alloc, "permissions", offer.perms)
}

/// Adds what a received offer has. The members are added from the last key on.
fn put_received(
    members: &mut Map<String, Value>,
    alloc: Global,
    number: u32,
    offer: &Offer,
    phase: Phase,
) -> Result<(), NoMemory>
    requires none { members_view members.old.entries ≡ no_members }
    ensures { OnOk result (object (members_view members.new.entries)
        ≡ listings.received_data number offer.now phase) }
{
    put_offered(members, alloc, offer, phase)?;
    put_address(members, alloc, "owner", &offer.owner)?;
    put(members, alloc, "number", Value::from(number))?;
    put_text(members, alloc, "name", offer.name.as_str())
}

/// A received offer.
fn received_value(
    alloc: Global,
    number: u32,
    offer: &Offer,
    phase: Phase,
) -> Result<Value, NoMemory>
    ensures { IfOk result (λ v. view v ≡ listings.received_data number offer.now phase) }
{
    let mut members = Map::new(alloc);
    let added = put_received(&mut members, alloc, number, offer, phase);
    object_of(members, added)
}

/// Adds what a request has from `phase` on. The members are added from the last key on.
fn put_later(
    members: &mut Map<String, Value>,
    alloc: Global,
    received: u32,
    with: &Address,
    state: &RequestPhase,
) -> Result<(), NoMemory>
    requires none { members_view members.old.entries ≡ no_members }
    ensures { OnOk result (members_view members.new.entries
        ≡ listings.later_members received with.now state.now) }
{
    put_address(members, alloc, "shareWith", with)?;
    put(members, alloc, "received", Value::from(received))?;
    put_text(members, alloc, "phase", request_word(state))
}

/// Adds the share that was made for a request, where one was.
fn put_child(
    members: &mut Map<String, Value>,
    alloc: Global,
    state: &RequestPhase,
) -> Result<(), NoMemory>
    ensures { OnOk result (members_view members.new.entries
        ≡ put_if (codes "child") (listings.child_data state.now) (members_view members.old.entries)) }
{
    match state {
        RequestPhase::Granted { child } => put_text(members, alloc, "child", child.as_str()),
        RequestPhase::Asked | RequestPhase::Refused | RequestPhase::Undone => Ok(()),
    }
}

/// Adds what a request has. The members are added from the last key on.
#[tactic(auto, using(crate::proofs::ListingLaws::request_in_order))]
fn put_request(
    members: &mut Map<String, Value>,
    alloc: Global,
    number: u32,
    received: u32,
    with: &Address,
    perms: &Option<Perms>,
    state: &RequestPhase,
) -> Result<(), NoMemory>
    requires none { members_view members.old.entries ≡ no_members }
    ensures { OnOk result (object (members_view members.new.entries)
        ≡ listings.request_data number received with.now perms.now state.now) }
{
    put_later(members, alloc, received, with, state)?;
    put_perms_if(members, alloc, "permissions", *perms)?;
    put(members, alloc, "number", Value::from(number))?;
    put_child(members, alloc, state)
}

/// A request.
fn request_value(
    alloc: Global,
    number: u32,
    received: u32,
    with: &Address,
    perms: &Option<Perms>,
    state: &RequestPhase,
) -> Result<Value, NoMemory>
    ensures { IfOk result (λ v. view v
        ≡ listings.request_data number received with.now perms.now state.now) }
{
    let mut members = Map::new(alloc);
    let added = put_request(&mut members, alloc, number, received, with, perms, state);
    object_of(members, added)
}

/// Adds what a share has from `permissions` on. The members are added from the last key on.
fn put_guest(
    members: &mut Map<String, Value>,
    alloc: Global,
    with: &Address,
    perms: Perms,
    live: bool,
) -> Result<(), NoMemory>
    requires none { members_view members.old.entries ≡ no_members }
    ensures { OnOk result (members_view members.new.entries ≡ listings.guest_members with.now perms live) }
{
    put_text(members, alloc, "state", live_word(live))?;
    put_address(members, alloc, "shareWith", with)?;
    put_perms(members, alloc, "permissions", perms)
}

/// Adds where a share leads, as an escaped path.
fn put_path(members: &mut Map<String, Value>, alloc: Global, path: &Path) -> Result<(), NoMemory>
    ensures { OnOk result (members_view members.new.entries
        ≡ with_member (codes "path") (string (path_escaped path.now)) (members_view members.old.entries)) }
{
    let path = path.escaped()?;
    put_text(members, alloc, "path", path.as_str())
}

/// Adds what a share has. The members are added from the last key on.
fn put_share(
    members: &mut Map<String, Value>,
    alloc: Global,
    number: u32,
    path: &Path,
    with: &Address,
    perms: Perms,
    live: bool,
) -> Result<(), NoMemory>
    requires none { members_view members.old.entries ≡ no_members }
    ensures { OnOk result (object (members_view members.new.entries)
        ≡ listings.share_data number path.now with.now perms live) }
{
    put_guest(members, alloc, with, perms, live)?;
    put_path(members, alloc, path)?;
    put(members, alloc, "number", Value::from(number))?;
    Ok(())
}

/// A share.
fn share_value(
    alloc: Global,
    number: u32,
    path: &Path,
    with: &Address,
    perms: Perms,
    live: bool,
) -> Result<Value, NoMemory>
    ensures { IfOk result (λ v. view v ≡ listings.share_data number path.now with.now perms live) }
{
    let mut members = Map::new(alloc);
    let added = put_share(&mut members, alloc, number, path, with, perms, live);
    object_of(members, added)
}

/// What a list shows of a line, where the line is one of that list.
#[tactic(auto, unfolding(crate::specs::Listings::line_data))]
fn line_value(alloc: Global, part: Part, line: &Line) -> Result<Option<Value>, NoMemory>
    ensures { IfOk result (λ o. option_to_list (option_map view o)
        ≡ listings.line_data part line.now) }
{
    match (part, line) {
        (
            Part::Received,
            Line::Received {
                number,
                offer,
                phase,
            },
        ) => {
            let value = received_value(alloc, *number, offer, *phase)?;
            Ok(Some(value))
        }
        (
            Part::Requests,
            Line::Request {
                number,
                received,
                with,
                perms,
                state,
            },
        ) => {
            let value = request_value(alloc, *number, *received, with, perms, state)?;
            Ok(Some(value))
        }
        (
            Part::Shares,
            Line::Share {
                id,
                path,
                with,
                perms,
                live,
            },
        ) => {
            let value = share_value(alloc, *id, path, with, *perms, *live)?;
            Ok(Some(value))
        }
        _ => Ok(None),
    }
}

/// What a list shows, in the order of the lines.
fn part_values(alloc: Global, part: Part, lines: &[Line]) -> Result<Vec<Value>, NoMemory>
    ensures { IfOk result (λ made. map view made.items
        ≡ flat_map (listings.line_data part) lines.now) }
{
    let mut values = Vec::new(alloc);
    for line in lines {
        let value = line_value(alloc, part, line)?;
        push_if(&mut values, value)?;
    }
    Ok(values)
}

/// A list of what a user has.
#[tactic(auto, unfolding(crate::specs::Listings::part_data))]
fn part_value(alloc: Global, part: Part, lines: &[Line]) -> Result<Value, NoMemory>
    ensures { IfOk result (λ v. view v ≡ listings.part_data part lines.now) }
{
    let values = part_values(alloc, part, lines)?;
    Ok(Value::Array(values))
}

/// Adds a list of what a user has as a member.
fn put_part(
    members: &mut Map<String, Value>,
    alloc: Global,
    key: &str,
    part: Part,
    lines: &[Line],
) -> Result<(), NoMemory>
    ensures { OnOk result (members_view members.new.entries
        ≡ with_member key.now (listings.part_data part lines.now) (members_view members.old.entries)) }
{
    let list = part_value(alloc, part, lines)?;
    put(members, alloc, key, list)?;
    Ok(())
}

/// Adds what a user has. The members are added from the last key on.
fn put_parts(
    members: &mut Map<String, Value>,
    alloc: Global,
    lines: &[Line],
) -> Result<(), NoMemory>
    requires none { members_view members.old.entries ≡ no_members }
    ensures { OnOk result (object (members_view members.new.entries) ≡ listings.listing_data lines.now) }
{
    put_part(members, alloc, "shares", Part::Shares, lines)?;
    put_part(members, alloc, "requests", Part::Requests, lines)?;
    put_part(members, alloc, "received", Part::Received, lines)
}

/// What a user has.
fn listing_value(alloc: Global, lines: &[Line]) -> Result<Value, NoMemory>
    ensures { IfOk result (λ v. view v ≡ listings.listing_data lines.now) }
{
    let mut members = Map::new(alloc);
    let added = put_parts(&mut members, alloc, lines);
    object_of(members, added)
}

/// What a user has, as the text of JSON.
#[tactic(auto, using(crate::proofs::ListingLaws::listing_no_float))]
pub fn listing_text(alloc: Global, lines: &[Line]) -> Result<Bytes, NoMemory>
    ensures { IfOk result (λ text. text ≡ compact_text (listings.listing_data lines.now)) }
{
    let value = listing_value(alloc, lines)?;
    let text = bytes_of(alloc, &value)?;
    Ok(text)
}
