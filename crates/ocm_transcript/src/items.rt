//! What the further lines of a reply show: an item of a collection, and a line of what a user
//! lists. Each function adds its text at the end of what is written already.

ghost use Rattle.std.specs.Prelude.{◌≡◌, [], ◌∷◌, ◌++◌, OnOk, codes, if◌then◌else◌};
ghost use Rattle.std.specs.Fmt.{decimal};
ghost use Rattle.ocm_entry.specs.Listings.{item_in};
ghost use Rattle.ocm_path.specs.Escapes.{escape};
ghost use Rattle.ocm_path.specs.Paths.{is_root, path_escaped};
ghost use Rattle.ocm_types.specs.Rights.{perms_text};
ghost use Rattle.ocm_transcript.specs.Items.{spaced, address_text, href, href_end, size_text, item_text, live_text, state_text, asked_text, listing_text};

use crate::lines::{add_escaped, add_number};
use ocm_base::{Bytes, NoMemory};
use ocm_entry::{DavChild, Line};
use ocm_path::Path;
use ocm_types::{Address, Offer, Perms, Phase, RequestPhase};
use std::alloc::Global;

/// Adds the escaped text of a path.
fn add_path(text: &mut Bytes, path: &Path) -> Result<(), NoMemory>
    ensures { OnOk result (text.new ≡ text.old ++ path_escaped path.now) }
{
    let escaped = path.escaped()?;
    text.add(escaped.as_str().as_bytes())?;
    Ok(())
}

/// Adds the `/` behind a collection, which the root's path has already.
fn add_slash(text: &mut Bytes, path: &Path) -> Result<(), NoMemory>
    ensures { OnOk result (text.new ≡ text.old ++ (if is_root path.now then [] else codes "/")) }
{
    if !path.is_root() {
        text.add(b"/")?;
    }
    Ok(())
}

/// Adds the path of a resource at the server (RFC 4918 section 8.3).
fn add_href(text: &mut Bytes, path: &Path, size: Option<u64>) -> Result<(), NoMemory>
    ensures { OnOk result (text.new ≡ text.old ++ href path.now size) }
{
    text.add(b"/dav")?;
    add_path(text, path)?;
    match size {
        Some(_) => Ok(()),
        None => add_slash(text, path),
    }
}

/// Adds how many bytes a file has, or that it is a collection.
fn add_size(alloc: Global, text: &mut Bytes, size: Option<u64>) -> Result<(), NoMemory>
    ensures { OnOk result (text.new ≡ text.old ++ size_text size) }
{
    match size {
        Some(size) => {
            text.add(b"f ")?;
            add_number(alloc, text, size)?;
            Ok(())
        }
        None => {
            text.add(b"c")?;
            Ok(())
        }
    }
}

/// Adds what stands at a path.
pub fn add_item(
    alloc: Global,
    text: &mut Bytes,
    path: &Path,
    size: Option<u64>,
) -> Result<(), NoMemory>
    ensures { OnOk result (text.new ≡ text.old ++ item_text (record { path = path.now; size = size })) }
{
    add_href(text, path, size)?;
    text.add(b" ")?;
    add_size(alloc, text, size)?;
    Ok(())
}

/// Adds the `/` behind the path of a collection that is not the root.
fn add_end(text: &mut Bytes, size: Option<u64>) -> Result<(), NoMemory>
    ensures { OnOk result (text.new ≡ text.old ++ href_end size) }
{
    match size {
        Some(_) => Ok(()),
        None => text.add(b"/"),
    }
}

/// Adds the path at the server of a resource with a name in the collection at a path.
fn add_href_in(
    alloc: Global,
    text: &mut Bytes,
    path: &Path,
    name: &str,
    size: Option<u64>,
) -> Result<(), NoMemory>
    ensures { OnOk result (text.new ≡ text.old ++ href (path.now ++ name.now ∷ []) size) }
{
    let front = path.escaped_front()?;
    text.add(b"/dav")?;
    text.add(front.as_bytes())?;
    text.add(b"/")?;
    add_escaped(alloc, text, name)?;
    add_end(text, size)?;
    Ok(())
}

/// Adds what lies in the collection at a path.
pub fn add_child(
    alloc: Global,
    text: &mut Bytes,
    path: &Path,
    child: &DavChild,
) -> Result<(), NoMemory>
    ensures { OnOk result (text.new ≡ text.old ++ item_text (item_in path.now child.now)) }
{
    match &child.name {
        Some(name) => {
            add_href_in(alloc, text, path, name.as_str(), child.size)?;
            text.add(b" ")?;
            add_size(alloc, text, child.size)
        }
        None => add_item(alloc, text, path, child.size),
    }
}

/// Adds an address, its user's name escaped.
fn add_address(alloc: Global, text: &mut Bytes, address: &Address) -> Result<(), NoMemory>
    ensures { OnOk result (text.new ≡ text.old ++ address_text address.now) }
{
    add_escaped(alloc, text, address.user.as_str())?;
    text.add(b"@")?;
    text.add(address.host.as_str().as_bytes())?;
    Ok(())
}

/// Adds permissions, with a comma between each two.
fn add_perms(alloc: Global, text: &mut Bytes, perms: &Perms) -> Result<(), NoMemory>
    ensures { OnOk result (text.new ≡ text.old ++ perms_text perms.now) }
{
    let words = perms.text(alloc)?;
    text.add(words.as_str().as_bytes())?;
    Ok(())
}

/// Adds the permissions that are asked for, or a dash.
fn add_asked(alloc: Global, text: &mut Bytes, perms: &Option<Perms>) -> Result<(), NoMemory>
    ensures { OnOk result (text.new ≡ text.old ++ asked_text perms.now) }
{
    match perms {
        Some(perms) => add_perms(alloc, text, perms),
        None => {
            text.add(b"-")?;
            Ok(())
        }
    }
}

/// Whether a share is live, in one word.
fn live_word(live: bool) -> &'static str
    ensures { result.now ≡ live_text live }
{
    if live { "live" } else { "closed" }
}

/// Adds the state of a request, with the child that was granted.
fn add_state(alloc: Global, text: &mut Bytes, state: &RequestPhase) -> Result<(), NoMemory>
    ensures { OnOk result (text.new ≡ text.old ++ state_text state.now) }
{
    match state {
        RequestPhase::Asked => {
            text.add(b"asked")?;
            Ok(())
        }
        RequestPhase::Granted { child } => {
            text.add(b"granted:")?;
            add_escaped(alloc, text, child.as_str())?;
            Ok(())
        }
        RequestPhase::Refused => {
            text.add(b"refused")?;
            Ok(())
        }
        RequestPhase::Undone => {
            text.add(b"undone")?;
            Ok(())
        }
    }
}

/// Adds what a line is of and its number, with a space behind each.
fn add_kind(alloc: Global, text: &mut Bytes, kind: &[u8], number: u32) -> Result<(), NoMemory>
    ensures { OnOk result (text.new
        ≡ text.old ++ spaced kind.now (spaced (decimal number) [])) }
{
    text.add(kind)?;
    text.add(b" ")?;
    add_number(alloc, text, number as u64)?;
    text.add(b" ")?;
    Ok(())
}

/// Adds to whom a share is given and what the guest may do, with a space behind each.
fn add_guest(alloc: Global, text: &mut Bytes, with: &Address, perms: &Perms) -> Result<(), NoMemory>
    ensures { OnOk result (text.new
        ≡ text.old ++ spaced (address_text with.now) (spaced (perms_text perms.now) [])) }
{
    add_address(alloc, text, with)?;
    text.add(b" ")?;
    add_perms(alloc, text, perms)?;
    text.add(b" ")?;
    Ok(())
}

fn add_share(
    alloc: Global,
    text: &mut Bytes,
    id: u32,
    path: &Path,
    with: &Address,
    perms: &Perms,
    live: bool,
) -> Result<(), NoMemory>
    ensures { OnOk result (text.new
        ≡ text.old ++ listing_text (Line.Share id path.now with.now perms.now live)) }
{
    add_kind(alloc, text, b"share", id)?;
    add_path(text, path)?;
    text.add(b" ")?;
    add_guest(alloc, text, with, perms)?;
    text.add(live_word(live).as_bytes())?;
    Ok(())
}

/// Adds what an offer tells of the share, with a space behind each: its owner, its id and its
/// permissions.
fn add_terms(alloc: Global, text: &mut Bytes, offer: &Offer) -> Result<(), NoMemory>
    ensures { OnOk result (text.new
        ≡ text.old ++ spaced (address_text offer.now.owner)
        (spaced (escape offer.now.id) (spaced (perms_text offer.now.perms) []))) }
{
    add_address(alloc, text, &offer.owner)?;
    text.add(b" ")?;
    add_escaped(alloc, text, offer.id.as_str())?;
    text.add(b" ")?;
    add_perms(alloc, text, &offer.perms)?;
    text.add(b" ")?;
    Ok(())
}

fn add_received(
    alloc: Global,
    text: &mut Bytes,
    number: u32,
    offer: &Offer,
    phase: Phase,
) -> Result<(), NoMemory>
    ensures { OnOk result (text.new
        ≡ text.old ++ listing_text (Line.Received number offer.now phase)) }
{
    add_kind(alloc, text, b"received", number)?;
    add_terms(alloc, text, offer)?;
    text.add(phase.word().as_bytes())?;
    text.add(b" ")?;
    add_escaped(alloc, text, offer.name.as_str())?;
    Ok(())
}

/// Adds with whom a received share is to be shared and what for, with a space behind each.
fn add_wish(
    alloc: Global,
    text: &mut Bytes,
    with: &Address,
    perms: &Option<Perms>,
) -> Result<(), NoMemory>
    ensures { OnOk result (text.new
        ≡ text.old ++ spaced (address_text with.now) (spaced (asked_text perms.now) [])) }
{
    add_address(alloc, text, with)?;
    text.add(b" ")?;
    add_asked(alloc, text, perms)?;
    text.add(b" ")?;
    Ok(())
}

fn add_request(
    alloc: Global,
    text: &mut Bytes,
    number: u32,
    received: u32,
    with: &Address,
    perms: &Option<Perms>,
    state: &RequestPhase,
) -> Result<(), NoMemory>
    ensures { OnOk result (text.new
        ≡ text.old ++ listing_text (Line.Request number received with.now perms.now state.now)) }
{
    add_kind(alloc, text, b"request", number)?;
    add_number(alloc, text, received as u64)?;
    text.add(b" ")?;
    add_wish(alloc, text, with, perms)?;
    add_state(alloc, text, state)?;
    Ok(())
}

/// Adds a line of what a user lists.
pub fn add_listed(alloc: Global, text: &mut Bytes, line: &Line) -> Result<(), NoMemory>
    ensures { OnOk result (text.new ≡ text.old ++ listing_text line.now) }
{
    match line {
        Line::Share {
            id,
            path,
            with,
            perms,
            live,
        } => add_share(alloc, text, *id, path, with, perms, *live),
        Line::Received {
            number,
            offer,
            phase,
        } => add_received(alloc, text, *number, offer, *phase),
        Line::Request {
            number,
            received,
            with,
            perms,
            state,
        } => add_request(alloc, text, *number, *received, with, perms, state),
    }
}
