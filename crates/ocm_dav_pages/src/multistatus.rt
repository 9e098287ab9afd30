//! What stands at a path and in it, and the refusal to list without end, as XML (RFC 4918 sections 9.1 and 14).

ghost use Rattle.std.specs.Prelude.{◌≡◌, ◌<◌, ◌≤◌, ◌++◌, ◌∷◌, [], map, IfOk, OnOk, IsSome, string_bytes};
ghost use Rattle.http.specs.StatusCode.{reason_phrase};
ghost use Rattle.std.specs.List.{flat_map};
ghost use Rattle.ocm_entry.specs.Listings.{item_in, told_path};
ghost use Rattle.ocm_dav_pages.specs.Multistatus as multistatus;
ghost use Rattle.ocm_dav_pages.specs.Pages as pages;

use crate::shapes::{Page, Shape};
use crate::writing::typed_page;
use ocm_base::{Bytes, NoMemory};
use ocm_entry::{DavChild, DavItems};
use ocm_path::{Path, add_escaped};
use std::alloc::Global;

/// A document's first line.
fn declared(alloc: Global) -> Result<Bytes, NoMemory>
    ensures { IfOk result (λ text. text ≡ multistatus.declaration) }
{
    Bytes::of(alloc, b"<?xml version=\"1.0\" encoding=\"utf-8\"?>\n")
}

/// Adds what stands behind the path of a resource: the `/` of a collection, and its properties.
fn add_behind(text: &mut String, size: Option<u64>) -> Result<(), NoMemory>
    ensures { OnOk result (string_bytes text.new ≡ string_bytes text.old ++ multistatus.behind size) }
{
    match size {
        Some(size) => {
            text.push_str("</D:href><D:propstat><D:prop><D:resourcetype/><D:getcontentlength>")?;
            write!(text, "{size}")?;
            text.push_str(
                "</D:getcontentlength></D:prop><D:status>HTTP/1.1 200 OK</D:status></D:propstat></D:response>",
            )?;
        }
        None => {
            text.push_str(
                "/</D:href><D:propstat><D:prop><D:resourcetype><D:collection/></D:resourcetype></D:prop><D:status>HTTP/1.1 200 OK</D:status></D:propstat></D:response>",
            )?;
        }
    }
    Ok(())
}

/// Adds the `/` of a root that is a file.
fn add_root(text: &mut String, path: &Path, size: Option<u64>) -> Result<(), NoMemory>
    ensures { OnOk result (string_bytes text.new ≡ string_bytes text.old ++ multistatus.root_slash path.now size) }
{
    if path.is_root() && size.is_some() {
        text.push_str("/")?;
    }
    Ok(())
}

/// Adds what is told of a resource at a path.
fn add_response(text: &mut String, path: &Path, size: Option<u64>) -> Result<(), NoMemory>
    ensures { OnOk result (string_bytes text.new
        ≡ string_bytes text.old ++ multistatus.response (record { path = path.now; size = size })) }
{
    let front = path.escaped_front()?;
    text.push_str("<D:response><D:href>/dav")?;
    text.push_str(front.as_str())?;
    add_root(text, path, size)?;
    add_behind(text, size)?;
    Ok(())
}

/// What is told of a resource in a collection, up to its name: the same for each.
fn front_of(path: &Path) -> Result<String, NoMemory>
    ensures { IfOk result (λ front. string_bytes front ≡ multistatus.front path.now) }
{
    let below = path.escaped_front()?;
    let mut front = String::from_str(*below.allocator(), "<D:response><D:href>/dav")?;
    front.push_str(below.as_str())?;
    front.push_str("/")?;
    Ok(front)
}

/// Adds what is told of a resource with a name in the collection at a path.
fn add_named(
    text: &mut String,
    front: &str,
    path: &Path,
    name: &str,
    size: Option<u64>,
) -> Result<(), NoMemory>
    requires { front.now ≡ multistatus.front path.now }
    ensures { OnOk result (string_bytes text.new
        ≡ string_bytes text.old ++ multistatus.response (record { path = path.now ++ name.now ∷ []; size = size })) }
{
    text.push_str(front)?;
    add_escaped(text, name)?;
    add_behind(text, size)?;
    Ok(())
}

/// Adds what is told of a resource in the collection at a path.
fn add_child(text: &mut String, front: &str, path: &Path, child: &DavChild) -> Result<(), NoMemory>
    requires { front.now ≡ multistatus.front path.now }
    ensures { OnOk result (string_bytes text.new
        ≡ string_bytes text.old ++ multistatus.response (item_in path.now child.now)) }
{
    match &child.name {
        Some(name) => add_named(text, front, path, name.as_str(), child.size),
        None => add_response(text, path, child.size),
    }
}

fn add_children(
    text: &mut String,
    front: &str,
    path: &Path,
    inside: &[DavChild],
) -> Result<(), NoMemory>
    requires { front.now ≡ multistatus.front path.now }
    ensures { OnOk result (string_bytes text.new
        ≡ string_bytes text.old ++ flat_map multistatus.response (map (item_in path.now) inside.now)) }
{
    for child in inside {
        add_child(text, front, path, child)?;
    }
    Ok(())
}

/// As many bytes as the document can have: an escaped name has at most three for each of its own, and what stands
/// behind it at most 200.
fn room(front: &str, inside: &[DavChild]) -> usize {
    let mut room = front.len().saturating_add(400);
    for child in inside {
        let name = child.name.as_ref().map_or(0, |name| name.len());
        room = room
            .saturating_add(front.len())
            .saturating_add(name.saturating_mul(3))
            .saturating_add(200);
    }
    room
}

/// Adds what stands at a path and in it.
fn add_items(text: &mut String, front: &str, items: &DavItems) -> Result<(), NoMemory>
    requires { front.now ≡ multistatus.front (told_path items.now) }
    ensures { OnOk result (string_bytes text.new ≡ string_bytes text.old ++ multistatus.multistatus items.now) }
{
    text.push_str("<?xml version=\"1.0\" encoding=\"utf-8\"?>\n<D:multistatus xmlns:D=\"DAV:\">")?;
    add_response(text, items.path(), items.size())?;
    add_children(text, front, items.path(), items.inside())?;
    text.push_str("</D:multistatus>")?;
    Ok(())
}

fn multistatus(alloc: Global, items: &DavItems) -> Result<Bytes, NoMemory>
    ensures { IfOk result (λ text. text ≡ multistatus.multistatus items.now) }
{
    let front = front_of(items.path())?;
    let mut text = String::with_capacity(alloc, room(front.as_str(), items.inside()))?;
    add_items(&mut text, front.as_str(), items)?;
    Bytes::from_vec(text.into_bytes()).shared()
}

fn xml_page(alloc: Global, status: u16, text: &Bytes, shape: &Shape) -> Result<Page, NoMemory>
    requires code { (100 ≤ status) × (status < 1000) }
    requires phrase { IsSome (reason_phrase status) }
    ensures { IfOk result (λ page. page
        ≡ pages.typed_page status pages.xml_type text.now shape.now) }
{
    typed_page(alloc, status, "application/xml; charset=utf-8", text, shape)
}

/// The page of what stands at a path and in it: 207.
pub fn items_page(alloc: Global, items: &DavItems, shape: &Shape) -> Result<Page, NoMemory>
    ensures { IfOk result (λ page. page ≡ pages.items_page items.now shape.now) }
{
    let text = multistatus(alloc, items)?;
    xml_page(alloc, 207, &text, shape)
}

/// The page of a PROPFIND that asks for no finite depth: 403, with the condition `propfind-finite-depth` (RFC 4918
/// section 9.1).
#[tactic(auto, unfolding(crate::specs::Pages::finite_depth_page))]
pub fn finite_depth_page(alloc: Global, shape: &Shape) -> Result<Page, NoMemory>
    ensures { IfOk result (λ page. page ≡ pages.finite_depth_page shape.now) }
{
    let mut text = declared(alloc)?;
    text.add(b"<D:error xmlns:D=\"DAV:\"><D:propfind-finite-depth/></D:error>")?;
    xml_page(alloc, 403, &text, shape)
}
