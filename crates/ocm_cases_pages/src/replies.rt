//! Replies from words.
ghost use Rattle.std.specs.Prelude.{IfSome};
ghost use Rattle.ocm_dav_pages.specs.Pages.{HasPage};

use ocm_base::List;
use ocm_entry::{AddressField, DavChild, DavItems, Line, Reply, Why};
use ocm_path::Path;
use ocm_records::read_offer;
use ocm_types::{Address, Name, Perms, Phase, ProviderId, RequestPhase, Secret, Which};
use std::alloc::Global;

/// The reply of these words: its kind, and behind a space what it holds.
pub fn reply_of(alloc: Global, row: &str) -> Option<Reply>
    ensures { IfSome result HasPage }
{
    let (kind, rest) = row.split_once(' ').unwrap_or((row, ""));
    match kind {
        "key" => key_reply(alloc, rest),
        "recipient" => recipient_reply(alloc, rest),
        "items" => items_reply(alloc, rest),
        "listing" => listing_reply(alloc, rest),
        "refused" => refused_reply(rest),
        _ => small_reply(kind, rest),
    }
}

fn key_reply(alloc: Global, word: &str) -> Option<Reply>
    ensures { IfSome result HasPage }
{
    match Secret::read(alloc, word) {
        Ok(key) => Some(Reply::Key { key }),
        Err(_) => None,
    }
}

fn recipient_reply(alloc: Global, word: &str) -> Option<Reply>
    ensures { IfSome result HasPage }
{
    match Name::read(alloc, word) {
        Ok(user) => Some(Reply::Recipient { user }),
        Err(_) => None,
    }
}

fn items_reply(alloc: Global, row: &str) -> Option<Reply>
    ensures { IfSome result HasPage }
{
    match items(alloc, row) {
        Some(items) => Some(Reply::Items { items }),
        None => None,
    }
}

fn listing_reply(alloc: Global, row: &str) -> Option<Reply>
    ensures { IfSome result HasPage }
{
    match lines(alloc, row) {
        Some(lines) => Some(Reply::Listing { lines }),
        None => None,
    }
}

fn refused_reply(words: &str) -> Option<Reply>
    ensures { IfSome result HasPage }
{
    match why_of(words) {
        Some(why) => Some(Reply::Refused { why }),
        None => None,
    }
}

/// A reply that holds a number or nothing.
fn small_reply(kind: &str, rest: &str) -> Option<Reply>
    ensures { IfSome result HasPage }
{
    match kind {
        "number" => Some(Reply::Number {
            number: rest.parse().ok()?,
        }),
        "child" => Some(Reply::Child {
            id: rest.parse().ok()?,
        }),
        "disk-fault" => Some(Reply::DiskFault {
            count: rest.parse().ok()?,
        }),
        "stopped" => Some(Reply::Stopped {
            count: rest.parse().ok()?,
        }),
        _ => bare_reply(kind),
    }
}

fn bare_reply(kind: &str) -> Option<Reply>
    ensures { IfSome result HasPage }
{
    match kind {
        "done" => Some(Reply::Done),
        "replaced" => Some(Reply::Replaced),
        "removed" => Some(Reply::Removed),
        "created" => Some(Reply::Created),
        "noticed" => Some(Reply::Noticed),
        "journal-full" => Some(Reply::JournalFull),
        "no-memory" => Some(Reply::NoMemory),
        _ => None,
    }
}

/// The reason of these words: one of each status and each form.
fn why_of(words: &str) -> Option<Why> {
    match words {
        "unauthorized" => Some(Why::Unauthorized),
        "not-permitted" => Some(Why::NotPermitted),
        "not-found" => Some(Why::NotFound),
        "not-allowed" => Some(Why::NotAllowed),
        "wrong-phase" => Some(Why::WrongPhase),
        "occupied" => Some(Why::Occupied),
        "body-refused" => Some(Why::BodyRefused),
        "limit-nodes" => Some(Why::Limit {
            which: Which::Nodes,
        }),
        "sender-id-reused" => Some(Why::SenderIdReused),
        "not-our-host" => Some(Why::NotOurHost),
        "unknown-user" => Some(Why::UnknownUser),
        "own-host-owner" => Some(Why::OwnHost {
            field: AddressField::Owner,
        }),
        _ => None,
    }
}

/// Items, each as a path and a size, with `-` for the size of a collection, and `, ` between them: what stands at a
/// path, and then what lies in it.
fn items(alloc: Global, row: &str) -> Option<DavItems> {
    let (first, rest) = row.split_once(", ").unwrap_or((row, ""));
    let inside = children(alloc, rest)?;
    match item(alloc, first) {
        Some((path, size)) => Some(DavItems::of(path, size, inside)),
        None => {
            drop(inside);
            None
        }
    }
}

fn children(alloc: Global, row: &str) -> Option<List<DavChild>> {
    let mut inside = List::new(alloc);
    match add_children(alloc, &mut inside, row) {
        Some(()) => Some(inside),
        None => {
            drop(inside);
            None
        }
    }
}

fn add_children(alloc: Global, inside: &mut List<DavChild>, row: &str) -> Option<()> {
    for words in row.split(", ") {
        if !words.is_empty() {
            inside.push(child(alloc, words)?).ok()?;
        }
    }
    Some(())
}

fn child(alloc: Global, words: &str) -> Option<DavChild> {
    let (path, size) = item(alloc, words)?;
    let name = match path.last() {
        Some(name) => Some(name.copy().ok()?),
        None => None,
    };
    Some(DavChild { name, size })
}

fn item(alloc: Global, words: &str) -> Option<(Path, Option<u64>)> {
    let (path, size) = words.split_once(' ')?;
    let size = size_of(size)?;
    let path = Path::read(alloc, path).ok()?;
    Some((path, size))
}

fn size_of(word: &str) -> Option<Option<u64>> {
    if word == "-" {
        return Some(None);
    }
    match word.parse() {
        Ok(size) => Some(Some(size)),
        Err(_) => None,
    }
}

/// Lines of what a user has, with `; ` between them.
fn lines(alloc: Global, row: &str) -> Option<List<Line>> {
    let mut lines = List::new(alloc);
    match add_lines(alloc, &mut lines, row) {
        Some(()) => Some(lines),
        None => {
            drop(lines);
            None
        }
    }
}

fn add_lines(alloc: Global, lines: &mut List<Line>, row: &str) -> Option<()> {
    for words in row.split("; ") {
        if !words.is_empty() {
            add_line(alloc, lines, words)?;
        }
    }
    Some(())
}

fn add_line(alloc: Global, lines: &mut List<Line>, words: &str) -> Option<()> {
    let line = line(alloc, words)?;
    lines.push(line).ok()
}

fn line(alloc: Global, words: &str) -> Option<Line> {
    let (kind, rest) = words.split_once(' ')?;
    match kind {
        "share" => share_line(alloc, rest),
        "received" => received_line(alloc, rest),
        "request" => request_line(alloc, rest),
        _ => None,
    }
}

/// A live share: its number, its path, the recipient and the permissions.
fn share_line(alloc: Global, words: &str) -> Option<Line> {
    let (id, rest) = words.split_once(' ')?;
    let (path, rest) = rest.split_once(' ')?;
    let (with, perms) = rest.split_once(' ')?;
    let id = id.parse().ok()?;
    let perms = Perms::read_list(perms)?;
    let path = Path::read(alloc, path).ok()?;
    share_with(alloc, id, path, with, perms)
}

fn share_with(alloc: Global, id: u32, path: Path, with: &str, perms: Perms) -> Option<Line> {
    match Address::read(alloc, with) {
        Ok(with) => Some(Line::Share {
            id,
            path,
            with,
            perms,
            live: true,
        }),
        Err(_) => {
            drop(path);
            None
        }
    }
}

/// A received share that is confirmed: its number and the record of its offer.
fn received_line(alloc: Global, words: &str) -> Option<Line> {
    let (number, record) = words.split_once(' ')?;
    let number = number.parse().ok()?;
    match read_offer(alloc, record.as_bytes()) {
        Ok(offer) => Some(Line::Received {
            number,
            offer,
            phase: Phase::Confirmed,
        }),
        Err(_) => None,
    }
}

/// A request: its number, that of the received share, the recipient, the permissions and the child, with `-` for what it
/// doesn't have. One with a child is granted.
fn request_line(alloc: Global, words: &str) -> Option<Line> {
    let (number, rest) = words.split_once(' ')?;
    let (received, rest) = rest.split_once(' ')?;
    let (with, rest) = rest.split_once(' ')?;
    let (perms, child) = rest.split_once(' ')?;
    let number = number.parse().ok()?;
    let received = received.parse().ok()?;
    let with = Address::read(alloc, with).ok()?;
    request_in(
        number,
        received,
        with,
        Perms::read_list(perms),
        phase_of(alloc, child),
    )
}

fn request_in(
    number: u32,
    received: u32,
    with: Address,
    perms: Option<Perms>,
    state: Option<RequestPhase>,
) -> Option<Line> {
    match state {
        Some(state) => Some(Line::Request {
            number,
            received,
            with,
            perms,
            state,
        }),
        None => {
            drop(with);
            None
        }
    }
}

fn phase_of(alloc: Global, child: &str) -> Option<RequestPhase> {
    if child == "-" {
        return Some(RequestPhase::Asked);
    }
    match ProviderId::read(alloc, child) {
        Ok(child) => Some(RequestPhase::Granted { child }),
        Err(_) => None,
    }
}
