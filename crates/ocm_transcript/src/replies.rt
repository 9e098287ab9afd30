//! The lines of a reply: its first line, and the further lines of what a user lists or of what stands in a
//! collection.

ghost use Rattle.std.specs.Prelude.{◌≡◌, ◌++◌, ◌∷◌, map, IfOk, OnOk};
ghost use Rattle.std.specs.Fmt.{decimal};
ghost use Rattle.std.specs.List.{flat_map};
ghost use Rattle.ocm_texts.specs.Hex.{hex};
ghost use Rattle.ocm_entry.specs.Listings.{item_in};
ghost use Rattle.ocm_path.specs.Escapes.{escape};
ghost use Rattle.ocm_transcript.specs.Items.{item_text, listing_text};
ghost use Rattle.ocm_transcript.specs.Texts as texts;

use crate::items::{add_child, add_item, add_listed};
use crate::lines::{add_escaped, add_number, line_start};
use ocm_base::{Bytes, NoMemory, hex_of};
use ocm_entry::{DavChild, DavItems, Line, Reply, Why};
use ocm_path::Path;
use ocm_types::Host;
use std::alloc::Global;

/// Adds words and a number behind them.
fn add_counted(alloc: Global, text: &mut Bytes, words: &[u8], number: u64) -> Result<(), NoMemory>
    ensures { OnOk result (text.new ≡ text.old ++ (words.now ++ decimal number)) }
{
    text.add(words)?;
    add_number(alloc, text, number)?;
    Ok(())
}

/// Adds words and a text behind them, which is escaped.
fn add_named(alloc: Global, text: &mut Bytes, words: &[u8], name: &str) -> Result<(), NoMemory>
    ensures { OnOk result (text.new ≡ text.old ++ (words.now ++ escape name.now)) }
{
    text.add(words)?;
    add_escaped(alloc, text, name)?;
    Ok(())
}

/// Adds a space and the bytes as digits, where they are to be shown.
fn add_digits(alloc: Global, text: &mut Bytes, body: &[u8]) -> Result<(), NoMemory>
    ensures { OnOk result (text.new ≡ text.old ++ 32 ∷ hex body.now) }
{
    let digits = hex_of(alloc, body)?;
    text.add(b" ")?;
    text.add(digits.as_str().as_bytes())?;
    Ok(())
}

/// Adds how many bytes a file has, and their digits where there are any and they are to be shown.
fn add_file(alloc: Global, text: &mut Bytes, digits: bool, body: &[u8]) -> Result<(), NoMemory>
    ensures { OnOk result (text.new ≡ text.old ++ texts.file_text digits body.now) }
{
    if body.is_empty() {
        text.add(b"200 0")?;
        return Ok(());
    }
    add_counted(alloc, text, b"200 ", body.len() as u64)?;
    if digits {
        add_digits(alloc, text, body)?;
    }
    Ok(())
}

/// Adds a refusal: its status and its words.
fn add_refusal(alloc: Global, text: &mut Bytes, why: Why) -> Result<(), NoMemory>
    ensures { OnOk result (text.new ≡ text.old ++ texts.refusal_text why) }
{
    add_number(alloc, text, why.status() as u64)?;
    text.add(b" ")?;
    text.add(why.message().as_bytes())?;
    Ok(())
}

/// Adds a reply, its further lines aside.
fn add_reply(alloc: Global, text: &mut Bytes, digits: bool, reply: &Reply) -> Result<(), NoMemory>
    ensures { OnOk result (text.new ≡ text.old ++ texts.reply_text digits reply.now) }
{
    match reply {
        Reply::Key { key } => add_named(alloc, text, b"201 key ", key.as_str()),
        Reply::Number { number } => add_counted(alloc, text, b"201 number ", *number as u64),
        Reply::Listing { lines } => add_counted(alloc, text, b"200 ", lines.len() as u64),
        Reply::Recipient { user } => add_named(alloc, text, b"201 recipient ", user.as_str()),
        Reply::Child { id } => add_counted(alloc, text, b"201 child ", *id as u64),
        Reply::File { body } => add_file(alloc, text, digits, body.as_slice()),
        Reply::Items { items } => add_counted(alloc, text, b"207 ", items.len() as u64),
        Reply::Due { messages } => add_counted(alloc, text, b"due ", messages.len() as u64),
        Reply::Refused { why } => add_refusal(alloc, text, *why),
        Reply::DiskFault { count } => add_counted(alloc, text, b"503 disk fault ", *count),
        Reply::Stopped { count } => add_counted(alloc, text, b"503 stopped ", *count),
        Reply::Done | Reply::Replaced | Reply::Removed => text.add(b"204"),
        Reply::Created | Reply::Noticed => text.add(b"201"),
        Reply::Left => text.add(b"left"),
        Reply::JournalFull => text.add(b"507 journal full"),
        Reply::NoMemory => text.add(b"500 no memory"),
    }
}

fn add_listed_line(alloc: Global, text: &mut Bytes, line: &Line) -> Result<(), NoMemory>
    ensures { OnOk result (text.new ≡ text.old ++ texts.further_line (listing_text line.now)) }
{
    text.add(b"  ")?;
    add_listed(alloc, text, line)?;
    text.add(b"\n")?;
    Ok(())
}

fn add_listing(alloc: Global, text: &mut Bytes, lines: &[Line]) -> Result<(), NoMemory>
    ensures { OnOk result (text.new
        ≡ text.old ++ flat_map texts.further_line (map listing_text lines.now)) }
{
    for line in lines {
        add_listed_line(alloc, text, line)?;
    }
    Ok(())
}

fn add_child_line(
    alloc: Global,
    text: &mut Bytes,
    path: &Path,
    child: &DavChild,
) -> Result<(), NoMemory>
    ensures { OnOk result (text.new
        ≡ text.old ++ texts.further_line (item_text (item_in path.now child.now))) }
{
    text.add(b"  ")?;
    add_child(alloc, text, path, child)?;
    text.add(b"\n")?;
    Ok(())
}

fn add_children(
    alloc: Global,
    text: &mut Bytes,
    path: &Path,
    inside: &[DavChild],
) -> Result<(), NoMemory>
    ensures { OnOk result (text.new
        ≡ text.old ++ flat_map texts.further_line (map item_text (map (item_in path.now) inside.now))) }
{
    for child in inside {
        add_child_line(alloc, text, path, child)?;
    }
    Ok(())
}

fn add_items(alloc: Global, text: &mut Bytes, items: &DavItems) -> Result<(), NoMemory>
    ensures { OnOk result (text.new
        ≡ text.old ++ flat_map texts.further_line (map item_text items.now)) }
{
    text.add(b"  ")?;
    add_item(alloc, text, items.path(), items.size())?;
    text.add(b"\n")?;
    add_children(alloc, text, items.path(), items.inside())
}

/// Adds the further lines of a reply.
fn add_further(alloc: Global, text: &mut Bytes, reply: &Reply) -> Result<(), NoMemory>
    ensures { OnOk result (text.new
        ≡ text.old ++ flat_map texts.further_line (texts.further reply.now)) }
{
    match reply {
        Reply::Listing { lines } => add_listing(alloc, text, lines.as_slice()),
        Reply::Items { items } => add_items(alloc, text, items),
        _ => Ok(()),
    }
}

/// The lines that a transcript shows of a reply to the script's line of this number. Of a file they show
/// the bytes as digits, or only how many there are.
pub fn reply_lines(
    alloc: Global,
    number: u32,
    digits: bool,
    reply: &Reply,
) -> Result<Bytes, NoMemory>
    ensures { IfOk result (λ lines. lines ≡ texts.reply_lines number digits reply.now) }
{
    let mut lines = line_start(alloc, number)?;
    add_reply(alloc, &mut lines, digits, reply)?;
    lines.add(b"\n")?;
    add_further(alloc, &mut lines, reply)?;
    Ok(lines)
}

/// The line of a reply that one server gave to another. The front says which of the two the host is of.
pub fn told_line(
    alloc: Global,
    number: u32,
    front: &[u8],
    host: &Host,
    reply: &Reply,
) -> Result<Bytes, NoMemory>
    ensures { IfOk result (λ line. line ≡ texts.told_line number front.now host.now reply.now) }
{
    let mut line = line_start(alloc, number)?;
    line.add(front)?;
    line.add(b" ")?;
    line.add(host.as_str().as_bytes())?;
    line.add(b" ")?;
    add_reply(alloc, &mut line, true, reply)?;
    line.add(b"\n")?;
    Ok(line)
}
