//! The bytes of asks. Each function is one row of the format, or a few of one shape.

ghost use Rattle.std.specs.Prelude.{◌≡◌, ◌<◌, ◌++◌, ◌∷◌, IsTrue, IfOk, OnOk};
ghost use Rattle.ocm_entry.specs.declared.asks.Ask.TheVariants as asks;
ghost use Rattle.ocm_entry.specs.declared.asks.Cmd.TheVariants as commands;
ghost use Rattle.ocm_entry.specs.Proper as proper;
ghost use Rattle.ocm_entry_bytes.specs.Spells as spells;

use crate::appending::{
    add_address, add_body, add_carry_byte, add_eight_bytes, add_four_bytes, add_fresh, add_name,
    add_optional_address, add_optional_id, add_optional_perms, add_path, add_perms,
    add_provider_id, add_secret, add_sender_id, add_share_name, add_two_bytes,
};
use ocm_base::{Bytes, NoMemory};
use ocm_entry::{Ask, Cmd, Method};
use ocm_limits::{MOST_ASKED_PATH_BYTES, MOST_FILE_BYTES};
use ocm_path::Path;
use ocm_types::{Address, Fresh, Notice, Offer, Perms, ProviderId, Secret};
use std::alloc::Global;

/// A command that names one number alone.
fn add_numbered(out: &mut Bytes, kind: u8, number: u32) -> Result<(), NoMemory>
    ensures { OnOk result (out.new ≡ out.old ++ (kind ∷ spells.four_bytes number)) }
{
    out.add(&[kind])?;
    add_four_bytes(out, number)?;
    Ok(())
}

fn add_share(
    alloc: Global,
    out: &mut Bytes,
    path: &Path,
    with: &Address,
    perms: &Perms,
    fresh: &Fresh,
) -> Result<(), NoMemory>
    requires { IsTrue (proper.is_short path.now) }
    ensures ok { OnOk result (out.new
        ≡ out.old ++ spells.command (commands.Share path.now with.now perms.now fresh.now)) }
    ensures fits { OnOk result
        (spells.FitsCommand (commands.Share path.now with.now perms.now fresh.now)) }
{
    out.add(&[1])?;
    add_path(out, path)?;
    add_address(alloc, out, with)?;
    add_perms(out, perms)?;
    add_fresh(out, fresh)
}

fn add_command(alloc: Global, out: &mut Bytes, cmd: &Cmd) -> Result<(), NoMemory>
    requires { IsTrue (spells.command_has_spelling cmd.now) }
    ensures ok { OnOk result (out.new ≡ out.old ++ spells.command cmd.now) }
    ensures fits { OnOk result (spells.FitsCommand cmd.now) }
{
    match cmd {
        Cmd::Share {
            path,
            with,
            perms,
            fresh,
        } => add_share(alloc, out, path, with, perms, fresh),
        Cmd::Unshare { id } => add_numbered(out, 2, *id),
        Cmd::Limit { id, perms } => {
            add_numbered(out, 3, *id)?;
            add_perms(out, perms)
        }
        Cmd::Accept { number } => add_numbered(out, 4, *number),
        Cmd::Decline { number } => add_numbered(out, 5, *number),
        Cmd::Reshare {
            number,
            with,
            perms,
        } => {
            add_numbered(out, 6, *number)?;
            add_address(alloc, out, with)?;
            add_optional_perms(out, perms)
        }
        Cmd::Undo { request } => add_numbered(out, 7, *request),
        Cmd::List => Ok(()),
        Cmd::Expire { id, until } => {
            add_numbered(out, 8, *id)?;
            add_eight_bytes(out, *until)
        }
    }
}

fn add_offer(alloc: Global, out: &mut Bytes, offer: &Offer) -> Result<(), NoMemory>
    ensures ok { OnOk result (out.new ≡ out.old ++ spells.offer offer.now) }
    ensures fits { OnOk result (spells.FitsOffer offer.now) }
{
    add_address(alloc, out, &offer.with)?;
    add_share_name(out, &offer.name)?;
    add_provider_id(out, &offer.id)?;
    add_address(alloc, out, &offer.owner)?;
    add_address(alloc, out, &offer.sender)?;
    add_secret(out, &offer.secret)?;
    add_perms(out, &offer.perms)?;
    Ok(())
}

/// The front of a notification: its kind, and the share that it is about.
fn add_about(out: &mut Bytes, kind: u8, id: &ProviderId, secret: &Secret) -> Result<(), NoMemory>
    ensures ok { OnOk result (out.new
        ≡ out.old ++ ((kind ∷ spells.text id.now) ++ spells.text secret.now)) }
    ensures id { OnOk result (spells.IsProviderId id.now) }
    ensures secret { OnOk result (spells.IsSecret secret.now) }
{
    out.add(&[kind])?;
    add_provider_id(out, id)?;
    add_secret(out, secret)?;
    Ok(())
}

fn add_notice(alloc: Global, out: &mut Bytes, notice: &Notice) -> Result<(), NoMemory>
    ensures ok { OnOk result (out.new ≡ out.old ++ spells.notice notice.now) }
    ensures fits { OnOk result (spells.FitsNotice notice.now) }
{
    match notice {
        Notice::Accepted {
            id,
            secret,
            owner,
            with,
            perms,
        } => {
            add_about(out, 1, id, secret)?;
            add_optional_address(alloc, out, owner)?;
            add_optional_address(alloc, out, with)?;
            add_optional_perms(out, perms)
        }
        Notice::Declined { id, secret } => add_about(out, 2, id, secret),
        Notice::Unshared { id, secret } => add_about(out, 3, id, secret),
        Notice::ReshareRequest {
            id,
            secret,
            with,
            sender_id,
            perms,
        } => {
            add_about(out, 4, id, secret)?;
            add_address(alloc, out, with)?;
            add_sender_id(out, sender_id)?;
            add_optional_perms(out, perms)
        }
        Notice::ReshareUndo { id, secret } => add_about(out, 5, id, secret),
        Notice::Changed {
            id,
            secret,
            serial,
            perms,
        } => {
            add_about(out, 6, id, secret)?;
            add_four_bytes(out, *serial)?;
            add_perms(out, perms)
        }
    }
}

fn method_byte(method: Method) -> u8
    ensures { result ≡ spells.method_byte method }
{
    match method {
        Method::Put => 1,
        Method::Delete => 2,
        Method::Mkcol => 3,
        Method::Get | Method::Head | Method::List0 | Method::List1 => 0,
    }
}

fn add_dav(
    out: &mut Bytes,
    secret: &Secret,
    method: Method,
    path: &Path,
    body: &Bytes,
) -> Result<(), NoMemory>
    requires { IsTrue (spells.has_spelling (asks.Dav secret.now method path.now body.now)) }
    ensures ok { OnOk result (out.new
        ≡ out.old ++ spells.spelling (asks.Dav secret.now method path.now body.now)) }
    ensures fits { OnOk result (spells.Fits (asks.Dav secret.now method path.now body.now)) }
{
    out.add(&[5, method_byte(method)])?;
    add_secret(out, secret)?;
    add_path(out, path)?;
    add_body(out, body)
}

fn add_carry(
    out: &mut Bytes,
    secret: &Secret,
    from: &Path,
    to: &Path,
    moving: bool,
    overwrite: bool,
) -> Result<(), NoMemory>
    requires { IsTrue (spells.has_spelling (asks.Carry secret.now from.now to.now moving overwrite)) }
    ensures ok { OnOk result (out.new
        ≡ out.old ++ spells.spelling (asks.Carry secret.now from.now to.now moving overwrite)) }
    ensures fits { OnOk result
        (spells.Fits (asks.Carry secret.now from.now to.now moving overwrite)) }
{
    out.add(&[8])?;
    add_secret(out, secret)?;
    add_path(out, from)?;
    add_path(out, to)?;
    add_carry_byte(out, moving, overwrite)
}

fn is_short(path: &Path) -> bool
    ensures { result ≡ proper.is_short path.now }
{
    path.text_len() <= MOST_ASKED_PATH_BYTES
}

fn has_kept_body(method: Method, body: &Bytes) -> bool
    ensures { result ≡ spells.has_kept_body method body.now }
{
    match method {
        Method::Put => body.len() <= MOST_FILE_BYTES as usize,
        Method::Delete | Method::Mkcol => body.len() <= 0,
        Method::Get | Method::Head | Method::List0 | Method::List1 => false,
    }
}

fn command_has_spelling(cmd: &Cmd) -> bool
    ensures { result ≡ spells.command_has_spelling cmd.now }
{
    match cmd {
        Cmd::Share {
            path,
            with: _,
            perms: _,
            fresh: _,
        } => is_short(path),
        Cmd::List => false,
        _ => true,
    }
}

/// Whether the ask has bytes of its own: each that may change something has, where its paths have
/// at most 1,024 bytes of text and a file that is put at most 1,048,576 bytes.
pub fn has_spelling(ask: &Ask) -> bool
    ensures { result ≡ spells.has_spelling ask.now }
{
    match ask {
        Ask::Local { key: _, cmd } => command_has_spelling(cmd),
        Ask::Dav {
            secret: _,
            method,
            path,
            body,
        } => is_short(path) && has_kept_body(*method, body),
        Ask::Due => false,
        Ask::Carry {
            secret: _,
            from,
            to,
            moving: _,
            overwrite: _,
        } => is_short(from) && is_short(to),
        _ => true,
    }
}

/// The one spelling of the ask.
pub fn encode(alloc: Global, ask: &Ask) -> Result<Bytes, NoMemory>
    requires { IsTrue (spells.has_spelling ask.now) }
    ensures { IfOk result (λ bytes. spells.Spells ask.now bytes) }
{
    let mut out = Bytes::new(alloc);
    add_ask(alloc, &mut out, ask)?;
    Ok(out)
}

/// Adds the one spelling of the ask.
pub fn add_ask(alloc: Global, out: &mut Bytes, ask: &Ask) -> Result<(), NoMemory>
    requires { IsTrue (spells.has_spelling ask.now) }
    ensures ok { OnOk result (out.new ≡ out.old ++ spells.spelling ask.now) }
    ensures fits { OnOk result (spells.Fits ask.now) }
{
    match ask {
        Ask::AddUser { name, fresh } => {
            out.add(&[1])?;
            add_name(out, name)?;
            add_fresh(out, fresh)
        }
        Ask::Local { key, cmd } => {
            out.add(&[2])?;
            add_secret(out, key)?;
            add_command(alloc, out, cmd)
        }
        Ask::Offer { offer } => {
            out.add(&[3])?;
            add_offer(alloc, out, offer)
        }
        Ask::Notice { notice, fresh } => {
            out.add(&[4])?;
            add_notice(alloc, out, notice)?;
            add_fresh(out, fresh)
        }
        Ask::Dav {
            secret,
            method,
            path,
            body,
        } => add_dav(out, secret, *method, path, body),
        Ask::Due => Ok(()),
        Ask::Settle { number, status, id } => {
            out.add(&[6])?;
            add_four_bytes(out, *number)?;
            add_two_bytes(out, *status)?;
            add_optional_id(out, id)
        }
        Ask::Tick { clock } => {
            out.add(&[7])?;
            add_eight_bytes(out, *clock)
        }
        Ask::Carry {
            secret,
            from,
            to,
            moving,
            overwrite,
        } => add_carry(out, secret, from, to, *moving, *overwrite),
    }
}
