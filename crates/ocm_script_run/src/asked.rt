//! What the lines of a script ask of the servers that they name.
ghost use Rattle.std.specs.Prelude.{◌≡◌, ◌++◌, [], Some, IfOk, IsTrue};
ghost use Rattle.std.specs.Result.{result_err};
ghost use Rattle.ocm_entry.specs.declared.asks.Ask.TheVariants as asks;
ghost use Rattle.ocm_entry.specs.declared.asks.Method.TheVariants as methods;
ghost use Rattle.ocm_entry.specs.Proper.{is_proper};
ghost use Rattle.ocm_records.specs.Fields.{name_of};
ghost use Rattle.ocm_script.specs.Events.{bytes_of};
ghost use Rattle.ocm_entry.specs.Deliveries as deliveries;
ghost use Rattle.ocm_script_run.specs.Asked as asked;

use crate::line_parts::joined;
use ocm_base::{Bytes, NoMemory, and};
use ocm_entry::{Ask, Cmd, Method};
use ocm_path::Path;
use ocm_records::{Field, RecordFault};
use ocm_script::{Body, Event};
use ocm_types::{Fresh, Letter, Name, Notice, Offer, Secret};
use std::alloc::Global;

/// The ask of a script's line, if it is one, to the server that the line names.
pub fn ask_of(alloc: Global, event: &Event) -> Result<Option<Ask>, NoMemory>
    ensures { IfOk result (λ ask. ask ≡ asked.ask_of event.now) }
{
    match event {
        Event::Quiet
        | Event::Node { host: _ }
        | Event::Deliver {
            host: _,
            number: _,
            fresh: _,
            lost: _,
        }
        | Event::Pump { host: _, fresh: _ }
        | Event::Raw {
            host: _,
            fresh: _,
            bytes: _,
        }
        | Event::Clock { host: _, clock: _ }
        | Event::Fuse { host: _, calls: _ }
        | Event::Crash { host: _, left: _ } => Ok(None),
        Event::User {
            host: _,
            name,
            fresh,
        } => user_ask(name, *fresh),
        Event::Local { host: _, key, cmd } => local_ask(key, cmd),
        Event::Dav {
            host: _,
            secret,
            method,
            path,
        } => Ok(Some(dav_ask(alloc, secret, *method, path)?)),
        Event::Put {
            host: _,
            secret,
            path,
            body,
        } => put_ask(alloc, secret, path, body),
        Event::Carry {
            host: _,
            secret,
            from,
            to,
            moving,
            overwrite,
        } => carry_ask(secret, from, to, *moving, *overwrite),
        Event::Offer { host: _, offer } => offer_ask(offer),
        Event::Notice {
            host: _,
            fresh,
            notice,
        } => notice_ask(*fresh, notice),
    }
}

fn user_ask(name: &Name, fresh: Fresh) -> Result<Option<Ask>, NoMemory>
    ensures { IfOk result (λ ask. ask ≡ Some (asks.AddUser name.now fresh)) }
{
    let name = name.copy()?;
    Ok(Some(Ask::AddUser { name, fresh }))
}

fn local_ask(key: &Secret, cmd: &Cmd) -> Result<Option<Ask>, NoMemory>
    ensures { IfOk result (λ ask. ask ≡ Some (asks.Local key.now cmd.now)) }
{
    let (key, cmd) = and(key.copy()?, cmd.copy())?;
    Ok(Some(Ask::Local { key, cmd }))
}

/// The same secret and path once more.
fn copies(secret: &Secret, path: &Path) -> Result<(Secret, Path), NoMemory>
    ensures { IfOk result (λ both. (both.0 ≡ secret.now) × (both.1 ≡ path.now)) }
{
    and(secret.copy()?, path.copy())
}

/// The ask of a request without a body.
pub fn dav_ask(alloc: Global, secret: &Secret, method: Method, path: &Path) -> Result<Ask, NoMemory>
    ensures { IfOk result (λ ask. ask ≡ asks.Dav secret.now method path.now []) }
{
    let (secret, path) = copies(secret, path)?;
    let body = Bytes::new(alloc);
    Ok(Ask::Dav {
        secret,
        method,
        path,
        body,
    })
}

fn put_ask(
    alloc: Global,
    secret: &Secret,
    path: &Path,
    body: &Body,
) -> Result<Option<Ask>, NoMemory>
    ensures { IfOk result (λ ask. ask ≡ Some (asks.Dav secret.now methods.Put path.now (bytes_of body.now))) }
{
    let ((secret, path), body) = and(copies(secret, path)?, body.bytes(alloc))?;
    Ok(Some(Ask::Dav {
        secret,
        method: Method::Put,
        path,
        body,
    }))
}

fn carry_ask(
    secret: &Secret,
    from: &Path,
    to: &Path,
    moving: bool,
    overwrite: bool,
) -> Result<Option<Ask>, NoMemory>
    ensures { IfOk result (λ ask. ask ≡ Some (asks.Carry secret.now from.now to.now moving overwrite)) }
{
    let ((secret, from), to) = and(copies(secret, from)?, to.copy())?;
    Ok(Some(Ask::Carry {
        secret,
        from,
        to,
        moving,
        overwrite,
    }))
}

fn offer_ask(offer: &Result<Offer, RecordFault>) -> Result<Option<Ask>, NoMemory>
    ensures { IfOk result (λ ask. ask ≡ asked.offer_ask offer.now) }
{
    match offer {
        Ok(offer) => {
            let offer = offer.copy()?;
            Ok(Some(Ask::Offer { offer }))
        }
        Err(_) => Ok(None),
    }
}

fn notice_ask(fresh: Fresh, notice: &Result<Notice, RecordFault>) -> Result<Option<Ask>, NoMemory>
    ensures { IfOk result (λ ask. ask ≡ asked.notice_ask fresh notice.now) }
{
    match notice {
        Ok(notice) => {
            let notice = notice.copy()?;
            Ok(Some(Ask::Notice { notice, fresh }))
        }
        Err(_) => Ok(None),
    }
}

/// Whether the bytes of a file that is got are shown: a HEAD shows only how many there are.
pub fn shows_digits(event: &Event) -> bool
    ensures { result ≡ asked.shows_digits event.now }
{
    !matches!(
        event,
        Event::Dav {
            method: Method::Head,
            ..
        }
    )
}

/// What is wrong with the record of a line, if it has one.
pub fn fault_of(event: &Event) -> Option<RecordFault>
    ensures { result ≡ asked.fault_of event.now }
{
    match event {
        Event::Offer { host: _, offer } => fault_in(offer),
        Event::Notice {
            host: _,
            fresh: _,
            notice,
        } => fault_in(notice),
        _ => None,
    }
}

/// What is wrong with what was read, if something is.
fn fault_in<A>(read: &Result<A, RecordFault>) -> Option<RecordFault>
    ensures { result ≡ result_err read.now }
{
    match read {
        Ok(_) => None,
        Err(fault) => Some(*fault),
    }
}

/// How a transcript shows what is wrong with a record.
pub fn fault_text(alloc: Global, fault: RecordFault) -> Result<Bytes, NoMemory>
    ensures { IfOk result (λ text. text ≡ asked.fault_text fault) }
{
    match fault {
        RecordFault::NotJson => Bytes::of(alloc, b"400 not json"),
        RecordFault::NotObject => Bytes::of(alloc, b"400 not an object"),
        RecordFault::Missing(field) => named(alloc, b"400 missing ", field),
        RecordFault::Kind(field) => named(alloc, b"400 wrong kind ", field),
        RecordFault::Value(field) => named(alloc, b"400 bad value ", field),
        RecordFault::Unsupported(field) => named(alloc, b"501 not supported ", field),
        RecordFault::NoMemory => Bytes::of(alloc, b"500 no memory"),
    }
}

fn named(alloc: Global, front: &[u8], field: Field) -> Result<Bytes, NoMemory>
    ensures { IfOk result (λ text. text ≡ front.now ++ name_of field) }
{
    joined(alloc, front, field.name().as_bytes())
}

/// The ask that a letter is at the server that it is for, with these drawn bytes.
pub fn letter_ask(letter: &Letter, fresh: Fresh) -> Result<Ask, NoMemory>
    ensures ask { IfOk result (λ ask. ask ≡ deliveries.letter_ask letter.now fresh) }
    ensures proper { IfOk result (λ ask. IsTrue (is_proper ask)) }
{
    match letter {
        Letter::Offer(offer) => Ok(Ask::Offer {
            offer: offer.copy()?,
        }),
        Letter::Notice(notice) => Ok(Ask::Notice {
            notice: notice.copy()?,
            fresh,
        }),
    }
}
