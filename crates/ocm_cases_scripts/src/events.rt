use crate::commands::add_command;
use crate::words::{add_digits, add_fresh, add_number, add_path, add_word};
use ocm_base::NoMemory;
use ocm_entry::Method;
use ocm_records::RecordFault;
use ocm_script::{Body, Crash, Event};
use ocm_types::{Host, Secret};
use std::alloc::Global;

/// What a line says: the kind of the event, and its fields.
pub fn add_event(alloc: Global, told: &mut String, event: &Event) -> Result<(), NoMemory> {
    match event {
        Event::Node { host } => add_at(told, "node", host),
        Event::User { host, name, fresh } => {
            add_at(told, "user", host)?;
            add_word(told, name.as_str())?;
            add_fresh(alloc, told, *fresh)
        }
        Event::Local { host, key, cmd } => {
            add_by(told, "local", host, key)?;
            add_command(alloc, told, cmd)
        }
        Event::Clock { host, clock } => {
            add_at(told, "clock", host)?;
            add_number(alloc, told, *clock as u64)
        }
        _ => add_request(alloc, told, event),
    }
}

/// The same of a request for files.
fn add_request(alloc: Global, told: &mut String, event: &Event) -> Result<(), NoMemory> {
    match event {
        Event::Dav {
            host,
            secret,
            method,
            path,
        } => {
            add_by(told, method_word(*method), host, secret)?;
            add_path(told, path)
        }
        Event::Put {
            host,
            secret,
            path,
            body,
        } => {
            add_by(told, "put", host, secret)?;
            add_path(told, path)?;
            add_body(alloc, told, body)
        }
        Event::Carry {
            host,
            secret,
            from,
            to,
            moving,
            overwrite,
        } => {
            add_by(told, if *moving { "move" } else { "copy" }, host, secret)?;
            add_path(told, from)?;
            add_path(told, to)?;
            add_word(told, if *overwrite { "overwrite" } else { "keep" })
        }
        _ => add_letter(alloc, told, event),
    }
}

/// The same of what comes from another server or goes to one.
fn add_letter(alloc: Global, told: &mut String, event: &Event) -> Result<(), NoMemory> {
    match event {
        Event::Offer { host, offer } => {
            add_at(told, "offer", host)?;
            add_fault(alloc, told, offer.as_ref().err())
        }
        Event::Notice {
            host,
            fresh,
            notice,
        } => {
            add_at(told, "notice", host)?;
            add_fresh(alloc, told, *fresh)?;
            add_fault(alloc, told, notice.as_ref().err())
        }
        Event::Deliver {
            host,
            number,
            fresh,
            lost,
        } => {
            add_at(told, if *lost { "lost" } else { "deliver" }, host)?;
            add_number(alloc, told, *number as u64)?;
            add_fresh(alloc, told, *fresh)
        }
        Event::Pump { host, fresh } => {
            add_at(told, "pump", host)?;
            add_fresh(alloc, told, *fresh)
        }
        _ => add_outside(alloc, told, event),
    }
}

/// The same of what happens to a server's disk, and of bytes that come to it.
fn add_outside(alloc: Global, told: &mut String, event: &Event) -> Result<(), NoMemory> {
    match event {
        Event::Raw { host, fresh, bytes } => {
            add_at(told, "raw", host)?;
            add_fresh(alloc, told, *fresh)?;
            add_digits(alloc, told, bytes)
        }
        Event::Fuse { host, calls } => {
            add_at(told, "fuse", host)?;
            add_number(alloc, told, *calls as u64)
        }
        Event::Crash { host, left } => {
            add_at(told, "crash", host)?;
            add_word(told, left_word(*left))
        }
        _ => add_word(told, "quiet"),
    }
}

/// The kind, and the server that it is about.
fn add_at(told: &mut String, kind: &str, host: &Host) -> Result<(), NoMemory> {
    add_word(told, kind)?;
    add_word(told, host.as_str())
}

/// The kind, the server, and by whose key or secret.
fn add_by(told: &mut String, kind: &str, host: &Host, secret: &Secret) -> Result<(), NoMemory> {
    add_at(told, kind, host)?;
    add_word(told, secret.as_str())
}

fn method_word(method: Method) -> &'static str {
    match method {
        Method::Get => "get",
        Method::Head => "head",
        Method::Put => "put",
        Method::Delete => "delete",
        Method::Mkcol => "mkcol",
        Method::List0 => "list0",
        Method::List1 => "list1",
    }
}

fn left_word(left: Crash) -> &'static str {
    match left {
        Crash::Old => "old",
        Crash::New => "new",
        Crash::Torn => "torn",
    }
}

/// The digits of the bytes, or the byte and how often.
fn add_body(alloc: Global, told: &mut String, body: &Body) -> Result<(), NoMemory> {
    match body {
        Body::Given(bytes) => {
            add_word(told, "given")?;
            add_digits(alloc, told, bytes)
        }
        Body::Fill { byte, count } => {
            add_word(told, "fill")?;
            add_number(alloc, told, *byte as u64)?;
            add_number(alloc, told, *count as u64)
        }
    }
}

/// Why the bytes are no such record, where they are none.
fn add_fault(
    alloc: Global,
    told: &mut String,
    fault: Option<&RecordFault>,
) -> Result<(), NoMemory> {
    match fault {
        Some(fault) => {
            let text = format!(in alloc; "{fault:?}")?;
            add_word(told, text.as_str())
        }
        None => add_word(told, "read"),
    }
}
