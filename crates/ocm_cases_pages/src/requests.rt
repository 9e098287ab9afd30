//! What requests want.
use crate::asks::ask_told;
use crate::pages::page_told;
use ocm_base::PureSource;
use ocm_cases_rows::bytes_of;
use ocm_dav::{Config, Wanted, ask_of};
use ocm_dav_pages::Shape;
use ocm_entry::Ask;
use ocm_http::{Head, Message, Reader};
use ocm_types::{Fresh, Host, Secret};
use std::alloc::Global;

/// What the request of these bytes wants of the server `a.example` with the administrator's key `admin`: its page, or the
/// ask with the shape of its page.
pub fn wanted_told(alloc: Global, row: &str) -> Option<String> {
    match message_of(alloc, row) {
        Some(message) => told_of(alloc, message),
        None => None,
    }
}

fn told_of(alloc: Global, message: Message) -> Option<String> {
    let wanted = wanted_of(alloc, config(alloc), &message);
    drop(message);
    match wanted {
        Some(wanted) => told(alloc, wanted),
        None => None,
    }
}

fn config(alloc: Global) -> Option<Config> {
    let host = Host::read(alloc, "a.example").ok()?;
    config_of(alloc, host)
}

fn config_of(alloc: Global, host: Host) -> Option<Config> {
    match Secret::read(alloc, "admin") {
        Ok(admin) => Some(Config { host, admin }),
        Err(_) => {
            drop(host);
            None
        }
    }
}

fn message_of(alloc: Global, row: &str) -> Option<Message> {
    match bytes_of(alloc, row) {
        Some(bytes) => message_in(alloc, PureSource::new(bytes, 4096)),
        None => None,
    }
}

fn message_in(alloc: Global, mut source: PureSource) -> Option<Message> {
    let message = message_by(alloc, &mut source);
    drop(source);
    message
}

fn message_by(alloc: Global, source: &mut PureSource) -> Option<Message> {
    match Reader::requests(alloc, 1048576) {
        Ok(mut reader) => {
            let message = next_of(&mut reader, source);
            drop(reader);
            message
        }
        Err(_) => None,
    }
}

fn next_of(reader: &mut Reader, source: &mut PureSource) -> Option<Message> {
    if reader.has_failed() {
        return None;
    }
    match reader.next(source) {
        Ok(message) => message,
        Err(_) => None,
    }
}

fn wanted_of(alloc: Global, config: Option<Config>, message: &Message) -> Option<Wanted> {
    match config {
        Some(config) => {
            let wanted = wanted_at(alloc, &config, message);
            drop(config);
            wanted
        }
        None => None,
    }
}

fn wanted_at(alloc: Global, config: &Config, message: &Message) -> Option<Wanted> {
    match &message.head {
        Head::Request {
            method: _,
            target: _,
            closing: _,
            fields: _,
        } => ask_of(alloc, config, message, Fresh::new([7; 16])).ok(),
        Head::Reply {
            status: _,
            fields: _,
        } => None,
    }
}

fn told(alloc: Global, wanted: Wanted) -> Option<String> {
    match wanted {
        Wanted::Page(page) => page_told(alloc, page),
        Wanted::Ask(ask, shape) => asked_told(alloc, ask, shape),
    }
}

/// The ask, whether its page's body is left away, whether the connection ends with it, and the range.
fn asked_told(alloc: Global, ask: Ask, shape: Shape) -> Option<String> {
    let told = ask_told(alloc, &ask);
    drop(ask);
    match told {
        Some(told) => with_shape(alloc, told, &shape),
        None => None,
    }
}

fn with_shape(alloc: Global, told: String, shape: &Shape) -> Option<String> {
    let bodyless = shape.bodyless;
    let closing = shape.closing;
    let range = shape.range;
    format!(in alloc; "{}, {bodyless} {closing} {range:?}", told.as_str()).ok()
}
