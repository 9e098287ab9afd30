//! Messages that are written.
use ocm_base::{Bytes, Joined, List, MemSink, NoMemory, Text};
use ocm_cases_rows::{escaped, unescaped};
use ocm_http::{Field, Fixed, write_fixed, write_reply, write_request};
use ocm_types::{Host, Secret};
use std::alloc::Global;

fn field(alloc: Global, name: &str, value: &str) -> Option<Field> {
    let name = Text::of(alloc, name).ok()?;
    match Bytes::of(alloc, value.as_bytes()) {
        Ok(value) => Some(Field { name, value }),
        Err(_) => None,
    }
}

/// The fields of a text that has one a line, `NAME: VALUE`.
fn fields(alloc: Global, text: &str) -> Option<List<Field>> {
    let mut fields = List::new(alloc);
    match add_fields(alloc, &mut fields, text) {
        Some(()) => Some(fields),
        None => {
            drop(fields);
            None
        }
    }
}

fn add_fields(alloc: Global, fields: &mut List<Field>, text: &str) -> Option<()> {
    for line in text.lines() {
        add_line(alloc, fields, line)?;
    }
    Some(())
}

fn add_line(alloc: Global, fields: &mut List<Field>, line: &str) -> Option<()> {
    let (name, value) = line.split_once(": ")?;
    fields.push(field(alloc, name, value)?).ok()
}

/// A reply: `STATUS BODYLESS CLOSING|FIELDS|BODY`, for the statuses 204 and 401.
pub fn reply_written(alloc: Global, row: &str) -> Option<String> {
    let (front, rest) = row.split_once('|')?;
    let (lines, body) = rest.split_once('|')?;
    let lines = unescaped(alloc, lines)?;
    let fields = fields(alloc, lines.as_str());
    drop(lines);
    reply_with(alloc, front, fields?, body)
}

fn reply_with(alloc: Global, front: &str, fields: List<Field>, body: &str) -> Option<String> {
    let reply = match Bytes::of(alloc, body.as_bytes()) {
        Ok(body) => reply(alloc, front, &fields, &body),
        Err(_) => None,
    };
    drop(fields);
    whole_told(alloc, reply?)
}

fn reply(alloc: Global, front: &str, fields: &List<Field>, body: &Bytes) -> Option<Joined> {
    match front {
        "204 false false" => write_reply(alloc, 204, fields, body, false, false).ok(),
        "401 false false" => write_reply(alloc, 401, fields, body, false, false).ok(),
        "401 true true" => write_reply(alloc, 401, fields, body, true, true).ok(),
        _ => None,
    }
}

fn whole_told(alloc: Global, reply: Joined) -> Option<String> {
    let whole = reply.whole(alloc);
    drop(reply);
    bytes_told(alloc, whole)
}

fn bytes_told(alloc: Global, bytes: Result<Bytes, NoMemory>) -> Option<String> {
    match bytes {
        Ok(bytes) => escaped(alloc, bytes.as_slice()),
        Err(_) => None,
    }
}

/// A request to `b.example`: `METHOD TARGET SECRET|BODY`, where `-` stands for no secret.
pub fn request_written(alloc: Global, row: &str) -> Option<String> {
    let (front, body) = row.split_once('|')?;
    let (method, rest) = front.split_once(' ')?;
    let (target, secret) = rest.split_once(' ')?;
    match Bytes::of(alloc, body.as_bytes()) {
        Ok(body) => request(alloc, method, target, secret, body),
        Err(_) => None,
    }
}

fn request(alloc: Global, method: &str, target: &str, secret: &str, body: Bytes) -> Option<String> {
    let written = match Secret::read(alloc, secret) {
        Ok(secret) => request_to_b(alloc, method, target, secret, &body),
        Err(_) => Err(NoMemory),
    };
    drop(body);
    bytes_told(alloc, written)
}

fn request_to_b(
    alloc: Global,
    method: &str,
    target: &str,
    secret: Secret,
    body: &Bytes,
) -> Result<Bytes, NoMemory> {
    let written = match Host::read(alloc, "b.example") {
        Ok(host) => write_request(alloc, &host, method, target, known(&secret), body),
        Err(_) => Err(NoMemory),
    };
    drop(secret);
    written
}

fn known(secret: &Secret) -> Option<&Secret> {
    if secret.as_str() == "-" {
        return None;
    }
    Some(secret)
}

/// The fixed replies into one sink, which takes 9 bytes a call: `bad` and `no-memory`.
pub fn fixed_written(alloc: Global, row: &str) -> Option<String> {
    match MemSink::new(alloc, 9, List::new(alloc), 1000) {
        Ok(mut sink) => {
            add_each(&mut sink, row);
            let told = escaped(alloc, sink.bytes().as_slice());
            drop(sink);
            told
        }
        Err(_) => None,
    }
}

fn add_each(sink: &mut MemSink, row: &str) {
    for word in row.split(' ') {
        add_fixed(sink, word);
    }
}

fn add_fixed(sink: &mut MemSink, word: &str) {
    let which = match word {
        "bad" => Fixed::Bad,
        "no-memory" => Fixed::NoMemory,
        _ => return,
    };
    let _ = write_fixed(sink, which);
}
