//! Messages out of streams.
ghost use Rattle.std.specs.Prelude.{◌<◌};

use ocm_base::{Bytes, List, MemSource, NoMemory, PureSource, Source, Text};
use ocm_cases_rows::bytes_of;
use ocm_http::{Field, FrameFault, Head, Kind, Message, Reader};
use std::alloc::Global;

/// What a reader tells of a stream: how many messages it has, how many bytes their bodies have together, and the fault
/// behind them.
type Told = (u32, usize, Option<FrameFault>);

/// The next message. Nothing more is asked of a reader that has failed.
fn next_of<S: Source>(reader: &mut Reader, source: &mut S) -> Result<Option<Message>, FrameFault> {
    if reader.has_failed() {
        return Err(FrameFault::Cut);
    }
    reader.next(source)
}

/// How long the body is.
fn body_length(message: Message) -> usize {
    let length = message.body.len();
    drop(message);
    length
}

fn told<S: Source>(reader: &mut Reader, source: &mut S) -> Told {
    let mut messages: u32 = 0;
    let mut bytes: usize = 0;
    for _ in 0..9 {
        match next_of(reader, source) {
            Ok(Some(message)) => {
                messages = messages.saturating_add(1);
                bytes = bytes.saturating_add(body_length(message));
            }
            Ok(None) => return (messages, bytes, None),
            Err(fault) => return (messages, bytes, Some(fault)),
        }
    }
    (messages, bytes, None)
}

/// A source of a stream in pieces of this size.
fn source_of(stream: &Bytes, piece: usize) -> Option<PureSource>
    requires { 0 < piece }
{
    match stream.copy() {
        Ok(bytes) => Some(PureSource::new(bytes, piece)),
        Err(_) => None,
    }
}

/// What requests with bodies of at most 1 MiB tell, or replies with bodies of at most 5 bytes.
fn told_in(alloc: Global, kind: Kind, stream: &Bytes, piece: usize) -> Option<Told>
    requires { 0 < piece }
{
    match source_of(stream, piece) {
        Some(source) => told_of(reader_of(alloc, kind), source),
        None => None,
    }
}

fn reader_of(alloc: Global, kind: Kind) -> Result<Reader, NoMemory> {
    match kind {
        Kind::Requests => Reader::requests(alloc, 1048576),
        Kind::Replies => Reader::replies(alloc, 5),
    }
}

fn told_of(reader: Result<Reader, NoMemory>, mut source: PureSource) -> Option<Told> {
    let told = told_by(reader, &mut source);
    drop(source);
    told
}

fn told_by(reader: Result<Reader, NoMemory>, source: &mut PureSource) -> Option<Told> {
    match reader {
        Ok(mut reader) => {
            let told = told(&mut reader, source);
            drop(reader);
            Some(told)
        }
        Err(_) => None,
    }
}

/// What a stream tells, which is the same in pieces of 1, of 7 and of 4,096 bytes.
fn stream_told(alloc: Global, kind: Kind, row: &str) -> Option<String> {
    let stream = bytes_of(alloc, row)?;
    let one = told_in(alloc, kind, &stream, 1);
    let few = told_in(alloc, kind, &stream, 7);
    let many = told_in(alloc, kind, &stream, 4096);
    drop(stream);
    if one != few || one != many {
        return String::from_str(alloc, "not the same in all pieces").ok();
    }
    told_text(alloc, one?)
}

fn told_text(alloc: Global, told: Told) -> Option<String> {
    let (messages, bytes, fault) = told;
    match fault {
        Some(fault) => format!(in alloc; "{messages} {bytes} {fault:?}").ok(),
        None => format!(in alloc; "{messages} {bytes}").ok(),
    }
}

/// What a stream of requests tells.
pub fn requests_told(alloc: Global, row: &str) -> Option<String> {
    stream_told(alloc, Kind::Requests, row)
}

/// What a long stream of requests tells, in pieces of 1,000 bytes.
pub fn long_told(alloc: Global, row: &str) -> Option<String> {
    let stream = bytes_of(alloc, row)?;
    let told = told_in(alloc, Kind::Requests, &stream, 1000);
    drop(stream);
    told_text(alloc, told?)
}

/// What a stream of replies tells.
pub fn replies_told(alloc: Global, row: &str) -> Option<String> {
    stream_told(alloc, Kind::Replies, row)
}

/// Adds a field as `NAME=VALUE`, a space before it.
fn add_field(alloc: Global, text: &mut String, field: &Field) -> Option<()> {
    let value = str::from_utf8(field.value.as_slice()).ok()?;
    let added = format!(in alloc; " {}={value}", field.name.as_str()).ok()?;
    text.push_str(added.as_str()).ok()
}

/// Adds a request: its method and target, whether the connection ends with it, its fields and its body.
fn add_request(alloc: Global, text: &mut String, message: &Message) -> Option<()> {
    match &message.head {
        Head::Request {
            method,
            target,
            closing,
            fields,
        } => {
            add_line(alloc, text, method, target, *closing)?;
            add_fields(alloc, text, fields)?;
            add_body(text, &message.body)
        }
        Head::Reply {
            status: _,
            fields: _,
        } => None,
    }
}

fn add_line(
    alloc: Global,
    text: &mut String,
    method: &Text,
    target: &Text,
    closing: bool,
) -> Option<()> {
    let line = format!(in alloc; "{} {} {closing}", method.as_str(), target.as_str()).ok()?;
    text.push_str(line.as_str()).ok()
}

fn add_fields(alloc: Global, text: &mut String, fields: &List<Field>) -> Option<()> {
    for field in fields.as_slice() {
        add_field(alloc, text, field)?;
    }
    Some(())
}

fn add_body(text: &mut String, body: &Bytes) -> Option<()> {
    let body = str::from_utf8(body.as_slice()).ok()?;
    text.push_str(": ").ok()?;
    text.push_str(body).ok()?;
    text.push_str("; ").ok()
}

/// The requests of a stream in pieces of 5 bytes, and how many bytes are held behind them. Bodies have at most 10 bytes.
pub fn each_told(alloc: Global, row: &str) -> Option<String> {
    match bytes_of(alloc, row) {
        Some(bytes) => each_of(alloc, PureSource::new(bytes, 5)),
        None => None,
    }
}

fn each_of(alloc: Global, mut source: PureSource) -> Option<String> {
    let mut text = String::new(alloc);
    let held = each_by(alloc, &mut text, &mut source);
    drop(source);
    held_told(alloc, text, held)
}

/// Adds each request, and says how many bytes are held then.
fn each_by(alloc: Global, text: &mut String, source: &mut PureSource) -> Option<u64> {
    match Reader::requests(alloc, 10) {
        Ok(mut reader) => {
            add_each(alloc, text, &mut reader, source);
            let held = reader.held();
            drop(reader);
            Some(held)
        }
        Err(_) => None,
    }
}

fn held_told(alloc: Global, text: String, held: Option<u64>) -> Option<String> {
    match held {
        Some(held) => format!(in alloc; "{}held {held}", text.as_str()).ok(),
        None => None,
    }
}

/// Adds each request that comes.
fn add_each(alloc: Global, text: &mut String, reader: &mut Reader, source: &mut PureSource) {
    for _ in 0..9 {
        match next_of(reader, source) {
            Ok(Some(message)) => add_whole(alloc, text, message),
            Ok(None) => return,
            Err(_) => return,
        }
    }
}

fn add_whole(alloc: Global, text: &mut String, message: Message) {
    let _ = add_request(alloc, text, &message);
    drop(message);
}

/// The fault of a source that gives a byte a call and fails at its third call, whether the reader has failed, and how
/// many bytes it holds.
pub fn failing_told(alloc: Global, row: &str) -> Option<String> {
    match bytes_of(alloc, row).zip(third_call(alloc)) {
        Some((bytes, fails)) => fault_of(alloc, MemSource::new(bytes, 1, fails)),
        None => None,
    }
}

fn third_call(alloc: Global) -> Option<List<u64>> {
    let mut fails = List::new(alloc);
    match fails.push(3) {
        Ok(()) => Some(fails),
        Err(_) => None,
    }
}

fn fault_of(alloc: Global, mut source: MemSource) -> Option<String> {
    let told = fault_by(alloc, &mut source);
    drop(source);
    told
}

fn fault_by(alloc: Global, source: &mut MemSource) -> Option<String> {
    match Reader::requests(alloc, 1048576) {
        Ok(mut reader) => {
            let next = next_of(&mut reader, source);
            let failed = reader.has_failed();
            let held = reader.held();
            drop(reader);
            fault_told(alloc, next, failed, held)
        }
        Err(_) => None,
    }
}

fn fault_told(
    alloc: Global,
    next: Result<Option<Message>, FrameFault>,
    failed: bool,
    held: u64,
) -> Option<String> {
    match next {
        Ok(_) => None,
        Err(fault) => format!(in alloc; "{fault:?} {failed} {held}").ok(),
    }
}
