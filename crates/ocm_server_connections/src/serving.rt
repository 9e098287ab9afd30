//! A connection served.

ghost use Rattle.std.specs.Prelude.{◌≡◌, ◌≢◌, ◌<◌, ◌≤◌, ◌+◌, ◌⊎◌, IfNone, IsTrue, None, Ok};
ghost use Rattle.ocm_base.specs.Outside.{Rose};
ghost use Rattle.ocm_limits.specs.Limits.{last_connection_request, most_connection_requests};
ghost use Rattle.ocm_http.specs.Messages.{IsRequest};
ghost use Rattle.ocm_turn.specs.Passes.{BelongsTo};
ghost use Rattle.ocm_server_connections.specs.Sides.{IsOpen, Gives, as_fixed, newest_of};
ghost use Rattle.ocm_server_connections.specs.Talk as talk;
ghost use Rattle.ocm_server_connections.specs.Talk.{EndsMissed, Tries, no_memory};
ghost use Rattle.ocm_server_connections.specs.Parts.{Finishes, Writing, Refuses, RefusesAt, Goes, Served, Talked, stand, state};

use crate::answering::answer;
use crate::conns::Conn;
use crate::draws::Draw;
use crate::endings::{Ended, Missed};
use crate::nodes::Node;
use ocm_base::Clock;
use ocm_dav::{Config, Page};
use ocm_http::{Fixed, FrameFault, Head, Message, Reader};
use ocm_limits::{LAST_CONNECTION_REQUEST, MOST_BODY_BYTES};
use ocm_turn::{Dated, Pass};
use std::alloc::Global;
use std::sync::Wait;

/// Tries the fixed reply where there was no memory.
fn try_no_memory<C: Conn>(conn: &mut C)
    ensures { Writing (C.sides conn.old) (C.sides conn.new) as_fixed (λ failed written. Tries failed no_memory written) }
{
    let _tried = conn.send_fixed(Fixed::NoMemory);
}

/// Ends a connection whose message has no page.
fn finish_missed<C: Conn>(conn: &mut C, missed: Missed) -> Ended
    ensures { Writing (C.sides conn.old) (C.sides conn.new) as_fixed (λ failed written. EndsMissed failed missed written result) }
{
    match missed {
        Missed::Spent => Ended::Spent,
        Missed::NoMemory => {
            try_no_memory(conn);
            Ended::NoMemory
        }
    }
}

/// Writes what a message came to, a page with what the pass knows by then.
fn finish<T: Dated, C: Conn>(
    pass: &Pass<T>,
    conn: &mut C,
    answer: Result<Page, Missed>,
    after: Option<Ended>,
) -> Option<Ended>
    ensures { Finishes (C.sides conn.old) (C.sides conn.new) answer (newest_of pass.now.moments) after result }
{
    match answer {
        Ok(page) => match conn.send(&page.bytes, pass) {
            Ok(()) => after,
            Err(_) => Some(Ended::WriteFault),
        },
        Err(missed) => Some(finish_missed(conn, missed)),
    }
}

/// Answers bytes that are refused at a place.
fn refuse_at<C: Conn>(conn: &mut C, place: u64) -> Ended
    ensures { Writing (C.sides conn.old) (C.sides conn.new) as_fixed (λ failed written. RefusesAt place result failed written) }
{
    match conn.send_fixed(Fixed::Bad) {
        Ok(()) => Ended::Bad(place),
        Err(_) => Ended::WriteFault,
    }
}

/// Answers bytes that are no message.
fn refuse<C: Conn>(conn: &mut C, fault: FrameFault) -> Ended
    ensures { Writing (C.sides conn.old) (C.sides conn.new) as_fixed (λ failed written. Refuses fault result failed written) }
{
    match fault {
        FrameFault::BadHead(place) => refuse_at(conn, place),
        FrameFault::HeadTooLong(place) => refuse_at(conn, place),
        FrameFault::BadLength(place) => refuse_at(conn, place),
        FrameFault::BothLengths(place) => refuse_at(conn, place),
        FrameFault::BadChunk(place) => refuse_at(conn, place),
        FrameFault::BodyTooLong(place) => refuse_at(conn, place),
        FrameFault::Cut => Ended::Cut,
        FrameFault::ReadFault => Ended::ReadFault,
        FrameFault::NoMemory => {
            try_no_memory(conn);
            Ended::NoMemory
        }
    }
}

/// Whether the connection ends with a message.
fn closes(head: &Head) -> bool
    ensures { result ≡ talk.closes head.now }
{
    match head {
        Head::Request { closing, .. } => *closing,
        Head::Reply { .. } => true,
    }
}

/// A head that asks for the end of its connection.
fn closing(head: Head) -> Head
    ensures { result ≡ talk.closing_head head }
{
    match head {
        Head::Request {
            method,
            target,
            closing: _,
            fields,
        } => Head::Request {
            method,
            target,
            closing: true,
            fields,
        },
        Head::Reply { status, fields } => Head::Reply { status, fields },
    }
}

/// A message as it counts behind so many others: the last of a connection closes it.
pub fn counted(message: Message, number: u64) -> Message
    ensures { result ≡ talk.counted number message }
{
    let Message { head, body } = message;
    if number == LAST_CONNECTION_REQUEST {
        let head = closing(head);
        Message { head, body }
    } else {
        Message { head, body }
    }
}

/// How the connection ends with the page of a message behind so many others, if it does.
pub fn ending_after(number: u64, message: &Message) -> Option<Ended>
    ensures { result ≡ talk.ending_after number message.now }
{
    if number == LAST_CONNECTION_REQUEST {
        Some(Ended::Quota)
    } else if closes(&message.head) {
        Some(Ended::Closed)
    } else {
        None
    }
}

/// Answers one message, and writes what it comes to.
fn serve_request<T: Dated, C: Conn, K: Clock, R: Wait>(
    rt: &R,
    alloc: Global,
    config: &Config,
    node: &Node<T>,
    pass: &mut Pass<T>,
    conn: &mut C,
    draw: &mut Draw,
    clock: &mut K,
    message: Message,
    number: u64,
) -> Option<Ended>
    requires own { BelongsTo node.now pass.old }
    requires request { IsRequest message.head }
    ensures served { Served config.now node.now.limit number message (state (C.sides conn.old) draw.old (K.given clock.old) pass.old)
        (state (C.sides conn.new) draw.new (K.given clock.new) pass.new) result }
    ensures own { BelongsTo node.now pass.new }
{
    let after = ending_after(number, &message);
    let message = counted(message, number);
    let fresh = draw.next();
    let now = clock.now();
    let answered = answer(rt, alloc, config, node, pass, &message, fresh, now);
    // Whoever asks a pass for its calls is told that they stand in order, and that each entry has its moment.
    let _calls = pass.calls();
    finish(pass, conn, answered, after)
}

/// Whether a connection rests between two messages. Then it has no further one.
fn is_resting<C: Conn>(conn: &mut C, reader: &Reader) -> bool
    ensures same { C.sides conn.new ≡ C.sides conn.old }
    ensures over { IsTrue result → Gives reader.now reader.now (C.sides conn.old) (C.sides conn.new) (Ok None) }
{
    if reader.held() != 0 {
        return false;
    }
    conn.rests(reader)
}

/// The next message of a connection. None where it rests or the input ended, between two messages.
fn next_message<C: Conn>(conn: &mut C, reader: &mut Reader) -> Result<Option<Message>, FrameFault>
    requires { IsOpen reader.old }
    ensures { Gives reader.old reader.new (C.sides conn.old) (C.sides conn.new) result }
{
    if is_resting(conn, reader) {
        return Ok(None);
    }
    conn.next(reader)
}

/// Serves one message of a connection. None where it goes on.
fn serve_message<T: Dated, C: Conn, K: Clock, R: Wait>(
    rt: &R,
    alloc: Global,
    config: &Config,
    node: &Node<T>,
    pass: &mut Pass<T>,
    conn: &mut C,
    reader: &mut Reader,
    draw: &mut Draw,
    clock: &mut K,
    number: u64,
) -> Option<Ended>
    requires own { BelongsTo node.now pass.old }
    requires open { IsOpen reader.old }
    requires number { number < most_connection_requests }
    ensures goes { Goes config.now node.now.limit (stand number reader.old) (stand (number + 1) reader.new)
        (state (C.sides conn.old) draw.old (K.given clock.old) pass.old)
        (state (C.sides conn.new) draw.new (K.given clock.new) pass.new) result }
    ensures open { IfNone result (IsOpen reader.new) }
    ensures more { IfNone result (number ≢ last_connection_request) }
    ensures own { BelongsTo node.now pass.new }
{
    match next_message(conn, reader) {
        Ok(Some(message)) => serve_request(
            rt, alloc, config, node, pass, conn, draw, clock, message, number,
        ),
        Ok(None) => Some(Ended::Closed),
        Err(fault) => Some(refuse(conn, fault)),
    }
}

/// Serves the messages of a connection one after another.
fn serve_messages<T: Dated, C: Conn, K: Clock, R: Wait>(
    rt: &R,
    alloc: Global,
    config: &Config,
    node: &Node<T>,
    pass: &mut Pass<T>,
    conn: &mut C,
    draw: &mut Draw,
    clock: &mut K,
) -> Ended
    requires own { BelongsTo node.now pass.old }
    ensures talk { Talked config.now node.now.limit (state (C.sides conn.old) draw.old (K.given clock.old) pass.old)
        (state (C.sides conn.new) draw.new (K.given clock.new) pass.new) result }
    ensures own { BelongsTo node.now pass.new }
{
    let Ok(mut reader) = Reader::requests(alloc, MOST_BODY_BYTES) else {
        try_no_memory(conn);
        return Ended::NoMemory;
    };
    for number in 0..LAST_CONNECTION_REQUEST {
        let ended = serve_message(
            rt,
            alloc,
            config,
            node,
            pass,
            conn,
            &mut reader,
            draw,
            clock,
            number,
        );
        if let Some(ended) = ended {
            return ended;
        }
    }
    let ended = serve_message(
        rt,
        alloc,
        config,
        node,
        pass,
        conn,
        &mut reader,
        draw,
        clock,
        LAST_CONNECTION_REQUEST,
    );
    ended.unwrap()
}

/// Serves a connection: reads its messages one after another, answers each by the object behind the turnstile, and
/// writes the pages. For each message that was read one value is drawn and one is taken of the clock, used or not. It
/// waits for its turns, and its return is not promised.
pub fn serve_conn<T: Dated, C: Conn, K: Clock, R: Wait>(
    rt: &R,
    alloc: Global,
    config: &Config,
    node: &Node<T>,
    pass: &mut Pass<T>,
    conn: &mut C,
    draw: &mut Draw,
    clock: &mut K,
) -> Ended
    requires own { BelongsTo node.now pass.old }
    ensures talk { Talked config.now node.now.limit (state (C.sides conn.old) draw.old (K.given clock.old) pass.old)
        (state (C.sides conn.new) draw.new (K.given clock.new) pass.new) result }
    ensures read_fault { result ≡ Ended.ReadFault → Rose (C.sides conn.old).read_faults (C.sides conn.new).read_faults }
    ensures write_fault { result ≡ Ended.WriteFault → Rose (C.sides conn.old).write_faults (C.sides conn.new).write_faults }
    ensures spent { result ≡ Ended.Spent → node.now.limit ≤ pass.new.drawn }
    ensures unspent { result ≢ Ended.Spent → (pass.new.drawn ≡ pass.old.drawn) ⊎ (pass.new.drawn < node.now.limit) }
    ensures own { BelongsTo node.now pass.new }
{
    serve_messages(rt, alloc, config, node, pass, conn, draw, clock)
}
