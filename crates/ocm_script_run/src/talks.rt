//! A connection of a script: its messages one after another, each answered by the server, and the lines that it prints.
ghost use Rattle.std.specs.Prelude.{◌≡◌, [], ◌++◌, false, IfOk, IfErr, IfSome, IsTrue};
ghost use Rattle.ocm_dav.specs.Routes.{wanted_of};
ghost use Rattle.ocm_dav.specs.Sound.{is_requested};
ghost use Rattle.ocm_dav.specs.declared.wants.Wanted.TheVariants as wants;
ghost use Rattle.ocm_davmore.specs.Ranges.{is_span};
ghost use Rattle.ocm_entry.specs.Proper.{is_proper};
ghost use Rattle.ocm_http.specs.Messages.{IsRequest};
ghost use Rattle.ocm_http.specs.Written as written;
ghost use Rattle.ocm_http.specs.declared.messages.Kind.TheVariants.{Requests};
ghost use Rattle.ocm_limits.specs.Limits.{most_body_bytes};
ghost use Rattle.ocm_dav_pages.specs.Pages.{HasPage};
ghost use Rattle.ocm_server_connections.specs.Talk.{wanted_at};
ghost use Rattle.ocm_script_run.specs.Running as running;
ghost use Rattle.ocm_script_run.specs.Running.{Answering, Replying, Showing};
ghost use Rattle.ocm_script_run.specs.Servers.{Server};
ghost use Rattle.ocm_script_run.specs.Talks as talks;
ghost use Rattle.ocm_script_run.specs.Talks.{IsTalk, config_of};

use crate::line_parts::{add, append, joined, joined_line};
use crate::servers::ScriptServer;
use ocm_base::{Bytes, Joined, List, MemSink, NoMemory, PureSource, and, hex_of};
use ocm_dav::{Config, Wanted, ask_of};
use ocm_dav_pages::{Page, Shape};
use ocm_entry::{Ask, Reply};
use ocm_http::{Fixed, FrameFault, Message, Reader, write_fixed};
use ocm_limits::{MOST_BODY_BYTES, MOST_CONNECTION_REQUESTS};
use ocm_server_connections::{Missed, counted, ending_after, is_done, page_for};
use ocm_types::{Fresh, Host};
use std::alloc::Global;

/// How many bytes are read at a time.
const PIECE: usize = 4096;

/// The server answers what a connection sends. Message k, counted from 0, gets the drawn bytes and k more. Gives the
/// lines that it prints: the pages, and how the connection ended.
pub fn talk<N: ScriptServer>(
    alloc: Global,
    node: &mut N,
    line: u32,
    fresh: Fresh,
    bytes: &Bytes,
) -> Result<Bytes, NoMemory>
    requires { (server : Server) × N.stands node.old server }
    ensures { IfOk result (λ text. (server : Server) → N.stands node.old server
        → (after : Server) × IsTalk (config_of server.host) line fresh 0 0 bytes.now server after text × N.stands node.new after) }
{
    let config = config(alloc, node.host())?;
    answers(alloc, node, &config, line, fresh, bytes)
}

/// What the server of a script knows of itself: its host, and the administrator's key of 32 digits `f`.
fn config(alloc: Global, host: &Host) -> Result<Config, NoMemory>
    ensures { IfOk result (λ config. config ≡ config_of host.now) }
{
    let (host, admin) = and(host.copy()?, Fresh::new([255; 16]).secret(alloc))?;
    Ok(Config { host, admin })
}

/// The messages of a connection, one after another.
fn answers<N: ScriptServer>(
    alloc: Global,
    node: &mut N,
    config: &Config,
    line: u32,
    fresh: Fresh,
    bytes: &Bytes,
) -> Result<Bytes, NoMemory>
    requires { (server : Server) × N.stands node.old server }
    ensures { IfOk result (λ text. (server : Server) → N.stands node.old server
        → (after : Server) × IsTalk config.now line fresh 0 0 bytes.now server after text × N.stands node.new after) }
{
    let mut source = PureSource::new(bytes.copy()?, PIECE);
    let Ok(mut reader) = Reader::requests(alloc, MOST_BODY_BYTES) else {
        drop(source);
        return no_memory(alloc, line);
    };
    let text = answers_to(alloc, node, config, line, fresh, &mut reader, &mut source);
    drop(reader);
    drop(source);
    text
}

/// The messages that a new reader reads of a source, one after another.
fn answers_to<N: ScriptServer>(
    alloc: Global,
    node: &mut N,
    config: &Config,
    line: u32,
    fresh: Fresh,
    reader: &mut Reader,
    source: &mut PureSource,
) -> Result<Bytes, NoMemory>
    requires stands { (server : Server) × N.stands node.old server }
    requires begun { reader.old ≡ record { kind = Requests; max = most_body_bytes; place = 0; held = []; failed = false; gone = 0 } }
    ensures { IfOk result (λ text. (server : Server) → N.stands node.old server
        → (after : Server) × IsTalk config.now line fresh 0 0 source.old.left server after text × N.stands node.new after) }
{
    let mut text = Bytes::new(alloc);
    for number in 0..MOST_CONNECTION_REQUESTS {
        let message = match reader.next(source) {
            Ok(Some(message)) => message,
            Ok(None) => return with_end(alloc, line, text, b"closed"),
            Err(fault) => return with_refusal(alloc, line, text, fault),
        };
        let (more, is_end) = answer_of(
            alloc,
            node,
            config,
            line,
            fresh.plus(number),
            message,
            number,
        )?;
        add(&mut text, more)?;
        if is_end {
            return Ok(text);
        }
    }
    // The last message ends the connection.
    unreachable!()
}

/// The lines of one message behind so many others, and whether the connection ends with it.
fn answer_of<N: ScriptServer>(
    alloc: Global,
    node: &mut N,
    config: &Config,
    line: u32,
    fresh: Fresh,
    message: Message,
    number: u64,
) -> Result<(Bytes, bool), NoMemory>
    requires stands { (server : Server) × N.stands node.old server }
    requires request { IsRequest message.head }
    ensures { IfOk result (λ r. (server : Server) → N.stands node.old server
        → Showing N.stands (wanted_at config.now number message fresh) line (running.is_last number message) server node.new r.0 r.1) }
{
    let last = is_last(number, &message);
    let message = counted(message, number);
    let lines = answer(alloc, node, config, line, fresh, &message, last);
    drop(message);
    lines
}

/// Whether a connection ends with a message behind so many others.
fn is_last(number: u64, message: &Message) -> bool
    ensures { result ≡ running.is_last number message.now }
{
    ending_after(number, message).is_some()
}

/// The lines of one message, and whether the connection ends with it.
fn answer<N: ScriptServer>(
    alloc: Global,
    node: &mut N,
    config: &Config,
    line: u32,
    fresh: Fresh,
    message: &Message,
    last: bool,
) -> Result<(Bytes, bool), NoMemory>
    requires stands { (server : Server) × N.stands node.old server }
    requires request { IsRequest message.now.head }
    ensures { IfOk result (λ r. (server : Server) → N.stands node.old server
        → Showing N.stands (wanted_of config.now message.now fresh) line last server node.new r.0 r.1) }
{
    match page(alloc, node, config, fresh, message) {
        Ok(page) => {
            let lines = page_lines(alloc, line, page, last)?;
            Ok((lines, last))
        }
        Err(_) => {
            let fixed = no_memory(alloc, line)?;
            Ok((fixed, true))
        }
    }
}

/// The line of a page, and behind it the line of the end where the connection ends with it.
fn page_lines(alloc: Global, line: u32, page: Page, is_end: bool) -> Result<Bytes, NoMemory>
    ensures { IfOk result (λ text. text ≡ running.page_lines line page.bytes is_end) }
{
    let text = page_line(alloc, line, &page.bytes);
    drop(page);
    if is_end {
        with_end(alloc, line, text?, b"closed")
    } else {
        text
    }
}

/// The page of a message, where there was memory for it.
fn page<N: ScriptServer>(
    alloc: Global,
    node: &mut N,
    config: &Config,
    fresh: Fresh,
    message: &Message,
) -> Result<Page, Missed>
    requires stands { (server : Server) × N.stands node.old server }
    requires request { IsRequest message.now.head }
    ensures answers { (server : Server) → N.stands node.old server
        → Answering N.stands (wanted_of config.now message.now fresh) server node.new result }
    ensures missed { IfErr result (λ missed. missed ≡ Missed.NoMemory) }
{
    match ask_of(alloc, config, message, fresh) {
        Ok(Wanted::Page(page)) => Ok(page),
        Ok(Wanted::Ask(ask, shape)) => asked_page(alloc, node, ask, &shape),
        Err(NoMemory) => Err(Missed::NoMemory),
    }
}

/// The page of what is asked.
fn asked_page<N: ScriptServer>(
    alloc: Global,
    node: &mut N,
    ask: Ask,
    shape: &Shape,
) -> Result<Page, Missed>
    requires stands { (server : Server) × N.stands node.old server }
    requires proper { IsTrue (is_proper ask) }
    requires requested { IsTrue (is_requested ask) }
    requires range { IfSome shape.now.range (λ span. IsTrue (is_span span)) }
    ensures answers { (server : Server) → N.stands node.old server
        → Answering N.stands (wants.Ask ask shape.now) server node.new result }
    ensures missed { IfErr result (λ missed. missed ≡ Missed.NoMemory) }
{
    let reply = reply_to(node, ask);
    let page = page_for(alloc, &reply, shape);
    drop(reply);
    page
}

/// Ticks, and asks where that is done.
fn reply_to<N: ScriptServer>(node: &mut N, ask: Ask) -> Reply
    requires stands { (server : Server) × N.stands node.old server }
    requires proper { IsTrue (is_proper ask) }
    requires requested { IsTrue (is_requested ask) }
    ensures replied { (server : Server) → N.stands node.old server → Replying N.stands ask server.clock server node.new result }
    ensures page { HasPage result }
{
    let time = node.clock();
    let ticked = node.act(Ask::Tick { clock: time });
    if is_done(&ticked) {
        drop(ticked);
        node.act(ask)
    } else {
        drop(ask);
        ticked
    }
}

/// The line of a page.
fn page_line(alloc: Global, line: u32, page: &Joined) -> Result<Bytes, NoMemory>
    ensures { IfOk result (λ text. text ≡ talks.raw_line line page.now) }
{
    let bytes = page.whole(alloc)?;
    raw_line(alloc, line, bytes.as_slice())
}

/// The line of bytes that a connection was given.
fn raw_line(alloc: Global, line: u32, bytes: &[u8]) -> Result<Bytes, NoMemory>
    ensures { IfOk result (λ text. text ≡ talks.raw_line line bytes.now) }
{
    let digits = hex_of(alloc, bytes)?;
    joined_line(alloc, line, b"raw ", digits.as_str().as_bytes())
}

/// A text, and behind it the line of how a connection ended.
fn with_end(alloc: Global, line: u32, text: Bytes, how: &[u8]) -> Result<Bytes, NoMemory>
    ensures { IfOk result (λ all. all ≡ text ++ talks.end_line line how.now) }
{
    let (text, end) = and(text, end_text(alloc, line, how))?;
    append(text, end)
}

/// A text, and behind it the lines where bytes are no message.
fn with_refusal(alloc: Global, line: u32, text: Bytes, fault: FrameFault) -> Result<Bytes, NoMemory>
    ensures { IfOk result (λ all. all ≡ text ++ running.refused_lines line fault) }
{
    let (text, end) = and(text, refused(alloc, line, fault))?;
    append(text, end)
}

/// The line of how a connection ended.
fn end_text(alloc: Global, line: u32, how: &[u8]) -> Result<Bytes, NoMemory>
    ensures { IfOk result (λ text. text ≡ talks.end_line line how.now) }
{
    joined_line(alloc, line, b"end ", how)
}

/// The lines where bytes are no message.
fn refused(alloc: Global, line: u32, fault: FrameFault) -> Result<Bytes, NoMemory>
    ensures { IfOk result (λ text. text ≡ running.refused_lines line fault) }
{
    match fault {
        FrameFault::BadHead(place) => bad(alloc, line, place),
        FrameFault::HeadTooLong(place) => bad(alloc, line, place),
        FrameFault::BadLength(place) => bad(alloc, line, place),
        FrameFault::BothLengths(place) => bad(alloc, line, place),
        FrameFault::BadChunk(place) => bad(alloc, line, place),
        FrameFault::BodyTooLong(place) => bad(alloc, line, place),
        FrameFault::Cut => end_text(alloc, line, b"cut"),
        FrameFault::ReadFault => no_memory(alloc, line),
        FrameFault::NoMemory => no_memory(alloc, line),
    }
}

/// The lines where the bytes at this place are refused.
fn bad(alloc: Global, line: u32, place: u64) -> Result<Bytes, NoMemory>
    ensures { IfOk result (λ text. text ≡ running.bad_lines line place) }
{
    let digits = place.to_string(alloc)?;
    let how = joined(alloc, b"bad ", digits.as_bytes())?;
    fixed(alloc, line, Fixed::Bad, how.as_slice())
}

/// The lines where there was no memory for a page.
fn no_memory(alloc: Global, line: u32) -> Result<Bytes, NoMemory>
    ensures { IfOk result (λ text. text ≡ running.no_memory_lines line) }
{
    fixed(alloc, line, Fixed::NoMemory, b"no memory")
}

/// The lines of a fixed reply, with which a connection ended so.
fn fixed(alloc: Global, line: u32, which: Fixed, how: &[u8]) -> Result<Bytes, NoMemory>
    ensures { IfOk result (λ text. text ≡ talks.raw_line line (written.fixed which) ++ talks.end_line line how.now) }
{
    let bytes = fixed_bytes(alloc, which)?;
    let text = raw_line(alloc, line, bytes.as_slice());
    drop(bytes);
    with_end(alloc, line, text?, how)
}

/// The bytes of a fixed reply.
fn fixed_bytes(alloc: Global, which: Fixed) -> Result<Bytes, NoMemory>
    ensures { IfOk result (λ bytes. bytes ≡ written.fixed which) }
{
    let mut sink = MemSink::new(alloc, PIECE, List::new(alloc), PIECE)?;
    match write_fixed(&mut sink, which) {
        Ok(()) => Ok(sink.into_bytes()),
        Err(_) => {
            drop(sink);
            Err(NoMemory)
        }
    }
}
