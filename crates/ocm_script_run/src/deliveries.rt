//! Messages that are given to the servers that they are for, and the replies that come back.
ghost use Rattle.std.specs.Prelude.{◌≡◌, ◌++◌, codes, IfOk, IsTrue};
ghost use Rattle.ocm_entry.specs.declared.asks.Ask.TheVariants as asks;
ghost use Rattle.ocm_entry.specs.Proper.{is_proper};
ghost use Rattle.ocm_script_run.specs.Servers.{World};
ghost use Rattle.ocm_transcript.specs.Texts as texts;
ghost use Rattle.ocm_entry.specs.Deliveries as answers;
ghost use Rattle.ocm_script_run.specs.Deliveries as deliveries;
ghost use Rattle.ocm_script_run.specs.Deliveries.{next_wanting};
ghost use Rattle.ocm_script_run.specs.Running.{Asks, Runs};

use crate::asked::letter_ask;
use crate::line_parts::{add, append, joined};
use crate::servers::ScriptServers;
use ocm_base::{Bytes, NoMemory, and};
use ocm_entry::{Ask, Reply};
use ocm_letters::provider_id;
use ocm_transcript::{line_text, reply_lines, told_line};
use ocm_types::{Fresh, Host, Numbered, ProviderId};
use std::alloc::Global;

/// The message of this number of the sender is given to the server that it is for, and the reply comes
/// back or is lost. Gives what the line prints.
pub fn deliver<S: ScriptServers>(
    alloc: Global,
    servers: &mut S,
    line: u32,
    sender: &Host,
    number: u32,
    fresh: Fresh,
    lost: bool,
) -> Result<Bytes, NoMemory>
    ensures { IfOk result (λ text. (world : World) → S.stand servers.old world → Runs S.stand (λ wanting. deliveries.deliver wanting world line sender.now number fresh lost) servers.new text) }
{
    let Some(message) = servers.message(sender, number) else {
        return line_text(alloc, line, b"nothing");
    };
    let message = message.copy()?;
    let text = delivered(alloc, servers, line, sender, fresh, lost, &message);
    drop(message);
    text
}

/// All messages of the sender that are due are given to the servers that they are for, and the replies
/// come back. Gives what the line prints.
pub fn pump<S: ScriptServers>(
    alloc: Global,
    servers: &mut S,
    line: u32,
    sender: &Host,
    fresh: Fresh,
) -> Result<Bytes, NoMemory>
    ensures { IfOk result (λ text. (world : World) → S.stand servers.old world → Runs S.stand (λ wanting. deliveries.pump wanting world line sender.now fresh) servers.new text) }
{
    match due_of(servers, sender) {
        Some(reply) => pumped_from(alloc, servers, line, sender, fresh, reply),
        None => Ok(Bytes::new(alloc)),
    }
}

/// What the sender answers to the question which of its messages are due.
fn due_of<S: ScriptServers>(servers: &mut S, sender: &Host) -> Option<Reply>
    ensures { (world : World) → S.stand servers.old world → Asks S.stand world servers.new sender.now asks.Due result }
{
    servers.ask(sender, Ask::Due)
}

/// As [`pumped`], and lets the answer go.
fn pumped_from<S: ScriptServers>(
    alloc: Global,
    servers: &mut S,
    line: u32,
    sender: &Host,
    fresh: Fresh,
    reply: Reply,
) -> Result<Bytes, NoMemory>
    ensures { IfOk result (λ text. (world : World) → S.stand servers.old world → Runs S.stand (λ wanting. deliveries.pumped wanting world line sender.now fresh reply) servers.new text) }
{
    let text = pumped(alloc, servers, line, sender, fresh, &reply);
    drop(reply);
    text
}

/// What was answered to the question which messages are due.
fn pumped<S: ScriptServers>(
    alloc: Global,
    servers: &mut S,
    line: u32,
    sender: &Host,
    fresh: Fresh,
    reply: &Reply,
) -> Result<Bytes, NoMemory>
    ensures { IfOk result (λ text. (world : World) → S.stand servers.old world → Runs S.stand (λ wanting. deliveries.pumped wanting world line sender.now fresh reply.now) servers.new text) }
{
    let Reply::Due { messages } = reply else {
        return reply_lines(alloc, line, true, reply);
    };
    if messages.is_empty() {
        return line_text(alloc, line, b"nothing");
    }
    all_delivered(alloc, servers, line, sender, fresh, messages.as_slice())
}

/// Messages are given to the servers that they are for, one after another.
fn all_delivered<S: ScriptServers>(
    alloc: Global,
    servers: &mut S,
    line: u32,
    sender: &Host,
    fresh: Fresh,
    messages: &[Numbered],
) -> Result<Bytes, NoMemory>
    ensures { IfOk result (λ text. (world : World) → S.stand servers.old world → Runs S.stand (λ wanting. deliveries.all_delivered wanting world line sender.now fresh 0 messages.now) servers.new text) }
{
    let mut text = Bytes::new(alloc);
    let mut place = 0;
    for message in messages {
        let more = delivered(
            alloc,
            servers,
            line,
            sender,
            fresh.plus(place),
            false,
            message,
        )?;
        add(&mut text, more)?;
        place += 1;
    }
    Ok(text)
}

/// A message of the sender is given to the server that it is for.
fn delivered<S: ScriptServers>(
    alloc: Global,
    servers: &mut S,
    line: u32,
    sender: &Host,
    fresh: Fresh,
    lost: bool,
    message: &Numbered,
) -> Result<Bytes, NoMemory>
    ensures { IfOk result (λ text. (world : World) → S.stand servers.old world → Runs S.stand (λ wanting. deliveries.delivered wanting world line sender.now fresh lost message.now) servers.new text) }
{
    let ask = letter_ask(&message.letter, fresh)?;
    given(alloc, servers, line, sender, lost, message, ask)
}

/// A message of the sender is given to the server that it is for, as this ask.
fn given<S: ScriptServers>(
    alloc: Global,
    servers: &mut S,
    line: u32,
    sender: &Host,
    lost: bool,
    message: &Numbered,
    ask: Ask,
) -> Result<Bytes, NoMemory>
    requires { IsTrue (is_proper ask) }
    ensures { IfOk result (λ text. (world : World) → S.stand servers.old world → Runs S.stand (λ wanting. deliveries.given wanting world line sender.now lost message.now ask) servers.new text) }
{
    match servers.ask(&message.to, ask) {
        Some(reply) => {
            let text = answered(alloc, servers, line, sender, lost, message, &reply);
            drop(reply);
            text
        }
        None => unreachable_line(alloc, line, &message.to),
    }
}

/// The message was answered by the server that it is for. The reply comes back to the sender, or is lost.
fn answered<S: ScriptServers>(
    alloc: Global,
    servers: &mut S,
    line: u32,
    sender: &Host,
    lost: bool,
    message: &Numbered,
    reply: &Reply,
) -> Result<Bytes, NoMemory>
    ensures { IfOk result (λ text. (world : World) → S.stand servers.old world → Runs S.stand (λ wanting. deliveries.answered (next_wanting wanting) world line sender.now lost message.now reply.now) servers.new text) }
{
    let text = told_line(alloc, line, b"at", &message.to, reply)?;
    if lost {
        return Ok(text);
    }
    let ask = settlement(alloc, message.number, reply)?;
    come_back(alloc, servers, line, text, sender, ask)
}

/// What the sender of a message is told of the reply to it comes to the sender. Its line stands behind a
/// text.
fn come_back<S: ScriptServers>(
    alloc: Global,
    servers: &mut S,
    line: u32,
    front: Bytes,
    sender: &Host,
    ask: Ask,
) -> Result<Bytes, NoMemory>
    requires { IsTrue (is_proper ask) }
    ensures { IfOk result (λ text. (world : World) → S.stand servers.old world → Runs S.stand (λ wanting. deliveries.come_back (next_wanting wanting) world line front sender.now ask) servers.new text) }
{
    match servers.ask(sender, ask) {
        Some(reply) => with_back(alloc, line, front, sender, reply),
        None => Ok(front),
    }
}

/// A text, and behind it the line of what the sender of a message answered to the reply.
fn with_back(
    alloc: Global,
    line: u32,
    front: Bytes,
    sender: &Host,
    reply: Reply,
) -> Result<Bytes, NoMemory>
    ensures { IfOk result (λ text. text ≡ front ++ texts.told_line line (codes "back") sender.now reply) }
{
    let back = told_line(alloc, line, b"back", sender, &reply);
    drop(reply);
    let (front, back) = and(front, back)?;
    append(front, back)
}

/// What the sender of a message is told of the reply to it.
fn settlement(alloc: Global, number: u32, reply: &Reply) -> Result<Ask, NoMemory>
    ensures ask { IfOk result (λ ask. ask ≡ deliveries.settlement number reply.now) }
    ensures proper { IfOk result (λ ask. IsTrue (is_proper ask)) }
{
    let status = delivered_status(reply);
    let id = delivered_id(alloc, reply)?;
    Ok(Ask::Settle { number, status, id })
}

/// The status of a reply to an offer or a notification (OCM API 1.1).
fn delivered_status(reply: &Reply) -> u16
    ensures { result ≡ answers.delivered_status reply.now }
{
    match reply {
        Reply::Refused { why } => why.status(),
        Reply::JournalFull => 507,
        Reply::NoMemory => 500,
        Reply::DiskFault { .. } | Reply::Stopped { .. } => 503,
        _ => 201,
    }
}

/// The id that comes back with a reply: that of a further share.
fn delivered_id(alloc: Global, reply: &Reply) -> Result<Option<ProviderId>, NoMemory>
    ensures { IfOk result (λ id. id ≡ answers.delivered_id reply.now) }
{
    match reply {
        Reply::Child { id } => {
            let id = provider_id(alloc, *id)?;
            Ok(Some(id))
        }
        _ => Ok(None),
    }
}

/// The line of a message whose server is none of the script's.
fn unreachable_line(alloc: Global, line: u32, host: &Host) -> Result<Bytes, NoMemory>
    ensures { IfOk result (λ text. text ≡ texts.line_text line (codes "unreachable " ++ host.now)) }
{
    let text = joined(alloc, b"unreachable ", host.as_str().as_bytes())?;
    line_text(alloc, line, text.as_slice())
}
