ghost use Rattle.std.specs.Prelude.{◌≡◌, ◌≢◌, ◌⊎◌, IfOk};
ghost use Rattle.ocm_base.specs.Outside.{Appends, AppendsPart, Rose};
ghost use Rattle.ocm_commands_dav.specs.Answers as answers;
ghost use Rattle.ocm_commands_dav.specs.Answers.{IsTold, end_of, text_of};
ghost use Rattle.ocm_commands_dav.specs.Words.{usage_line};

use crate::ends::End;
use ocm_base::{Bytes, Failed, NoMemory, Sink, write_all};
use ocm_davclient::ClientFault;
use std::alloc::Global;

/// The line that tells the commands.
const USAGE: &[u8] =
    b"usage: ocmd replay|audit|check KIND|drill NUMBER EVENTS|serve OPTIONS|dav VERB HOST SECRET PATH\n";

/// Tells the commands.
pub fn tell_usage<K: Sink>(sink: &mut K) -> End
    ensures one { (result ≡ End.Usage) ⊎ (result ≡ End.WriteFault) }
    ensures written { result ≡ End.Usage → Appends (K.taken sink.old) (K.taken sink.new) usage_line }
    ensures part { AppendsPart (K.taken sink.old) (K.taken sink.new) usage_line }
    ensures fault { result ≡ End.WriteFault → Rose (K.faults sink.old) (K.faults sink.new) }
{
    write_text(sink, USAGE, End::Usage)
}

/// Writes a text, and then ends so.
fn write_text<K: Sink>(sink: &mut K, text: &[u8], end: End) -> End
    requires { end ≢ End.WriteFault }
    ensures one { (result ≡ end) ⊎ (result ≡ End.WriteFault) }
    ensures written { result ≢ End.WriteFault → Appends (K.taken sink.old) (K.taken sink.new) text.now }
    ensures part { AppendsPart (K.taken sink.old) (K.taken sink.new) text.now }
    ensures fault { result ≡ End.WriteFault → Rose (K.faults sink.old) (K.faults sink.new) }
{
    match write_all(sink, text) {
        Ok(()) => end,
        Err(Failed) => End::WriteFault,
    }
}

/// The line that tells another status.
fn status_line(alloc: Global, code: u16) -> Result<Bytes, NoMemory>
    ensures { IfOk result (λ line. line ≡ answers.status_line code) }
{
    let digits = code.to_string(alloc)?;
    let mut line = Bytes::of(alloc, b"status ")?;
    line.add(digits.as_bytes())?;
    line.add(b"\n")?;
    Ok(line)
}

/// Tells another status.
fn tell_status<K: Sink>(alloc: Global, code: u16, sink: &mut K) -> End
    ensures one { (result ≡ End.Status) ⊎ (result ≡ End.WriteFault) ⊎ (result ≡ End.NoMemory) }
    ensures written { result ≡ End.Status → Appends (K.taken sink.old) (K.taken sink.new) (answers.status_line code) }
    ensures part { AppendsPart (K.taken sink.old) (K.taken sink.new) (answers.status_line code) }
    ensures unwritten { result ≡ End.NoMemory → sink.new ≡ sink.old }
    ensures fault { result ≡ End.WriteFault → Rose (K.faults sink.old) (K.faults sink.new) }
{
    match status_line(alloc, code) {
        Ok(line) => write_text(sink, line.as_slice(), End::Status),
        Err(NoMemory) => End::NoMemory,
    }
}

/// Tells an answer: the bytes that came, the line of another status, or nothing.
pub fn tell<K: Sink>(alloc: Global, answer: Result<Bytes, ClientFault>, sink: &mut K) -> End
    ensures one { IsTold result ⊎ (result ≡ End.WriteFault) ⊎ (result ≡ End.NoMemory) }
    ensures told { IsTold result → (result ≡ end_of answer) × Appends (K.taken sink.old) (K.taken sink.new) (text_of answer) }
    ensures part { result ≡ End.WriteFault → AppendsPart (K.taken sink.old) (K.taken sink.new) (text_of answer) }
    ensures unwritten { result ≡ End.NoMemory → K.taken sink.new ≡ K.taken sink.old }
    ensures fault { result ≡ End.WriteFault → Rose (K.faults sink.old) (K.faults sink.new) }
{
    match answer {
        Ok(body) => write_text(sink, body.as_slice(), End::Done),
        Err(ClientFault::Status(code)) => tell_status(alloc, code, sink),
        Err(ClientFault::DialFault) => End::DialFault,
        Err(ClientFault::NoDiscovery) => End::NoDiscovery,
        Err(ClientFault::BadReply(_)) => End::BadReply,
        Err(ClientFault::NoMemory) => End::NoMemory,
    }
}
