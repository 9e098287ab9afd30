ghost use Rattle.std.specs.Prelude.{◌≡◌, ◌<◌, ◌≤◌, option_copied, string_bytes, IfOk, IfSome, OnOk, OnErr, IsSome, IsTrue};
ghost use Rattle.http.specs.StatusCode.{reason_phrase};
ghost use Rattle.ocm_base.specs.Outside.{Rose, Appends, AppendsPart};
ghost use Rattle.ocm_texts.specs.Hex.{AreBytes};
ghost use Rattle.ocm_types.specs.Hosts.{is_host};
ghost use Rattle.ocm_http.specs.Written as written;
ghost use Rattle.ocm_http.specs.ReadBack as back;

use base64::engine::general_purpose::STANDARD;
use http::StatusCode;
use ocm_base::{Bytes, Failed, Joined, List, NoMemory, Sink, write_all};
use ocm_http_heads::Field;
use ocm_types::{Host, Secret};
use std::alloc::Global;

/// The room that is taken for a reply's head, in bytes. Most heads fit, and a longer one takes more.
const HEAD_ROOM: usize = 512;

/// The replies that take no memory.
#[derive(Clone, Copy)]
pub enum Fixed {
    /// 400, where a connection's stream has a fault.
    Bad,
    /// 500, where there was no memory.
    NoMemory,
}

fn add_field(text: &mut Bytes, name: &str, value: &[u8]) -> Result<(), NoMemory>
    ensures { OnOk result (text.new ≡ written.with_field text.old name.now value.now) }
{
    text.add(name.as_bytes())?;
    text.add(b": ")?;
    text.add(value)?;
    text.add(b"\r\n")?;
    Ok(())
}

fn add_fields(text: &mut Bytes, fields: &[Field]) -> Result<(), NoMemory>
    ensures { OnOk result (text.new ≡ written.with_fields text.old fields.now) }
{
    for field in fields {
        add_field(text, field.name.as_str(), field.value.as_slice())?;
    }
    Ok(())
}

/// The basic credentials of a secret.
fn basic(alloc: Global, secret: &str) -> Result<String, NoMemory>
    ensures written { IfOk result (λ s. string_bytes s ≡ written.basic secret.now) }
    ensures bytes { OnOk result (AreBytes secret.now) }
{
    let mut plain = String::from_str(alloc, secret)?;
    plain.push_str(":")?;
    let mut text = String::from_str(alloc, "Basic ")?;
    STANDARD.encode_string(plain.as_bytes(), &mut text)?;
    Ok(text)
}

fn add_credentials(alloc: Global, text: &mut Bytes, auth: Option<&Secret>) -> Result<(), NoMemory>
    ensures written { OnOk result (text.new ≡ written.with_credentials text.old (option_copied auth.entry)) }
    ensures bytes { OnOk result (IfSome (option_copied auth.entry) AreBytes) }
{
    if let Some(secret) = auth {
        let credentials = basic(alloc, secret.as_str())?;
        add_field(text, "Authorization", credentials.as_bytes())?;
    }
    Ok(())
}

fn add_depth(text: &mut Bytes, method: &str) -> Result<(), NoMemory>
    ensures { OnOk result (text.new ≡ written.with_depth text.old method.now) }
{
    if method == "PROPFIND" {
        add_field(text, "Depth", b"1")?;
    }
    Ok(())
}

fn add_type(text: &mut Bytes, method: &str) -> Result<(), NoMemory>
    ensures { OnOk result (text.new ≡ written.with_type text.old method.now) }
{
    if method == "POST" {
        add_field(text, "Content-Type", b"application/json")?;
    }
    Ok(())
}

fn add_length(alloc: Global, text: &mut Bytes, n: usize) -> Result<(), NoMemory>
    ensures { OnOk result (text.new ≡ written.with_length text.old n) }
{
    let digits = n.to_string(alloc)?;
    add_field(text, "Content-Length", digits.as_bytes())?;
    Ok(())
}

fn request_line(alloc: Global, host: &Host, method: &str, target: &str) -> Result<Bytes, NoMemory>
    ensures written { IfOk result (λ t. t ≡ written.request_line host.now method.now target.now) }
    ensures host { OnOk result (IsTrue (is_host host.now)) }
{
    let mut text = Bytes::of(alloc, method.as_bytes())?;
    text.add(b" ")?;
    text.add(target.as_bytes())?;
    text.add(b" HTTP/1.1")?;
    text.add(b"\r\n")?;
    add_field(&mut text, "Host", host.text().as_str().as_bytes())?;
    Ok(text)
}

/// A request to a host, which closes its connection, with the secret as basic credentials.
pub fn write_request(
    alloc: Global,
    host: &Host,
    method: &str,
    target: &str,
    auth: Option<&Secret>,
    body: &Bytes,
) -> Result<Bytes, NoMemory>
    ensures written { IfOk result (λ t. t ≡ written.written_request host.now method.now target.now (option_copied auth.entry) body.now) }
    ensures read_back { IfOk result (back.RequestIsReadBack host.now method.now target.now (option_copied auth.entry) body.now) }
{
    let mut text = request_line(alloc, host, method, target)?;
    add_credentials(alloc, &mut text, auth)?;
    add_depth(&mut text, method)?;
    add_type(&mut text, method)?;
    add_length(alloc, &mut text, body.len())?;
    add_field(&mut text, "Connection", b"close")?;
    text.add(b"\r\n")?;
    text.add(body.as_slice())?;
    Ok(text)
}

fn phrase(status: u16) -> &'static str
    requires code { (100 ≤ status) × (status < 1000) }
    ensures { result.now ≡ written.phrase_of (reason_phrase status) }
{
    match StatusCode::from_u16(status) {
        Ok(code) => code.canonical_reason().unwrap_or(""),
        Err(_) => unreachable!(),
    }
}

fn status_line(alloc: Global, status: u16) -> Result<Bytes, NoMemory>
    requires code { (100 ≤ status) × (status < 1000) }
    ensures { IfOk result (λ t. t ≡ written.status_line status) }
{
    let digits = status.to_string(alloc)?;
    let mut text = Bytes::from_vec(Vec::with_capacity(alloc, HEAD_ROOM)?);
    text.add(b"HTTP/1.1 ")?;
    text.add(digits.as_bytes())?;
    text.add(b" ")?;
    text.add(phrase(status).as_bytes())?;
    text.add(b"\r\n")?;
    Ok(text)
}

fn add_length_unless_empty(
    alloc: Global,
    text: &mut Bytes,
    status: u16,
    n: usize,
) -> Result<(), NoMemory>
    ensures { OnOk result (text.new ≡ written.with_length_unless_empty text.old status n) }
{
    if status != 204 {
        add_length(alloc, text, n)?;
    }
    Ok(())
}

fn add_close(text: &mut Bytes, closing: bool) -> Result<(), NoMemory>
    ensures { OnOk result (text.new ≡ written.with_close_if text.old closing) }
{
    if closing {
        add_field(text, "Connection", b"close")?;
    }
    Ok(())
}

/// A reply with a status that has a phrase. `bodyless` leaves the body away and keeps its length, as the answer to a
/// HEAD wants it (RFC 9110 section 9.3.2).
pub fn write_reply(
    alloc: Global,
    status: u16,
    fields: &List<Field>,
    body: &Bytes,
    bodyless: bool,
    closing: bool,
) -> Result<Joined, NoMemory>
    requires code { (100 ≤ status) × (status < 1000) }
    requires phrase { IsSome (reason_phrase status) }
    ensures written { IfOk result (λ t. t ≡ written.written_reply status fields.now body.now bodyless closing) }
    ensures read_back { IfOk result (back.ReplyIsReadBack status fields.now body.now bodyless closing) }
{
    let mut text = status_line(alloc, status)?;
    add_fields(&mut text, fields.as_slice())?;
    add_length_unless_empty(alloc, &mut text, status, body.len())?;
    add_close(&mut text, closing)?;
    text.add(b"\r\n")?;
    if bodyless {
        return Ok(Joined::of(text, Bytes::new(alloc)));
    }
    let body = body.copy()?;
    Ok(Joined::of(text, body))
}

/// The text of a fixed reply.
pub fn fixed_text(which: Fixed) -> &'static [u8]
    ensures { result.now ≡ written.fixed which }
{
    match which {
        Fixed::Bad => b"HTTP/1.1 400 Bad Request\r\nContent-Length: 0\r\nConnection: close\r\n\r\n",
        Fixed::NoMemory =>
            b"HTTP/1.1 500 Internal Server Error\r\nContent-Length: 0\r\nConnection: close\r\n\r\n",
    }
}

/// Writes a fixed reply. Where the sink fails, a front of it was taken.
pub fn write_fixed<K: Sink>(sink: &mut K, which: Fixed) -> Result<(), Failed>
    ensures ok { OnOk result (Appends (K.taken sink.old) (K.taken sink.new) (written.fixed which)) }
    ensures err { OnErr result (AppendsPart (K.taken sink.old) (K.taken sink.new) (written.fixed which)) }
    ensures rose { OnErr result (Rose (K.faults sink.old) (K.faults sink.new)) }
    ensures never_falls { K.faults sink.old ≤ K.faults sink.new }
{
    write_all(sink, fixed_text(which))?;
    Ok(())
}
