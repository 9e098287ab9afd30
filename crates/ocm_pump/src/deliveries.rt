ghost use Rattle.std.specs.Prelude.{◌≡◌, ◌≤◌, true, Ok, Err, IfOk};
ghost use Rattle.ocm_base.specs.Outside.{Rose};
ghost use Rattle.ocm_records.specs.Rows.{record_of};
ghost use Rattle.ocm_pump.specs.Exchanges.{AddsSome, Hears};
ghost use Rattle.ocm_pump.specs.Replies.{Gives};
ghost use Rattle.ocm_pump.specs.Delivery as delivery;
ghost use Rattle.ocm_pump.specs.Delivery.{Posts, Delivers};

use crate::children::read_child;
use crate::dials::Dial;
use crate::faults::PumpFault;
use crate::replies::send;
use crate::searches::discover;
use crate::sites::Site;
use ocm_base::{Bytes, NoMemory};
use ocm_http::{Head, Message, write_request};
use ocm_records::{RecordFault, write_notice, write_offer};
use ocm_rules::{is_success, settles};
use ocm_types::{Letter, Notice, Numbered, ProviderId};
use std::alloc::Global;

/// What a server answered to a letter.
#[derive(Drop)]
pub struct Answered {
    /// The status of its reply.
    pub status: u16,
    /// The mark of the share that was made, exactly where a reshare request succeeded.
    pub id: Option<ProviderId>,
}

/// Whether a letter asks the owner of a share to share it with another.
fn asks_share(letter: &Letter) -> bool
    ensures { result ≡ delivery.asks_share letter.now }
{
    matches!(letter, Letter::Notice(Notice::ReshareRequest { .. }))
}

/// The end point of a letter, behind the site's path.
fn letter_end(letter: &Letter) -> &'static str
    ensures { result.now ≡ delivery.letter_end letter.now }
{
    match letter {
        Letter::Offer(_) => "/shares",
        Letter::Notice(_) => "/notifications",
    }
}

/// The letter's record.
fn letter_bytes(alloc: Global, letter: &Letter) -> Result<Bytes, NoMemory>
    ensures { IfOk result (λ bytes. bytes ≡ delivery.letter_bytes letter.now) }
{
    match letter {
        Letter::Offer(offer) => write_offer(alloc, offer),
        Letter::Notice(notice) => write_notice(alloc, notice),
    }
}

/// The post of a letter: without credentials.
#[tactic(auto, unfolding(crate::specs::Delivery::post_request))]
pub(crate) fn post_request(alloc: Global, site: &Site, letter: &Letter) -> Result<Bytes, NoMemory>
    ensures { IfOk result (λ bytes. bytes ≡ delivery.post_request site.now letter.now) }
{
    let mut target = String::from_str(alloc, site.path.as_str())?;
    target.push_str(letter_end(letter))?;
    let body = letter_bytes(alloc, letter)?;
    write_request(alloc, &site.host, "POST", target.as_str(), None, &body)
}

/// The answer with the mark of the share that was made.
fn with_child(alloc: Global, status: u16, body: &[u8]) -> Result<Answered, PumpFault>
    ensures { Gives result (delivery.with_child status (record_of delivery.child body.now)) }
{
    match read_child(alloc, body) {
        Ok(id) => Ok(Answered {
            status,
            id: Some(id),
        }),
        Err(RecordFault::NoMemory) => Err(PumpFault::NoMemory),
        Err(_) => Err(PumpFault::BadReply(0)),
    }
}

/// The answer to a letter by a reply's status and body.
fn answer_of(
    alloc: Global,
    letter: &Letter,
    status: u16,
    body: &[u8],
) -> Result<Answered, PumpFault>
    ensures { Gives result (delivery.answer_of letter.now status body.now) }
{
    if asks_share(letter) && is_success(status) {
        with_child(alloc, status, body)
    } else {
        Ok(Answered { status, id: None })
    }
}

/// The answer to a letter by a reply.
fn answer_by(alloc: Global, letter: &Letter, message: &Message) -> Result<Answered, PumpFault>
    ensures { Gives result (delivery.answer_by letter.now message.now.head message.now.body) }
{
    match &message.head {
        Head::Reply { status, fields: _ } => {
            answer_of(alloc, letter, *status, message.body.as_slice())
        }
        Head::Request { .. } => Err(PumpFault::BadReply(0)),
    }
}

/// The answer to a letter by what came back.
pub(crate) fn answer_in(
    alloc: Global,
    letter: &Letter,
    sent: Result<Message, PumpFault>,
) -> Result<Answered, PumpFault>
    ensures { Gives result (delivery.answer_in letter.now sent) }
{
    match sent {
        Ok(message) => answer_by(alloc, letter, &message),
        Err(fault) => Err(fault),
    }
}

/// Posts a letter to a site.
fn post<N: Dial>(
    alloc: Global,
    dial: &mut N,
    site: &Site,
    letter: &Letter,
) -> Result<Answered, PumpFault>
    requires delivers { N.delivers dial.old ≡ true }
    ensures exact { AddsSome (N.exchanges dial.old) (N.exchanges dial.new) (λ added. Posts site.now letter.now added result) }
    ensures dial_fault { result ≡ Err PumpFault.DialFault → Rose (N.faults dial.old) (N.faults dial.new) }
    ensures never_falls { N.faults dial.old ≤ N.faults dial.new }
    ensures kind { N.delivers dial.new ≡ N.delivers dial.old }
    ensures untold { N.told dial.new ≡ N.told dial.old }
{
    let request = post_request(alloc, site, letter)?;
    let sent = send(alloc, dial, &site.host, &request);
    answer_in(alloc, letter, sent)
}

/// Finds the document of the server that a letter is for, and posts the letter to the end point that it names.
fn find_and_post<N: Dial>(
    alloc: Global,
    dial: &mut N,
    message: &Numbered,
) -> Result<Answered, PumpFault>
    requires delivers { N.delivers dial.old ≡ true }
    ensures exact { AddsSome (N.exchanges dial.old) (N.exchanges dial.new) (λ added. Delivers message.now added result) }
    ensures dial_fault { result ≡ Err PumpFault.DialFault → Rose (N.faults dial.old) (N.faults dial.new) }
    ensures never_falls { N.faults dial.old ≤ N.faults dial.new }
    ensures kind { N.delivers dial.new ≡ N.delivers dial.old }
    ensures untold { N.told dial.new ≡ N.told dial.old }
{
    let site = discover(alloc, dial, &message.to)?;
    post(alloc, dial, &site, &message.letter)
}

/// Whether what came of a delivery settles its letter.
pub(crate) fn is_settled(letter: &Letter, delivered: &Result<Answered, PumpFault>) -> bool
    ensures { result ≡ delivery.is_settled letter.now delivered.now }
{
    match delivered {
        Ok(answered) => settles(letter, answered.status, answered.id.as_ref()),
        Err(_) => false,
    }
}

/// Tells a dial whether what came of a delivery settles its message.
fn tell<N: Dial>(dial: &mut N, message: &Numbered, delivered: &Result<Answered, PumpFault>)
    ensures same { (N.exchanges dial.new ≡ N.exchanges dial.old) × (N.faults dial.new ≡ N.faults dial.old) × (N.delivers dial.new ≡ N.delivers dial.old) }
    ensures told { Hears (N.told dial.old) (N.told dial.new) message.now.to (delivery.is_settled message.now.letter delivered.now) }
{
    let settled = is_settled(&message.letter, delivered);
    dial.came(&message.to, settled);
}

/// Delivers a letter to the server that it is for: finds that server's document, posts the letter's record to the end
/// point that it names, without credentials, and answers what came back (Open Cloud Mesh API 1.1). The dial is told
/// whether that settles the letter.
pub fn deliver<N: Dial>(
    alloc: Global,
    dial: &mut N,
    message: &Numbered,
) -> Result<Answered, PumpFault>
    requires delivers { N.delivers dial.old ≡ true }
    // The exchanges that are added, and the answer by the bytes that came back in them.
    ensures exact { AddsSome (N.exchanges dial.old) (N.exchanges dial.new) (λ added. Delivers message.now added result) }
    ensures dial_fault { result ≡ Err PumpFault.DialFault → Rose (N.faults dial.old) (N.faults dial.new) }
    ensures never_falls { N.faults dial.old ≤ N.faults dial.new }
    ensures kind { N.delivers dial.new ≡ N.delivers dial.old }
    // The dial is told once whether the answer settles the message of that host.
    ensures told { Hears (N.told dial.old) (N.told dial.new) message.now.to (delivery.is_settled message.now.letter result) }
{
    let delivered = find_and_post(alloc, dial, message);
    tell(dial, message, &delivered);
    delivered
}
