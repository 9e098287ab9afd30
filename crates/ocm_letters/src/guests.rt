ghost use Rattle.std.specs.Prelude.{◌≡◌, IfOk};
ghost use Rattle.ocm_rules.specs.Messages.{acceptance, refusal, reshare_request, undo_of};

use crate::ids::sender_id;
use crate::messages::message;
use ocm_base::NoMemory;
use ocm_rules::{Message, Subject};
use ocm_types::{Address, Letter, Notice, Offer, Perms, ProviderId};
use std::alloc::Global;

/// The message that tells the owner's server that the received offer of this number was taken, and
/// how it was understood.
pub fn acceptance(alloc: Global, number: u32, offer: &Offer) -> Result<Message, NoMemory>
    ensures { IfOk result (λ message. message ≡ acceptance number offer.now) }
{
    let to = offer.owner.host.copy()?;
    let id = offer.id.copy()?;
    let secret = offer.secret.copy()?;
    let owner = offer.owner.copy()?;
    let with = offer.with.copy()?;
    let letter = Letter::Notice(Notice::Accepted {
        id,
        secret,
        owner: Some(owner),
        with: Some(with),
        perms: Some(offer.perms),
    });
    message(alloc, Subject::Received { number }, to, letter)
}

/// The message that tells the owner's server that the received offer of this number was declined.
pub fn refusal(alloc: Global, number: u32, offer: &Offer) -> Result<Message, NoMemory>
    ensures { IfOk result (λ message. message ≡ refusal number offer.now) }
{
    let to = offer.owner.host.copy()?;
    let id = offer.id.copy()?;
    let secret = offer.secret.copy()?;
    let letter = Letter::Notice(Notice::Declined { id, secret });
    message(alloc, Subject::Received { number }, to, letter)
}

/// The message of the request of this number, which asks the owner's server to share what was offered
/// with another.
pub fn reshare_request(
    alloc: Global,
    request: u32,
    with: &Address,
    perms: Option<Perms>,
    offer: &Offer,
) -> Result<Message, NoMemory>
    ensures { IfOk result (λ message. message ≡ reshare_request request with.now perms offer.now) }
{
    let to = offer.owner.host.copy()?;
    let id = offer.id.copy()?;
    let secret = offer.secret.copy()?;
    let with = with.copy()?;
    let sender_id = sender_id(alloc, request)?;
    let letter = Letter::Notice(Notice::ReshareRequest {
        id,
        secret,
        with,
        sender_id,
        perms,
    });
    message(alloc, Subject::Request { request }, to, letter)
}

/// The message that takes the request of this number back: the share that the owner's server made for
/// it, which has this mark, ends.
pub fn undo_of(
    alloc: Global,
    request: u32,
    offer: &Offer,
    child: &ProviderId,
) -> Result<Message, NoMemory>
    ensures { IfOk result (λ message. message ≡ undo_of request offer.now child.now) }
{
    let to = offer.owner.host.copy()?;
    let id = child.copy()?;
    let secret = offer.secret.copy()?;
    let letter = Letter::Notice(Notice::ReshareUndo { id, secret });
    message(alloc, Subject::Request { request }, to, letter)
}
