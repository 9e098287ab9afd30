ghost use Rattle.std.specs.Prelude.{◌≡◌, IfOk, unwrap_or};
ghost use Rattle.ocm_types.specs.Rights.{perms_from};
ghost use Rattle.ocm_rules.specs.Messages.{about_share, unshared, changed};
ghost use Rattle.ocm_letters.specs.Letters.{offer_from, offered_from};
ghost use Rattle.ocm_letters.specs.Rows.{own_share_from, child_share_from};

use crate::ids::{provider_id, share_name};
use crate::messages::message;
use ocm_base::NoMemory;
use ocm_entry::Share;
use ocm_path::Path;
use ocm_rules::{Message, Subject};
use ocm_types::{Address, Host, Letter, Name, Notice, Offer, Perms, Rights, Secret, SenderId};
use std::alloc::Global;

/// The message that offers the share of this number, made at this host, to the server of its guest.
/// The owner has this name.
pub fn offered(
    alloc: Global,
    host: &Host,
    owner: &Name,
    id: u32,
    share: &Share,
) -> Result<Message, NoMemory>
    ensures { IfOk result (λ message. message ≡ offered_from host.now owner.now id share.now) }
{
    let to = share.with.host.copy()?;
    let offer = offer(alloc, host, owner, id, share)?;
    let letter = Letter::Offer(offer);
    message(alloc, Subject::Share { id }, to, letter)
}

fn offer(
    alloc: Global,
    host: &Host,
    owner: &Name,
    id: u32,
    share: &Share,
) -> Result<Offer, NoMemory>
    ensures { IfOk result (λ offer. offer ≡ offer_from host.now owner.now id share.now) }
{
    let with = share.with.copy()?;
    let name = share_name(alloc, owner, &share.root)?;
    let id = provider_id(alloc, id)?;
    let owner = address(host, owner)?;
    let sender = share.sender.copy()?;
    let secret = share.secret.copy()?;
    Ok(Offer {
        with,
        name,
        id,
        owner,
        sender,
        secret,
        perms: share.granted,
    })
}

fn address(host: &Host, user: &Name) -> Result<Address, NoMemory>
    ensures { IfOk result (λ address. address ≡ record { user = user.now; host = host.now }) }
{
    let user = user.copy()?;
    let host = host.copy()?;
    Ok(Address { user, host })
}

/// The message that tells the server of its guest that the share of this number ended.
pub fn unshared(alloc: Global, id: u32, share: &Share) -> Result<Message, NoMemory>
    ensures { IfOk result (λ message. message ≡ unshared id share.now) }
{
    let to = share.with.host.copy()?;
    let mark = provider_id(alloc, id)?;
    let secret = share.secret.copy()?;
    let letter = Letter::Notice(Notice::Unshared { id: mark, secret });
    message(alloc, Subject::Share { id }, to, letter)
}

/// The message that tells the server of its guest what may be done by the share of this number from
/// now on, by the change of this serial.
pub fn changed(
    alloc: Global,
    serial: u32,
    perms: Perms,
    id: u32,
    share: &Share,
) -> Result<Message, NoMemory>
    ensures { IfOk result (λ message. message ≡ changed serial perms id share.now) }
{
    let to = share.with.host.copy()?;
    let mark = provider_id(alloc, id)?;
    let secret = share.secret.copy()?;
    let letter = Letter::Notice(Notice::Changed {
        id: mark,
        secret,
        serial,
        perms,
    });
    message(alloc, Subject::Share { id }, to, letter)
}

/// The row of a share of an owner's own command, made at this host: the user of this number and this
/// name shares a path with a guest.
pub fn own_share(
    host: &Host,
    owner: u32,
    owner_name: &Name,
    path: &Path,
    with: &Address,
    perms: Perms,
    secret: Secret,
) -> Result<Share, NoMemory>
    ensures { IfOk result (λ share. share ≡ own_share_from host.now owner owner_name.now path.now with.now perms secret) }
{
    let root = path.copy()?;
    let with = with.copy()?;
    let sender = address(host, owner_name)?;
    Ok(Share {
        owner,
        root,
        parent: None,
        with,
        sender,
        secret,
        granted: perms,
        sender_id: None,
        asked: None,
    })
}

/// The row of a share below the one of this number, made at the request of that one's guest.
pub fn child_share(
    parent_number: u32,
    parent: &Share,
    granted: Perms,
    with: &Address,
    sender_id: &SenderId,
    asked: Option<Perms>,
    secret: Secret,
) -> Result<Share, NoMemory>
    ensures { IfOk result (λ share. share ≡ child_share_from parent_number parent.now granted with.now sender_id.now asked secret) }
{
    let root = parent.root.copy()?;
    let with = with.copy()?;
    let sender = parent.with.copy()?;
    let sender_id = sender_id.copy()?;
    Ok(Share {
        owner: parent.owner,
        root,
        parent: Some(parent_number),
        with,
        sender,
        secret,
        granted,
        sender_id: Some(sender_id),
        asked,
    })
}

/// What a further share grants: the permissions that were asked for, or where none were the parent's
/// rights. None where that is no right at all.
pub fn granted(rights: Rights, asked: Option<Perms>) -> Option<Perms>
    ensures { result ≡ perms_from (unwrap_or asked rights) }
{
    match asked {
        Some(perms) => Perms::of(perms.rights()),
        None => Perms::of(rights),
    }
}
