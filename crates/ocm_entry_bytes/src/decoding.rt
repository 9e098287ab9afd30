//! Asks from their bytes. Each function is one row of the format: its fields in their order.

ghost use Rattle.std.specs.Prelude.{◌≡◌, Ok, IfOk};
ghost use Rattle.ocm_entry.specs.declared.asks.Ask as asks;
ghost use Rattle.ocm_entry_bytes.specs.Reading as reading;
ghost use Rattle.ocm_entry_bytes.specs.Reading.{Gives};
ghost use Rattle.ocm_entry_bytes.specs.Spells.{Spells};

use crate::entry_faults::EntryFault;
use crate::fields::{
    address_at, body_at, byte_at, carry_byte_at, drawn_at, eight_bytes_at, four_bytes_at, name_at,
    optional_address_at, optional_id_at, optional_perms, optional_rights_at, path_at, perms,
    provider_id_at, rights_at, secret_at, sender_id_at, share_name_at, two_bytes_at,
};
use ocm_base::and;
use ocm_entry::{Ask, Cmd, Method};
use ocm_limits::MOST_FILE_BYTES;
use ocm_types::{Fresh, Notice, Offer};
use std::alloc::Global;

#[tactic(auto, unfolding(crate::specs::Reading::share_at))]
fn share_at(alloc: Global, bytes: &[u8]) -> Result<(Cmd, &[u8]), EntryFault>
    ensures { Gives (λ x. (x.0, x.1.now)) result (reading.share_at bytes.now) }
{
    let (read, rest) = path_at(alloc, bytes)?;
    let (read, (with, rest)) = and(read, address_at(alloc, rest))?;
    let (read, (rights, rest)) = and((read, with), rights_at(rest))?;
    let (read, (drawn, rest)) = and((read, rights), drawn_at(rest))?;
    let ((path, with), rights) = read;
    let share = Cmd::Share {
        path,
        with,
        perms: perms(rights),
        fresh: Fresh::new(drawn),
    };
    Ok((share, rest))
}

#[tactic(auto, unfolding(crate::specs::Reading::unshare_at))]
fn unshare_at(bytes: &[u8]) -> Result<(Cmd, &[u8]), EntryFault>
    ensures { Gives (λ x. (x.0, x.1.now)) result (reading.unshare_at bytes.now) }
{
    let (id, rest) = four_bytes_at(bytes)?;
    Ok((Cmd::Unshare { id }, rest))
}

#[tactic(auto, unfolding(crate::specs::Reading::limit_at))]
fn limit_at(bytes: &[u8]) -> Result<(Cmd, &[u8]), EntryFault>
    ensures { Gives (λ x. (x.0, x.1.now)) result (reading.limit_at bytes.now) }
{
    let (id, rest) = four_bytes_at(bytes)?;
    let (rights, rest) = rights_at(rest)?;
    let limit = Cmd::Limit {
        id,
        perms: perms(rights),
    };
    Ok((limit, rest))
}

#[tactic(auto, unfolding(crate::specs::Reading::accept_at))]
fn accept_at(bytes: &[u8]) -> Result<(Cmd, &[u8]), EntryFault>
    ensures { Gives (λ x. (x.0, x.1.now)) result (reading.accept_at bytes.now) }
{
    let (number, rest) = four_bytes_at(bytes)?;
    Ok((Cmd::Accept { number }, rest))
}

#[tactic(auto, unfolding(crate::specs::Reading::decline_at))]
fn decline_at(bytes: &[u8]) -> Result<(Cmd, &[u8]), EntryFault>
    ensures { Gives (λ x. (x.0, x.1.now)) result (reading.decline_at bytes.now) }
{
    let (number, rest) = four_bytes_at(bytes)?;
    Ok((Cmd::Decline { number }, rest))
}

#[tactic(auto, unfolding(crate::specs::Reading::reshare_at))]
fn reshare_at(alloc: Global, bytes: &[u8]) -> Result<(Cmd, &[u8]), EntryFault>
    ensures { Gives (λ x. (x.0, x.1.now)) result (reading.reshare_at bytes.now) }
{
    let (read, rest) = four_bytes_at(bytes)?;
    let (read, (with, rest)) = and(read, address_at(alloc, rest))?;
    let (read, (rights, rest)) = and((read, with), optional_rights_at(rest))?;
    let (number, with) = read;
    let reshare = Cmd::Reshare {
        number,
        with,
        perms: optional_perms(rights),
    };
    Ok((reshare, rest))
}

#[tactic(auto, unfolding(crate::specs::Reading::undo_at))]
fn undo_at(bytes: &[u8]) -> Result<(Cmd, &[u8]), EntryFault>
    ensures { Gives (λ x. (x.0, x.1.now)) result (reading.undo_at bytes.now) }
{
    let (request, rest) = four_bytes_at(bytes)?;
    Ok((Cmd::Undo { request }, rest))
}

#[tactic(auto, unfolding(crate::specs::Reading::expire_at))]
fn expire_at(bytes: &[u8]) -> Result<(Cmd, &[u8]), EntryFault>
    ensures { Gives (λ x. (x.0, x.1.now)) result (reading.expire_at bytes.now) }
{
    let (id, rest) = four_bytes_at(bytes)?;
    let (until, rest) = eight_bytes_at(rest)?;
    Ok((Cmd::Expire { id, until }, rest))
}

#[tactic(auto, unfolding(crate::specs::Reading::command_at))]
fn command_at(alloc: Global, bytes: &[u8]) -> Result<(Cmd, &[u8]), EntryFault>
    ensures { Gives (λ x. (x.0, x.1.now)) result (reading.command_at bytes.now) }
{
    let (kind, rest) = byte_at(bytes)?;
    match kind {
        1 => share_at(alloc, rest),
        2 => unshare_at(rest),
        3 => limit_at(rest),
        4 => accept_at(rest),
        5 => decline_at(rest),
        6 => reshare_at(alloc, rest),
        7 => undo_at(rest),
        8 => expire_at(rest),
        _ => Err(EntryFault::Tag),
    }
}

#[tactic(auto, unfolding(crate::specs::Reading::offer_at))]
fn offer_at(alloc: Global, bytes: &[u8]) -> Result<(Offer, &[u8]), EntryFault>
    ensures { Gives (λ x. (x.0, x.1.now)) result (reading.offer_at bytes.now) }
{
    let (read, rest) = address_at(alloc, bytes)?;
    let (read, (name, rest)) = and(read, share_name_at(alloc, rest))?;
    let (read, (id, rest)) = and((read, name), provider_id_at(alloc, rest))?;
    let (read, (owner, rest)) = and((read, id), address_at(alloc, rest))?;
    let (read, (sender, rest)) = and((read, owner), address_at(alloc, rest))?;
    let (read, (secret, rest)) = and((read, sender), secret_at(alloc, rest))?;
    let (read, (rights, rest)) = and((read, secret), rights_at(rest))?;
    let (((((with, name), id), owner), sender), secret) = read;
    let offer = Offer {
        with,
        name,
        id,
        owner,
        sender,
        secret,
        perms: perms(rights),
    };
    Ok((offer, rest))
}

#[tactic(auto, unfolding(crate::specs::Reading::accepted_at))]
fn accepted_at(alloc: Global, bytes: &[u8]) -> Result<(Notice, &[u8]), EntryFault>
    ensures { Gives (λ x. (x.0, x.1.now)) result (reading.accepted_at bytes.now) }
{
    let (read, rest) = provider_id_at(alloc, bytes)?;
    let (read, (secret, rest)) = and(read, secret_at(alloc, rest))?;
    let (read, (owner, rest)) = and((read, secret), optional_address_at(alloc, rest))?;
    let (read, (with, rest)) = and((read, owner), optional_address_at(alloc, rest))?;
    let (read, (rights, rest)) = and((read, with), optional_rights_at(rest))?;
    let (((id, secret), owner), with) = read;
    let accepted = Notice::Accepted {
        id,
        secret,
        owner,
        with,
        perms: optional_perms(rights),
    };
    Ok((accepted, rest))
}

#[tactic(auto, unfolding(crate::specs::Reading::declined_at))]
fn declined_at(alloc: Global, bytes: &[u8]) -> Result<(Notice, &[u8]), EntryFault>
    ensures { Gives (λ x. (x.0, x.1.now)) result (reading.declined_at bytes.now) }
{
    let (id, rest) = provider_id_at(alloc, bytes)?;
    let (secret, rest) = secret_at(alloc, rest)?;
    Ok((Notice::Declined { id, secret }, rest))
}

#[tactic(auto, unfolding(crate::specs::Reading::unshared_at))]
fn unshared_at(alloc: Global, bytes: &[u8]) -> Result<(Notice, &[u8]), EntryFault>
    ensures { Gives (λ x. (x.0, x.1.now)) result (reading.unshared_at bytes.now) }
{
    let (id, rest) = provider_id_at(alloc, bytes)?;
    let (secret, rest) = secret_at(alloc, rest)?;
    Ok((Notice::Unshared { id, secret }, rest))
}

#[tactic(auto, unfolding(crate::specs::Reading::reshare_request_at))]
fn reshare_request_at(alloc: Global, bytes: &[u8]) -> Result<(Notice, &[u8]), EntryFault>
    ensures { Gives (λ x. (x.0, x.1.now)) result (reading.reshare_request_at bytes.now) }
{
    let (read, rest) = provider_id_at(alloc, bytes)?;
    let (read, (secret, rest)) = and(read, secret_at(alloc, rest))?;
    let (read, (with, rest)) = and((read, secret), address_at(alloc, rest))?;
    let (read, (sender_id, rest)) = and((read, with), sender_id_at(alloc, rest))?;
    let (read, (rights, rest)) = and((read, sender_id), optional_rights_at(rest))?;
    let (((id, secret), with), sender_id) = read;
    let request = Notice::ReshareRequest {
        id,
        secret,
        with,
        sender_id,
        perms: optional_perms(rights),
    };
    Ok((request, rest))
}

#[tactic(auto, unfolding(crate::specs::Reading::reshare_undo_at))]
fn reshare_undo_at(alloc: Global, bytes: &[u8]) -> Result<(Notice, &[u8]), EntryFault>
    ensures { Gives (λ x. (x.0, x.1.now)) result (reading.reshare_undo_at bytes.now) }
{
    let (id, rest) = provider_id_at(alloc, bytes)?;
    let (secret, rest) = secret_at(alloc, rest)?;
    Ok((Notice::ReshareUndo { id, secret }, rest))
}

#[tactic(auto, unfolding(crate::specs::Reading::changed_at))]
fn changed_at(alloc: Global, bytes: &[u8]) -> Result<(Notice, &[u8]), EntryFault>
    ensures { Gives (λ x. (x.0, x.1.now)) result (reading.changed_at bytes.now) }
{
    let (read, rest) = provider_id_at(alloc, bytes)?;
    let (read, (secret, rest)) = and(read, secret_at(alloc, rest))?;
    let (read, (serial, rest)) = and((read, secret), four_bytes_at(rest))?;
    let (read, (rights, rest)) = and((read, serial), rights_at(rest))?;
    let ((id, secret), serial) = read;
    let changed = Notice::Changed {
        id,
        secret,
        serial,
        perms: perms(rights),
    };
    Ok((changed, rest))
}

#[tactic(auto, unfolding(crate::specs::Reading::notice_at))]
fn notice_at(alloc: Global, bytes: &[u8]) -> Result<(Notice, &[u8]), EntryFault>
    ensures { Gives (λ x. (x.0, x.1.now)) result (reading.notice_at bytes.now) }
{
    let (kind, rest) = byte_at(bytes)?;
    match kind {
        1 => accepted_at(alloc, rest),
        2 => declined_at(alloc, rest),
        3 => unshared_at(alloc, rest),
        4 => reshare_request_at(alloc, rest),
        5 => reshare_undo_at(alloc, rest),
        6 => changed_at(alloc, rest),
        _ => Err(EntryFault::Tag),
    }
}

#[tactic(auto, unfolding(crate::specs::Reading::dav_of))]
fn dav_of(
    alloc: Global,
    method: Method,
    most: u32,
    bytes: &[u8],
) -> Result<(Ask, &[u8]), EntryFault>
    ensures { Gives (λ x. (x.0, x.1.now)) result (reading.dav_of method most bytes.now) }
{
    let (read, rest) = secret_at(alloc, bytes)?;
    let (read, (path, rest)) = and(read, path_at(alloc, rest))?;
    let (read, (body, rest)) = and((read, path), body_at(alloc, most, rest))?;
    let (secret, path) = read;
    let dav = Ask::Dav {
        secret,
        method,
        path,
        body,
    };
    Ok((dav, rest))
}

#[tactic(auto, unfolding(crate::specs::Reading::dav_at))]
fn dav_at(alloc: Global, bytes: &[u8]) -> Result<(Ask, &[u8]), EntryFault>
    ensures { Gives (λ x. (x.0, x.1.now)) result (reading.dav_at bytes.now) }
{
    let (method, rest) = byte_at(bytes)?;
    match method {
        1 => dav_of(alloc, Method::Put, MOST_FILE_BYTES as u32, rest),
        2 => dav_of(alloc, Method::Delete, 0, rest),
        3 => dav_of(alloc, Method::Mkcol, 0, rest),
        _ => Err(EntryFault::Tag),
    }
}

#[tactic(auto, unfolding(crate::specs::Reading::add_user_at))]
fn add_user_at(alloc: Global, bytes: &[u8]) -> Result<(Ask, &[u8]), EntryFault>
    ensures { Gives (λ x. (x.0, x.1.now)) result (reading.add_user_at bytes.now) }
{
    let (name, rest) = name_at(alloc, bytes)?;
    let (drawn, rest) = drawn_at(rest)?;
    let user = Ask::AddUser {
        name,
        fresh: Fresh::new(drawn),
    };
    Ok((user, rest))
}

#[tactic(auto, unfolding(crate::specs::Reading::local_at))]
fn local_at(alloc: Global, bytes: &[u8]) -> Result<(Ask, &[u8]), EntryFault>
    ensures { Gives (λ x. (x.0, x.1.now)) result (reading.local_at bytes.now) }
{
    let (read, rest) = secret_at(alloc, bytes)?;
    let (read, (cmd, rest)) = and(read, command_at(alloc, rest))?;
    let key = read;
    Ok((Ask::Local { key, cmd }, rest))
}

#[tactic(auto, unfolding(crate::specs::Reading::offered_at))]
fn offered_at(alloc: Global, bytes: &[u8]) -> Result<(Ask, &[u8]), EntryFault>
    ensures { Gives (λ x. (x.0, x.1.now)) result (reading.offered_at bytes.now) }
{
    let (offer, rest) = offer_at(alloc, bytes)?;
    Ok((Ask::Offer { offer }, rest))
}

#[tactic(auto, unfolding(crate::specs::Reading::noticed_at))]
fn noticed_at(alloc: Global, bytes: &[u8]) -> Result<(Ask, &[u8]), EntryFault>
    ensures { Gives (λ x. (x.0, x.1.now)) result (reading.noticed_at bytes.now) }
{
    let (read, rest) = notice_at(alloc, bytes)?;
    let (read, (drawn, rest)) = and(read, drawn_at(rest))?;
    let notice = read;
    let noticed = Ask::Notice {
        notice,
        fresh: Fresh::new(drawn),
    };
    Ok((noticed, rest))
}

#[tactic(auto, unfolding(crate::specs::Reading::settle_at))]
fn settle_at(alloc: Global, bytes: &[u8]) -> Result<(Ask, &[u8]), EntryFault>
    ensures { Gives (λ x. (x.0, x.1.now)) result (reading.settle_at bytes.now) }
{
    let (number, rest) = four_bytes_at(bytes)?;
    let (status, rest) = two_bytes_at(rest)?;
    let (id, rest) = optional_id_at(alloc, rest)?;
    Ok((Ask::Settle { number, status, id }, rest))
}

#[tactic(auto, unfolding(crate::specs::Reading::tick_at))]
fn tick_at(bytes: &[u8]) -> Result<(Ask, &[u8]), EntryFault>
    ensures { Gives (λ x. (x.0, x.1.now)) result (reading.tick_at bytes.now) }
{
    let (clock, rest) = eight_bytes_at(bytes)?;
    Ok((Ask::Tick { clock }, rest))
}

#[tactic(auto, unfolding(crate::specs::Reading::carry_at))]
fn carry_at(alloc: Global, bytes: &[u8]) -> Result<(Ask, &[u8]), EntryFault>
    ensures { Gives (λ x. (x.0, x.1.now)) result (reading.carry_at bytes.now) }
{
    let (read, rest) = secret_at(alloc, bytes)?;
    let (read, (from, rest)) = and(read, path_at(alloc, rest))?;
    let (read, (to, rest)) = and((read, from), path_at(alloc, rest))?;
    let (read, ((moving, overwrite), rest)) = and((read, to), carry_byte_at(rest))?;
    let ((secret, from), to) = read;
    let carry = Ask::Carry {
        secret,
        from,
        to,
        moving,
        overwrite,
    };
    Ok((carry, rest))
}

#[tactic(auto, unfolding(crate::specs::Reading::ask_at))]
fn ask_at(alloc: Global, bytes: &[u8]) -> Result<(Ask, &[u8]), EntryFault>
    ensures { Gives (λ x. (x.0, x.1.now)) result (reading.ask_at bytes.now) }
{
    let (kind, rest) = byte_at(bytes)?;
    match kind {
        1 => add_user_at(alloc, rest),
        2 => local_at(alloc, rest),
        3 => offered_at(alloc, rest),
        4 => noticed_at(alloc, rest),
        5 => dav_at(alloc, rest),
        6 => settle_at(alloc, rest),
        7 => tick_at(rest),
        8 => carry_at(alloc, rest),
        _ => Err(EntryFault::Tag),
    }
}

/// The ask of all the bytes.
#[tactic(auto, unfolding(crate::specs::Reading::ask_of))]
fn ask_of(alloc: Global, bytes: &[u8]) -> Result<Ask, EntryFault>
    ensures { Gives (λ a. a) result (reading.ask_of bytes.now) }
{
    let (ask, rest) = ask_at(alloc, bytes)?;
    rest.is_empty().then_some(ask).ok_or(EntryFault::Rest)
}

/// The ask that the bytes spell, all of the bytes.
pub fn decode(alloc: Global, bytes: &[u8]) -> Result<Ask, EntryFault>
    // What is read is spelled so, each byte of it.
    ensures found { IfOk result (λ ask. Spells ask bytes.now) }

    // What is spelled so is read, unless there is no memory.
    ensures only { (ask : asks.Ask) → Spells ask bytes.now → Gives (λ a. a) result (Ok ask) }

    // A fault is the first one from the left.
    ensures exact { Gives (λ a. a) result (reading.ask_of bytes.now) }
{
    ask_of(alloc, bytes)
}
