ghost use Rattle.std.specs.Prelude.{◌≡◌, ◌-◌, ◌<◌, ◌^◌, IfOk, IsTrue, None, Some, false, if◌then◌else◌, length, nat_eq, option_and_then, option_copied};
ghost use Rattle.ocm_texts.specs.Hex.{hex};
ghost use Rattle.ocm_entry.specs.Proper.{is_short};
ghost use Rattle.ocm_entry.specs.declared.asks.Ask.TheVariants as asks;
ghost use Rattle.ocm_entry.specs.declared.rows.Share.{Share as ShareRow};
ghost use Rattle.ocm_entry.specs.declared.rows.Standing.TheVariants as standings;
ghost use Rattle.ocm_rules.specs.Answers.{add_user_reply, end_reply, get_reply, is_collection, local_reply, method_reply, put_done, put_reply, share_reply};
ghost use Rattle.ocm_rules.specs.Files.{at, limit_of, nodes, parent_of};
ghost use Rattle.ocm_rules.specs.History.{answer, answer_kept};
ghost use Rattle.ocm_rules.specs.Messages.{view_of};
ghost use Rattle.ocm_rules.specs.Numbers.{at_number, same_text};
ghost use Rattle.ocm_rules.specs.Shares.{is_used, made};
ghost use Rattle.ocm_rules.specs.Users.{user_of_key, users};
ghost use Rattle.ocm_rules.specs.Views.{is_live_in, share_of_owner};
ghost use Rattle.ocm_rules_reference.specs.Histories.{ArePlain, gets_or_puts, is_plain, shares_or_ends};

use crate::files::{below, limit_of, parent_of, standing_at};
use crate::histories::kept_of;
use crate::shares::{grant_to, is_live, is_used, made_of, permits};
use crate::users::{is_taken, user_of_key, users_of};
use ocm_base::{Bytes, NoMemory};
use ocm_entry::{AddressField, Ask, Cmd, Entry, Method, Node, Place, Reply, Share, Standing, Why};
use ocm_limits::{MOST_SHARES, MOST_USERS};
use ocm_path::Path;
use ocm_rules::row_at;
use ocm_types::{Address, Fresh, Host, Name, Secret, Which};
use std::alloc::Global;

/// The reply to an ask on this host after a history, whose newest entry stands first.
///
/// Each ask, that of an entry too, is for a new user, for a share or its end at once, or for a file that
/// is read or put, and each path in it has a text of at most 1,024 bytes. It searches the history for
/// each ask, and fails where there is no memory.
pub fn answer(alloc: Global, host: &Host, history: &[Entry], ask: &Ask) -> Result<Reply, NoMemory>
    requires ask { IsTrue (is_plain ask.now) }
    requires history { ArePlain history.now }
    requires few { length history.now < 2 ^ 32 - 1 }
    ensures { IfOk result (λ reply. reply ≡ answer host.now history.now ask.now) }
{
    let entries = kept_of(alloc, host, history)?;
    let reply = answer_kept(alloc, host, entries.as_slice(), ask)?;
    Ok(reply)
}

/// The reply to an ask after these kept entries.
fn answer_kept(alloc: Global, host: &Host, entries: &[Entry], ask: &Ask) -> Result<Reply, NoMemory>
    requires ask { IsTrue (is_plain ask.now) }
    requires entries { ArePlain entries.now }
    requires few { length entries.now < 2 ^ 32 - 1 }
    ensures { IfOk result (λ reply. reply ≡ answer_kept host.now entries.now ask.now) }
{
    match ask {
        Ask::AddUser { name, fresh } => new_user(alloc, host, entries, name, *fresh),
        Ask::Local { key, cmd } => command(alloc, host, entries, key, cmd),
        Ask::Dav {
            secret,
            method,
            path,
            body,
        } => request(alloc, host, entries, secret, *method, path, body),
        Ask::Offer { .. }
        | Ask::Notice { .. }
        | Ask::Due
        | Ask::Settle { .. }
        | Ask::Tick { .. }
        | Ask::Carry { .. } => unreachable!(),
    }
}

/// A refusal for this reason.
fn refused(why: Why) -> Reply
    ensures { result ≡ Reply.Refused why }
{
    Reply::Refused { why }
}

/// A new user.
fn new_user(
    alloc: Global,
    host: &Host,
    entries: &[Entry],
    name: &Name,
    fresh: Fresh,
) -> Result<Reply, NoMemory>
    requires entries { ArePlain entries.now }
    requires few { length entries.now < 2 ^ 32 - 1 }
    ensures { IfOk result (λ reply. reply ≡ answer_kept host.now entries.now (asks.AddUser name.now fresh)) }
{
    let users = users_of(alloc, entries)?;
    let shares = made_of(alloc, host, entries)?;
    let key = fresh.secret(alloc)?;
    let used = is_used(users.as_slice(), shares.as_slice(), &key);
    let taken = is_taken(users.as_slice(), name);
    Ok(add_user_reply(taken, users.len(), used, key))
}

/// A new user: whether the name is taken, how many users there are, whether the key is used, the key.
fn add_user_reply(taken: bool, count: usize, used: bool, key: Secret) -> Reply
    ensures { result ≡ add_user_reply taken count used key }
{
    if taken {
        refused(Why::UserExists)
    } else if count >= MOST_USERS as usize {
        refused(Why::Limit {
            which: Which::Users,
        })
    } else if used {
        refused(Why::Collision)
    } else {
        Reply::Key { key }
    }
}

/// A command by the user with this key.
fn command(
    alloc: Global,
    host: &Host,
    entries: &[Entry],
    key: &Secret,
    cmd: &Cmd,
) -> Result<Reply, NoMemory>
    requires cmd { IsTrue (shares_or_ends cmd.now) }
    requires entries { ArePlain entries.now }
    requires few { length entries.now < 2 ^ 32 - 1 }
    ensures { IfOk result (λ reply. reply ≡ local_reply (view_of host.now entries.now) (user_of_key (users entries.now) key.now) cmd.now) }
{
    let users = users_of(alloc, entries)?;
    let Some(user) = user_of_key(users.as_slice(), key) else {
        return Ok(refused(Why::Unauthorized));
    };
    match cmd {
        Cmd::Share {
            path,
            with,
            fresh,
            ..
        } => new_share(alloc, host, entries, user, path, with, *fresh),
        Cmd::Unshare { id } => end_of_share(alloc, host, entries, user, *id),
        Cmd::Limit { .. }
        | Cmd::Accept { .. }
        | Cmd::Decline { .. }
        | Cmd::Reshare { .. }
        | Cmd::Undo { .. }
        | Cmd::List
        | Cmd::Expire { .. } => unreachable!(),
    }
}

/// A new share by the user of this number.
fn new_share(
    alloc: Global,
    host: &Host,
    entries: &[Entry],
    user: u32,
    path: &Path,
    with: &Address,
    fresh: Fresh,
) -> Result<Reply, NoMemory>
    requires entries { ArePlain entries.now }
    requires few { length entries.now < 2 ^ 32 - 1 }
    ensures { IfOk result (λ reply. reply ≡ share_reply (same_text with.now.host host.now) (at host.now entries.now (record { user = user; path = path.now })) (length (made host.now entries.now)) (is_used (users entries.now) (made host.now entries.now) (hex fresh))) }
{
    let users = users_of(alloc, entries)?;
    let shares = made_of(alloc, host, entries)?;
    let secret = fresh.secret(alloc)?;
    let used = is_used(users.as_slice(), shares.as_slice(), &secret);
    let path = path.copy()?;
    let standing = standing_at(alloc, host, entries, &Place { user, path })?;
    Ok(share_reply(with.host == *host, standing, shares.len(), used))
}

/// A new share: whether the guest is of this host, what stands at the path, how many shares there
/// are, whether the secret is used.
fn share_reply(own_host: bool, standing: Option<Standing>, count: usize, used: bool) -> Reply
    ensures { result ≡ share_reply own_host standing count used }
{
    if own_host {
        return refused(Why::OwnHost {
            field: AddressField::ShareWith,
        });
    }
    match standing {
        None => refused(Why::NotFound),
        Some(_) => made_reply(count, used),
    }
}

/// A new share of what stands: how many shares there are, whether the secret is used.
fn made_reply(count: usize, used: bool) -> Reply
    ensures { result ≡ share_reply false (Some standings.Collection) count used }
{
    if count >= MOST_SHARES as usize {
        refused(Why::Limit {
            which: Which::Shares,
        })
    } else if used {
        refused(Why::Collision)
    } else {
        Reply::Number {
            number: count as u32 + 1,
        }
    }
}

/// The end of the share of this number by the user of that.
fn end_of_share(
    alloc: Global,
    host: &Host,
    entries: &[Entry],
    user: u32,
    id: u32,
) -> Result<Reply, NoMemory>
    requires entries { ArePlain entries.now }
    requires few { length entries.now < 2 ^ 32 - 1 }
    ensures { IfOk result (λ reply. reply ≡ end_reply (share_of_owner (view_of host.now entries.now) user id) (is_live_in (view_of host.now entries.now) id)) }
{
    let shares = made_of(alloc, host, entries)?;
    let live = is_live(entries, shares.as_slice(), id);
    Ok(end_reply(owned_share(shares.as_slice(), user, id), live))
}

/// The share of this number, where its owner is this user.
fn owned_share(shares: &[Share], user: u32, id: u32) -> Option<&Share>
    ensures { option_copied result ≡ option_and_then (λ (share : ShareRow). if nat_eq share.owner user then Some share else None) (at_number shares.now id) }
{
    match row_at(shares, id) {
        Some(share) if share.owner == user => Some(share),
        _ => None,
    }
}

/// The end of a share: the user's share, and whether it is live.
fn end_reply(share: Option<&Share>, live: bool) -> Reply
    ensures { result ≡ end_reply (option_copied share.entry) live }
{
    let Some(_) = share else {
        return refused(Why::NotFound);
    };
    if live {
        Reply::Done
    } else {
        refused(Why::WrongPhase)
    }
}

/// A request for files by the holder of a secret.
fn request(
    alloc: Global,
    host: &Host,
    entries: &[Entry],
    secret: &Secret,
    method: Method,
    path: &Path,
    body: &Bytes,
) -> Result<Reply, NoMemory>
    requires method { IsTrue (gets_or_puts method) }
    requires short { IsTrue (is_short path.now) }
    requires entries { ArePlain entries.now }
    requires few { length entries.now < 2 ^ 32 - 1 }
    ensures { IfOk result (λ reply. reply ≡ answer_kept host.now entries.now (asks.Dav secret.now method path.now body.now)) }
{
    let Some(grant) = grant_to(alloc, host, entries, secret)? else {
        return Ok(refused(Why::Unauthorized));
    };
    if !permits(grant.rights, method) {
        return Ok(refused(Why::NotPermitted));
    }
    let place = below(&grant.root, path)?;
    let reply = method_reply(alloc, host, entries, method, place, path, body)?;
    Ok(reply)
}

/// A method at a place, which has this path below the holder's root, by one who may.
fn method_reply(
    alloc: Global,
    host: &Host,
    entries: &[Entry],
    method: Method,
    place: Place,
    path: &Path,
    body: &Bytes,
) -> Result<Reply, NoMemory>
    requires method { IsTrue (gets_or_puts method) }
    requires entries { ArePlain entries.now }
    requires few { length entries.now < 2 ^ 32 - 1 }
    ensures { IfOk result (λ reply. reply ≡ method_reply (view_of host.now entries.now) method place path.now body.now) }
{
    match method {
        Method::Get => {
            let standing = standing_at(alloc, host, entries, &place)?;
            Ok(get_reply(standing))
        }
        Method::Put => put(alloc, host, entries, place, body),
        Method::Head | Method::Delete | Method::Mkcol | Method::List0 | Method::List1 => {
            unreachable!()
        }
    }
}

/// GET where this stands.
fn get_reply(standing: Option<Standing>) -> Reply
    ensures { result ≡ get_reply standing }
{
    match standing {
        None => refused(Why::NotFound),
        Some(Standing::Collection) => refused(Why::NotAllowed),
        Some(Standing::File { body }) => Reply::File { body },
    }
}

/// PUT at a place.
fn put(
    alloc: Global,
    host: &Host,
    entries: &[Entry],
    place: Place,
    body: &Bytes,
) -> Result<Reply, NoMemory>
    requires entries { ArePlain entries.now }
    requires few { length entries.now < 2 ^ 32 - 1 }
    ensures { IfOk result (λ reply. reply ≡ put_reply (at host.now entries.now place) (at host.now entries.now (parent_of place)) (limit_of (nodes host.now entries.now) (record { place = place; standing = standings.File body.now }))) }
{
    let here = standing_at(alloc, host, entries, &place)?;
    let parent = parent_of(&place)?;
    let at_parent = standing_at(alloc, host, entries, &parent)?;
    let standing = Standing::File { body: body.copy()? };
    let limit = limit_of(alloc, host, entries, &Node { place, standing })?;
    Ok(put_reply(here, at_parent, limit))
}

/// Whether what stands is a collection.
fn is_collection(standing: &Option<Standing>) -> bool
    ensures { result ≡ is_collection standing.now }
{
    match standing {
        Some(Standing::Collection) => true,
        _ => false,
    }
}

/// PUT where this stands at the place and that at its parent, and this is the first limit that would
/// be passed, if any.
fn put_reply(here: Option<Standing>, at_parent: Option<Standing>, limit: Option<Which>) -> Reply
    ensures { result ≡ put_reply here at_parent limit }
{
    if is_collection(&here) {
        return refused(Why::NotAllowed);
    }
    if !is_collection(&at_parent) {
        return refused(Why::ParentMissing);
    }
    match limit {
        Some(which) => refused(Why::Limit { which }),
        None => put_done(here),
    }
}

/// A PUT that was done, where this stood.
fn put_done(standing: Option<Standing>) -> Reply
    ensures { result ≡ put_done standing }
{
    match standing {
        None => Reply::Created,
        Some(_) => Reply::Replaced,
    }
}
