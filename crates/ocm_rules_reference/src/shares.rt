ghost use Rattle.std.specs.Prelude.{◌≡◌, ◌+◌, ◌-◌, ◌<◌, ◌≤◌, ◌^◌, ℕ, List, IfOk, IfSome, IsTrue, Some, length, reverse, [], option_copied};
ghost use Rattle.std.specs.List.{list_all, list_any};
ghost use Rattle.ocm_types.specs.declared.rights.Rights.{Rights as RightsRow};
ghost use Rattle.ocm_types.specs.Rights.{all_rights};
ghost use Rattle.ocm_entry.specs.Proper.{is_short};
ghost use Rattle.ocm_entry.specs.declared.rows.User.{User as UserRow};
ghost use Rattle.ocm_entry.specs.declared.rows.Share.{Share as ShareRow};
ghost use Rattle.ocm_rules.specs.Holders.{grant_of, holder_among, permits, root_among};
ghost use Rattle.ocm_rules.specs.Messages.{view_of};
ghost use Rattle.ocm_rules.specs.Numbers.{at_number, is_number, number_from, same_text};
ghost use Rattle.ocm_rules.specs.Shares.{closed_by, effective_among, goes_on, granted_to, has_secret, is_closed, is_live_among, is_used, links_among, made, no_rights, own_share, permitted, perms_among, share_by, share_of_secret};
ghost use Rattle.ocm_rules.specs.Users.{user_of_key};
ghost use Rattle.ocm_rules.specs.Views.{grant_in};
ghost use Rattle.ocm_rules_reference.specs.Histories.{ArePlain, AreShort, is_plain};

use crate::numbers::added;
use crate::users::{name_of, user_of_key, users_of};
use ocm_base::{List, NoMemory};
use ocm_entry::{Ask, Cmd, Entry, Grant, Method, Place, Share, User};
use ocm_path::Path;
use ocm_rules::row_at;
use ocm_types::{Address, Fresh, Host, Perms, Rights, Secret};
use std::alloc::Global;

/// The shares after kept entries, the oldest first.
#[tactic(auto, using(crate::proofs::Lists::short_added))]
pub fn made_of(alloc: Global, host: &Host, entries: &[Entry]) -> Result<List<Share>, NoMemory>
    requires plain { ArePlain entries.now }
    requires few { length entries.now < 2 ^ 32 }
    ensures shares { IfOk result (λ found. found ≡ made host.now entries.now) }
    ensures few { IfOk result (λ found. length found ≤ length entries.now) }
    ensures short { IfOk result (λ found. AreShort found) }
{
    match entries {
        [] => Ok(List::new(alloc)),
        [entry, before @ ..] => {
            let shares = made_of(alloc, host, before)?;
            let users = users_of(alloc, before)?;
            let share = share_by(alloc, host, users.as_slice(), &entry.ask)?;
            let shares = added(shares, share)?;
            Ok(shares)
        }
    }
}

/// The share that a kept ask makes, where these are the users before it, whatever the shares before it
/// let their guests do.
fn share_by(
    alloc: Global,
    host: &Host,
    users: &[User],
    ask: &Ask,
) -> Result<Option<Share>, NoMemory>
    requires few { length users.now < 2 ^ 32 - 1 }
    requires plain { IsTrue (is_plain ask.now) }
    ensures share { IfOk result (λ share. (shares : List ShareRow) (rights : ℕ → RightsRow) → share ≡ share_by host.now users.now shares rights ask.now) }
    ensures short { IfOk result (λ share. IfSome share (λ some. IsTrue (is_short some.root))) }
{
    match ask {
        Ask::Local { key, cmd } => match cmd {
            Cmd::Share {
                path,
                with,
                perms,
                fresh,
            } => {
                let Some(owner) = user_of_key(users, key) else {
                    return Ok(None);
                };
                let share = own_share(alloc, host, users, key, owner, path, with, *perms, *fresh)?;
                Ok(Some(share))
            }
            _ => Ok(None),
        },
        Ask::AddUser { .. } | Ask::Dav { .. } => Ok(None),
        Ask::Offer { .. }
        | Ask::Notice { .. }
        | Ask::Due
        | Ask::Settle { .. }
        | Ask::Tick { .. }
        | Ask::Carry { .. } => unreachable!(),
    }
}

/// The share of an owner's own command: without a parent, and sent by the owner, who has this key.
fn own_share(
    alloc: Global,
    host: &Host,
    users: &[User],
    key: &Secret,
    owner: u32,
    path: &Path,
    with: &Address,
    perms: Perms,
    fresh: Fresh,
) -> Result<Share, NoMemory>
    requires { user_of_key users.now key.now ≡ Some owner }
    ensures { IfOk result (λ share. share ≡ own_share host.now users.now owner path.now with.now perms fresh) }
{
    let sender = Address {
        user: name_of(users, key, owner).copy()?,
        host: host.copy()?,
    };
    Ok(Share {
        owner,
        root: path.copy()?,
        parent: None,
        with: with.copy()?,
        sender,
        secret: fresh.secret(alloc)?,
        granted: perms,
        sender_id: None,
        asked: None,
    })
}

/// The number of the share with this secret.
fn share_of_secret(shares: &[Share], secret: &Secret) -> Option<u32>
    requires { length shares.now < 2 ^ 32 - 1 }
    ensures { result ≡ share_of_secret shares.now secret.now }
{
    share_from(shares, secret, 1)
}

/// The number of the first share with this secret, where the first of all has this number.
fn share_from(shares: &[Share], secret: &Secret, number: u32) -> Option<u32>
    requires { number + length shares.now < 2 ^ 32 }
    ensures { result ≡ number_from (has_secret secret.now) number shares.now }
{
    match shares {
        [] => None,
        [share, others @ ..] => {
            if share.secret == *secret {
                Some(number)
            } else {
                share_from(others, secret, number + 1)
            }
        }
    }
}

/// Whether a secret is a user's key or a share's secret already.
#[tactic(auto, using(crate::proofs::Lists::used_by_either))]
pub fn is_used(users: &[User], shares: &[Share], secret: &Secret) -> bool
    ensures { result ≡ is_used users.now shares.now secret.now }
{
    is_key(users, secret) || is_secret(shares, secret)
}

/// Whether a secret is a user's key.
fn is_key(users: &[User], secret: &Secret) -> bool
    ensures { result ≡ list_any (λ (user : UserRow). same_text user.key secret.now) users.now }
{
    users.iter().any(|user| user.key == *secret)
}

/// Whether a secret is a share's.
fn is_secret(shares: &[Share], secret: &Secret) -> bool
    ensures { result ≡ list_any (λ (share : ShareRow). same_text share.secret secret.now) shares.now }
{
    shares.iter().any(|share| share.secret == *secret)
}

/// The number of the share that a kept ask closes.
fn closed_by(ask: &Ask) -> Option<u32>
    requires { IsTrue (is_plain ask.now) }
    ensures { result ≡ closed_by ask.now }
{
    match ask {
        Ask::Local { cmd, .. } => match cmd {
            Cmd::Unshare { id } => Some(*id),
            _ => None,
        },
        Ask::AddUser { .. } | Ask::Dav { .. } => None,
        Ask::Offer { .. }
        | Ask::Notice { .. }
        | Ask::Due
        | Ask::Settle { .. }
        | Ask::Tick { .. }
        | Ask::Carry { .. } => unreachable!(),
    }
}

/// Whether a kept ask closes this share.
fn closes(id: u32, ask: &Ask) -> bool
    requires { IsTrue (is_plain ask.now) }
    ensures { result ≡ is_number id (closed_by ask.now) }
{
    match closed_by(ask) {
        Some(closed) => id == closed,
        None => false,
    }
}

/// Whether one of the kept entries closed this share.
fn is_closed(entries: &[Entry], id: u32) -> bool
    requires { ArePlain entries.now }
    ensures { result ≡ is_closed entries.now id }
{
    match entries {
        [] => false,
        [entry, before @ ..] => closes(id, &entry.ask) || is_closed(before, id),
    }
}

/// Whether a link goes on: it is not closed, and no entry here sets an end.
#[tactic(auto, using(crate::proofs::Readings::goes_on_unless_closed))]
fn goes_on(entries: &[Entry], id: u32) -> bool
    requires { ArePlain entries.now }
    ensures { result ≡ goes_on entries.now id }
{
    !is_closed(entries, id)
}

/// Whether a share and each above it go on. The shares stand oldest first.
#[tactic(auto, using(crate::proofs::Lists::newest_first))]
fn all_go_on(entries: &[Entry], shares: &[Share], id: u32) -> bool
    requires { ArePlain entries.now }
    ensures { result ≡ list_all (goes_on entries.now) (links_among (reverse shares.now) id) }
{
    match shares {
        [] => true,
        [older @ .., share] => {
            if id as usize != older.len() + 1 {
                return all_go_on(entries, older, id);
            }
            if !goes_on(entries, id) {
                return false;
            }
            match share.parent {
                Some(parent) => all_go_on(entries, older, parent),
                None => true,
            }
        }
    }
}

/// Whether a share is live after kept entries: it is there, and it and each above it go on.
pub fn is_live(entries: &[Entry], shares: &[Share], id: u32) -> bool
    requires { ArePlain entries.now }
    ensures { result ≡ is_live_among shares.now (goes_on entries.now) id }
{
    match row_at(shares, id) {
        Some(_) => all_go_on(entries, shares, id),
        None => false,
    }
}

/// What was granted when the share of this number was made.
fn granted_to(shares: &[Share], id: u32) -> Rights
    ensures { result ≡ granted_to shares.now id }
{
    match row_at(shares, id) {
        Some(share) => share.granted.rights(),
        None => Rights {
            read: false,
            write: false,
            share: false,
        },
    }
}

/// What a share lets its guest do, where these are the older shares and itself: what was granted of all
/// shares to it, cut down to what was granted to each above it. The shares stand oldest first.
#[tactic(auto, using(crate::proofs::Lists::newest_first))]
fn permitted(all: &[Share], shares: &[Share], id: u32) -> Rights
    ensures { result ≡ permitted (granted_to all.now) (links_among (reverse shares.now) id) }
{
    match shares {
        [] => Rights::ALL,
        [older @ .., share] => {
            if id as usize != older.len() + 1 {
                return permitted(all, older, id);
            }
            let granted = granted_to(all, id);
            match share.parent {
                Some(parent) => granted.both(permitted(all, older, parent)),
                None => granted.both(Rights::ALL),
            }
        }
    }
}

/// The share of this number, whose root is as short as that of each.
fn share_at(shares: &[Share], id: u32) -> Option<&Share>
    requires { AreShort shares.now }
    ensures share { option_copied result ≡ at_number shares.now id }
    ensures short { IfSome result (λ share. IsTrue (is_short share.now.root)) }
{
    row_at(shares, id)
}

/// The place of the `/` of the holder of a secret: a user's own root, or the root of a share.
pub fn root_of(
    alloc: Global,
    users: &[User],
    shares: &[Share],
    secret: &Secret,
) -> Result<Option<Place>, NoMemory>
    requires users { length users.now < 2 ^ 32 - 1 }
    requires shares { length shares.now < 2 ^ 32 - 1 }
    requires short { AreShort shares.now }
    ensures root { IfOk result (λ root. root ≡ root_among users.now shares.now secret.now) }
    ensures short { IfOk result (λ root. IfSome root (λ some. IsTrue (is_short some.path))) }
{
    if let Some(user) = user_of_key(users, secret) {
        return Ok(Some(own_root(alloc, user)));
    }
    let Some(id) = share_of_secret(shares, secret) else {
        return Ok(None);
    };
    let Some(share) = share_at(shares, id) else {
        return Ok(None);
    };
    let root = shared_root(share)?;
    Ok(Some(root))
}

/// A user's own root.
fn own_root(alloc: Global, user: u32) -> Place
    ensures { result ≡ record { user = user; path = [] } }
{
    Place {
        user,
        path: Path::root(alloc),
    }
}

/// The root of a share.
fn shared_root(share: &Share) -> Result<Place, NoMemory>
    ensures { IfOk result (λ root. root ≡ record { user = share.now.owner; path = share.now.root }) }
{
    let path = share.root.copy()?;
    Ok(Place {
        user: share.owner,
        path,
    })
}

/// Whether rights suffice for a method.
pub fn permits(rights: Rights, method: Method) -> bool
    ensures { result ≡ permits rights method }
{
    match method {
        Method::Get | Method::Head | Method::List0 | Method::List1 => rights.read,
        Method::Put | Method::Delete | Method::Mkcol => rights.write,
    }
}

/// What the holder of a secret may do after kept entries: a user all, and the guest of a live share
/// what it was granted.
pub fn grant_to(
    alloc: Global,
    host: &Host,
    entries: &[Entry],
    secret: &Secret,
) -> Result<Option<Grant>, NoMemory>
    requires plain { ArePlain entries.now }
    requires few { length entries.now < 2 ^ 32 - 1 }
    ensures grant { IfOk result (λ grant. grant ≡ grant_in (view_of host.now entries.now) secret.now) }
    ensures short { IfOk result (λ grant. IfSome grant (λ some. IsTrue (is_short some.root.path))) }
{
    let users = users_of(alloc, entries)?;
    let shares = made_of(alloc, host, entries)?;
    let grant = grant_among(alloc, entries, users.as_slice(), shares.as_slice(), secret)?;
    Ok(grant)
}

/// What a share lets its guest do after kept entries, none of which limits a share.
#[tactic(auto, using(crate::proofs::Readings::effective_as_granted))]
fn effective_among(entries: &[Entry], shares: &[Share], id: u32) -> Rights
    requires { ArePlain entries.now }
    ensures { result ≡ effective_among shares.now (perms_among shares.now entries.now) id }
{
    permitted(shares, shares, id)
}

/// What the holder of a secret may do, where these are the users and the shares.
fn grant_among(
    alloc: Global,
    entries: &[Entry],
    users: &[User],
    shares: &[Share],
    secret: &Secret,
) -> Result<Option<Grant>, NoMemory>
    requires plain { ArePlain entries.now }
    requires users { length users.now < 2 ^ 32 - 1 }
    requires shares { length shares.now < 2 ^ 32 - 1 }
    requires short { AreShort shares.now }
    ensures grant { IfOk result (λ grant. grant ≡ grant_of (is_live_among shares.now (goes_on entries.now)) (effective_among shares.now (perms_among shares.now entries.now)) (holder_among users.now shares.now secret.now)) }
    ensures short { IfOk result (λ grant. IfSome grant (λ some. IsTrue (is_short some.root.path))) }
{
    if let Some(user) = user_of_key(users, secret) {
        return Ok(Some(Grant {
            root: own_root(alloc, user),
            rights: Rights::ALL,
        }));
    }
    let Some(id) = share_of_secret(shares, secret) else {
        return Ok(None);
    };
    let Some(share) = share_at(shares, id) else {
        return Ok(None);
    };
    if !is_live(entries, shares, id) {
        return Ok(None);
    }
    let root = shared_root(share)?;
    Ok(Some(Grant {
        root,
        rights: effective_among(entries, shares, id),
    }))
}
