//! Notifications as JSON.

ghost use Rattle.std.specs.Prelude.{◌≡◌, IfOk, IsOk, OnOk, codes, nat_le, true};
ghost use Rattle.serde_json.specs.Data.{object, string, number, unsigned, put as with_member};
ghost use Rattle.serde_json.specs.View.{view, members_view};
ghost use Rattle.serde_json.specs.Written.{compact_text};
ghost use Rattle.ocm_types.specs.Rights.{is_any};
ghost use Rattle.ocm_types.specs.Texts.{is_provider_id, is_secret, is_sender_id};
ghost use Rattle.ocm_types.specs.declared.letters.Notice.TheVariants.{Accepted, ReshareRequest, Changed};
ghost use Rattle.ocm_records.specs.Notices.{notice};
ghost use Rattle.ocm_records.specs.Rows.{record_of};
ghost use Rattle.ocm_records.specs.Sound.{ReadsAsItself, AddressIf, PermsIf, HasMarks, IsNotice, is_numbered};
ghost use Rattle.ocm_records.specs.Written as written;

use crate::writing::{
    bytes_of, object_of, put_address, put_address_if, put_perms, put_perms_if, put_text,
};
use ocm_base::{Bytes, NoMemory};
use ocm_types::{Address, Notice, Perms, ProviderId, Secret, SenderId};
use serde_json::{Map, Value, put};
use std::alloc::Global;

/// Writes a notification: the body of POST to `{endPoint}/notifications` (Open Cloud Mesh API 1.1).
pub fn write_notice(alloc: Global, v: &Notice) -> Result<Bytes, NoMemory>
    ensures text { IfOk result (λ b. b ≡ compact_text (written.notice_data v.now)) }
    // A change of permissions that is not counted from 1 is none that a server takes.
    ensures read_back { IfOk result (λ b. is_numbered v.now ≡ true → record_of notice b ≡ Ok v.now) }
{
    let value = notice_value(alloc, v)?;
    bytes_of(alloc, &value)
}

/// Adds what each notification has. The members are added from the last key on.
fn put_told(
    members: &mut Map<String, Value>,
    alloc: Global,
    event: &str,
    id: &ProviderId,
) -> Result<(), NoMemory>
    ensures members { OnOk result (members_view members.new.entries
        ≡ with_member (codes "notificationType") (string event.now)
        (with_member (codes "providerId") (string id.now)
        (with_member (codes "resourceType") (string (codes "file"))
        (members_view members.old.entries)))) }
    ensures sound { OnOk result (is_provider_id id.now ≡ true) }
{
    put_text(members, alloc, "resourceType", "file")?;
    put_text(members, alloc, "providerId", id.as_str())?;
    put_text(members, alloc, "notificationType", event)
}

/// Adds what each notification has, and the object that tells it.
fn put_all(
    members: &mut Map<String, Value>,
    alloc: Global,
    event: &str,
    id: &ProviderId,
    notification: Value,
) -> Result<(), NoMemory>
    ensures members { OnOk result (members_view members.new.entries
        ≡ with_member (codes "notificationType") (string event.now)
        (with_member (codes "providerId") (string id.now)
        (with_member (codes "resourceType") (string (codes "file"))
        (with_member (codes "notification") (view notification)
        (members_view members.old.entries))))) }
    ensures sound { OnOk result (is_provider_id id.now ≡ true) }
{
    put(members, alloc, "notification", notification)?;
    put_told(members, alloc, event, id)
}

/// The notification of this type about a share, with the object that tells it: these members, where all were added.
fn told_value(
    alloc: Global,
    event: &str,
    id: &ProviderId,
    members: Map<String, Value>,
    added: Result<(), NoMemory>,
) -> Result<Value, NoMemory>
    ensures value { IfOk result (λ v. view v ≡ written.told_data event.now id.now (object (members_view members.entries))) }
    ensures added { OnOk result (IsOk added) }
    ensures sound { OnOk result (is_provider_id id.now ≡ true) }
{
    let notification = object_of(members, added)?;
    let mut members = Map::new(alloc);
    let added = put_all(&mut members, alloc, event, id, notification);
    object_of(members, added)
}

/// Adds the secret, which each notification has.
fn put_secret(
    members: &mut Map<String, Value>,
    alloc: Global,
    secret: &Secret,
) -> Result<(), NoMemory>
    ensures members { OnOk result (members_view members.new.entries
        ≡ with_member (codes "sharedSecret") (string secret.now) (members_view members.old.entries)) }
    ensures sound { OnOk result (is_secret secret.now ≡ true) }
{
    put_text(members, alloc, "sharedSecret", secret.as_str())
}

/// Adds how a recipient understood the offer that it took. The members are added from the last key on.
fn put_accepted(
    members: &mut Map<String, Value>,
    alloc: Global,
    secret: &Secret,
    owner: &Option<Address>,
    with: &Option<Address>,
    perms: Option<Perms>,
) -> Result<(), NoMemory>
    ensures members { OnOk result (members_view members.new.entries
        ≡ written.put_if (codes "owner") (written.data_if written.address_data owner.now)
        (written.put_if (codes "permissions") (written.data_if written.perms_data perms)
        (written.put_if (codes "shareWith") (written.data_if written.address_data with.now)
        (with_member (codes "sharedSecret") (string secret.now) (members_view members.old.entries))))) }
    ensures sound { OnOk result ((is_secret secret.now ≡ true) × AddressIf owner.now × AddressIf with.now × PermsIf perms) }
{
    put_secret(members, alloc, secret)?;
    put_address_if(members, alloc, "shareWith", with)?;
    put_perms_if(members, alloc, "permissions", perms)?;
    put_address_if(members, alloc, "owner", owner)
}

/// Adds a recipient's request. The members are added from the last key on.
fn put_request(
    members: &mut Map<String, Value>,
    alloc: Global,
    secret: &Secret,
    with: &Address,
    sender_id: &SenderId,
    perms: Option<Perms>,
) -> Result<(), NoMemory>
    ensures members { OnOk result (members_view members.new.entries
        ≡ written.put_if (codes "permissions") (written.data_if written.perms_data perms)
        (with_member (codes "senderId") (string sender_id.now)
        (with_member (codes "shareWith") (written.address_data with.now)
        (with_member (codes "sharedSecret") (string secret.now) (members_view members.old.entries))))) }
    ensures sound { OnOk result ((is_secret secret.now ≡ true) × ReadsAsItself with.now
        × (is_sender_id sender_id.now ≡ true) × PermsIf perms) }
{
    put_secret(members, alloc, secret)?;
    put_address(members, alloc, "shareWith", with)?;
    put_text(members, alloc, "senderId", sender_id.as_str())?;
    put_perms_if(members, alloc, "permissions", perms)
}

/// Adds a change of permissions. The members are added from the last key on.
fn put_change(
    members: &mut Map<String, Value>,
    alloc: Global,
    secret: &Secret,
    serial: u32,
    perms: Perms,
) -> Result<(), NoMemory>
    ensures members { OnOk result (members_view members.new.entries
        ≡ with_member (codes "permissions") (written.perms_data perms)
        (with_member (codes "serial") (number (unsigned serial))
        (with_member (codes "sharedSecret") (string secret.now) (members_view members.old.entries)))) }
    ensures sound { OnOk result ((is_secret secret.now ≡ true) × (nat_le serial 4294967295 ≡ true)
        × (is_any perms ≡ true)) }
{
    put_secret(members, alloc, secret)?;
    put(members, alloc, "serial", Value::from(serial))?;
    put_perms(members, alloc, "permissions", perms)
}

/// A notification that has the secret alone.
fn plain_notice(
    alloc: Global,
    event: &str,
    id: &ProviderId,
    secret: &Secret,
) -> Result<Value, NoMemory>
    ensures value { IfOk result (λ v. view v ≡ written.told_data event.now id.now (object (written.secret_member secret.now))) }
    ensures sound { IfOk result (λ _. HasMarks id.now secret.now) }
{
    let mut members = Map::new(alloc);
    let added = put_secret(&mut members, alloc, secret);
    told_value(alloc, event, id, members, added)
}

/// A notification that the recipient took the share.
#[tactic(auto, using(crate::proofs::WrittenLaws::accepted_in_order))]
fn accepted_notice(
    alloc: Global,
    id: &ProviderId,
    secret: &Secret,
    owner: &Option<Address>,
    with: &Option<Address>,
    perms: Option<Perms>,
) -> Result<Value, NoMemory>
    ensures value { IfOk result (λ v. view v ≡ written.notice_data (Accepted id.now secret.now owner.now with.now perms)) }
    ensures sound { IfOk result (λ _. IsNotice (Accepted id.now secret.now owner.now with.now perms)) }
{
    let mut members = Map::new(alloc);
    let added = put_accepted(&mut members, alloc, secret, owner, with, perms);
    told_value(alloc, "SHARE_ACCEPTED", id, members, added)
}

/// A notification that asks to share with another.
#[tactic(auto, using(crate::proofs::WrittenLaws::request_in_order))]
fn request_notice(
    alloc: Global,
    id: &ProviderId,
    secret: &Secret,
    with: &Address,
    sender_id: &SenderId,
    perms: Option<Perms>,
) -> Result<Value, NoMemory>
    ensures value { IfOk result (λ v. view v ≡ written.notice_data (ReshareRequest id.now secret.now with.now sender_id.now perms)) }
    ensures sound { IfOk result (λ _. IsNotice (ReshareRequest id.now secret.now with.now sender_id.now perms)) }
{
    let mut members = Map::new(alloc);
    let added = put_request(&mut members, alloc, secret, with, sender_id, perms);
    told_value(alloc, "REQUEST_RESHARE", id, members, added)
}

/// A notification that permissions changed.
fn changed_notice(
    alloc: Global,
    id: &ProviderId,
    secret: &Secret,
    serial: u32,
    perms: Perms,
) -> Result<Value, NoMemory>
    ensures value { IfOk result (λ v. view v ≡ written.notice_data (Changed id.now secret.now serial perms)) }
    ensures sound { IfOk result (λ _. IsNotice (Changed id.now secret.now serial perms)) }
{
    let mut members = Map::new(alloc);
    let added = put_change(&mut members, alloc, secret, serial, perms);
    told_value(alloc, "RESHARE_CHANGE_PERMISSION", id, members, added)
}

fn notice_value(alloc: Global, v: &Notice) -> Result<Value, NoMemory>
    ensures value { IfOk result (λ value. view value ≡ written.notice_data v.now) }
    ensures sound { IfOk result (λ _. IsNotice v.now) }
{
    match v {
        Notice::Accepted {
            id,
            secret,
            owner,
            with,
            perms,
        } => accepted_notice(alloc, id, secret, owner, with, *perms),
        Notice::Declined { id, secret } => plain_notice(alloc, "SHARE_DECLINED", id, secret),
        Notice::Unshared { id, secret } => plain_notice(alloc, "SHARE_UNSHARED", id, secret),
        Notice::ReshareRequest {
            id,
            secret,
            with,
            sender_id,
            perms,
        } => request_notice(alloc, id, secret, with, sender_id, *perms),
        Notice::ReshareUndo { id, secret } => plain_notice(alloc, "RESHARE_UNDO", id, secret),
        Notice::Changed {
            id,
            secret,
            serial,
            perms,
        } => changed_notice(alloc, id, secret, *serial, *perms),
    }
}
