//! Offers as JSON.

ghost use Rattle.std.specs.Prelude.{◌≡◌, IfOk, OnOk, codes, true};
ghost use Rattle.serde_json.specs.Data.{string, put as with_member};
ghost use Rattle.serde_json.specs.View.{view, members_view};
ghost use Rattle.serde_json.specs.Written.{compact_text};
ghost use Rattle.ocm_types.specs.Rights.{is_any};
ghost use Rattle.ocm_types.specs.Texts.{is_provider_id, is_secret, is_share_name};
ghost use Rattle.ocm_records.specs.Offers.{offer};
ghost use Rattle.ocm_records.specs.Rows.{record_of};
ghost use Rattle.ocm_records.specs.Sound.{ReadsAsItself, IsOffer};
ghost use Rattle.ocm_records.specs.Written as written;

use crate::writing::{bytes_of, object_of, put_address, put_object, put_perms, put_text};
use ocm_base::{Bytes, NoMemory};
use ocm_types::{Address, Offer, Perms, Secret};
use serde_json::{Map, Value};
use std::alloc::Global;

/// Writes an offer: the body of POST to `{endPoint}/shares` (Open Cloud Mesh API 1.1).
pub fn write_offer(alloc: Global, v: &Offer) -> Result<Bytes, NoMemory>
    ensures text { IfOk result (λ b. b ≡ compact_text (written.offer_data v.now)) }
    ensures read_back { IfOk result (λ b. record_of offer b ≡ Ok v.now) }
{
    let value = offer_value(alloc, v)?;
    bytes_of(alloc, &value)
}

/// Adds how the share is reached by WebDAV. The members are added from the last key on.
fn put_access(
    members: &mut Map<String, Value>,
    alloc: Global,
    secret: &Secret,
    perms: Perms,
) -> Result<(), NoMemory>
    ensures members { OnOk result (members_view members.new.entries
        ≡ with_member (codes "permissions") (written.perms_data perms)
        (with_member (codes "sharedSecret") (string secret.now)
        (with_member (codes "uri") (string (codes "/dav/")) (members_view members.old.entries)))) }
    ensures secret { OnOk result (is_secret secret.now ≡ true) }
    ensures perms { OnOk result (is_any perms ≡ true) }
{
    put_text(members, alloc, "uri", "/dav/")?;
    put_text(members, alloc, "sharedSecret", secret.as_str())?;
    put_perms(members, alloc, "permissions", perms)
}

/// Adds how the share is reached.
fn put_protocol(
    members: &mut Map<String, Value>,
    alloc: Global,
    secret: &Secret,
    perms: Perms,
) -> Result<(), NoMemory>
    ensures members { OnOk result (members_view members.new.entries
        ≡ with_member (codes "name") (string (codes "multi"))
        (with_member (codes "webdav") (written.access_data secret.now perms) (members_view members.old.entries))) }
    ensures secret { OnOk result (is_secret secret.now ≡ true) }
    ensures perms { OnOk result (is_any perms ≡ true) }
{
    let mut access = Map::new(alloc);
    let added = put_access(&mut access, alloc, secret, perms);
    put_object(members, alloc, "webdav", access, added)?;
    put_text(members, alloc, "name", "multi")
}

/// Adds with whom it is shared: one user. The members are added from the last key on.
fn put_guest(
    members: &mut Map<String, Value>,
    alloc: Global,
    with: &Address,
) -> Result<(), NoMemory>
    ensures members { OnOk result (members_view members.new.entries
        ≡ with_member (codes "shareType") (string (codes "user"))
        (with_member (codes "shareWith") (written.address_data with.now) (members_view members.old.entries))) }
    ensures sound { OnOk result (ReadsAsItself with.now) }
{
    put_address(members, alloc, "shareWith", with)?;
    put_text(members, alloc, "shareType", "user")
}

/// Adds the members from `resourceType` on. They are added from the last key on.
fn put_later(members: &mut Map<String, Value>, alloc: Global, v: &Offer) -> Result<(), NoMemory>
    ensures members { OnOk result (members_view members.new.entries
        ≡ with_member (codes "resourceType") (string (codes "file"))
        (with_member (codes "sender") (written.address_data v.now.sender)
        (with_member (codes "shareType") (string (codes "user"))
        (with_member (codes "shareWith") (written.address_data v.now.with)
        (members_view members.old.entries))))) }
    ensures with { OnOk result (ReadsAsItself v.now.with) }
    ensures sender { OnOk result (ReadsAsItself v.now.sender) }
{
    put_guest(members, alloc, &v.with)?;
    put_address(members, alloc, "sender", &v.sender)?;
    put_text(members, alloc, "resourceType", "file")
}

/// Adds the members up to `providerId`. They are added from the last key on.
fn put_first(members: &mut Map<String, Value>, alloc: Global, v: &Offer) -> Result<(), NoMemory>
    ensures members { OnOk result (members_view members.new.entries
        ≡ with_member (codes "name") (string v.now.name)
        (with_member (codes "owner") (written.address_data v.now.owner)
        (with_member (codes "protocol") (written.protocol_data v.now.secret v.now.perms)
        (with_member (codes "providerId") (string v.now.id)
        (members_view members.old.entries))))) }
    ensures name { OnOk result (is_share_name v.now.name ≡ true) }
    ensures id { OnOk result (is_provider_id v.now.id ≡ true) }
    ensures owner { OnOk result (ReadsAsItself v.now.owner) }
    ensures secret { OnOk result (is_secret v.now.secret ≡ true) }
    ensures perms { OnOk result (is_any v.now.perms ≡ true) }
{
    put_text(members, alloc, "providerId", v.id.as_str())?;
    let mut protocol = Map::new(alloc);
    let added = put_protocol(&mut protocol, alloc, &v.secret, v.perms);
    put_object(members, alloc, "protocol", protocol, added)?;
    put_address(members, alloc, "owner", &v.owner)?;
    put_text(members, alloc, "name", v.name.as_str())
}

/// Adds all members. They are added from the last key on.
fn put_offer(members: &mut Map<String, Value>, alloc: Global, v: &Offer) -> Result<(), NoMemory>
    ensures members { OnOk result (members_view members.new.entries
        ≡ with_member (codes "name") (string v.now.name)
        (with_member (codes "owner") (written.address_data v.now.owner)
        (with_member (codes "protocol") (written.protocol_data v.now.secret v.now.perms)
        (with_member (codes "providerId") (string v.now.id)
        (with_member (codes "resourceType") (string (codes "file"))
        (with_member (codes "sender") (written.address_data v.now.sender)
        (with_member (codes "shareType") (string (codes "user"))
        (with_member (codes "shareWith") (written.address_data v.now.with)
        (members_view members.old.entries))))))))) }
    ensures sound { OnOk result (IsOffer v.now) }
{
    put_later(members, alloc, v)?;
    put_first(members, alloc, v)
}

fn offer_value(alloc: Global, v: &Offer) -> Result<Value, NoMemory>
    ensures value { IfOk result (λ value. view value ≡ written.offer_data v.now) }
    ensures sound { IfOk result (λ _. IsOffer v.now) }
{
    let mut members = Map::new(alloc);
    let added = put_offer(&mut members, alloc, v);
    object_of(members, added)
}
