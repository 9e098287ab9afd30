//! The body of POST to `{endPoint}/shares` (Open Cloud Mesh API 1.1).

ghost use Rattle.std.specs.Prelude.{◌≡◌};
ghost use Rattle.ocm_json.specs.Seen.{data_at};
ghost use Rattle.ocm_records.specs.Offers as offers;
ghost use Rattle.ocm_records.specs.Rows.{Gives, record_of};

use crate::choices::{Protocol, protocol_name, resource_type, share_type};
use crate::faults::{Field, RecordFault};
use crate::kinds::{
    address, object_at, perms, present, provider_id, secret, share_name, some_address, some_object,
};
use crate::opening::fields_of;
use ocm_base::and;
use ocm_json::FieldsRef;
use ocm_types::{Address, Offer, Perms, ProviderId, Rights, Secret, ShareName};
use std::alloc::Global;

/// Reads an offer: the body of POST to `{endPoint}/shares` (Open Cloud Mesh API 1.1). The forms `webdav` and `multi` of its
/// `protocol` are taken.
pub fn read_offer(alloc: Global, bytes: &[u8]) -> Result<Offer, RecordFault>
    ensures { Gives (λ o. o) result (record_of offers.offer bytes.now) }
{
    let fields = fields_of(alloc, bytes)?;
    offer(alloc, fields.borrowed())
}

/// The permission to read.
fn to_read() -> Perms
    ensures { result ≡ offers.to_read }
{
    let rights = Rights {
        read: true,
        write: false,
        share: false,
    };
    Perms::of(rights).unwrap()
}

/// The object that has the secret.
fn access_in(form: Protocol, protocol: FieldsRef<'_>) -> Result<FieldsRef<'_>, RecordFault>
    ensures { Gives data_at result (offers.access_in form (data_at protocol.entry)) }
{
    match form {
        Protocol::Webdav => some_object(protocol, Field::Options),
        Protocol::Multi => {
            let access = object_at(protocol, Field::Webdav)?;
            access.ok_or(RecordFault::Unsupported(Field::Webdav))
        }
    }
}

/// The permissions beside the secret. The older form has none that are looked at.
fn perms_in(alloc: Global, form: Protocol, access: FieldsRef<'_>) -> Result<Perms, RecordFault>
    ensures { Gives (λ p. p) result (offers.perms_in form (data_at access.entry)) }
{
    match form {
        Protocol::Webdav => Ok(to_read()),
        Protocol::Multi => {
            let perms = perms(alloc, access, Field::Permissions)?;
            Ok(perms.unwrap_or(to_read()))
        }
    }
}

/// The secret and the permissions.
#[tactic(auto, unfolding(crate::specs::Offers::access))]
fn access(alloc: Global, fields: FieldsRef<'_>) -> Result<(Secret, Perms), RecordFault>
    ensures { Gives (λ x. (x.0, x.1)) result (offers.access (data_at fields.entry)) }
{
    let protocol = some_object(fields, Field::Protocol)?;
    let form = protocol_name(protocol)?;
    let inner = access_in(form, protocol)?;
    let secret = secret(alloc, inner, Field::SharedSecret)?;
    and(secret, perms_in(alloc, form, inner))
}

/// Whose share it is that is passed on: the owner's, where no other is named.
fn sender_or(alloc: Global, owner: &Address, fields: FieldsRef<'_>) -> Result<Address, RecordFault>
    ensures { Gives (λ a. a) result (offers.sender_or owner.now (data_at fields.entry)) }
{
    match address(alloc, fields, Field::Sender)? {
        Some(sender) => Ok(sender),
        None => {
            let sender = owner.copy()?;
            Ok(sender)
        }
    }
}

/// With whom it is shared, and under which name.
#[tactic(auto, unfolding(crate::specs::Offers::recipient))]
fn recipient(alloc: Global, fields: FieldsRef<'_>) -> Result<(Address, ShareName), RecordFault>
    ensures { Gives (λ x. (x.0, x.1)) result (offers.recipient (data_at fields.entry)) }
{
    let with = some_address(alloc, fields, Field::ShareWith)?;
    and(with, share_name(alloc, fields, Field::Name))
}

/// The owner's mark, the owner, and whose share it is that is passed on.
#[tactic(auto, unfolding(crate::specs::Offers::origin))]
fn origin(
    alloc: Global,
    fields: FieldsRef<'_>,
) -> Result<(ProviderId, Address, Address), RecordFault>
    ensures { Gives (λ x. (x.0, x.1, x.2)) result (offers.origin (data_at fields.entry)) }
{
    let id = provider_id(alloc, fields, Field::ProviderId)?;
    let owner = some_address(alloc, fields, Field::Owner)?;
    let sender = sender_or(alloc, &owner, fields)?;
    Ok((id, owner, sender))
}

/// The kinds of the recipient and of what is shared, which have to be there.
#[tactic(auto, unfolding(crate::specs::Offers::kinds))]
fn kinds(fields: FieldsRef<'_>) -> Result<bool, RecordFault>
    ensures { Gives (λ b. b) result (offers.kinds (data_at fields.entry)) }
{
    share_type(fields)?;
    let resource = resource_type(fields)?;
    present(Field::ResourceType, resource)
}

#[tactic(auto, unfolding(crate::specs::Offers::by_groups))]
fn offer(alloc: Global, fields: FieldsRef<'_>) -> Result<Offer, RecordFault>
    ensures { Gives (λ o. o) result (offers.by_groups (data_at fields.entry)) }
{
    let (with, name) = recipient(alloc, fields)?;
    let (id, owner, sender) = origin(alloc, fields)?;
    kinds(fields)?;
    let (secret, perms) = access(alloc, fields)?;
    Ok(Offer {
        with,
        name,
        id,
        owner,
        sender,
        secret,
        perms,
    })
}
