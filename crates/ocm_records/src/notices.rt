//! The body of POST to `{endPoint}/notifications` (Open Cloud Mesh API 1.1).

ghost use Rattle.std.specs.Prelude.{◌≡◌};
ghost use Rattle.ocm_json.specs.Seen.{data_at};
ghost use Rattle.ocm_records.specs.Notices as notices;
ghost use Rattle.ocm_records.specs.Rows.{Gives, record_of};

use crate::choices::{Event, notification_type, resource_if_said};
use crate::faults::{Field, RecordFault};
use crate::kinds::{
    address, perms, provider_id, secret, sender_id, serial, some_address, some_object, some_perms,
};
use crate::opening::fields_of;
use ocm_json::FieldsRef;
use ocm_types::{Notice, ProviderId, Secret};
use std::alloc::Global;

/// Reads a notification: the body of POST to `{endPoint}/notifications` (Open Cloud Mesh API 1.1).
pub fn read_notice(alloc: Global, bytes: &[u8]) -> Result<Notice, RecordFault>
    ensures { Gives (λ n. n) result (record_of notices.notice bytes.now) }
{
    let fields = fields_of(alloc, bytes)?;
    notice(alloc, fields.borrowed())
}

#[tactic(auto, unfolding(crate::specs::Notices::notice))]
fn notice(alloc: Global, fields: FieldsRef<'_>) -> Result<Notice, RecordFault>
    ensures { Gives (λ n. n) result (notices.notice (data_at fields.entry)) }
{
    let event = notification_type(fields)?;
    resource_if_said(fields)?;
    let id = provider_id(alloc, fields, Field::ProviderId)?;
    let notification = some_object(fields, Field::Notification)?;
    let secret = secret(alloc, notification, Field::SharedSecret)?;
    told(alloc, event, id, secret, notification)
}

/// The notification of this type.
fn told(
    alloc: Global,
    event: Event,
    id: ProviderId,
    secret: Secret,
    notification: FieldsRef<'_>,
) -> Result<Notice, RecordFault>
    ensures { Gives (λ n. n) result (notices.told event id secret (data_at notification.entry)) }
{
    match event {
        Event::Accepted => accepted(alloc, id, secret, notification),
        Event::Declined => Ok(Notice::Declined { id, secret }),
        Event::Unshared => Ok(Notice::Unshared { id, secret }),
        Event::ReshareRequest => reshare_request(alloc, id, secret, notification),
        Event::ReshareUndo => Ok(Notice::ReshareUndo { id, secret }),
        Event::Changed => changed(alloc, id, secret, notification),
    }
}

#[tactic(auto, unfolding(crate::specs::Notices::accepted))]
fn accepted(
    alloc: Global,
    id: ProviderId,
    secret: Secret,
    notification: FieldsRef<'_>,
) -> Result<Notice, RecordFault>
    ensures { Gives (λ n. n) result (notices.accepted id secret (data_at notification.entry)) }
{
    let owner = address(alloc, notification, Field::Owner)?;
    let with = address(alloc, notification, Field::ShareWith)?;
    let perms = perms(alloc, notification, Field::Permissions)?;
    Ok(Notice::Accepted {
        id,
        secret,
        owner,
        with,
        perms,
    })
}

#[tactic(auto, unfolding(crate::specs::Notices::reshare_request))]
fn reshare_request(
    alloc: Global,
    id: ProviderId,
    secret: Secret,
    notification: FieldsRef<'_>,
) -> Result<Notice, RecordFault>
    ensures { Gives (λ n. n) result (notices.reshare_request id secret (data_at notification.entry)) }
{
    let with = some_address(alloc, notification, Field::ShareWith)?;
    let sender_id = sender_id(alloc, notification, Field::SenderId)?;
    let perms = perms(alloc, notification, Field::Permissions)?;
    Ok(Notice::ReshareRequest {
        id,
        secret,
        with,
        sender_id,
        perms,
    })
}

#[tactic(auto, unfolding(crate::specs::Notices::changed))]
fn changed(
    alloc: Global,
    id: ProviderId,
    secret: Secret,
    notification: FieldsRef<'_>,
) -> Result<Notice, RecordFault>
    ensures { Gives (λ n. n) result (notices.changed id secret (data_at notification.entry)) }
{
    let serial = serial(notification, Field::Serial)?;
    let perms = some_perms(alloc, notification, Field::Permissions)?;
    Ok(Notice::Changed {
        id,
        secret,
        serial,
        perms,
    })
}
