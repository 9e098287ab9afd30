//! Fields that have one of some words.

ghost use Rattle.std.specs.Prelude.{◌≡◌, codes, true};
ghost use Rattle.ocm_json.specs.Seen.{data_at};
ghost use Rattle.ocm_records.specs.Kinds.{meaning, optional};
ghost use Rattle.ocm_records.specs.Readings.{resource};
ghost use Rattle.ocm_records.specs.Offers.{share_type, protocol_name};
ghost use Rattle.ocm_records.specs.Notices.{event_words, notification_type};
ghost use Rattle.ocm_records.specs.Commands.{command_words, command_name};
ghost use Rattle.ocm_records.specs.Rows.{Gives, defaulted, required};

use crate::faults::{Field, RecordFault};
use crate::kinds::{text_at, text_in};
use ocm_json::FieldsRef;

/// How an offer says where its share is found: `protocol.name`.
#[derive(Clone, Copy)]
pub enum Protocol {
    /// `webdav`: the older form, with all in `options`.
    Webdav,
    /// `multi`: one object for each protocol.
    Multi,
}

/// What a notification tells: `notificationType`.
#[derive(Clone, Copy)]
pub enum Event {
    /// `SHARE_ACCEPTED`.
    Accepted,
    /// `SHARE_DECLINED`.
    Declined,
    /// `SHARE_UNSHARED`.
    Unshared,
    /// `REQUEST_RESHARE`.
    ReshareRequest,
    /// `RESHARE_UNDO`.
    ReshareUndo,
    /// `RESHARE_CHANGE_PERMISSION`.
    Changed,
}

/// What a local user asks: `command`.
#[derive(Clone, Copy)]
pub enum Command {
    User,
    Share,
    Unshare,
    Limit,
    Expire,
    Accept,
    Decline,
    Reshare,
    Undo,
    List,
}

/// With whom an offer shares. Only one user is supported.
pub fn share_type(fields: FieldsRef<'_>) -> Result<bool, RecordFault>
    ensures { Gives (λ b. b) result (required (data_at fields.entry) Field.ShareType share_type) }
{
    let word = text_in(fields, Field::ShareType)?;
    match word {
        "user" => Ok(true),
        "group" | "federation" => Err(RecordFault::Unsupported(Field::ShareType)),
        _ => Err(RecordFault::Value(Field::ShareType)),
    }
}

/// What is shared. Files and folders are supported.
pub fn resource_type(fields: FieldsRef<'_>) -> Result<Option<bool>, RecordFault>
    ensures { Gives (λ b. b) result (optional (data_at fields.entry) Field.ResourceType resource) }
{
    match text_at(fields, Field::ResourceType)? {
        None => Ok(None),
        Some("file" | "folder") => Ok(Some(true)),
        Some(_) => Err(RecordFault::Unsupported(Field::ResourceType)),
    }
}

/// What is shared. It counts as supported where nothing is said of it.
pub fn resource_if_said(fields: FieldsRef<'_>) -> Result<bool, RecordFault>
    ensures { Gives (λ b. b) result (defaulted true (data_at fields.entry) Field.ResourceType resource) }
{
    let resource = resource_type(fields)?;
    Ok(resource.unwrap_or(true))
}

/// The form of the access.
pub fn protocol_name(fields: FieldsRef<'_>) -> Result<Protocol, RecordFault>
    ensures { Gives (λ b. b) result (required (data_at fields.entry) Field.Name protocol_name) }
{
    let word = text_in(fields, Field::Name)?;
    match word {
        "webdav" => Ok(Protocol::Webdav),
        "multi" => Ok(Protocol::Multi),
        _ => Err(RecordFault::Unsupported(Field::Name)),
    }
}

/// The notification of this type.
fn event_of(word: &str) -> Option<Event>
    ensures { result ≡ meaning event_words word.now }
{
    match word {
        "SHARE_ACCEPTED" => Some(Event::Accepted),
        "SHARE_DECLINED" => Some(Event::Declined),
        "SHARE_UNSHARED" => Some(Event::Unshared),
        "REQUEST_RESHARE" => Some(Event::ReshareRequest),
        "RESHARE_UNDO" => Some(Event::ReshareUndo),
        "RESHARE_CHANGE_PERMISSION" => Some(Event::Changed),
        _ => None,
    }
}

/// What a notification tells.
pub fn notification_type(fields: FieldsRef<'_>) -> Result<Event, RecordFault>
    ensures { Gives (λ e. e) result (required (data_at fields.entry) Field.NotificationType notification_type) }
{
    let word = text_in(fields, Field::NotificationType)?;
    event_of(word).ok_or(RecordFault::Unsupported(Field::NotificationType))
}

/// The command of this name.
fn command_of(word: &str) -> Option<Command>
    ensures { result ≡ meaning command_words word.now }
{
    match word {
        "user" => Some(Command::User),
        "share" => Some(Command::Share),
        "unshare" => Some(Command::Unshare),
        "limit" => Some(Command::Limit),
        "expire" => Some(Command::Expire),
        "accept" => Some(Command::Accept),
        "decline" => Some(Command::Decline),
        "reshare" => Some(Command::Reshare),
        "undo" => Some(Command::Undo),
        "list" => Some(Command::List),
        _ => None,
    }
}

/// What a local user asks.
pub fn command_name(fields: FieldsRef<'_>) -> Result<Command, RecordFault>
    ensures { Gives (λ c. c) result (required (data_at fields.entry) Field.Command command_name) }
{
    let word = text_in(fields, Field::Command)?;
    command_of(word).ok_or(RecordFault::Value(Field::Command))
}
