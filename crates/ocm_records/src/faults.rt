use ocm_base::NoMemory;
use std::alloc::AllocError;

/// A field of a record: of those of Open Cloud Mesh API 1.1, and of local commands. Each variant is spelled as the field,
/// in upper camel case.
#[derive(Clone, Copy, Debug, PartialEq, Eq)]
pub enum Field {
    ShareWith,
    Name,
    ProviderId,
    Owner,
    Sender,
    ShareType,
    ResourceType,
    Protocol,
    Options,
    Webdav,
    SharedSecret,
    Permissions,
    NotificationType,
    Notification,
    SenderId,
    Serial,
    Enabled,
    ApiVersion,
    EndPoint,
    ResourceTypes,
    Protocols,
    Message,
    ValidationErrors,
    Command,
    Path,
    With,
    Number,
    Until,
}

impl Field {
    ghost use Rattle.std.specs.Prelude.{◌≡◌};
    ghost use Rattle.ocm_records.specs.Fields.{name_of};

    /// The field's name in its object.
    pub fn name(self) -> &'static str
        ensures { result.now ≡ name_of self }
    {
        match self {
            Field::ShareWith => "shareWith",
            Field::Name => "name",
            Field::ProviderId => "providerId",
            Field::Owner => "owner",
            Field::Sender => "sender",
            Field::ShareType => "shareType",
            Field::ResourceType => "resourceType",
            Field::Protocol => "protocol",
            Field::Options => "options",
            Field::Webdav => "webdav",
            Field::SharedSecret => "sharedSecret",
            Field::Permissions => "permissions",
            Field::NotificationType => "notificationType",
            Field::Notification => "notification",
            Field::SenderId => "senderId",
            Field::Serial => "serial",
            Field::Enabled => "enabled",
            Field::ApiVersion => "apiVersion",
            Field::EndPoint => "endPoint",
            Field::ResourceTypes => "resourceTypes",
            Field::Protocols => "protocols",
            Field::Message => "message",
            Field::ValidationErrors => "validationErrors",
            Field::Command => "command",
            Field::Path => "path",
            Field::With => "with",
            Field::Number => "number",
            Field::Until => "until",
        }
    }
}

/// Why bytes are no such record. A fault of a field names the first faulty one in the order of the
/// record's table, by the last part of its name.
#[derive(Clone, Copy, Debug, PartialEq, Eq)]
pub enum RecordFault {
    /// The bytes are no UTF-8, or no JSON (RFC 8259).
    NotJson,
    /// The JSON value is no object.
    NotObject,
    /// The field is absent or null, and has to be there.
    Missing(Field),
    /// The field is of a kind of JSON value that it may not be.
    Kind(Field),
    /// The field is of the right kind, and its value is none that it may have.
    Value(Field),
    /// The field has a value of the standard, or may have one, that this server does not support.
    Unsupported(Field),
    /// There was no memory. The record may be sound.
    NoMemory,
}

impl RecordFault {
    ghost use Rattle.std.specs.Prelude.{◌≡◌};
    ghost use Rattle.ocm_records.specs.Fields.{number_of, field_of};

    /// The number of the fault, from 1 to 7 in the order of the variants.
    pub fn number(self) -> u8
        ensures { result ≡ number_of self }
    {
        match self {
            RecordFault::NotJson => 1,
            RecordFault::NotObject => 2,
            RecordFault::Missing(_) => 3,
            RecordFault::Kind(_) => 4,
            RecordFault::Value(_) => 5,
            RecordFault::Unsupported(_) => 6,
            RecordFault::NoMemory => 7,
        }
    }

    /// The field that is faulty, where the fault is one of a field.
    pub fn field(self) -> Option<Field>
        ensures { result ≡ field_of self }
    {
        match self {
            RecordFault::Missing(field)
            | RecordFault::Kind(field)
            | RecordFault::Value(field)
            | RecordFault::Unsupported(field) => Some(field),
            RecordFault::NotJson | RecordFault::NotObject | RecordFault::NoMemory => None,
        }
    }
}

impl From<NoMemory> for RecordFault {
    ghost use Rattle.std.specs.Prelude.{◌≡◌};
    ghost use Rattle.ocm_records.specs.declared.faults.RecordFault.TheVariants.{NoMemory};

    ghost from_gives = { λ _ fault. fault ≡ NoMemory };

    fn from(_failure: NoMemory) -> RecordFault {
        RecordFault::NoMemory
    }
}

impl From<AllocError> for RecordFault {
    ghost use Rattle.std.specs.Prelude.{◌≡◌};
    ghost use Rattle.ocm_records.specs.declared.faults.RecordFault.TheVariants.{NoMemory};

    ghost from_gives = { λ _ fault. fault ≡ NoMemory };

    fn from(_failure: AllocError) -> RecordFault {
        RecordFault::NoMemory
    }
}
