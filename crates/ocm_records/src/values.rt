use ocm_base::{List, Text};
use ocm_entry::Cmd;
use ocm_types::Name;

/// What a server says of itself: the document of its discovery end point (Open Cloud Mesh API 1.1).
pub struct Discovery {
    /// Whether the server takes part: `enabled`.
    pub enabled: bool,
    /// The version of the interface: `apiVersion`, a text of 1 to 64 bytes.
    pub version: Text,
    /// The URL that its end points begin with: `endPoint`, a text of 1 to 1,024 bytes.
    pub end_point: Text,
    /// The path of its WebDAV interface for files: `webdav` of the resource type `file`, a text of
    /// 1 to 1,024 bytes that begins with `/`. None where it has none.
    pub webdav: Option<Text>,
}

impl Drop for Discovery {
    fn drop(self) {
        let Discovery {
            enabled: _,
            version: _,
            end_point: _,
            webdav: _,
        } = self;
    }
}

/// Why a server refused a request (Open Cloud Mesh API 1.1).
pub struct ErrorBody {
    /// The reason: `message`, a text of at most 1,024 bytes.
    pub message: Text,
    /// The fields that were faulty: `validationErrors`.
    pub errors: List<FieldNote>,
}

impl Drop for ErrorBody {
    fn drop(self) {
        let ErrorBody {
            message: _,
            errors: _,
        } = self;
    }
}

/// What was wrong with a field of a request.
pub struct FieldNote {
    /// The reason: `message`, a text of at most 1,024 bytes.
    pub message: Text,
    /// The field's name: `name`, a text of at most 1,024 bytes.
    pub name: Text,
}

impl Drop for FieldNote {
    fn drop(self) {
        let FieldNote {
            message: _,
            name: _,
        } = self;
    }
}

/// What a local user or the administrator asks.
#[derive(Debug, Drop)]
pub enum LocalAsk {
    /// A new user of this name.
    User(Name),
    /// A command of the user.
    Command(Cmd),
}
