ghost use Rattle.std.specs.Prelude.{◌≡◌};
ghost use Rattle.ocm_entry.specs.Refusals.{status_of, message_of};

use ocm_types::Which;

/// Why an ask is refused.
#[derive(Clone, Copy, Debug, PartialEq, Eq)]
pub enum Why {
    /// The secret or the key holds nothing, or a share that is not live.
    Unauthorized,
    /// The holder may not do this.
    NotPermitted,
    /// A holder's `/` can't be deleted, moved or replaced.
    RootStays,
    /// No share, or no received share, has this id and this secret.
    UnknownShare,
    /// The share has ended.
    ShareClosed,
    /// Nothing stands there, or this user has nothing of this number.
    NotFound,
    /// What stands there doesn't take this method.
    NotAllowed,
    /// The parent is no collection.
    ParentMissing,
    /// The share, record or request is not in the phase for this.
    WrongPhase,
    /// There is a user of this name.
    UserExists,
    /// The drawn bytes spell a key or a secret that was used before.
    Collision,
    /// MKCOL takes no body.
    BodyRefused,
    /// This limit would be passed.
    Limit { which: Which },
    /// The guest's own id for its request (`senderId`) names another request.
    SenderIdReused,
    /// The recipient is of another host.
    NotOurHost,
    /// The recipient is no user here.
    UnknownUser,
    /// The address in this field is of this very host.
    OwnHost { field: AddressField },
    /// The source and the destination of a copy or move are one, or one lies in the other.
    SamePlace,
    /// Something stands at the destination, and it is not to be overwritten.
    Occupied,
}

/// A field of a message that holds an address.
#[derive(Clone, Copy, Debug, PartialEq, Eq)]
pub enum AddressField {
    /// `shareWith`, the recipient.
    ShareWith,
    /// `owner`, whose files they are.
    Owner,
}

impl Why {
    /// The status of HTTP with which the refusal is answered (RFC 9110 section 15, RFC 4918 section 11).
    pub fn status(self) -> u16
        ensures { result ≡ status_of self }
    {
        match self {
            Why::SenderIdReused | Why::NotOurHost | Why::UnknownUser | Why::OwnHost { field: _ } =>
                400,
            Why::Unauthorized => 401,
            Why::NotPermitted
            | Why::RootStays
            | Why::UnknownShare
            | Why::ShareClosed
            | Why::SamePlace => 403,
            Why::NotFound => 404,
            Why::NotAllowed => 405,
            Why::ParentMissing | Why::WrongPhase | Why::UserExists | Why::Collision => 409,
            Why::Occupied => 412,
            Why::BodyRefused => 415,
            Why::Limit { which: _ } => 507,
        }
    }

    /// The words that tell the refusal to a peer.
    pub fn message(self) -> &'static str
        ensures { result.now ≡ message_of self }
    {
        match self {
            Why::Unauthorized => "unauthorized",
            Why::NotPermitted => "not permitted",
            Why::RootStays => "root stays",
            Why::UnknownShare => "unknown share",
            Why::ShareClosed => "share closed",
            Why::NotFound => "not found",
            Why::NotAllowed => "not allowed",
            Why::ParentMissing => "parent missing",
            Why::WrongPhase => "wrong phase",
            Why::UserExists => "user exists",
            Why::Collision => "collision",
            Why::BodyRefused => "body refused",
            Why::Limit { which: _ } => "limit reached",
            Why::SenderIdReused => "senderId reused",
            Why::NotOurHost => "not our host",
            Why::UnknownUser => "unknown user",
            Why::OwnHost { field: _ } => "own host",
            Why::SamePlace => "same place",
            Why::Occupied => "occupied",
        }
    }
}
