ghost use Rattle.std.specs.Prelude.{◌≡◌, IfOk};

use crate::addresses::Address;
use crate::hosts::Host;
use crate::identifiers::{ProviderId, SenderId};
use crate::names::ShareName;
use crate::rights::Perms;
use crate::secrets::Secret;
use crate::shared::Shared;
use ocm_texts::{Copied, NoMemory, and};

/// The same value once more, where there is one.
fn copy_of_option<T: Copied>(value: &Option<T>) -> Result<Option<T>, NoMemory>
    ensures { IfOk result (λ copy. copy ≡ value.now) }
{
    match value {
        Some(held) => {
            let copy = held.copied()?;
            Ok(Some(copy))
        }
        None => Ok(None),
    }
}

/// The marks that each notification has, once more.
fn copies_of(id: &ProviderId, secret: &Secret) -> Result<(ProviderId, Secret), NoMemory>
    ensures { IfOk result (λ copies. (copies.0 ≡ id.now) × (copies.1 ≡ secret.now)) }
{
    and(id.copy()?, secret.copy())
}

/// An offer of a share: what the body of POST to `{endPoint}/shares` says (Open Cloud Mesh API 1.1).
pub struct Offer {
    /// Who gets the share: `shareWith`.
    pub with: Address,
    /// What the share is called: `name`.
    pub name: ShareName,
    /// The owner's mark of the share: `providerId`.
    pub id: ProviderId,
    /// Whose files they are: `owner`.
    pub owner: Address,
    /// Who asked for the share: `sender`. It is the owner, or a recipient that passes a share on.
    pub sender: Address,
    /// What the recipient shows to reach the share: `sharedSecret`.
    pub secret: Secret,
    /// What the recipient may do: `permissions`.
    pub perms: Perms,
}

impl Drop for Offer {
    fn drop(self) {
        let Offer {
            with: _,
            name: _,
            id: _,
            owner: _,
            sender: _,
            secret: _,
            perms: _,
        } = self;
    }
}

impl Offer {
    /// The same value once more.
    pub fn copy(&self) -> Result<Offer, NoMemory>
        ensures { IfOk result (λ copy. copy ≡ self.now) }
    {
        let made = and(self.with.copy()?, self.name.copy())?;
        let made = and(made, self.id.copy())?;
        let made = and(made, self.owner.copy())?;
        let made = and(made, self.sender.copy())?;
        let (made, secret) = and(made, self.secret.copy())?;
        let ((((with, name), id), owner), sender) = made;
        Ok(Offer {
            with,
            name,
            id,
            owner,
            sender,
            secret,
            perms: self.perms,
        })
    }
}

impl Copied for Offer {
    fn copied(&self) -> Result<Offer, NoMemory> {
        self.copy()
    }
}

/// A notification about a share: what the body of POST to `{endPoint}/notifications` says (Open Cloud Mesh API 1.1). In
/// each, `id` is its `providerId` and `secret` its `sharedSecret`: those of the share, as its offer gave them.
pub enum Notice {
    /// `SHARE_ACCEPTED`: the recipient took the share. What is present of the owner, the recipient and the permissions
    /// says how the recipient understood the offer.
    Accepted {
        id: ProviderId,
        secret: Secret,
        /// `owner`.
        owner: Option<Address>,
        /// `shareWith`.
        with: Option<Address>,
        /// `permissions`.
        perms: Option<Perms>,
    },
    /// `SHARE_DECLINED`: the recipient did not want the share, or gave it up.
    Declined {
        id: ProviderId,
        secret: Secret,
    },
    /// `SHARE_UNSHARED`: the owner took the share back.
    Unshared {
        id: ProviderId,
        secret: Secret,
    },
    /// `REQUEST_RESHARE`: the recipient asks the owner to share with another.
    ReshareRequest {
        id: ProviderId,
        secret: Secret,
        /// The other: `shareWith`.
        with: Address,
        /// The recipient's mark of this request: `senderId`.
        sender_id: SenderId,
        /// What the other may do: `permissions`. None leaves it to the owner.
        perms: Option<Perms>,
    },
    /// `RESHARE_UNDO`: a share that was made at a recipient's request ends.
    ReshareUndo {
        id: ProviderId,
        secret: Secret,
    },
    /// `RESHARE_CHANGE_PERMISSION`: the owner changed what the recipient may do.
    Changed {
        id: ProviderId,
        secret: Secret,
        /// Which change this is, from 1: a later one has a higher number.
        serial: u32,
        /// What the recipient may do from now on: `permissions`.
        perms: Perms,
    },
}

impl Drop for Notice {
    fn drop(self) {
        match self {
            Notice::Accepted {
                id: _,
                secret: _,
                owner: _,
                with: _,
                perms: _,
            } => {}
            Notice::Declined { id: _, secret: _ } => {}
            Notice::Unshared { id: _, secret: _ } => {}
            Notice::ReshareRequest {
                id: _,
                secret: _,
                with: _,
                sender_id: _,
                perms: _,
            } => {}
            Notice::ReshareUndo { id: _, secret: _ } => {}
            Notice::Changed {
                id: _,
                secret: _,
                serial: _,
                perms: _,
            } => {}
        }
    }
}

impl Notice {
    /// The same value once more.
    pub fn copy(&self) -> Result<Notice, NoMemory>
        ensures { IfOk result (λ copy. copy ≡ self.now) }
    {
        match self {
            Notice::Accepted {
                id,
                secret,
                owner,
                with,
                perms,
            } => {
                let made = and(copies_of(id, secret)?, copy_of_option(owner))?;
                let (made, with) = and(made, copy_of_option(with))?;
                let ((id, secret), owner) = made;
                Ok(Notice::Accepted {
                    id,
                    secret,
                    owner,
                    with,
                    perms: *perms,
                })
            }
            Notice::Declined { id, secret } => {
                let (id, secret) = copies_of(id, secret)?;
                Ok(Notice::Declined { id, secret })
            }
            Notice::Unshared { id, secret } => {
                let (id, secret) = copies_of(id, secret)?;
                Ok(Notice::Unshared { id, secret })
            }
            Notice::ReshareRequest {
                id,
                secret,
                with,
                sender_id,
                perms,
            } => {
                let made = and(copies_of(id, secret)?, with.copy())?;
                let (made, sender_id) = and(made, sender_id.copy())?;
                let ((id, secret), with) = made;
                Ok(Notice::ReshareRequest {
                    id,
                    secret,
                    with,
                    sender_id,
                    perms: *perms,
                })
            }
            Notice::ReshareUndo { id, secret } => {
                let (id, secret) = copies_of(id, secret)?;
                Ok(Notice::ReshareUndo { id, secret })
            }
            Notice::Changed {
                id,
                secret,
                serial,
                perms,
            } => {
                let (id, secret) = copies_of(id, secret)?;
                Ok(Notice::Changed {
                    id,
                    secret,
                    serial: *serial,
                    perms: *perms,
                })
            }
        }
    }
}

impl Copied for Notice {
    fn copied(&self) -> Result<Notice, NoMemory> {
        self.copy()
    }
}

/// What one server sends another.
pub enum Letter {
    /// An offer, for the shares end point.
    Offer(Offer),
    /// A notification, for the notifications end point.
    Notice(Notice),
}

impl Drop for Letter {
    fn drop(self) {
        match self {
            Letter::Offer(_) => {}
            Letter::Notice(_) => {}
        }
    }
}

impl Letter {
    /// The same value once more.
    pub fn copy(&self) -> Result<Letter, NoMemory>
        ensures { IfOk result (λ copy. copy ≡ self.now) }
    {
        match self {
            Letter::Offer(offer) => {
                let offer = offer.copy()?;
                Ok(Letter::Offer(offer))
            }
            Letter::Notice(notice) => {
                let notice = notice.copy()?;
                Ok(Letter::Notice(notice))
            }
        }
    }
}

impl Copied for Letter {
    fn copied(&self) -> Result<Letter, NoMemory> {
        self.copy()
    }
}

/// A letter that waits to be sent. Its copies share the host and the letter.
pub struct Numbered {
    /// Its number among the letters of its server.
    pub number: u32,
    /// The server that it is for.
    pub to: Shared<Host>,
    /// What it says.
    pub letter: Shared<Letter>,
}

impl Drop for Numbered {
    fn drop(self) {
        let Numbered {
            number: _,
            to: _,
            letter: _,
        } = self;
    }
}

impl Numbered {
    /// The same value once more.
    pub fn copy(&self) -> Result<Numbered, NoMemory>
        ensures { IfOk result (λ copy. copy ≡ self.now) }
    {
        let (to, letter) = and(self.to.copy()?, self.letter.copy())?;
        Ok(Numbered {
            number: self.number,
            to,
            letter,
        })
    }
}

impl Copied for Numbered {
    fn copied(&self) -> Result<Numbered, NoMemory> {
        self.copy()
    }
}
