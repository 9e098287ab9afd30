ghost use Rattle.std.specs.Prelude.{◌≡◌, IfOk};

use ocm_path::Path;
use ocm_texts::{Bytes, NoMemory, and};
use ocm_types::{Address, Name, Perms, RequestPhase, Rights, Secret, SenderId};

/// A user of the server, with the key of the account. Users are numbered from 1.
#[derive(Drop)]
pub struct User {
    pub name: Name,
    pub key: Secret,
}

/// A share: what a guest may do with the files of a user at and below a path. Shares are numbered
/// from 1, and a further share has a smaller number as its parent.
pub struct Share {
    /// The number of the user whose files they are.
    pub owner: u32,
    /// The path of the owner that is the guest's `/`.
    pub root: Path,
    /// The share from which this one was shared further.
    pub parent: Option<u32>,
    /// The recipient, who is the guest (OCM API 1.1, `shareWith`).
    pub with: Address,
    /// Who shared: the owner, or the guest of the parent.
    pub sender: Address,
    /// By which the guest reads and writes.
    pub secret: Secret,
    /// What was granted when the share was made.
    pub granted: Perms,
    /// The id that the guest's server gave to its request (`senderId`), for a further share.
    pub sender_id: Option<SenderId>,
    /// What was asked for, for a further share.
    pub asked: Option<Perms>,
}

impl Drop for Share {
    fn drop(self) {
        let Share {
            owner: _,
            root: _,
            parent: _,
            with: _,
            sender: _,
            secret: _,
            granted: _,
            sender_id: _,
            asked: _,
        } = self;
    }
}

/// A user's request to share a received share further. Requests are numbered from 1.
pub struct Request {
    /// The number of the received share.
    pub received: u32,
    pub with: Address,
    pub perms: Option<Perms>,
    pub state: RequestPhase,
}

impl Drop for Request {
    fn drop(self) {
        let Request {
            received: _,
            with: _,
            perms: _,
            state: _,
        } = self;
    }
}

/// A path of a user: the number of the user, and the path below the user's root.
#[derive(PartialEq, Eq, Hash)]
pub struct Place {
    pub user: u32,
    pub path: Path,
}

impl Drop for Place {
    fn drop(self) {
        let Place { user: _, path: _ } = self;
    }
}

/// What stands at a place.
#[derive(Drop)]
pub enum Standing {
    /// A collection (RFC 4918 section 5.2).
    Collection,
    /// A file, with its bytes.
    File { body: Bytes },
}

/// A place with what stands at it.
#[derive(Drop)]
pub struct Node {
    pub place: Place,
    pub standing: Standing,
}

/// What the holder of a secret may do, at and below a place.
pub struct Grant {
    pub root: Place,
    pub rights: Rights,
}

impl Drop for Grant {
    fn drop(self) {
        let Grant { root: _, rights: _ } = self;
    }
}

impl User {
    /// The same user once more.
    pub fn copy(&self) -> Result<User, NoMemory>
        ensures { IfOk result (λ u. u ≡ self.now) }
    {
        let (name, key) = and(self.name.copy()?, self.key.copy())?;
        Ok(User { name, key })
    }
}

impl Share {
    /// The same share once more.
    pub fn copy(&self) -> Result<Share, NoMemory>
        ensures { IfOk result (λ s. s ≡ self.now) }
    {
        let front = and(self.root.copy()?, self.with.copy())?;
        let front = and(front, self.sender.copy())?;
        let front = and(front, self.secret.copy())?;
        let ((((root, with), sender), secret), sender_id) = and(
            front,
            copy_of_id(&self.sender_id),
        )?;
        Ok(Share {
            owner: self.owner,
            root,
            parent: self.parent,
            with,
            sender,
            secret,
            granted: self.granted,
            sender_id,
            asked: self.asked,
        })
    }
}

impl Request {
    /// The same request once more.
    pub fn copy(&self) -> Result<Request, NoMemory>
        ensures { IfOk result (λ r. r ≡ self.now) }
    {
        let (with, state) = and(self.with.copy()?, self.state.copy())?;
        Ok(Request {
            received: self.received,
            with,
            perms: self.perms,
            state,
        })
    }
}

impl Place {
    /// The same place once more.
    pub fn copy(&self) -> Result<Place, NoMemory>
        ensures { IfOk result (λ p. p ≡ self.now) }
    {
        let path = self.path.copy()?;
        Ok(Place {
            user: self.user,
            path,
        })
    }
}

impl Standing {
    /// The same once more, with a copy of a file's bytes.
    pub fn copy(&self) -> Result<Standing, NoMemory>
        ensures { IfOk result (λ s. s ≡ self.now) }
    {
        match self {
            Standing::Collection => Ok(Standing::Collection),
            Standing::File { body } => Ok(Standing::File { body: body.copy()? }),
        }
    }
}

impl Node {
    /// The same node once more, with a copy of a file's bytes.
    pub fn copy(&self) -> Result<Node, NoMemory>
        ensures { IfOk result (λ n. n ≡ self.now) }
    {
        let (place, standing) = and(self.place.copy()?, self.standing.copy())?;
        Ok(Node { place, standing })
    }
}

fn copy_of_id(id: &Option<SenderId>) -> Result<Option<SenderId>, NoMemory>
    ensures { IfOk result (λ c. c ≡ id.now) }
{
    match id {
        Some(id) => Ok(Some(id.copy()?)),
        None => Ok(None),
    }
}
