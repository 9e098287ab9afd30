ghost use Rattle.std.specs.Prelude.{◌≡◌, IfOk};

use crate::items::DavItems;
use crate::listings::Line;
use crate::refusals::Why;
use ocm_texts::{Bytes, List, NoMemory};
use ocm_types::{Name, Numbered, Secret};

/// What a server answers.
pub enum Reply {
    /// The key of a new account.
    Key { key: Secret },
    /// The number of a new share or request.
    Number { number: u32 },
    /// It was done.
    Done,
    /// A status that settles nothing: the message stays due.
    Left,
    /// What a user has.
    Listing { lines: List<Line> },
    /// The user to whom an offer went.
    Recipient { user: Name },
    /// A notification was taken.
    Noticed,
    /// The id of a further share.
    Child { id: u32 },
    /// The bytes of a file.
    File { body: Bytes },
    /// What stands at a path, and in it.
    Items { items: DavItems },
    /// Something stands where nothing stood.
    Created,
    /// Something stands in the place of what stood.
    Replaced,
    /// Nothing stands there any more.
    Removed,
    /// The messages that are due.
    Due { messages: List<Numbered> },
    /// It was refused, and nothing changed.
    Refused { why: Why },
    /// The journal is full, and nothing changed.
    JournalFull,
    /// There was no memory, and nothing changed.
    NoMemory,
    /// The disk failed: this is the count of its faults. Whether the change is kept shows after the
    /// next opening.
    DiskFault { count: u64 },
    /// The disk failed before, with this count, and nothing changes until the next opening.
    Stopped { count: u64 },
}

impl Drop for Reply {
    fn drop(self) {
        match self {
            Reply::Key { key: _ } => {}
            Reply::Number { number: _ } => {}
            Reply::Done => {}
            Reply::Left => {}
            Reply::Listing { lines: _ } => {}
            Reply::Recipient { user: _ } => {}
            Reply::Noticed => {}
            Reply::Child { id: _ } => {}
            Reply::File { body: _ } => {}
            Reply::Items { items: _ } => {}
            Reply::Created => {}
            Reply::Replaced => {}
            Reply::Removed => {}
            Reply::Due { messages: _ } => {}
            Reply::Refused { why: _ } => {}
            Reply::JournalFull => {}
            Reply::NoMemory => {}
            Reply::DiskFault { count: _ } => {}
            Reply::Stopped { count: _ } => {}
        }
    }
}

impl Reply {
    /// The same reply once more.
    pub fn copy(&self) -> Result<Reply, NoMemory>
        ensures { IfOk result (λ r. r ≡ self.now) }
    {
        match self {
            Reply::Key { key } => Ok(Reply::Key { key: key.copy()? }),
            Reply::Number { number } => Ok(Reply::Number { number: *number }),
            Reply::Done => Ok(Reply::Done),
            Reply::Left => Ok(Reply::Left),
            Reply::Listing { lines } => Ok(Reply::Listing {
                lines: lines.copy()?,
            }),
            Reply::Recipient { user } => Ok(Reply::Recipient { user: user.copy()? }),
            Reply::Noticed => Ok(Reply::Noticed),
            Reply::Child { id } => Ok(Reply::Child { id: *id }),
            Reply::File { body } => Ok(Reply::File { body: body.copy()? }),
            Reply::Items { items } => Ok(Reply::Items {
                items: items.copy()?,
            }),
            Reply::Created => Ok(Reply::Created),
            Reply::Replaced => Ok(Reply::Replaced),
            Reply::Removed => Ok(Reply::Removed),
            Reply::Due { messages } => Ok(Reply::Due {
                messages: messages.copy()?,
            }),
            Reply::Refused { why } => Ok(Reply::Refused { why: *why }),
            Reply::JournalFull => Ok(Reply::JournalFull),
            Reply::NoMemory => Ok(Reply::NoMemory),
            Reply::DiskFault { count } => Ok(Reply::DiskFault { count: *count }),
            Reply::Stopped { count } => Ok(Reply::Stopped { count: *count }),
        }
    }
}
