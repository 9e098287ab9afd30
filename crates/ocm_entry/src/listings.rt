ghost use Rattle.std.specs.Prelude.{◌≡◌, IfOk};

use ocm_path::Path;
use ocm_texts::{Copied, NoMemory, Text, and};
use ocm_types::{Address, Offer, Perms, Phase, RequestPhase};

/// What stands at a path, as PROPFIND tells it (RFC 4918 section 9.1).
pub struct DavItem {
    /// Below the holder's root.
    pub path: Path,
    /// The bytes of a file, and none for a collection.
    pub size: Option<u64>,
}

impl Drop for DavItem {
    fn drop(self) {
        let DavItem { path: _, size: _ } = self;
    }
}

/// What lies in a collection.
pub struct DavChild {
    /// The last segment of its path. The root, which lies in itself, has none.
    pub name: Option<Text>,
    /// The bytes of a file, and none for a collection.
    pub size: Option<u64>,
}

impl Drop for DavChild {
    fn drop(self) {
        let DavChild { name: _, size: _ } = self;
    }
}

/// A line of what a user lists.
pub enum Line {
    /// A share of this user's files.
    Share {
        id: u32,
        path: Path,
        with: Address,
        perms: Perms,
        live: bool,
    },
    /// A share that was offered to this user.
    Received {
        number: u32,
        offer: Offer,
        phase: Phase,
    },
    /// A request of this user to share further.
    Request {
        number: u32,
        received: u32,
        with: Address,
        perms: Option<Perms>,
        state: RequestPhase,
    },
}

impl Drop for Line {
    fn drop(self) {
        match self {
            Line::Share {
                id: _,
                path: _,
                with: _,
                perms: _,
                live: _,
            } => {}
            Line::Received {
                number: _,
                offer: _,
                phase: _,
            } => {}
            Line::Request {
                number: _,
                received: _,
                with: _,
                perms: _,
                state: _,
            } => {}
        }
    }
}

impl DavChild {
    /// The same once more.
    pub fn copy(&self) -> Result<DavChild, NoMemory>
        ensures { IfOk result (λ child. child ≡ self.now) }
    {
        let name = match &self.name {
            Some(name) => Some(name.copy()?),
            None => None,
        };
        Ok(DavChild {
            name,
            size: self.size,
        })
    }
}

impl Copied for DavChild {
    fn copied(&self) -> Result<DavChild, NoMemory> {
        self.copy()
    }
}

impl Line {
    /// The same line once more.
    pub fn copy(&self) -> Result<Line, NoMemory>
        ensures { IfOk result (λ l. l ≡ self.now) }
    {
        match self {
            Line::Share {
                id,
                path,
                with,
                perms,
                live,
            } => {
                let (path, with) = and(path.copy()?, with.copy())?;
                Ok(Line::Share {
                    id: *id,
                    path,
                    with,
                    perms: *perms,
                    live: *live,
                })
            }
            Line::Received {
                number,
                offer,
                phase,
            } => Ok(Line::Received {
                number: *number,
                offer: offer.copy()?,
                phase: *phase,
            }),
            Line::Request {
                number,
                received,
                with,
                perms,
                state,
            } => {
                let (with, state) = and(with.copy()?, state.copy())?;
                Ok(Line::Request {
                    number: *number,
                    received: *received,
                    with,
                    perms: *perms,
                    state,
                })
            }
        }
    }
}

impl Copied for Line {
    fn copied(&self) -> Result<Line, NoMemory> {
        self.copy()
    }
}
