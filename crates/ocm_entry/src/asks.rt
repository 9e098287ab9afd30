ghost use Rattle.std.specs.Prelude.{◌≡◌, IfOk};

use ocm_path::Path;
use ocm_texts::{Bytes, NoMemory, and};
use ocm_types::{Address, Fresh, Name, Notice, Offer, Perms, ProviderId, Secret};

/// One step that a server is asked to take.
pub enum Ask {
    /// A new user. The key of the account is made of the drawn bytes.
    AddUser {
        name: Name,
        fresh: Fresh,
    },
    /// A command of the user whose account has this key.
    Local {
        key: Secret,
        cmd: Cmd,
    },
    /// A share that another server offers to a user of this one (OCM API 1.1, `/shares`).
    Offer {
        offer: Offer,
    },
    /// A message of another server about a share (OCM API 1.1, `/notifications`). A share that it
    /// makes has the drawn bytes as its secret.
    Notice {
        notice: Notice,
        fresh: Fresh,
    },
    /// A request for files (RFC 4918) by the holder of the secret. The body is empty but for PUT and
    /// MKCOL, and the path is read below the holder's root.
    Dav {
        secret: Secret,
        method: Method,
        path: Path,
        body: Bytes,
    },
    /// Which messages to other servers are due.
    Due,
    /// The status with which another server answered a message, and the id that came with it.
    Settle {
        number: u32,
        status: u16,
        id: Option<ProviderId>,
    },
    /// The time, in whole seconds since the epoch.
    Tick {
        clock: u64,
    },
    /// COPY, or MOVE where it is moving (RFC 4918 sections 9.8 and 9.9), by the holder of the secret.
    Carry {
        secret: Secret,
        from: Path,
        to: Path,
        moving: bool,
        overwrite: bool,
    },
}

impl Drop for Ask {
    fn drop(self) {
        match self {
            Ask::AddUser { name: _, fresh: _ } => {}
            Ask::Local { key: _, cmd: _ } => {}
            Ask::Offer { offer: _ } => {}
            Ask::Notice {
                notice: _,
                fresh: _,
            } => {}
            Ask::Dav {
                secret: _,
                method: _,
                path: _,
                body: _,
            } => {}
            Ask::Due => {}
            Ask::Settle {
                number: _,
                status: _,
                id: _,
            } => {}
            Ask::Tick { clock: _ } => {}
            Ask::Carry {
                secret: _,
                from: _,
                to: _,
                moving: _,
                overwrite: _,
            } => {}
        }
    }
}

/// What a user commands.
#[derive(Debug)]
pub enum Cmd {
    /// A share of what stands at the path, for a user of another server. Its secret is made of the
    /// drawn bytes.
    Share {
        path: Path,
        with: Address,
        perms: Perms,
        fresh: Fresh,
    },
    /// The end of a share, at once.
    Unshare {
        id: u32,
    },
    /// Other permissions for a share, within those that were granted.
    Limit {
        id: u32,
        perms: Perms,
    },
    /// A received share is taken.
    Accept {
        number: u32,
    },
    /// A received share is given back.
    Decline {
        number: u32,
    },
    /// The owner of a received share is asked to share it further.
    Reshare {
        number: u32,
        with: Address,
        perms: Option<Perms>,
    },
    /// A further share is taken back.
    Undo {
        request: u32,
    },
    /// All shares, received shares and requests of the user.
    List,
    /// The end of a share at a moment, in whole seconds since the epoch.
    Expire {
        id: u32,
        until: u64,
    },
}

impl Drop for Cmd {
    fn drop(self) {
        match self {
            Cmd::Share {
                path: _,
                with: _,
                perms: _,
                fresh: _,
            } => {}
            Cmd::Unshare { id: _ } => {}
            Cmd::Limit { id: _, perms: _ } => {}
            Cmd::Accept { number: _ } => {}
            Cmd::Decline { number: _ } => {}
            Cmd::Reshare {
                number: _,
                with: _,
                perms: _,
            } => {}
            Cmd::Undo { request: _ } => {}
            Cmd::List => {}
            Cmd::Expire { id: _, until: _ } => {}
        }
    }
}

/// What is done with files.
#[derive(Clone, Copy, Debug, PartialEq, Eq)]
pub enum Method {
    /// GET (RFC 9110 section 9.3.1).
    Get,
    /// HEAD (RFC 9110 section 9.3.2).
    Head,
    /// PUT (RFC 4918 section 9.7).
    Put,
    /// DELETE (RFC 4918 section 9.6).
    Delete,
    /// MKCOL (RFC 4918 section 9.3).
    Mkcol,
    /// PROPFIND of depth 0 (RFC 4918 section 9.1).
    List0,
    /// PROPFIND of depth 1.
    List1,
}

impl Ask {
    ghost use Rattle.ocm_entry.specs.Ticks.{is_tick};

    /// Whether this is the ask that brings the time.
    pub fn is_tick(&self) -> bool
        ensures { result ≡ is_tick self.now }
    {
        match self {
            Ask::Tick { .. } => true,
            Ask::AddUser { .. }
            | Ask::Local { .. }
            | Ask::Offer { .. }
            | Ask::Notice { .. }
            | Ask::Dav { .. }
            | Ask::Due
            | Ask::Settle { .. }
            | Ask::Carry { .. } => false,
        }
    }
}

impl Ask {
    /// The same ask once more.
    pub fn copy(&self) -> Result<Ask, NoMemory>
        ensures { IfOk result (λ a. a ≡ self.now) }
    {
        match self {
            Ask::AddUser { name, fresh } => Ok(Ask::AddUser {
                name: name.copy()?,
                fresh: *fresh,
            }),
            Ask::Local { key, cmd } => {
                let (key, cmd) = and(key.copy()?, cmd.copy())?;
                Ok(Ask::Local { key, cmd })
            }
            Ask::Offer { offer } => Ok(Ask::Offer {
                offer: offer.copy()?,
            }),
            Ask::Notice { notice, fresh } => Ok(Ask::Notice {
                notice: notice.copy()?,
                fresh: *fresh,
            }),
            Ask::Dav {
                secret,
                method,
                path,
                body,
            } => {
                let front = and(secret.copy()?, path.copy())?;
                let ((secret, path), body) = and(front, body.copy())?;
                Ok(Ask::Dav {
                    secret,
                    method: *method,
                    path,
                    body,
                })
            }
            Ask::Due => Ok(Ask::Due),
            Ask::Settle { number, status, id } => Ok(Ask::Settle {
                number: *number,
                status: *status,
                id: copy_of_id(id)?,
            }),
            Ask::Tick { clock } => Ok(Ask::Tick { clock: *clock }),
            Ask::Carry {
                secret,
                from,
                to,
                moving,
                overwrite,
            } => {
                let front = and(secret.copy()?, from.copy())?;
                let ((secret, from), to) = and(front, to.copy())?;
                Ok(Ask::Carry {
                    secret,
                    from,
                    to,
                    moving: *moving,
                    overwrite: *overwrite,
                })
            }
        }
    }
}

fn copy_of_id(id: &Option<ProviderId>) -> Result<Option<ProviderId>, NoMemory>
    ensures { IfOk result (λ c. c ≡ id.now) }
{
    match id {
        Some(id) => Ok(Some(id.copy()?)),
        None => Ok(None),
    }
}

impl Cmd {
    /// The same command once more.
    pub fn copy(&self) -> Result<Cmd, NoMemory>
        ensures { IfOk result (λ c. c ≡ self.now) }
    {
        match self {
            Cmd::Share {
                path,
                with,
                perms,
                fresh,
            } => {
                let (path, with) = and(path.copy()?, with.copy())?;
                Ok(Cmd::Share {
                    path,
                    with,
                    perms: *perms,
                    fresh: *fresh,
                })
            }
            Cmd::Unshare { id } => Ok(Cmd::Unshare { id: *id }),
            Cmd::Limit { id, perms } => Ok(Cmd::Limit {
                id: *id,
                perms: *perms,
            }),
            Cmd::Accept { number } => Ok(Cmd::Accept { number: *number }),
            Cmd::Decline { number } => Ok(Cmd::Decline { number: *number }),
            Cmd::Reshare {
                number,
                with,
                perms,
            } => Ok(Cmd::Reshare {
                number: *number,
                with: with.copy()?,
                perms: *perms,
            }),
            Cmd::Undo { request } => Ok(Cmd::Undo { request: *request }),
            Cmd::List => Ok(Cmd::List),
            Cmd::Expire { id, until } => Ok(Cmd::Expire {
                id: *id,
                until: *until,
            }),
        }
    }
}
