ghost use Rattle.std.specs.Prelude.{◌≡◌, IfOk};
ghost use Rattle.ocm_types.specs.Phases.{phase_word};

use crate::identifiers::ProviderId;
use ocm_texts::{Copied, NoMemory};

/// Which of a server's limits an ask would pass: where it would pass several, the first in this order.
#[derive(Clone, Copy, Debug, PartialEq, Eq)]
pub enum Which {
    /// The bytes of one file.
    FileSize,
    /// The bytes of all files.
    AllFiles,
    /// The files and collections of the whole server, without the roots of its users.
    Nodes,
    /// The files and collections in one collection.
    Children,
    /// The users.
    Users,
    /// The received offers of one user that are not yet decided.
    Pending,
    /// The shares.
    Shares,
    /// The received offers.
    Records,
    /// The requests that a share be passed on.
    Requests,
    /// The changes of permissions that are told.
    Changes,
    /// The bytes of a path.
    PathLength,
}

/// How far a received offer has come.
#[derive(Clone, Copy, Debug, PartialEq, Eq)]
pub enum Phase {
    /// Its recipient has not decided.
    Pending,
    /// Its recipient took it, and its owner's server has not yet answered.
    Accepting,
    /// Its owner's server has answered that it took note of this.
    Confirmed,
    /// Its owner's server would not have it.
    Refused,
    /// Its recipient did not want it, or gave it up.
    Declined,
    /// Its owner's server told that it is shared no more.
    Removed,
}

impl Phase {
    /// The phase in one word, as `pending`.
    pub fn word(self) -> &'static str
        ensures { result.now ≡ phase_word self }
    {
        match self {
            Phase::Pending => "pending",
            Phase::Accepting => "accepting",
            Phase::Confirmed => "confirmed",
            Phase::Refused => "refused",
            Phase::Declined => "declined",
            Phase::Removed => "removed",
        }
    }
}

/// How far a recipient's request that a share be passed on has come (`REQUEST_RESHARE` of Open Cloud Mesh API 1.1).
pub enum RequestPhase {
    /// The owner's server has not yet answered.
    Asked,
    /// The owner's server has made a share for it.
    Granted {
        /// The new share's `providerId`.
        child: ProviderId,
    },
    /// The owner's server would not have it.
    Refused,
    /// The recipient took it back (`RESHARE_UNDO`).
    Undone,
}

impl Drop for RequestPhase {
    fn drop(self) {
        match self {
            RequestPhase::Asked => {}
            RequestPhase::Granted { child: _ } => {}
            RequestPhase::Refused => {}
            RequestPhase::Undone => {}
        }
    }
}

impl RequestPhase {
    /// The same value once more.
    pub fn copy(&self) -> Result<RequestPhase, NoMemory>
        ensures { IfOk result (λ copy. copy ≡ self.now) }
    {
        match self {
            RequestPhase::Asked => Ok(RequestPhase::Asked),
            RequestPhase::Granted { child } => {
                let child = child.copy()?;
                Ok(RequestPhase::Granted { child })
            }
            RequestPhase::Refused => Ok(RequestPhase::Refused),
            RequestPhase::Undone => Ok(RequestPhase::Undone),
        }
    }
}

impl Copied for RequestPhase {
    fn copied(&self) -> Result<RequestPhase, NoMemory> {
        self.copy()
    }
}
