use ocm_base::{Failed, NoMemory};
use ocm_journal_image::ImageFault;
use std::fmt;

/// Why the text of an audit was not written whole.
#[derive(Clone, Copy, Debug, PartialEq, Eq)]
pub enum AuditFault {
    /// The bytes are no journal: the place of the first byte that can't stand in one or at which bytes are wanting, 9
    /// for a label that is no host, or the place of the gate of the first record that is no entry.
    NotJournal(u64),
    /// The sink failed.
    WriteFault,
    /// There was no memory.
    NoMemory,
}

impl fmt::Display for AuditFault {
    fn fmt<W: fmt::Write>(&self, f: &mut fmt::Formatter<W>) -> fmt::Result {
        match self {
            AuditFault::NotJournal(place) => write!(f, "not a journal at {place}"),
            AuditFault::WriteFault => f.write_str("the text could not be written"),
            AuditFault::NoMemory => f.write_str("there is no memory"),
        }
    }
}

impl From<NoMemory> for AuditFault {
    ghost use Rattle.std.specs.Prelude.{◌≡◌};
    ghost use Rattle.ocm_journal_audit.specs.declared.faults.AuditFault.TheVariants.{NoMemory};

    ghost from_gives = { λ _ fault. fault ≡ NoMemory };

    fn from(_error: NoMemory) -> AuditFault {
        AuditFault::NoMemory
    }
}

impl From<Failed> for AuditFault {
    ghost use Rattle.std.specs.Prelude.{◌≡◌};
    ghost use Rattle.ocm_journal_audit.specs.declared.faults.AuditFault.TheVariants.{WriteFault};

    ghost from_gives = { λ _ fault. fault ≡ WriteFault };

    fn from(_error: Failed) -> AuditFault {
        AuditFault::WriteFault
    }
}
