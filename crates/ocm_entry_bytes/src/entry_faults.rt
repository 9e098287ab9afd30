ghost use Rattle.std.specs.Prelude.{◌≡◌};
ghost use Rattle.ocm_entry_bytes.specs.declared.entry_faults.EntryFault.TheVariants.{NoMemory};

use std::fmt;

/// Why bytes are no ask: the first fault from the left.
#[derive(Clone, Copy, Debug, PartialEq, Eq)]
pub enum EntryFault {
    /// The first byte, or the byte that tells the kind of a command, a notification or a method, is
    /// none that is known.
    Tag,
    /// The bytes end before a field does.
    Length,
    /// A field is there, and is no value of its kind.
    Value,
    /// Bytes follow the ask.
    Rest,
    /// There was no memory. The bytes may be an ask.
    NoMemory,
}

impl fmt::Display for EntryFault {
    fn fmt<W: fmt::Write>(&self, f: &mut fmt::Formatter<W>) -> fmt::Result {
        f.write_str(match self {
            EntryFault::Tag => "a byte names no kind of ask",
            EntryFault::Length => "the bytes end early",
            EntryFault::Value => "a field is no value of its kind",
            EntryFault::Rest => "bytes follow the ask",
            EntryFault::NoMemory => "there is no memory",
        })
    }
}

impl From<ocm_base::NoMemory> for EntryFault {
    ghost from_gives = { λ _ e. e ≡ NoMemory };

    fn from(_failure: ocm_base::NoMemory) -> EntryFault {
        EntryFault::NoMemory
    }
}
