use ocm_texts::NoMemory;
use std::alloc::AllocError;

/// Why a text is no path.
#[derive(Clone, Copy, Debug, PartialEq, Eq)]
pub enum PathFault {
    /// A `%` has no two hexadecimal digits after it.
    BadEscape,
    /// A decoded segment is not UTF-8.
    NotText,
    /// A segment has no bytes, or the text doesn't begin with `/`.
    EmptySegment,
    /// A segment is `.` or `..`.
    Dots,
    /// A segment has a control character of ASCII, or a decoded `/`.
    BadChar,
    /// A segment has more than 255 bytes, or the path's text more than 1,024.
    TooLong,
    /// There was no memory.
    NoMemory,
}

impl From<NoMemory> for PathFault {
    ghost use Rattle.std.specs.Prelude.{◌≡◌};
    ghost use Rattle.ocm_path.specs.declared.faults.PathFault.TheVariants.{NoMemory};

    ghost from_gives = { λ _ fault. fault ≡ NoMemory };

    fn from(_failure: NoMemory) -> PathFault {
        PathFault::NoMemory
    }
}

impl From<AllocError> for PathFault {
    ghost use Rattle.std.specs.Prelude.{◌≡◌};
    ghost use Rattle.ocm_path.specs.declared.faults.PathFault.TheVariants.{NoMemory};

    ghost from_gives = { λ _ fault. fault ≡ NoMemory };

    fn from(_failure: AllocError) -> PathFault {
        PathFault::NoMemory
    }
}
