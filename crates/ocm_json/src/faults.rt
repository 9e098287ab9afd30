use ocm_texts::NoMemory;
use std::alloc::AllocError;

/// Why bytes are not the fields of a JSON object.
#[derive(Clone, Copy, Debug, PartialEq, Eq)]
pub enum JsonFault {
    /// They are no JSON text (RFC 8259): not UTF-8, not of the grammar, deeper than 127 levels, or with a number
    /// beyond a float.
    NotJson,
    /// The JSON value is no object.
    NotObject,
    /// There was no memory.
    NoMemory,
}

/// Why a field that is there is not what was asked for.
#[derive(Clone, Copy, Debug, PartialEq, Eq)]
pub enum FieldFault {
    /// It is of another kind.
    Kind,
    /// It is a text with too few or too many bytes.
    Length,
    /// It is a number, but no whole number below 2^64.
    Range,
}

/// Why a field that is there is not the object or list that was asked for.
#[derive(Clone, Copy, Debug, PartialEq, Eq)]
pub enum JsonFieldFault {
    /// It is of another kind, or a list with an element of another kind. A `null` in a list is such an element.
    Kind,
    /// There was no memory.
    NoMemory,
}

impl From<NoMemory> for JsonFieldFault {
    ghost use Rattle.std.specs.Prelude.{◌≡◌};
    ghost use Rattle.ocm_json.specs.declared.faults.JsonFieldFault.TheVariants.{NoMemory};

    ghost from_gives = { λ _ fault. fault ≡ NoMemory };

    fn from(_failure: NoMemory) -> JsonFieldFault {
        JsonFieldFault::NoMemory
    }
}

impl From<AllocError> for JsonFieldFault {
    ghost use Rattle.std.specs.Prelude.{◌≡◌};
    ghost use Rattle.ocm_json.specs.declared.faults.JsonFieldFault.TheVariants.{NoMemory};

    ghost from_gives = { λ _ fault. fault ≡ NoMemory };

    fn from(_failure: AllocError) -> JsonFieldFault {
        JsonFieldFault::NoMemory
    }
}
