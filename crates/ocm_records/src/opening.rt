//! The object that a record is.

ghost use Rattle.std.specs.Prelude.{◌≡◌};
ghost use Rattle.ocm_json.specs.Json.{object_of};
ghost use Rattle.ocm_json.specs.Seen.{data_in};
ghost use Rattle.ocm_records.specs.Rows.{Gives, opened};

use crate::faults::RecordFault;
use ocm_json::{Fields, JsonFault};
use std::alloc::Global;

/// The fields of the object that the bytes are.
pub fn fields_of(alloc: Global, bytes: &[u8]) -> Result<Fields, RecordFault>
    ensures { Gives data_in result (opened (object_of bytes.now)) }
{
    match Fields::of(alloc, bytes) {
        Ok(fields) => Ok(fields),
        Err(JsonFault::NotJson) => Err(RecordFault::NotJson),
        Err(JsonFault::NotObject) => Err(RecordFault::NotObject),
        Err(JsonFault::NoMemory) => Err(RecordFault::NoMemory),
    }
}
