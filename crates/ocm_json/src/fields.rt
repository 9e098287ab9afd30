ghost use Rattle.std.specs.Prelude.{◌≡◌, ◌≢◌, Ok, Err, IfOk, IfErr, map, option_copied, option_map};
ghost use Rattle.serde_json.specs.View.{view};
ghost use Rattle.ocm_json.specs.Json.{object_of};
ghost use Rattle.ocm_json.specs.Fields.{text_field, flag_field, number_field};
ghost use Rattle.ocm_json.specs.Nested.{object_field, texts_field, objects_field};

use crate::borrowed::FieldsRef;
use crate::faults::{FieldFault, JsonFault, JsonFieldFault};
use crate::lists::copies;
use ocm_texts::{List, Text};
use serde_json::{Category, Value};
use std::alloc::Global;

/// The fields of a JSON object (RFC 8259 section 4). Those that nobody asks for are passed over, and one that is `null`
/// is as one that is absent.
pub struct Fields {
    value: Value,
}

impl Drop for Fields {
    fn drop(self) {
        let Fields { value: _ } = self;
    }
}

impl Fields {
    ghost use Rattle.ocm_json.specs.Seen.{data_at, data_in};

    /// Reads a JSON text that is an object. Of two fields with one name the last counts.
    pub fn of(alloc: Global, bytes: &[u8]) -> Result<Fields, JsonFault>
        ensures ok { IfOk result (λ fields. object_of bytes.now ≡ Ok (data_in fields)) }
        ensures err { IfErr result (λ fault. fault ≢ JsonFault.NoMemory → object_of bytes.now ≡ Err fault) }
    {
        match Value::from_slice(alloc, bytes) {
            Ok(value) => {
                if value.is_object() {
                    Ok(Fields { value })
                } else {
                    Err(JsonFault::NotObject)
                }
            }
            Err(e) => match e.classify() {
                Category::Memory => Err(JsonFault::NoMemory),
                _ => Err(JsonFault::NotJson),
            },
        }
    }

    pub(crate) fn of_value(value: Value) -> Fields
        ensures { data_in result ≡ view value }
    {
        Fields { value }
    }

    /// These fields, to look into objects in them with no copy made.
    pub fn borrowed(&self) -> FieldsRef<'_>
        ensures { data_at result ≡ data_in self.now }
    {
        FieldsRef::of_value(&self.value)
    }

    /// The field as a text of `min` to `max` bytes. None where the field is absent or null.
    pub fn text(&self, name: &str, min: usize, max: usize) -> Result<Option<&str>, FieldFault>
        ensures ok { IfOk result (λ text. text_field min max name.now (data_in self.now) ≡ Ok (option_copied text)) }
        ensures err { IfErr result (λ fault. text_field min max name.now (data_in self.now) ≡ Err fault) }
    {
        self.borrowed().text(name, min, max)
    }

    /// The field as `true` or `false`. None where the field is absent or null.
    pub fn flag(&self, name: &str) -> Result<Option<bool>, FieldFault>
        ensures ok { IfOk result (λ flag. flag_field name.now (data_in self.now) ≡ Ok flag) }
        ensures err { IfErr result (λ fault. flag_field name.now (data_in self.now) ≡ Err fault) }
    {
        self.borrowed().flag(name)
    }

    /// The field as a whole number below 2^64. None where the field is absent or null. `1.0`, `-1` and 2^64 are numbers,
    /// but out of range.
    pub fn number(&self, name: &str) -> Result<Option<u64>, FieldFault>
        ensures ok { IfOk result (λ number. number_field name.now (data_in self.now) ≡ Ok number) }
        ensures err { IfErr result (λ fault. number_field name.now (data_in self.now) ≡ Err fault) }
    {
        self.borrowed().number(name)
    }

    /// A copy of the field as an object. None where the field is absent or null.
    pub fn object(&self, name: &str) -> Result<Option<Fields>, JsonFieldFault>
        ensures ok { IfOk result (λ fields. object_field name.now (data_in self.now) ≡ Ok (option_map data_in fields)) }
        ensures err { IfErr result (λ fault. fault ≢ JsonFieldFault.NoMemory → object_field name.now (data_in self.now) ≡ Err fault) }
    {
        let Some(found) = self.borrowed().object(name)? else {
            return Ok(None);
        };
        let fields = found.to_fields()?;
        Ok(Some(fields))
    }

    /// The field as a list of texts. None where the field is absent or null.
    pub fn texts(&self, alloc: Global, name: &str) -> Result<Option<List<Text>>, JsonFieldFault>
        ensures ok { IfOk result (λ texts. texts_field name.now (data_in self.now) ≡ Ok texts) }
        ensures err { IfErr result (λ fault. fault ≢ JsonFieldFault.NoMemory → texts_field name.now (data_in self.now) ≡ Err fault) }
    {
        self.borrowed().texts(alloc, name)
    }

    /// A copy of the field as a list of objects. None where the field is absent or null.
    pub fn objects(&self, alloc: Global, name: &str) -> Result<Option<List<Fields>>, JsonFieldFault>
        ensures ok { IfOk result (λ objects. objects_field name.now (data_in self.now) ≡ Ok (option_map (map data_in) objects)) }
        ensures err { IfErr result (λ fault. fault ≢ JsonFieldFault.NoMemory → objects_field name.now (data_in self.now) ≡ Err fault) }
    {
        let Some(found) = self.borrowed().objects(alloc, name)? else {
            return Ok(None);
        };
        let objects = copies(&found)?;
        Ok(Some(objects))
    }
}
