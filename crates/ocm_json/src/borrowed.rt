ghost use Rattle.std.specs.Prelude.{◌≡◌, ◌≢◌, Ok, Err, IfOk, IfErr, map, option_copied, option_map, Some};
ghost use Rattle.serde_json.specs.View.{view};
ghost use Rattle.ocm_json.specs.Json.{object_in};
ghost use Rattle.ocm_json.specs.Fields.{field, text_field, flag_field, number_field};
ghost use Rattle.ocm_json.specs.Nested.{object_field, texts_field, objects_field};

use crate::faults::{FieldFault, JsonFieldFault};
use crate::fields::Fields;
use crate::lists::{objects_among, texts_among};
use ocm_texts::{List, NoMemory, Text};
use serde_json::Value;
use std::alloc::Global;

/// The fields of a JSON object that stands in another value: as [`Fields`], with no copy made of the object.
#[derive(Clone, Copy)]
pub struct FieldsRef<'a> {
    value: &'a Value,
}

impl<'a> FieldsRef<'a> {
    ghost use Rattle.ocm_json.specs.Seen.{data_at, data_in};

    /// The fields of a value that is an object.
    pub(crate) fn of_value(value: &'a Value) -> FieldsRef<'a>
        ensures { data_at result ≡ view value.now }
    {
        FieldsRef { value }
    }

    /// The fields of the value where it is an object.
    pub(crate) fn of(value: &'a Value) -> Option<FieldsRef<'a>>
        ensures { option_map data_at result ≡ object_in (view value.now) }
    {
        if value.is_object() {
            Some(FieldsRef { value })
        } else {
            None
        }
    }

    /// Another value with these fields.
    pub fn to_fields(self) -> Result<Fields, NoMemory>
        ensures { IfOk result (λ fields. data_in fields ≡ data_at self.entry) }
    {
        let value = self.value.clone()?;
        Ok(Fields::of_value(value))
    }

    fn find(self, name: &str) -> Option<&'a Value>
        ensures { option_map (λ found. view found.now) result ≡ field name.now (data_at self.entry) }
    {
        let found = self.value.get(name)?;
        if found.is_null() { None } else { Some(found) }
    }

    /// As [`Fields::text`].
    pub fn text(self, name: &str, min: usize, max: usize) -> Result<Option<&'a str>, FieldFault>
        ensures ok { IfOk result (λ text. text_field min max name.now (data_at self.entry) ≡ Ok (option_copied text)) }
        ensures err { IfErr result (λ fault. text_field min max name.now (data_at self.entry) ≡ Err fault) }
    {
        let Some(found) = self.find(name) else {
            return Ok(None);
        };
        let Some(text) = found.as_str() else {
            return Err(FieldFault::Kind);
        };
        if min <= text.len() && text.len() <= max {
            Ok(Some(text))
        } else {
            Err(FieldFault::Length)
        }
    }

    /// As [`Fields::flag`].
    pub fn flag(self, name: &str) -> Result<Option<bool>, FieldFault>
        ensures ok { IfOk result (λ flag. flag_field name.now (data_at self.entry) ≡ Ok flag) }
        ensures err { IfErr result (λ fault. flag_field name.now (data_at self.entry) ≡ Err fault) }
    {
        let Some(found) = self.find(name) else {
            return Ok(None);
        };
        match found.as_bool() {
            Some(flag) => Ok(Some(flag)),
            None => Err(FieldFault::Kind),
        }
    }

    /// As [`Fields::number`].
    pub fn number(self, name: &str) -> Result<Option<u64>, FieldFault>
        ensures ok { IfOk result (λ number. number_field name.now (data_at self.entry) ≡ Ok number) }
        ensures err { IfErr result (λ fault. number_field name.now (data_at self.entry) ≡ Err fault) }
    {
        let Some(found) = self.find(name) else {
            return Ok(None);
        };
        let Some(number) = found.as_number() else {
            return Err(FieldFault::Kind);
        };
        match number.as_u64() {
            Some(whole) => Ok(Some(whole)),
            None => Err(FieldFault::Range),
        }
    }

    /// As [`Fields::object`], with no copy made of the object and no memory taken.
    pub fn object(self, name: &str) -> Result<Option<FieldsRef<'a>>, JsonFieldFault>
        ensures ok { IfOk result (λ fields. object_field name.now (data_at self.entry) ≡ Ok (option_map data_at fields)) }
        ensures err { IfErr result (λ fault. object_field name.now (data_at self.entry) ≡ Err fault) }
    {
        let Some(found) = self.find(name) else {
            return Ok(None);
        };
        match FieldsRef::of(found) {
            Some(fields) => Ok(Some(fields)),
            None => Err(JsonFieldFault::Kind),
        }
    }

    /// As [`Fields::texts`].
    pub fn texts(self, alloc: Global, name: &str) -> Result<Option<List<Text>>, JsonFieldFault>
        ensures ok { IfOk result (λ texts. texts_field name.now (data_at self.entry) ≡ Ok texts) }
        ensures err { IfErr result (λ fault. fault ≢ JsonFieldFault.NoMemory → texts_field name.now (data_at self.entry) ≡ Err fault) }
    {
        let Some(found) = self.find(name) else {
            return Ok(None);
        };
        let Some(elements) = found.as_array() else {
            return Err(JsonFieldFault::Kind);
        };
        let texts = texts_among(alloc, elements.as_slice())?;
        Ok(Some(texts))
    }

    /// As [`Fields::objects`], with no copy made of the objects.
    pub fn objects(
        self,
        alloc: Global,
        name: &str,
    ) -> Result<Option<List<FieldsRef<'a>>>, JsonFieldFault>
        ensures ok { IfOk result (λ objects. objects_field name.now (data_at self.entry) ≡ Ok (option_map (map data_at) objects)) }
        ensures err { IfErr result (λ fault. fault ≢ JsonFieldFault.NoMemory → objects_field name.now (data_at self.entry) ≡ Err fault) }
    {
        let Some(found) = self.find(name) else {
            return Ok(None);
        };
        let Some(elements) = found.as_array() else {
            return Err(JsonFieldFault::Kind);
        };
        let objects = objects_among(alloc, elements.as_slice())?;
        Ok(Some(objects))
    }
}
