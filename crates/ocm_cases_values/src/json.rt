//! Cases of JSON. Behind the kind stand the field's name and what else it asks for, each with a
//! space, and then the JSON text.

use ocm_base::{List, Text, decimal_read, hex_read};
use ocm_json::{FieldFault, Fields, FieldsRef, JsonFieldFault};
use std::alloc::Global;

/// A field as a whole number.
type Number = Result<Option<u64>, FieldFault>;

/// What a case of JSON comes to.
pub fn json_told(alloc: Global, kind: &str, text: &str) -> Option<String> {
    match kind {
        "open" => open_told(alloc, text.as_bytes()),
        "openhex" => open_hex_told(alloc, text),
        "text" => text_told(alloc, text),
        "inner" => inner_told(alloc, text),
        "copied" => copied_told(alloc, text),
        _ => field_told(alloc, kind, text),
    }
}

/// Whether the bytes are an object, or the fault.
fn open_told(alloc: Global, bytes: &[u8]) -> Option<String> {
    match Fields::of(alloc, bytes) {
        Ok(fields) => {
            drop(fields);
            String::from_str(alloc, "object").ok()
        }
        Err(fault) => format!(in alloc; "{fault:?}").ok(),
    }
}

/// The same for the bytes of hexadecimal digits.
fn open_hex_told(alloc: Global, digits: &str) -> Option<String> {
    match hex_read(alloc, digits) {
        Ok(bytes) => {
            let told = open_told(alloc, bytes.as_slice());
            drop(bytes);
            told
        }
        Err(_) => None,
    }
}

/// `NAME JSON`: the field as one of this kind. Of lists it says how long they are.
fn field_told(alloc: Global, kind: &str, text: &str) -> Option<String> {
    let (name, json) = text.split_once(' ')?;
    match Fields::of(alloc, json.as_bytes()) {
        Ok(fields) => {
            let told = named_told(alloc, kind, &fields, name);
            drop(fields);
            told
        }
        Err(_) => None,
    }
}

fn named_told(alloc: Global, kind: &str, fields: &Fields, name: &str) -> Option<String> {
    match kind {
        "flag" => format!(in alloc; "{:?}", fields.flag(name)).ok(),
        "number" => format!(in alloc; "{:?}", fields.number(name)).ok(),
        "texts" => length_told(alloc, texts_length(fields.texts(alloc, name))),
        "objects" => length_told(alloc, objects_length(fields.objects(alloc, name))),
        _ => String::from_str(alloc, "no such kind").ok(),
    }
}

fn texts_length(
    texts: Result<Option<List<Text>>, JsonFieldFault>,
) -> Result<Option<usize>, JsonFieldFault> {
    match texts {
        Ok(Some(texts)) => Ok(Some(texts.len())),
        Ok(None) => Ok(None),
        Err(fault) => Err(fault),
    }
}

fn objects_length(
    objects: Result<Option<List<Fields>>, JsonFieldFault>,
) -> Result<Option<usize>, JsonFieldFault> {
    match objects {
        Ok(Some(objects)) => Ok(Some(objects.len())),
        Ok(None) => Ok(None),
        Err(fault) => Err(fault),
    }
}

fn length_told(alloc: Global, length: Result<Option<usize>, JsonFieldFault>) -> Option<String> {
    format!(in alloc; "{length:?}").ok()
}

/// `NAME LEAST MOST JSON`: the field as a text of so many bytes.
fn text_told(alloc: Global, text: &str) -> Option<String> {
    let (name, rest) = text.split_once(' ')?;
    let (least, most, json) = bounds_of(rest)?;
    match Fields::of(alloc, json.as_bytes()) {
        Ok(fields) => {
            let told = bounded_told(alloc, &fields, name, least, most);
            drop(fields);
            told
        }
        Err(_) => None,
    }
}

fn bounds_of(text: &str) -> Option<(usize, usize, &str)> {
    let (least, rest) = text.split_once(' ')?;
    let (most, json) = rest.split_once(' ')?;
    let least = decimal_read(least)?;
    let most = decimal_read(most)?;
    Some((least as usize, most as usize, json))
}

fn bounded_told(
    alloc: Global,
    fields: &Fields,
    name: &str,
    least: usize,
    most: usize,
) -> Option<String> {
    format!(in alloc; "{:?}", fields.text(name, least, most)).ok()
}

/// `NAME NAME NAME JSON`: the number in an object in an object, with no copy made.
fn inner_told(alloc: Global, text: &str) -> Option<String> {
    let (outer, rest) = text.split_once(' ')?;
    let (inner, rest) = rest.split_once(' ')?;
    let (name, json) = rest.split_once(' ')?;
    match Fields::of(alloc, json.as_bytes()) {
        Ok(fields) => {
            let number = number_within(fields.borrowed(), outer, inner, name);
            drop(fields);
            number_told(alloc, number)
        }
        Err(_) => None,
    }
}

fn number_within(fields: FieldsRef<'_>, outer: &str, inner: &str, name: &str) -> Option<Number> {
    match fields.object(outer) {
        Ok(Some(outer)) => number_below(outer, inner, name),
        Ok(None) => None,
        Err(_) => None,
    }
}

fn number_below(fields: FieldsRef<'_>, inner: &str, name: &str) -> Option<Number> {
    match fields.object(inner) {
        Ok(Some(inner)) => Some(inner.number(name)),
        Ok(None) => None,
        Err(_) => None,
    }
}

fn number_told(alloc: Global, number: Option<Number>) -> Option<String> {
    format!(in alloc; "{:?}", number?).ok()
}

/// `NAME NAME JSON`: the number in a copy of an object.
fn copied_told(alloc: Global, text: &str) -> Option<String> {
    let (outer, rest) = text.split_once(' ')?;
    let (name, json) = rest.split_once(' ')?;
    match Fields::of(alloc, json.as_bytes()) {
        Ok(fields) => {
            let copy = fields.object(outer);
            drop(fields);
            number_told(alloc, number_in(copy, name))
        }
        Err(_) => None,
    }
}

fn number_in(copy: Result<Option<Fields>, JsonFieldFault>, name: &str) -> Option<Number> {
    match copy {
        Ok(Some(copy)) => Some(copy.number(name)),
        Ok(None) => None,
        Err(_) => None,
    }
}
