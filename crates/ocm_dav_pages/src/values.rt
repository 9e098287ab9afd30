//! Bodies of one member, and a list that grows by a value that may be absent.

ghost use Rattle.std.specs.Prelude.{◌≡◌, ◌++◌, false, map, option_map, IfOk, OnOk};
ghost use Rattle.std.specs.Option.{option_to_list};
ghost use Rattle.serde_json.specs.View.{view};
ghost use Rattle.serde_json.specs.Written.{compact_text, has_float};
ghost use Rattle.ocm_dav_pages.specs.Bodies as bodies;

use ocm_base::{Bytes, NoMemory};
use ocm_records::bytes_of;
use serde_json::{Map, Value, push, put};
use std::alloc::Global;

/// The text of an object with one member.
fn one_member(alloc: Global, key: &str, value: Value) -> Result<Bytes, NoMemory>
    ensures { IfOk result (λ text. has_float (view value) ≡ false
        → text ≡ compact_text (bodies.one_member key.now (view value))) }
{
    let mut members = Map::new(alloc);
    put(&mut members, alloc, key, value)?;
    let object = Value::Object(members);
    let text = bytes_of(alloc, &object)?;
    Ok(text)
}

/// The text of an object whose one member is a text.
pub fn one_text(alloc: Global, key: &str, text: &str) -> Result<Bytes, NoMemory>
    ensures { IfOk result (λ body. body ≡ compact_text (bodies.one_text key.now text.now)) }
{
    let value = Value::try_from_str(alloc, text)?;
    let body = one_member(alloc, key, value)?;
    Ok(body)
}

/// The text of an object whose one member is a number.
pub fn one_number(alloc: Global, key: &str, number: u32) -> Result<Bytes, NoMemory>
    ensures { IfOk result (λ body. body ≡ compact_text (bodies.one_number key.now number)) }
{
    let value = Value::from(number);
    let body = one_member(alloc, key, value)?;
    Ok(body)
}

/// Adds a value, where there is one.
pub fn push_if(values: &mut Vec<Value>, value: Option<Value>) -> Result<(), NoMemory>
    ensures { OnOk result (map view values.new.items
        ≡ map view values.old.items ++ option_to_list (option_map view value)) }
{
    if let Some(value) = value {
        push(values, value)?;
    }
    Ok(())
}
