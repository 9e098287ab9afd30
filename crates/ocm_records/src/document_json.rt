//! Discovery documents and error bodies as JSON.

ghost use Rattle.std.specs.Prelude.{◌≡◌, IfOk, OnOk, IsTrue, codes, map, option_map};
ghost use Rattle.serde_json.specs.Data.{string, boolean, array, object, item, no_items, no_members, put as with_member, member};
ghost use Rattle.serde_json.specs.View.{view, members_view};
ghost use Rattle.serde_json.specs.Written.{compact_text};
ghost use Rattle.ocm_records.specs.Written as written;
ghost use Rattle.ocm_records.specs.Documents.{discovery, error, is_discovery, is_error};
ghost use Rattle.ocm_records.specs.Rows.{record_of};

use crate::values::{Discovery, ErrorBody, FieldNote};
use crate::writing::{bytes_of, object_of, push_word, put_if, put_object, put_text};
use ocm_base::{Bytes, NoMemory, Text};
use serde_json::{Map, Value, push, put};
use std::alloc::Global;

/// Writes a discovery document (Open Cloud Mesh API 1.1): its keys in the order of their bytes, and no other fields.
pub fn write_discovery(alloc: Global, v: &Discovery) -> Result<Bytes, NoMemory>
    requires { IsTrue (is_discovery v.now) }
    ensures text { IfOk result (λ b. b ≡ compact_text (written.discovery_data v.now)) }
    ensures read_back { IfOk result (λ b. record_of discovery b ≡ Ok v.now) }
{
    let value = discovery_value(alloc, v)?;
    bytes_of(alloc, &value)
}

/// Writes an error body (Open Cloud Mesh API 1.1). Without faulty fields there is no `validationErrors`.
pub fn write_error(alloc: Global, v: &ErrorBody) -> Result<Bytes, NoMemory>
    requires { IsTrue (is_error v.now) }
    ensures text { IfOk result (λ b. b ≡ compact_text (written.error_data v.now)) }
    ensures read_back { IfOk result (λ b. record_of error b ≡ Ok v.now) }
{
    let value = error_value(alloc, v)?;
    bytes_of(alloc, &value)
}

/// Adds whom the files of a resource type are shared with, and how they are reached.
fn put_files(members: &mut Map<String, Value>, alloc: Global, path: &str) -> Result<(), NoMemory>
    ensures { OnOk result (members_view members.new.entries
        ≡ with_member (codes "name") (string (codes "file"))
        (with_member (codes "protocols") (object (member (codes "webdav") (string path.now) no_members))
        (with_member (codes "shareTypes") (array (item (string (codes "user")) no_items))
        (members_view members.old.entries)))) }
{
    let mut users = Vec::new(alloc);
    push_word(alloc, &mut users, true, "user")?;
    put(members, alloc, "shareTypes", Value::Array(users))?;
    let mut protocols = Map::new(alloc);
    let added = put_text(&mut protocols, alloc, "webdav", path);
    put_object(members, alloc, "protocols", protocols, added)?;
    put_text(members, alloc, "name", "file")
}

/// The resource type of files by WebDAV at a path.
fn files_value(alloc: Global, path: &str) -> Result<Value, NoMemory>
    ensures { IfOk result (λ v. view v ≡ written.files_data path.now) }
{
    let mut members = Map::new(alloc);
    let added = put_files(&mut members, alloc, path);
    object_of(members, added)
}

/// The resource types: files by WebDAV, or none.
fn types_value(alloc: Global, webdav: &Option<Text>) -> Result<Value, NoMemory>
    ensures { IfOk result (λ v. view v ≡ written.types_data webdav.now) }
{
    match webdav {
        Some(path) => {
            let files = files_value(alloc, path.as_str())?;
            let mut types = Vec::new(alloc);
            push(&mut types, files)?;
            Ok(Value::Array(types))
        }
        None => Ok(Value::Array(Vec::new(alloc))),
    }
}

/// Adds what a server says of itself. The members are added from the last key on.
fn put_discovery(
    members: &mut Map<String, Value>,
    alloc: Global,
    v: &Discovery,
) -> Result<(), NoMemory>
    ensures { OnOk result (members_view members.new.entries
        ≡ with_member (codes "apiVersion") (string v.now.version)
        (with_member (codes "enabled") (boolean v.now.enabled)
        (with_member (codes "endPoint") (string v.now.end_point)
        (with_member (codes "resourceTypes") (written.types_data v.now.webdav)
        (members_view members.old.entries))))) }
{
    let types = types_value(alloc, &v.webdav)?;
    put(members, alloc, "resourceTypes", types)?;
    put_text(members, alloc, "endPoint", v.end_point.as_str())?;
    put(members, alloc, "enabled", Value::Bool(v.enabled))?;
    put_text(members, alloc, "apiVersion", v.version.as_str())
}

fn discovery_value(alloc: Global, v: &Discovery) -> Result<Value, NoMemory>
    ensures { IfOk result (λ value. view value ≡ written.discovery_data v.now) }
{
    let mut members = Map::new(alloc);
    let added = put_discovery(&mut members, alloc, v);
    object_of(members, added)
}

/// Adds what was wrong with a field.
fn put_note(members: &mut Map<String, Value>, alloc: Global, v: &FieldNote) -> Result<(), NoMemory>
    ensures { OnOk result (members_view members.new.entries
        ≡ with_member (codes "message") (string v.now.message)
        (with_member (codes "name") (string v.now.name) (members_view members.old.entries))) }
{
    put_text(members, alloc, "name", v.name.as_str())?;
    put_text(members, alloc, "message", v.message.as_str())
}

fn note_value(alloc: Global, v: &FieldNote) -> Result<Value, NoMemory>
    ensures { IfOk result (λ value. view value ≡ written.note_data v.now) }
{
    let mut members = Map::new(alloc);
    let added = put_note(&mut members, alloc, v);
    object_of(members, added)
}
/// Each note, in order.
fn note_values(alloc: Global, notes: &[FieldNote]) -> Result<Vec<Value>, NoMemory>
    ensures { IfOk result (λ made. map view made.items ≡ map written.note_data notes.now) }
{
    let mut made = Vec::new(alloc);
    for note in notes {
        let value = note_value(alloc, note)?;
        made.push(value)?;
    }
    Ok(made)
}

/// The notes, where there are any.
fn notes_value(alloc: Global, notes: &[FieldNote]) -> Result<Option<Value>, NoMemory>
    ensures { IfOk result (λ o. option_map view o ≡ written.notes_data notes.now) }
{
    if notes.is_empty() {
        return Ok(None);
    }
    let made = note_values(alloc, notes)?;
    Ok(Some(Value::Array(made)))
}

/// Adds why a server refused a request. The members are added from the last key on.
fn put_error(members: &mut Map<String, Value>, alloc: Global, v: &ErrorBody) -> Result<(), NoMemory>
    ensures { OnOk result (members_view members.new.entries
        ≡ with_member (codes "message") (string v.now.message)
        (written.put_if (codes "validationErrors") (written.notes_data v.now.errors)
        (members_view members.old.entries))) }
{
    let notes = notes_value(alloc, v.errors.as_slice())?;
    put_if(members, alloc, "validationErrors", notes)?;
    put_text(members, alloc, "message", v.message.as_str())
}

fn error_value(alloc: Global, v: &ErrorBody) -> Result<Value, NoMemory>
    ensures { IfOk result (λ value. view value ≡ written.error_data v.now) }
{
    let mut members = Map::new(alloc);
    let added = put_error(&mut members, alloc, v);
    object_of(members, added)
}
