//! Discovery documents and error bodies (Open Cloud Mesh API 1.1).

ghost use Rattle.std.specs.Prelude.{◌≡◌, IfOk, IsTrue, find, map, option_map, true};
ghost use Rattle.std.specs.List.{list_all};
ghost use Rattle.ocm_json.specs.Seen.{data_at};
ghost use Rattle.ocm_records.specs.Documents as documents;
ghost use Rattle.ocm_records.specs.Rows.{Gives, record_of};

use crate::faults::{Field, RecordFault};
use crate::kinds::{interface, object_at, objects_at, present, text_of, yes_or_no};
use crate::opening::fields_of;
use crate::values::{Discovery, ErrorBody, FieldNote};
use ocm_base::{List, Text};
use ocm_json::FieldsRef;
use std::alloc::Global;

/// Reads a discovery document (Open Cloud Mesh API 1.1). Of the resource types the first that is named `file` counts.
pub fn read_discovery(alloc: Global, bytes: &[u8]) -> Result<Discovery, RecordFault>
    ensures exact { Gives (λ d. d) result (record_of documents.discovery bytes.now) }
    ensures sound { IfOk result (λ d. IsTrue (documents.is_discovery d)) }
{
    let fields = fields_of(alloc, bytes)?;
    discovery(alloc, fields.borrowed())
}

/// Reads an error body (Open Cloud Mesh API 1.1).
pub fn read_error(alloc: Global, bytes: &[u8]) -> Result<ErrorBody, RecordFault>
    ensures exact { Gives (λ e. e) result (record_of documents.error bytes.now) }
    ensures sound { IfOk result (λ e. IsTrue (documents.is_error e)) }
{
    let fields = fields_of(alloc, bytes)?;
    error(alloc, fields.borrowed())
}

#[tactic(auto, unfolding(crate::specs::Documents::discovery))]
fn discovery(alloc: Global, fields: FieldsRef<'_>) -> Result<Discovery, RecordFault>
    ensures exact { Gives (λ d. d) result (documents.discovery (data_at fields.entry)) }
    ensures sound { IfOk result (λ d. documents.is_discovery d ≡ true) }
{
    let enabled = yes_or_no(fields, Field::Enabled)?;
    let version = text_of(alloc, fields, Field::ApiVersion, 1, 64)?;
    let end_point = text_of(alloc, fields, Field::EndPoint, 1, 1024)?;
    let webdav = webdav_among(alloc, fields)?;
    Ok(Discovery {
        enabled,
        version,
        end_point,
        webdav,
    })
}

/// The path of the interface for files, from the resource types.
#[tactic(auto, unfolding(crate::specs::Documents::webdav_among))]
fn webdav_among(alloc: Global, fields: FieldsRef<'_>) -> Result<Option<Text>, RecordFault>
    ensures exact { Gives (λ o. o) result (documents.webdav_among (data_at fields.entry)) }
    ensures path { IfOk result (λ o. documents.is_interface o ≡ true) }
{
    let types = objects_at(alloc, fields, Field::ResourceTypes)?;
    let types = present(Field::ResourceTypes, types)?;
    webdav_in(alloc, files_among(types.as_slice()))
}

/// Whether a resource type is that of files.
fn is_files(fields: FieldsRef<'_>) -> bool
    ensures { result ≡ documents.is_files (data_at fields.entry) }
{
    match fields.text(Field::Name.name(), 0, usize::MAX) {
        Ok(Some(name)) => name == "file",
        Ok(None) | Err(_) => false,
    }
}

/// The first resource type that is that of files.
fn files_among<'a>(types: &[FieldsRef<'a>]) -> Option<FieldsRef<'a>>
    ensures { option_map data_at result ≡ find documents.is_files (map data_at types.now) }
{
    for fields in types {
        if is_files(*fields) {
            return Some(*fields);
        }
    }
    None
}

/// The path of the interface for files.
fn webdav_in(alloc: Global, files: Option<FieldsRef<'_>>) -> Result<Option<Text>, RecordFault>
    ensures exact { Gives (λ o. o) result (documents.webdav_in (option_map data_at files.entry)) }
    ensures path { IfOk result (λ o. documents.is_interface o ≡ true) }
{
    let Some(files) = files else {
        return Ok(None);
    };
    match object_at(files, Field::Protocols)? {
        Some(protocols) => interface(alloc, protocols, Field::Webdav),
        None => Ok(None),
    }
}

#[tactic(auto, unfolding(crate::specs::Documents::error))]
fn error(alloc: Global, fields: FieldsRef<'_>) -> Result<ErrorBody, RecordFault>
    ensures exact { Gives (λ e. e) result (documents.error (data_at fields.entry)) }
    ensures sound { IfOk result (λ e. documents.is_error e ≡ true) }
{
    let message = text_of(alloc, fields, Field::Message, 0, 1024)?;
    let objects = objects_at(alloc, fields, Field::ValidationErrors)?;
    let errors = notes_of(alloc, objects)?;
    Ok(ErrorBody { message, errors })
}

/// What was wrong with each field, where there are such.
fn notes_of(
    alloc: Global,
    objects: Option<List<FieldsRef<'_>>>,
) -> Result<List<FieldNote>, RecordFault>
    ensures exact { Gives (λ ns. ns) result (documents.notes_of (option_map (map data_at) objects.entry)) }
    ensures sound { IfOk result (λ ns. list_all documents.is_note ns ≡ true) }
{
    match objects {
        Some(objects) => notes(alloc, objects.as_slice()),
        None => Ok(List::new(alloc)),
    }
}

/// What was wrong with each field.
#[tactic(auto, unfolding(crate::specs::Documents::notes))]
fn notes(alloc: Global, objects: &[FieldsRef<'_>]) -> Result<List<FieldNote>, RecordFault>
    ensures exact { Gives (λ ns. ns) result (documents.notes (map data_at objects.now)) }
    ensures sound { IfOk result (λ ns. list_all documents.is_note ns ≡ true) }
{
    let mut made = List::new(alloc);
    for object in objects {
        let read = note(alloc, *object)?;
        made.push(read)?;
    }
    Ok(made)
}

/// What was wrong with a field.
#[tactic(auto, unfolding(crate::specs::Documents::note))]
fn note(alloc: Global, fields: FieldsRef<'_>) -> Result<FieldNote, RecordFault>
    ensures exact { Gives (λ n. n) result (documents.note (data_at fields.entry)) }
    ensures sound { IfOk result (λ n. documents.is_note n ≡ true) }
{
    let message = text_of(alloc, fields, Field::Message, 0, 1024)?;
    let name = text_of(alloc, fields, Field::Name, 0, 1024)?;
    Ok(FieldNote { message, name })
}
