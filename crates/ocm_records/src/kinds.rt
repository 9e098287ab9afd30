//! Fields of a record, each read by its kind.

ghost use Rattle.std.specs.Prelude.{◌≡◌, ◌≤◌, Some, Ok, Err, IfErr, IfOk, codes, option_copied, option_map, map, true};
ghost use Rattle.ocm_json.specs.Seen.{data_at};
ghost use Rattle.ocm_types.specs.Texts.{has_length};
ghost use Rattle.ocm_records.specs.Kinds as kinds;
ghost use Rattle.ocm_records.specs.Kinds.{optional};
ghost use Rattle.ocm_records.specs.Readings as readings;
ghost use Rattle.ocm_records.specs.Notices as notices;
ghost use Rattle.ocm_records.specs.Commands as commands;
ghost use Rattle.ocm_records.specs.Documents as documents;
ghost use Rattle.ocm_records.specs.Rows.{Fails, Gives, required, or_else};
ghost use Rattle.ocm_records.specs.Wanted.{wanted_text};

use crate::faults::{Field, RecordFault};
use ocm_base::{List, Text};
use ocm_json::{FieldFault, FieldsRef, JsonFieldFault};
use ocm_path::{Path, PathFault};
use ocm_types::{
    Address, AddressFault, Name, Perms, ProviderId, Rights, Secret, SenderId, ShareName, TextFault,
};
use std::alloc::Global;

/// The fault of a field that is no text, flag or number as it is wanted.
fn plain_fault(field: Field, fault: FieldFault) -> RecordFault
    ensures { result ≡ kinds.plain_fault field fault }
{
    match fault {
        FieldFault::Kind => RecordFault::Kind(field),
        FieldFault::Length | FieldFault::Range => RecordFault::Value(field),
    }
}

/// The fault of a field that is no object or list as it is wanted.
fn nested_fault(field: Field, fault: JsonFieldFault) -> RecordFault
    ensures { result ≡ kinds.nested_fault field fault }
{
    match fault {
        JsonFieldFault::Kind => RecordFault::Kind(field),
        JsonFieldFault::NoMemory => RecordFault::NoMemory,
    }
}

/// The field as a text. None where it is absent or null.
pub fn text_at(fields: FieldsRef<'_>, field: Field) -> Result<Option<&str>, RecordFault>
    ensures { Gives option_copied result (kinds.text_at (data_at fields.entry) field) }
{
    match fields.text(field.name(), 0, usize::MAX) {
        Ok(text) => Ok(text),
        Err(fault) => Err(plain_fault(field, fault)),
    }
}

/// The field as a whole number. None where it is absent or null.
pub fn number_at(fields: FieldsRef<'_>, field: Field) -> Result<Option<u64>, RecordFault>
    ensures { Gives (λ n. n) result (kinds.number_at (data_at fields.entry) field) }
{
    match fields.number(field.name()) {
        Ok(number) => Ok(number),
        Err(fault) => Err(plain_fault(field, fault)),
    }
}

/// The field as an object. None where it is absent or null.
pub fn object_at(fields: FieldsRef<'_>, field: Field) -> Result<Option<FieldsRef<'_>>, RecordFault>
    ensures { Gives (option_map data_at) result (kinds.object_at (data_at fields.entry) field) }
{
    match fields.object(field.name()) {
        Ok(object) => Ok(object),
        Err(fault) => Err(nested_fault(field, fault)),
    }
}

/// The value of a field that has to be there.
pub fn present<T: Drop>(field: Field, value: Option<T>) -> Result<T, RecordFault>
    ensures { result ≡ or_else (Err (RecordFault.Missing field)) value }
{
    value.ok_or(RecordFault::Missing(field))
}

/// The field as a text, which has to be there.
pub fn text_in(fields: FieldsRef<'_>, field: Field) -> Result<&str, RecordFault>
    ensures ok { IfOk result (λ t. kinds.text_at (data_at fields.entry) field ≡ Ok (Some t.now)) }
    ensures err { IfErr result (λ e. Fails e (wanted_text (data_at fields.entry) field)) }
{
    let text = text_at(fields, field)?;
    present(field, text)
}

/// The value of a text that was read, or the fault that it is a bad value.
fn taken<T: Drop>(field: Field, value: Result<T, TextFault>) -> Result<T, RecordFault>
    ensures { result ≡ readings.taken_text field value }
{
    match value {
        Ok(value) => Ok(value),
        Err(TextFault::Length | TextFault::Char) => Err(RecordFault::Value(field)),
        Err(TextFault::NoMemory) => Err(RecordFault::NoMemory),
    }
}

/// A user's name, which has to be there.
pub fn user_name(alloc: Global, fields: FieldsRef<'_>, field: Field) -> Result<Name, RecordFault>
    ensures { Gives (λ s. s) result (required (data_at fields.entry) field readings.user_name) }
{
    let text = text_in(fields, field)?;
    taken(field, Name::read(alloc, text))
}

/// A share's name, which has to be there.
pub fn share_name(
    alloc: Global,
    fields: FieldsRef<'_>,
    field: Field,
) -> Result<ShareName, RecordFault>
    ensures { Gives (λ s. s) result (required (data_at fields.entry) field readings.share_name) }
{
    let text = text_in(fields, field)?;
    taken(field, ShareName::read(alloc, text))
}

/// A secret, which has to be there.
pub fn secret(alloc: Global, fields: FieldsRef<'_>, field: Field) -> Result<Secret, RecordFault>
    ensures { Gives (λ s. s) result (required (data_at fields.entry) field readings.secret) }
{
    let text = text_in(fields, field)?;
    taken(field, Secret::read(alloc, text))
}

/// An address.
pub fn address(
    alloc: Global,
    fields: FieldsRef<'_>,
    field: Field,
) -> Result<Option<Address>, RecordFault>
    ensures { Gives (λ a. a) result (optional (data_at fields.entry) field readings.address) }
{
    let Some(text) = text_at(fields, field)? else {
        return Ok(None);
    };
    match Address::read(alloc, text) {
        Ok(address) => Ok(Some(address)),
        Err(AddressFault::NoMemory) => Err(RecordFault::NoMemory),
        Err(_) => Err(RecordFault::Value(field)),
    }
}

/// An address, which has to be there.
pub fn some_address(
    alloc: Global,
    fields: FieldsRef<'_>,
    field: Field,
) -> Result<Address, RecordFault>
    ensures { Gives (λ a. a) result (required (data_at fields.entry) field readings.address) }
{
    let address = address(alloc, fields, field)?;
    present(field, address)
}

/// The text of a field, or the decimal of its number. None where it is absent or null.
fn text_or_decimal(
    alloc: Global,
    fields: FieldsRef<'_>,
    field: Field,
) -> Result<Option<Text>, RecordFault>
    ensures { Gives (λ s. s) result (kinds.text_or_decimal_at (data_at fields.entry) field) }
{
    match fields.text(field.name(), 0, usize::MAX) {
        Ok(None) => Ok(None),
        Ok(Some(text)) => {
            let text = Text::of(alloc, text)?;
            Ok(Some(text))
        }
        Err(FieldFault::Kind) => decimal_at(alloc, fields, field),
        Err(FieldFault::Length | FieldFault::Range) => Err(RecordFault::Value(field)),
    }
}

/// The decimal of a number. None where it is absent or null.
fn decimal_at(
    alloc: Global,
    fields: FieldsRef<'_>,
    field: Field,
) -> Result<Option<Text>, RecordFault>
    ensures { Gives (λ s. s) result (kinds.decimal_at (data_at fields.entry) field) }
{
    let Some(number) = number_at(fields, field)? else {
        return Ok(None);
    };
    let text = number.to_string(alloc)?;
    Ok(Some(Text::from_string(text)))
}

/// An owner's mark of a share, which has to be there: a text, or a number in its place.
pub fn provider_id(
    alloc: Global,
    fields: FieldsRef<'_>,
    field: Field,
) -> Result<ProviderId, RecordFault>
    ensures { Gives (λ s. s) result (required (data_at fields.entry) field readings.provider_id) }
{
    let text = text_or_decimal(alloc, fields, field)?;
    let text = present(field, text)?;
    taken(field, ProviderId::read(alloc, text.as_str()))
}

/// A recipient's mark of a request, which has to be there: a text, or a number in its place.
pub fn sender_id(
    alloc: Global,
    fields: FieldsRef<'_>,
    field: Field,
) -> Result<SenderId, RecordFault>
    ensures { Gives (λ s. s) result (required (data_at fields.entry) field readings.sender_id) }
{
    let text = text_or_decimal(alloc, fields, field)?;
    let text = present(field, text)?;
    taken(field, SenderId::read(alloc, text.as_str()))
}

/// An object, which has to be there.
pub fn some_object(fields: FieldsRef<'_>, field: Field) -> Result<FieldsRef<'_>, RecordFault>
    ensures { Gives data_at result (required (data_at fields.entry) field readings.fields_within) }
{
    let object = object_at(fields, field)?;
    present(field, object)
}

/// Whether one of the texts is this word.
fn has_word(word: &str, texts: &[Text]) -> bool
    ensures { result ≡ kinds.has_word word.now texts.now }
{
    texts.iter().any(|text| text.as_str() == word)
}

/// The permissions that texts name, where they name any.
fn granted(texts: &[Text]) -> Option<Perms>
    ensures { result ≡ kinds.granted texts.now }
{
    Perms::of(Rights {
        read: has_word("read", texts),
        write: has_word("write", texts),
        share: has_word("share", texts),
    })
}

/// Permissions.
pub fn perms(
    alloc: Global,
    fields: FieldsRef<'_>,
    field: Field,
) -> Result<Option<Perms>, RecordFault>
    ensures { Gives (λ p. p) result (optional (data_at fields.entry) field readings.perms) }
{
    match fields.texts(alloc, field.name()) {
        Ok(None) => Ok(None),
        Ok(Some(texts)) => match granted(texts.as_slice()) {
            Some(perms) => Ok(Some(perms)),
            None => Err(RecordFault::Value(field)),
        },
        Err(fault) => Err(nested_fault(field, fault)),
    }
}

/// Permissions, which have to be there.
pub fn some_perms(alloc: Global, fields: FieldsRef<'_>, field: Field) -> Result<Perms, RecordFault>
    ensures { Gives (λ p. p) result (required (data_at fields.entry) field readings.perms) }
{
    let perms = perms(alloc, fields, field)?;
    present(field, perms)
}

/// A whole number from `low` to `high`, which has to be there.
pub fn whole(fields: FieldsRef<'_>, field: Field, low: u64, high: u64) -> Result<u64, RecordFault>
    ensures value { Gives (λ n. n) result (required (data_at fields.entry) field (kinds.whole (readings.within low high))) }
    ensures range { IfOk result (λ n. n ≤ high) }
{
    let number = present(field, number_at(fields, field)?)?;
    if low <= number && number <= high {
        Ok(number)
    } else {
        Err(RecordFault::Value(field))
    }
}

/// The number of a share, of a received share or of a request, which has to be there.
pub fn number(fields: FieldsRef<'_>, field: Field) -> Result<u32, RecordFault>
    ensures { Gives (λ n. n) result (required (data_at fields.entry) field readings.number) }
{
    let number = whole(fields, field, 0, 4_294_967_295)?;
    Ok(number as u32)
}

/// The number of a change of permissions, from 1, which has to be there.
pub fn serial(fields: FieldsRef<'_>, field: Field) -> Result<u32, RecordFault>
    ensures { Gives (λ n. n) result (required (data_at fields.entry) field notices.serial) }
{
    let number = whole(fields, field, 1, 4_294_967_295)?;
    Ok(number as u32)
}

/// A moment, in whole seconds since the epoch, below 2^63, which has to be there.
pub fn moment(fields: FieldsRef<'_>, field: Field) -> Result<u64, RecordFault>
    ensures { Gives (λ n. n) result (required (data_at fields.entry) field commands.moment) }
{
    whole(fields, field, 0, 9_223_372_036_854_775_807)
}

/// A path, which has to be there.
pub fn path(alloc: Global, fields: FieldsRef<'_>, field: Field) -> Result<Path, RecordFault>
    ensures { Gives (λ p. p) result (required (data_at fields.entry) field readings.path) }
{
    let text = text_in(fields, field)?;
    match Path::read(alloc, text) {
        Ok(path) => Ok(path),
        Err(PathFault::NoMemory) => Err(RecordFault::NoMemory),
        Err(_) => Err(RecordFault::Value(field)),
    }
}

/// Whether it is so, which has to be there.
pub fn yes_or_no(fields: FieldsRef<'_>, field: Field) -> Result<bool, RecordFault>
    ensures { Gives (λ b. b) result (required (data_at fields.entry) field documents.yes_or_no) }
{
    match fields.flag(field.name()) {
        Ok(flag) => present(field, flag),
        Err(fault) => Err(plain_fault(field, fault)),
    }
}

/// A text of `low` to `high` bytes, which has to be there.
pub fn text_of(
    alloc: Global,
    fields: FieldsRef<'_>,
    field: Field,
    low: usize,
    high: usize,
) -> Result<Text, RecordFault>
    ensures value { Gives (λ s. s) result (required (data_at fields.entry) field (documents.text_of low high)) }
    ensures length { IfOk result (λ s. has_length low high s ≡ true) }
{
    let text = text_in(fields, field)?;
    if low <= text.len() && text.len() <= high {
        let text = Text::of(alloc, text)?;
        Ok(text)
    } else {
        Err(RecordFault::Value(field))
    }
}

/// The path of an interface.
pub fn interface(
    alloc: Global,
    fields: FieldsRef<'_>,
    field: Field,
) -> Result<Option<Text>, RecordFault>
    ensures value { Gives (λ o. o) result (optional (data_at fields.entry) field documents.interface) }
    ensures path { IfOk result (λ o. documents.is_interface o ≡ true) }
{
    let Some(text) = text_at(fields, field)? else {
        return Ok(None);
    };
    if is_root_path(text) {
        let text = Text::of(alloc, text)?;
        Ok(Some(text))
    } else {
        Err(RecordFault::Value(field))
    }
}

/// Whether a text has 1 to 1,024 bytes and begins with `/`.
fn is_root_path(text: &str) -> bool
    ensures { result ≡ documents.is_root_path text.now }
{
    match text.as_bytes() {
        [] => false,
        [first, ..] => text.len() <= 1024 && *first == b'/',
    }
}

/// A list of objects.
pub fn objects_at<'a>(
    alloc: Global,
    fields: FieldsRef<'a>,
    field: Field,
) -> Result<Option<List<FieldsRef<'a>>>, RecordFault>
    ensures { Gives (option_map (map data_at)) result (kinds.objects_at (data_at fields.entry) field) }
{
    match fields.objects(alloc, field.name()) {
        Ok(objects) => Ok(objects),
        Err(fault) => Err(nested_fault(field, fault)),
    }
}
