//! JSON values of what several records have, and a JSON value as bytes.

ghost use Rattle.std.specs.Prelude.{◌≡◌, ◌≤◌, ◌++◌, map, option_map, Some, IfOk, OnOk, IsOk, true, false};
ghost use Rattle.serde_json.specs.Data.{string, object, put as with_member};
ghost use Rattle.serde_json.specs.Data.{depth};
ghost use Rattle.serde_json.specs.View.{view, members_view};
ghost use Rattle.serde_json.specs.Written.{compact_text, has_float};
ghost use Rattle.ocm_json.specs.Json.{json_of};
ghost use Rattle.ocm_types.specs.Rights.{is_any, word_if, words_of};
ghost use Rattle.ocm_types.specs.Texts.{has_length};
ghost use Rattle.ocm_records.specs.Kinds.{most_bytes};
ghost use Rattle.ocm_records.specs.Sound.{ReadsAsItself, AddressIf, PermsIf};
ghost use Rattle.ocm_records.specs.Written as written;

use ocm_base::{Bytes, NoMemory};
use ocm_types::laws::address_reads_its_text;
use ocm_types::{Address, Perms};
use serde_json::{Map, Value, push, put};
use std::alloc::{AllocError, Global};

/// The text of a JSON value, with no space in it.
pub fn bytes_of(alloc: Global, value: &Value) -> Result<Bytes, NoMemory>
    ensures text { IfOk result (λ b. has_float (view value.now) ≡ false → b ≡ compact_text (view value.now)) }
    ensures reads_back { IfOk result (λ b. depth (view value.now) ≤ 127 → json_of b ≡ Some (view value.now)) }
{
    let text = value.to_vec(alloc)?;
    Ok(Bytes::from_vec(text).shared()?)
}

/// Adds a word to a list, where it is held.
pub fn push_word(
    alloc: Global,
    words: &mut Vec<Value>,
    held: bool,
    word: &str,
) -> Result<(), AllocError>
    ensures { OnOk result (map view words.new.items
        ≡ map view words.old.items ++ map string (word_if held word.now)) }
{
    if held {
        let value = Value::try_from_str(alloc, word)?;
        push(words, value)?;
    }
    Ok(())
}

/// Adds the words of the rights that are held, in the order read, write, share.
fn push_words(alloc: Global, words: &mut Vec<Value>, perms: Perms) -> Result<(), AllocError>
    ensures words { OnOk result (map view words.new.items ≡ map view words.old.items
        ++ map string (words_of perms)) }
    ensures sound { OnOk result (is_any perms ≡ true) }
{
    let rights = perms.rights();
    push_word(alloc, words, rights.read, "read")?;
    push_word(alloc, words, rights.write, "write")?;
    push_word(alloc, words, rights.share, "share")
}

/// Permissions as the list of their words.
fn perms_value(alloc: Global, perms: Perms) -> Result<Value, NoMemory>
    ensures value { IfOk result (λ v. view v ≡ written.perms_data perms) }
    ensures sound { IfOk result (λ _. is_any perms ≡ true) }
{
    let mut words = Vec::new(alloc);
    push_words(alloc, &mut words, perms)?;
    Ok(Value::Array(words))
}

/// A text in memory has few enough bytes for a record.
fn text_fits(text: &str)
    ensures { has_length 0 most_bytes text.now ≡ true }
{
    let _length = text.len();
}

/// The members as an object, where all were added.
pub fn object_of(
    members: Map<String, Value>,
    added: Result<(), NoMemory>,
) -> Result<Value, NoMemory>
    ensures value { IfOk result (λ v. view v ≡ object (members_view members.entries)) }
    ensures added { OnOk result (IsOk added) }
{
    match added {
        Ok(()) => Ok(Value::Object(members)),
        Err(fault) => {
            drop(members);
            Err(fault)
        }
    }
}

/// Adds an object as a member: these members, where all were added.
pub fn put_object(
    members: &mut Map<String, Value>,
    alloc: Global,
    key: &str,
    inner: Map<String, Value>,
    added: Result<(), NoMemory>,
) -> Result<(), NoMemory>
    ensures members { OnOk result (members_view members.new.entries
        ≡ with_member key.now (object (members_view inner.entries)) (members_view members.old.entries)) }
    ensures added { OnOk result (IsOk added) }
{
    let value = object_of(inner, added)?;
    put(members, alloc, key, value)?;
    Ok(())
}

/// Adds a text as a member.
pub fn put_text(
    members: &mut Map<String, Value>,
    alloc: Global,
    key: &str,
    text: &str,
) -> Result<(), NoMemory>
    ensures { OnOk result (members_view members.new.entries
        ≡ with_member key.now (string text.now) (members_view members.old.entries)) }
{
    let value = Value::try_from_str(alloc, text)?;
    put(members, alloc, key, value)?;
    Ok(())
}

/// Adds a member, where there is a value.
pub fn put_if(
    members: &mut Map<String, Value>,
    alloc: Global,
    key: &str,
    value: Option<Value>,
) -> Result<(), NoMemory>
    ensures { OnOk result (members_view members.new.entries
        ≡ written.put_if key.now (option_map view value) (members_view members.old.entries)) }
{
    if let Some(value) = value {
        put(members, alloc, key, value)?;
    }
    Ok(())
}

/// Adds an address as a member, as its text.
pub fn put_address(
    members: &mut Map<String, Value>,
    alloc: Global,
    key: &str,
    address: &Address,
) -> Result<(), NoMemory>
    ensures members { OnOk result (members_view members.new.entries
        ≡ with_member key.now (written.address_data address.now) (members_view members.old.entries)) }
    ensures sound { OnOk result (ReadsAsItself address.now) }
{
    address_reads_its_text(address);
    let text = address.text(alloc)?;
    text_fits(text.as_str());
    put_text(members, alloc, key, text.as_str())
}

/// Adds an address as a member, where there is one.
pub fn put_address_if(
    members: &mut Map<String, Value>,
    alloc: Global,
    key: &str,
    address: &Option<Address>,
) -> Result<(), NoMemory>
    ensures members { OnOk result (members_view members.new.entries
        ≡ written.put_if key.now (written.data_if written.address_data address.now) (members_view members.old.entries)) }
    ensures sound { OnOk result (AddressIf address.now) }
{
    match address {
        Some(address) => put_address(members, alloc, key, address),
        None => Ok(()),
    }
}

/// Adds permissions as a member, as the list of their words.
pub fn put_perms(
    members: &mut Map<String, Value>,
    alloc: Global,
    key: &str,
    perms: Perms,
) -> Result<(), NoMemory>
    ensures members { OnOk result (members_view members.new.entries
        ≡ with_member key.now (written.perms_data perms) (members_view members.old.entries)) }
    ensures sound { OnOk result (is_any perms ≡ true) }
{
    let words = perms_value(alloc, perms)?;
    put(members, alloc, key, words)?;
    Ok(())
}

/// Adds permissions as a member, where there are any.
pub fn put_perms_if(
    members: &mut Map<String, Value>,
    alloc: Global,
    key: &str,
    perms: Option<Perms>,
) -> Result<(), NoMemory>
    ensures members { OnOk result (members_view members.new.entries
        ≡ written.put_if key.now (written.data_if written.perms_data perms) (members_view members.old.entries)) }
    ensures sound { OnOk result (PermsIf perms) }
{
    match perms {
        Some(perms) => put_perms(members, alloc, key, perms),
        None => Ok(()),
    }
}
