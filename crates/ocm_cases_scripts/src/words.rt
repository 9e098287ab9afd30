//! The words of what is written, each behind a space but the first.

use ocm_base::{Bytes, NoMemory, hex_of};
use ocm_path::Path;
use ocm_types::{Address, Fresh, Perms};
use std::alloc::Global;

pub fn add_word(told: &mut String, word: &str) -> Result<(), NoMemory> {
    if !told.is_empty() {
        told.push(' ')?;
    }
    told.push_str(word)?;
    Ok(())
}

pub fn add_number(alloc: Global, told: &mut String, number: u64) -> Result<(), NoMemory> {
    let text = number.to_string(alloc)?;
    add_word(told, text.as_str())
}

pub fn add_fresh(alloc: Global, told: &mut String, fresh: Fresh) -> Result<(), NoMemory> {
    let digits = fresh.secret(alloc)?;
    add_word(told, digits.as_str())
}

pub fn add_path(told: &mut String, path: &Path) -> Result<(), NoMemory> {
    let text = path.text()?;
    add_word(told, text.as_str())
}

pub fn add_address(alloc: Global, told: &mut String, address: &Address) -> Result<(), NoMemory> {
    let text = address.text(alloc)?;
    add_word(told, text.as_str())
}

pub fn add_perms(alloc: Global, told: &mut String, perms: Perms) -> Result<(), NoMemory> {
    let text = perms.text(alloc)?;
    add_word(told, text.as_str())
}

pub fn add_digits(alloc: Global, told: &mut String, bytes: &Bytes) -> Result<(), NoMemory> {
    let digits = hex_of(alloc, bytes.as_slice())?;
    add_word(told, digits.as_str())
}
