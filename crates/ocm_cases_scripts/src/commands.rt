use crate::words::{add_address, add_fresh, add_number, add_path, add_perms, add_word};
use ocm_base::NoMemory;
use ocm_entry::Cmd;
use ocm_types::Perms;
use std::alloc::Global;

/// A command and what it names.
pub fn add_command(alloc: Global, told: &mut String, cmd: &Cmd) -> Result<(), NoMemory> {
    match cmd {
        Cmd::Unshare { id } => add_numbered(alloc, told, "unshare", *id),
        Cmd::Accept { number } => add_numbered(alloc, told, "accept", *number),
        Cmd::Decline { number } => add_numbered(alloc, told, "decline", *number),
        Cmd::Undo { request } => add_numbered(alloc, told, "undo", *request),
        Cmd::List => add_word(told, "list"),
        _ => add_longer(alloc, told, cmd),
    }
}

/// The same of a command that names more than a number.
fn add_longer(alloc: Global, told: &mut String, cmd: &Cmd) -> Result<(), NoMemory> {
    match cmd {
        Cmd::Share {
            path,
            with,
            perms,
            fresh,
        } => {
            add_word(told, "share")?;
            add_path(told, path)?;
            add_address(alloc, told, with)?;
            add_perms(alloc, told, *perms)?;
            add_fresh(alloc, told, *fresh)
        }
        Cmd::Limit { id, perms } => {
            add_numbered(alloc, told, "limit", *id)?;
            add_perms(alloc, told, *perms)
        }
        Cmd::Reshare {
            number,
            with,
            perms,
        } => {
            add_numbered(alloc, told, "reshare", *number)?;
            add_address(alloc, told, with)?;
            add_perms_or_dash(alloc, told, *perms)
        }
        Cmd::Expire { id, until } => {
            add_numbered(alloc, told, "expire", *id)?;
            add_number(alloc, told, *until)
        }
        _ => add_word(told, "no such command"),
    }
}

fn add_perms_or_dash(
    alloc: Global,
    told: &mut String,
    perms: Option<Perms>,
) -> Result<(), NoMemory> {
    match perms {
        Some(perms) => add_perms(alloc, told, perms),
        None => add_word(told, "-"),
    }
}

fn add_numbered(
    alloc: Global,
    told: &mut String,
    command: &str,
    number: u32,
) -> Result<(), NoMemory> {
    add_word(told, command)?;
    add_number(alloc, told, number as u64)
}
