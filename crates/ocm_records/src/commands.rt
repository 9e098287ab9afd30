//! The commands of local users and of the administrator.

ghost use Rattle.std.specs.Prelude.{◌≡◌};
ghost use Rattle.ocm_json.specs.Seen.{data_at};
ghost use Rattle.ocm_records.specs.Commands as commands;
ghost use Rattle.ocm_records.specs.Rows.{Gives, record_of};

use crate::choices::{Command, command_name};
use crate::faults::{Field, RecordFault};
use crate::kinds::{moment, number, path, perms, some_address, some_perms, user_name};
use crate::opening::fields_of;
use crate::values::LocalAsk;
use ocm_entry::Cmd;
use ocm_json::FieldsRef;
use ocm_types::Fresh;
use std::alloc::Global;

/// Reads a local command. A new share's secret is made of the drawn bytes.
pub fn read_local(alloc: Global, bytes: &[u8], fresh: Fresh) -> Result<LocalAsk, RecordFault>
    ensures { Gives (λ a. a) result (record_of (commands.local fresh) bytes.now) }
{
    let fields = fields_of(alloc, bytes)?;
    local(alloc, fields.borrowed(), fresh)
}

#[tactic(auto, unfolding(crate::specs::Commands::local))]
fn local(alloc: Global, fields: FieldsRef<'_>, fresh: Fresh) -> Result<LocalAsk, RecordFault>
    ensures { Gives (λ a. a) result (commands.local fresh (data_at fields.entry)) }
{
    let command = command_name(fields)?;
    asked(alloc, fields, fresh, command)
}

/// The ask of this command.
fn asked(
    alloc: Global,
    fields: FieldsRef<'_>,
    fresh: Fresh,
    command: Command,
) -> Result<LocalAsk, RecordFault>
    ensures { Gives (λ a. a) result (commands.asked fresh (data_at fields.entry) command) }
{
    match command {
        Command::User => user(alloc, fields),
        Command::Share => share(alloc, fields, fresh),
        Command::Unshare => unshare(fields),
        Command::Limit => limit(alloc, fields),
        Command::Expire => expire(fields),
        Command::Accept => accept(fields),
        Command::Decline => decline(fields),
        Command::Reshare => reshare(alloc, fields),
        Command::Undo => undo(fields),
        Command::List => Ok(LocalAsk::Command(Cmd::List)),
    }
}

#[tactic(auto, unfolding(crate::specs::Commands::user))]
fn user(alloc: Global, fields: FieldsRef<'_>) -> Result<LocalAsk, RecordFault>
    ensures { Gives (λ a. a) result (commands.user (data_at fields.entry)) }
{
    let name = user_name(alloc, fields, Field::Name)?;
    Ok(LocalAsk::User(name))
}

#[tactic(auto, unfolding(crate::specs::Commands::share))]
fn share(alloc: Global, fields: FieldsRef<'_>, fresh: Fresh) -> Result<LocalAsk, RecordFault>
    ensures { Gives (λ a. a) result (commands.share fresh (data_at fields.entry)) }
{
    let path = path(alloc, fields, Field::Path)?;
    let with = some_address(alloc, fields, Field::With)?;
    let perms = some_perms(alloc, fields, Field::Permissions)?;
    Ok(LocalAsk::Command(Cmd::Share {
        path,
        with,
        perms,
        fresh,
    }))
}

#[tactic(auto, unfolding(crate::specs::Commands::unshare))]
fn unshare(fields: FieldsRef<'_>) -> Result<LocalAsk, RecordFault>
    ensures { Gives (λ a. a) result (commands.unshare (data_at fields.entry)) }
{
    let id = number(fields, Field::Number)?;
    Ok(LocalAsk::Command(Cmd::Unshare { id }))
}

#[tactic(auto, unfolding(crate::specs::Commands::limit))]
fn limit(alloc: Global, fields: FieldsRef<'_>) -> Result<LocalAsk, RecordFault>
    ensures { Gives (λ a. a) result (commands.limit (data_at fields.entry)) }
{
    let id = number(fields, Field::Number)?;
    let perms = some_perms(alloc, fields, Field::Permissions)?;
    Ok(LocalAsk::Command(Cmd::Limit { id, perms }))
}

#[tactic(auto, unfolding(crate::specs::Commands::expire))]
fn expire(fields: FieldsRef<'_>) -> Result<LocalAsk, RecordFault>
    ensures { Gives (λ a. a) result (commands.expire (data_at fields.entry)) }
{
    let id = number(fields, Field::Number)?;
    let until = moment(fields, Field::Until)?;
    Ok(LocalAsk::Command(Cmd::Expire { id, until }))
}

#[tactic(auto, unfolding(crate::specs::Commands::accept))]
fn accept(fields: FieldsRef<'_>) -> Result<LocalAsk, RecordFault>
    ensures { Gives (λ a. a) result (commands.accept (data_at fields.entry)) }
{
    let number = number(fields, Field::Number)?;
    Ok(LocalAsk::Command(Cmd::Accept { number }))
}

#[tactic(auto, unfolding(crate::specs::Commands::decline))]
fn decline(fields: FieldsRef<'_>) -> Result<LocalAsk, RecordFault>
    ensures { Gives (λ a. a) result (commands.decline (data_at fields.entry)) }
{
    let number = number(fields, Field::Number)?;
    Ok(LocalAsk::Command(Cmd::Decline { number }))
}

#[tactic(auto, unfolding(crate::specs::Commands::reshare))]
fn reshare(alloc: Global, fields: FieldsRef<'_>) -> Result<LocalAsk, RecordFault>
    ensures { Gives (λ a. a) result (commands.reshare (data_at fields.entry)) }
{
    let number = number(fields, Field::Number)?;
    let with = some_address(alloc, fields, Field::With)?;
    let perms = perms(alloc, fields, Field::Permissions)?;
    Ok(LocalAsk::Command(Cmd::Reshare {
        number,
        with,
        perms,
    }))
}

#[tactic(auto, unfolding(crate::specs::Commands::undo))]
fn undo(fields: FieldsRef<'_>) -> Result<LocalAsk, RecordFault>
    ensures { Gives (λ a. a) result (commands.undo (data_at fields.entry)) }
{
    let request = number(fields, Field::Number)?;
    Ok(LocalAsk::Command(Cmd::Undo { request }))
}
