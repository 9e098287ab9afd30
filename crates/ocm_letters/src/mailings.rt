ghost use Rattle.std.specs.Prelude.{◌≡◌, ◌++◌, OnOk, option_copied, option_map, option_to_list};
ghost use Rattle.ocm_rules.specs.Messages.{unshared, changed};

use crate::shares::{changed, unshared};
use ocm_base::{List, NoMemory};
use ocm_entry::Share;
use ocm_rules::Message;
use ocm_types::Perms;
use std::alloc::Global;

/// What the guest of the share of this number may do from now on.
#[derive(Clone, Copy)]
pub struct NewPerms {
    /// The number of the share.
    pub id: u32,
    pub perms: Perms,
}

/// Adds the message that tells the guest of the share of this number that it ended. Where there is no
/// such share, there is none.
pub fn add_unshared(
    alloc: Global,
    id: u32,
    share: Option<&Share>,
    messages: &mut List<Message>,
) -> Result<(), NoMemory>
    ensures { OnOk result (messages.new ≡ messages.old ++ option_to_list (option_map (unshared id) (option_copied share.entry))) }
{
    if let Some(share) = share {
        messages.push(unshared(alloc, id, share)?)?;
    }
    Ok(())
}

/// Adds the message that tells the guest of a share what it may do from now on, by the change of this
/// serial. Where there is no such share, there is none.
pub fn add_changed(
    alloc: Global,
    serial: u32,
    new: NewPerms,
    share: Option<&Share>,
    messages: &mut List<Message>,
) -> Result<(), NoMemory>
    ensures { OnOk result (messages.new ≡ messages.old ++ option_to_list (option_map (changed serial new.perms new.id) (option_copied share.entry))) }
{
    if let Some(share) = share {
        messages.push(changed(alloc, serial, new.perms, new.id, share)?)?;
    }
    Ok(())
}
