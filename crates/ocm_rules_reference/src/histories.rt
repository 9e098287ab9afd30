ghost use Rattle.std.specs.Prelude.{◌≡◌, ◌+◌, ◌++◌, ◌≤◌, IfOk, IsTrue, OnOk, length};
ghost use Rattle.ocm_rules.specs.History.{changes_in, is_change, kept, writes};
ghost use Rattle.ocm_rules.specs.Views.{View};
ghost use Rattle.ocm_rules_reference.specs.Histories.{ArePlain, is_plain};

use ocm_base::{List, NoMemory};
use ocm_entry::{Ask, Cmd, Entry, Method, Reply};
use ocm_types::Host;
use std::alloc::Global;

/// The entries of a history that change something, newest first as they stand there.
#[tactic(auto, using(crate::proofs::Lists::kept_are_plain, crate::proofs::Lists::kept_are_few))]
pub fn kept_of(alloc: Global, host: &Host, history: &[Entry]) -> Result<List<Entry>, NoMemory>
    requires { ArePlain history.now }
    ensures kept { IfOk result (λ entries. entries ≡ kept host.now history.now) }
    ensures plain { IfOk result (λ entries. ArePlain entries) }
    ensures few { IfOk result (λ entries. length entries ≤ length history.now) }
{
    let mut entries = List::new(alloc);
    add_kept(host, &mut entries, history)?;
    Ok(entries)
}

/// Adds the entries of a history that change something.
fn add_kept(host: &Host, entries: &mut List<Entry>, history: &[Entry]) -> Result<(), NoMemory>
    requires { ArePlain history.now }
    ensures { OnOk result (entries.new ≡ entries.old ++ kept host.now history.now) }
{
    match history {
        [] => Ok(()),
        [entry, before @ ..] => {
            if changes_by(&entry.ask, &entry.reply) {
                entries.push(entry.copy()?)?;
            }
            add_kept(host, entries, before)?;
            Ok(())
        }
    }
}

/// Whether an ask that was answered so changes something, whatever is read of the history before.
pub fn changes_by(ask: &Ask, reply: &Reply) -> bool
    requires { IsTrue (is_plain ask.now) }
    ensures { (v : View) → changes_in v ask.now reply.now ≡ result }
{
    match ask {
        Ask::AddUser { .. } => matches!(reply, Reply::Key { .. }),
        Ask::Local { cmd, .. } => match reply {
            Reply::Number { .. } | Reply::Done => is_change(cmd),
            _ => false,
        },
        Ask::Dav { method, .. } => match reply {
            Reply::Created | Reply::Replaced | Reply::Removed => writes(*method),
            _ => false,
        },
        Ask::Offer { .. }
        | Ask::Notice { .. }
        | Ask::Due
        | Ask::Settle { .. }
        | Ask::Tick { .. }
        | Ask::Carry { .. } => unreachable!(),
    }
}

/// Whether a command changes something where it is not refused.
fn is_change(cmd: &Cmd) -> bool
    ensures { result ≡ is_change cmd.now }
{
    match cmd {
        Cmd::List => false,
        _ => true,
    }
}

/// Whether a method changes something where it is not refused.
fn writes(method: Method) -> bool
    ensures { result ≡ writes method }
{
    match method {
        Method::Put | Method::Delete | Method::Mkcol => true,
        Method::Get | Method::Head | Method::List0 | Method::List1 => false,
    }
}
