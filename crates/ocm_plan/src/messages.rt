//! Lists of messages, and a new share with the message that offers it.
ghost use Rattle.std.specs.Prelude.{◌≡◌, ◌<◌, ◌+◌, ◌∷◌, [], IfOk, length};
ghost use Rattle.ocm_limits.specs.Limits.{most_shares};
ghost use Rattle.ocm_letters.specs.Letters.{offered_from};
ghost use Rattle.ocm_letters.specs.Mailings.{changed_to_guests};
ghost use Rattle.ocm_rules.specs.Messages.{at_end};
ghost use Rattle.ocm_rules.specs.State.{view_in};

use ocm_base::{List, NoMemory};
use ocm_chain::{PlannedShare, plan_share};
use ocm_entry::Share;
use ocm_letters::{NewPerms, add_changed, add_unshared, offered};
use ocm_rules::Message;
use ocm_tables::{Steps, Tables};
use ocm_types::Name;
use std::sync::ledger::Ledger;

/// The list of one message.
pub fn one_message(tables: &Tables, message: Message) -> Result<List<Message>, NoMemory>
    ensures { IfOk result (λ sent. sent ≡ message ∷ []) }
{
    let mut sent = List::new(tables.allocator());
    sent.push(message)?;
    Ok(sent)
}

/// A new share, whose owner has this name, and the message that offers it to its guest. There are fewer shares than a server
/// may have.
pub fn offered_share(
    tables: &Tables,
    owner: &Name,
    share: Share,
) -> Result<(PlannedShare, List<Message>), NoMemory>
    requires { length tables.now.state.shares < most_shares }
    ensures share { IfOk result (λ made. made.0 ≡ share) }
    ensures sent { IfOk result (λ made. made.1 ≡ offered_from tables.now.state.host owner.now (length tables.now.state.shares + 1) share ∷ []) }
{
    let id = tables.share_count() + 1;
    let offer = offered(tables.allocator(), tables.host(), owner, id, &share)?;
    let sent = one_message(tables, offer)?;
    let share = plan_share(share)?;
    Ok((share, sent))
}

/// The messages that tell the guests of the shares of these numbers that these end, in order. It takes
/// a step for each of them. A number that no share has gives none.
#[tactic(auto, using(crate::proofs::GuestMessages::more_rules))]
pub fn told_of_ends<L: Ledger>(
    tables: &Tables,
    ids: &List<u32>,
    steps: &mut Steps<L>,
) -> Result<List<Message>, NoMemory>
    ensures { IfOk result (λ sent. sent ≡ at_end (view_in tables.now.state) ids.now) }
{
    let mut sent = List::new(tables.allocator());
    for id in ids.as_slice() {
        let share = tables.share(*id, steps);
        add_unshared(tables.allocator(), *id, share, &mut sent)?;
    }
    Ok(sent)
}

/// The messages that tell each guest what it may do from now on, by the change of this serial, in
/// this order. It takes a step for each of them. A number that no share has gives none.
#[tactic(auto, using(crate::proofs::GuestMessages::more_rules))]
pub fn told_of_perms<L: Ledger>(
    tables: &Tables,
    serial: u32,
    told: &[NewPerms],
    steps: &mut Steps<L>,
) -> Result<List<Message>, NoMemory>
    ensures { IfOk result (λ sent. sent ≡ changed_to_guests (view_in tables.now.state).shares serial told.now) }
{
    let mut sent = List::new(tables.allocator());
    for new in told {
        let share = tables.share(new.id, steps);
        add_changed(tables.allocator(), serial, *new, share, &mut sent)?;
    }
    Ok(sent)
}
