//! One message delivered and settled.

ghost use Rattle.std.specs.Prelude.{◌≡◌, ◌≢◌, ◌<◌, ◌≤◌, [], ◌∷◌, true, IfOk, OnOk, OnErr, IsTrue};
ghost use Rattle.ocm_entry.specs.Proper.{is_proper};
ghost use Rattle.ocm_pump.specs.Exchanges.{Counts};
ghost use Rattle.ocm_turn.specs.Calls.{entry};
ghost use Rattle.ocm_turn.specs.Moves.{Moved};
ghost use Rattle.ocm_turn.specs.Passes.{BelongsTo};
ghost use Rattle.ocm_server_rounds.specs.Rounds as rounds;
ghost use Rattle.ocm_server_rounds.specs.Rounds.{Settles, Tried, hold};

use crate::pumped::RoundEnd;
use ocm_entry::{Ask, Reply};
use ocm_pump::{Answered, Post, PumpFault};
use ocm_turn::{Dated, Pass, Spent, Turnstile};
use ocm_types::Numbered;
use std::alloc::Global;
use std::sync::Wait;

/// What came of one message: whether it was settled, and how the round ends where it stops here.
#[derive(Clone, Copy)]
pub(crate) struct Trial {
    pub settled: bool,
    pub end: RoundEnd,
}

/// One call of the object.
pub(crate) fn ask_node<T: Dated, R: Wait>(
    rt: &R,
    node: &Turnstile<T>,
    pass: &mut Pass<T>,
    ask: Ask,
) -> Result<Reply, Spent>
    requires own { BelongsTo node.now pass.old }
    requires proper { IsTrue (is_proper ask) }
    ensures ok { IfOk result (λ reply. Moved pass.old pass.new (entry ask reply ∷ [])) }
    ensures err { OnErr result (Moved pass.old pass.new []) }
    ensures below { OnOk result (pass.new.drawn < node.now.limit) }
    ensures spent { OnErr result (node.now.limit ≤ pass.new.drawn) }
    ensures own { BelongsTo node.now pass.new }
{
    node.call(rt, pass, ask)
}

pub(crate) fn is_no_memory(reply: &Reply) -> bool
    ensures { result ≡ rounds.is_no_memory reply.now }
{
    matches!(reply, Reply::NoMemory)
}

/// The end of a round by the reply to a settlement.
fn end_after(reply: Reply) -> RoundEnd
    ensures { result ≡ rounds.end_after reply }
{
    let none = is_no_memory(&reply);
    drop(reply);
    if none {
        RoundEnd::NoMemory
    } else {
        RoundEnd::Whole
    }
}

/// The end of a round by a delivery that came to no answer.
fn end_by(fault: PumpFault) -> RoundEnd
    ensures { result ≡ rounds.end_by fault }
{
    match fault {
        PumpFault::NoMemory => RoundEnd::NoMemory,
        _ => RoundEnd::Whole,
    }
}

/// Whether a settlement was written, by the reply to it: the disk took it, and there was room and memory for it. An answer
/// that settles nothing needs no more than that.
fn is_written(reply: &Reply) -> bool
    ensures { result ≡ rounds.is_written reply.now }
{
    matches!(reply, Reply::Done | Reply::Left)
}

/// Settles a message by what its delivery answered, and tells the post whether that was written.
fn settle<T: Dated, N: Post, R: Wait>(
    rt: &R,
    node: &Turnstile<T>,
    pass: &mut Pass<T>,
    post: &mut N,
    message: &Numbered,
    answered: Answered,
) -> Trial
    requires own { BelongsTo node.now pass.old }
    ensures settles { Settles message.now answered pass.old pass.new result.settled result.end }
    ensures spent { result.end ≡ RoundEnd.Spent → node.now.limit ≤ pass.new.drawn }
    ensures below { result.end ≢ RoundEnd.Spent → pass.new.drawn < node.now.limit }
    ensures own { BelongsTo node.now pass.new }
    ensures same { (N.exchanges post.new ≡ N.exchanges post.old) × (N.faults post.new ≡ N.faults post.old) × (N.delivers post.new ≡ N.delivers post.old) × (N.asked post.new ≡ N.asked post.old) }
{
    let Answered { status, id } = answered;
    let ask = Ask::Settle {
        number: message.number,
        status,
        id,
    };
    match ask_node(rt, node, pass, ask) {
        Ok(reply) => {
            post.settled(message, is_written(&reply));
            Trial {
                settled: true,
                end: end_after(reply),
            }
        }
        Err(_) => {
            post.settled(message, false);
            Trial {
                settled: false,
                end: RoundEnd::Spent,
            }
        }
    }
}

/// Goes on with the delivery of a message, and settles it by what came back, where an answer came.
pub(crate) fn try_message<T: Dated, N: Post, R: Wait>(
    rt: &R,
    alloc: Global,
    node: &Turnstile<T>,
    pass: &mut Pass<T>,
    post: &mut N,
    message: &Numbered,
) -> Trial
    requires own { BelongsTo node.now pass.old }
    requires below { pass.old.drawn < node.now.limit }
    requires delivers { N.delivers post.old ≡ true }
    ensures tried { Tried message.now (hold pass.old (N.exchanges post.old)) (hold pass.new (N.exchanges post.new)) result.settled result.end }
    ensures asked { Counts (N.asked post.old) (N.asked post.new) 1 }
    ensures spent { result.end ≡ RoundEnd.Spent → node.now.limit ≤ pass.new.drawn }
    ensures below { result.end ≢ RoundEnd.Spent → pass.new.drawn < node.now.limit }
    ensures own { BelongsTo node.now pass.new }
    ensures never_falls { N.faults post.old ≤ N.faults post.new }
    ensures kind { N.delivers post.new ≡ N.delivers post.old }
{
    match post.deliver(alloc, message) {
        Some(Ok(answered)) => settle(rt, node, pass, post, message, answered),
        Some(Err(fault)) => Trial {
            settled: false,
            end: end_by(fault),
        },
        None => Trial {
            settled: false,
            end: RoundEnd::Whole,
        },
    }
}
