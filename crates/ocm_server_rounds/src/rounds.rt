//! A round of delivery.

ghost use Rattle.std.specs.Prelude.{◌≡◌, ◌≢◌, ◌+◌, ◌<◌, ◌≤◌, ℕ, [], ◌∷◌, ◌++◌, length, min, true, IsTrue};
ghost use Rattle.ocm_pump.specs.Exchanges.{Counts};
ghost use Rattle.ocm_turn.specs.Passes.{BelongsTo};
ghost use Rattle.ocm_server_rounds.specs.Rounds as rounds;
ghost use Rattle.ocm_server_rounds.specs.Rounds.{Delivered, Answers, Rounded, counted, hold, one_if};

use crate::pumped::{Pumped, RoundEnd};
use crate::settling::{ask_node, is_no_memory, try_message};
use ocm_entry::{Ask, Reply};
use ocm_pump::Post;
use ocm_turn::{Dated, Pass, Turnstile};
use ocm_types::Numbered;
use std::alloc::Global;
use std::sync::Wait;

/// A count that stands still at its type's end.
fn count_of(number: usize) -> u32
    ensures { result ≡ counted number }
{
    if number < u32::MAX as usize {
        number as u32
    } else {
        u32::MAX
    }
}

/// The count with one more, where a settlement was made.
fn count_if(count: u32, settled: bool) -> u32
    ensures { result ≡ counted (count + one_if settled) }
{
    if settled {
        count.saturating_add(1)
    } else {
        count
    }
}

fn is_whole(end: RoundEnd) -> bool
    ensures { result ≡ rounds.is_whole end }
{
    match end {
        RoundEnd::Whole => true,
        RoundEnd::Spent => false,
        RoundEnd::NoMemory => false,
    }
}

/// The messages of a reply.
fn messages_of(reply: &Reply) -> &[Numbered]
    ensures { result.now ≡ rounds.messages_of reply.now }
{
    match reply {
        Reply::Due { messages } => messages.as_slice(),
        _ => &[],
    }
}

/// How far messages were delivered.
#[derive(Clone, Copy)]
struct Passed {
    answered: u32,
    end: RoundEnd,
}

/// Delivers messages one after another, up to the first that stops the round.
fn deliver_all<T: Dated, N: Post, R: Wait>(
    rt: &R,
    alloc: Global,
    node: &Turnstile<T>,
    pass: &mut Pass<T>,
    post: &mut N,
    messages: &[Numbered],
) -> Passed
    requires own { BelongsTo node.now pass.old }
    requires below { pass.old.drawn < node.now.limit }
    requires delivers { N.delivers post.old ≡ true }
    ensures delivered { (settled : ℕ) × (result.answered ≡ counted settled)
        × Delivered messages.now (hold pass.old (N.exchanges post.old)) (hold pass.new (N.exchanges post.new)) settled result.end }
    ensures asked { result.end ≡ RoundEnd.Whole → Counts (N.asked post.old) (N.asked post.new) (length messages.now) }
    ensures spent { result.end ≡ RoundEnd.Spent → node.now.limit ≤ pass.new.drawn }
    ensures below { result.end ≢ RoundEnd.Spent → pass.new.drawn < node.now.limit }
    ensures own { BelongsTo node.now pass.new }
    ensures never_falls { N.faults post.old ≤ N.faults post.new }
    ensures kind { N.delivers post.new ≡ N.delivers post.old }
{
    let mut answered = 0;
    for message in messages {
        let trial = try_message(rt, alloc, node, pass, post, message);
        answered = count_if(answered, trial.settled);
        if !is_whole(trial.end) {
            return Passed {
                answered,
                end: trial.end,
            };
        }
    }
    Passed {
        answered,
        end: RoundEnd::Whole,
    }
}

/// What a round comes to by the reply to the question for messages that are due.
fn answer_due<T: Dated, N: Post, R: Wait>(
    rt: &R,
    alloc: Global,
    node: &Turnstile<T>,
    pass: &mut Pass<T>,
    post: &mut N,
    reply: &Reply,
) -> Pumped
    requires own { BelongsTo node.now pass.old }
    requires below { pass.old.drawn < node.now.limit }
    requires delivers { N.delivers post.old ≡ true }
    ensures answers { Answers reply.now (hold pass.old (N.exchanges post.old)) (hold pass.new (N.exchanges post.new)) result }
    ensures asked { result.end ≡ RoundEnd.Whole → (due : ℕ) × (result.tried ≡ counted due) × Counts (N.asked post.old) (N.asked post.new) due }
    ensures spent { result.end ≡ RoundEnd.Spent → node.now.limit ≤ pass.new.drawn }
    ensures below { result.end ≢ RoundEnd.Spent → pass.new.drawn < node.now.limit }
    ensures own { BelongsTo node.now pass.new }
    ensures never_falls { N.faults post.old ≤ N.faults post.new }
    ensures kind { N.delivers post.new ≡ N.delivers post.old }
{
    if is_no_memory(reply) {
        return Pumped {
            tried: 0,
            answered: 0,
            end: RoundEnd::NoMemory,
        };
    }
    let messages = messages_of(reply);
    let passed = deliver_all(rt, alloc, node, pass, post, messages);
    Pumped {
        tried: count_of(messages.len()),
        answered: passed.answered,
        end: passed.end,
    }
}

/// Makes one round of delivery: asks for the messages that are due, goes on with the delivery of each, and settles those to
/// which an answer came. A message without one stays due. The round stops at the turnstile's limit, and where there is no
/// memory. It waits for its turns, and its return is not promised.
pub fn pump_round<T: Dated, N: Post, R: Wait>(
    rt: &R,
    alloc: Global,
    node: &Turnstile<T>,
    pass: &mut Pass<T>,
    post: &mut N,
) -> Pumped
    requires own { BelongsTo node.now pass.old }
    requires delivers { N.delivers post.old ≡ true }
    ensures round { Rounded (hold pass.old (N.exchanges post.old)) (hold pass.new (N.exchanges post.new)) result }
    // The post was asked for each message that was due.
    ensures asked { result.end ≡ RoundEnd.Whole → (due : ℕ) × (result.tried ≡ counted due) × Counts (N.asked post.old) (N.asked post.new) due }
    ensures spent { result.end ≡ RoundEnd.Spent → node.now.limit ≤ pass.new.drawn }
    ensures below { result.end ≢ RoundEnd.Spent → pass.new.drawn < node.now.limit }
    ensures own { BelongsTo node.now pass.new }
    ensures never_falls { N.faults post.old ≤ N.faults post.new }
    ensures kind { N.delivers post.new ≡ N.delivers post.old }
{
    match ask_node(rt, node, pass, Ask::Due) {
        Ok(reply) => answer_due(rt, alloc, node, pass, post, &reply),
        Err(_) => Pumped {
            tried: 0,
            answered: 0,
            end: RoundEnd::Spent,
        },
    }
}
